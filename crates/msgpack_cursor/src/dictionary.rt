//! The entries of a dictionary.
ghost use Rattle.std.specs.Prelude.{◌≡◌, ◌≤◌, ◌↔◌, ℕ, List, Ok, true};
ghost use Rattle.message_tree.specs.Data.{Data, Entries, find_entry, no_entries, put};
ghost use Rattle.msgpack_cursor.specs.Entries.{put_all};
ghost use Rattle.msgpack_cursor.specs.Standing.{dict_in};
ghost use Rattle.msgpack_cursor.specs.body.Fronts.{IsMap};

use crate::entries::{DictionaryEntries, entry_at};
use crate::value::Value;
use std::marker::Model;

/// A dictionary. Contracts see its entries: each key once, with the last value that it was given.
#[derive(Drop)]
pub struct Dictionary<'a> {
    pub(crate) octets: &'a [u8],
    pub(crate) count: u64,
    pub(crate) room: u8,
}

impl<'a> Model for Dictionary<'a> {
    ghost use Rattle.std.specs.Prelude.{◌≤◌};
    ghost use Rattle.message_tree.specs.Data.{Entries};
    ghost use Rattle.message_tree.specs.Code.{entries_code};
    ghost use Rattle.msgpack_cursor.specs.Standing.{entries_in, IsDictionary};

    ghost Value = { Entries };

    ghost coded = { entries_code };

    ghost view = { λ d. entries_in d.room d.count d.octets.now };

    ghost invariant = { λ d. IsDictionary d.room d.count d.octets.now × (d.room ≤ 100) };
}

impl<'a> Dictionary<'a> {
    /// Whether it has no entries.
    pub fn is_empty(&self) -> bool
        ensures { result ≡ true ↔ self.now ≡ no_entries }
    {
        self.count == 0
    }

    /// The value at a key, where there is one. It looks at each entry.
    pub fn get(&self, key: &str) -> Option<Value<'a>>
        ensures { result ≡ find_entry key.now self.now }
    {
        let mut found = None;
        let mut entries = self.entries();
        while let Some(entry) = entries.next() {
            found = latest(found, entry, key);
        }
        found
    }

    /// The entries, in the order in which they stand: put into none one after another, they make
    /// the dictionary.
    pub fn entries(&self) -> DictionaryEntries<'a>
        ensures { put_all result no_entries ≡ self.now }
    {
        DictionaryEntries {
            octets: self.octets,
            left: self.count,
            room: self.room,
        }
    }
}

/// Whether each of so many keys is a text.
pub(crate) fn are_keys_texts(octets: &[u8], count: u64, room: u8) -> bool
    requires { room ≤ 100 }
    ensures { (d : Data) (rest : List ℕ) → dict_in room count octets.now ≡ Ok (d, rest)
        → IsMap result d }
{
    let mut rest = octets;
    for _ in 0..count {
        let Some(entry) = entry_at(rest, room) else {
            return false;
        };
        rest = entry.rest;
    }
    true
}

/// The value at a key, with one more entry behind those among which it was found.
fn latest<'a>(found: Option<Value<'a>>, entry: (&'a str, Value<'a>), key: &str) -> Option<Value<'a>>
    ensures { (es : Entries) → found.entry ≡ find_entry key.now es
        → result ≡ find_entry key.now (put entry.entry.0.now entry.entry.1 es) }
{
    let (other, value) = entry;
    if other == key { Some(value) } else { found }
}
