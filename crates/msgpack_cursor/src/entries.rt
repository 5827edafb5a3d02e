//! The entries of a dictionary, one after another.
ghost use Rattle.std.specs.Prelude.{◌≡◌, ◌≤◌, ◌∷◌, [], IfSome, IfNone, MatchOption};
ghost use Rattle.msgpack_codec.specs.body.Decoder.{value_at};
ghost use Rattle.msgpack_cursor.specs.body.Fronts.{IsEntry, IsNoEntry};

use crate::front::first_value;
use crate::value::Value;
use msgpack_canonical::first_text;
use std::marker::Model;

/// The entries of a dictionary that aren't read yet, in the order in which they stand: a key that
/// was given several values comes with each of them. Contracts see the keys, each with its data.
#[derive(Drop)]
pub struct DictionaryEntries<'a> {
    pub(crate) octets: &'a [u8],
    pub(crate) left: u64,
    pub(crate) room: u8,
}

impl<'a> Model for DictionaryEntries<'a> {
    ghost use Rattle.std.specs.Prelude.{◌≤◌, List};
    ghost use Rattle.msgpack_cursor.specs.Entries.{Pair, pairs_code, pairs_in, ArePairs};

    ghost Value = { List Pair };

    ghost coded = { pairs_code };

    ghost view = { λ e. pairs_in e.room e.left e.octets.now };

    ghost invariant = { λ e. ArePairs e.room e.left e.octets.now × (e.room ≤ 100) };
}

impl<'a> DictionaryEntries<'a> {
    /// The next key, and its value.
    pub fn next(&mut self) -> Option<(&'a str, Value<'a>)>
        ensures { MatchOption result ((self.old ≡ []) × (self.new ≡ []))
            (λ pair. self.old ≡ (pair.0.now, pair.1) ∷ self.new) }
    {
        if self.left == 0 {
            return None;
        }
        let Some(entry) = entry_at(self.octets, self.room) else {
            unreachable!()
        };
        self.octets = entry.rest;
        self.left -= 1;
        Some((entry.key, entry.value))
    }
}

/// A key and its value, and the octets after them.
#[derive(Drop)]
pub(crate) struct CursorEntry<'a> {
    pub(crate) key: &'a str,
    pub(crate) value: Value<'a>,
    pub(crate) rest: &'a [u8],
}

/// The key at the front and the value behind it; `None` where the key is no text, or one is missing.
pub(crate) fn entry_at(octets: &[u8], room: u8) -> Option<CursorEntry<'_>>
    requires { room ≤ 100 }
    ensures some { IfSome result (λ e.
        IsEntry (value_at room) octets.now e.key.now e.value e.rest.now) }
    ensures none { IfNone result (IsNoEntry (value_at room) octets.now) }
{
    let Some((key, rest)) = first_text(octets) else {
        return None;
    };
    let Some((value, rest)) = first_value(rest, room) else {
        return None;
    };
    Some(CursorEntry { key, value, rest })
}
