//! Elements before anybody looked whether they are whole.
ghost use Rattle.std.specs.Prelude.{◌≡◌, ◌≤◌, IfSome, IfNone, List, true, false};
ghost use Rattle.message_tree.specs.Data.{Data, Items, depth, dict, list, no_entries, no_items, text, whole};
ghost use Rattle.msgpack_codec.specs.Grammar.{Spells};
ghost use Rattle.msgpack_cursor.specs.Standing.{is_whole};
ghost use Rattle.msgpack_cursor.specs.Unread.{HasNone, StandsBefore};

use crate::front::{first_value, whole_at};
use crate::value::Value;
use msgpack_canonical::first_text;
use msgpack_codec::{Token, first_token};
use std::marker::Model;

/// How many levels an element of a message nests at most.
const ROOM: u8 = 99;

/// The least spelling of a dictionary without entries.
const EMPTY_DICT: u8 = 0x80;

/// The elements of a message that aren't read yet. Whether each is there is looked at when it is
/// read: a message that is read to its end is passed over once. Contracts see what is read of
/// them, and whether they are whole: each is there, and no octet stands behind the last.
#[derive(Drop)]
pub struct Unread<'a> {
    octets: &'a [u8],
    left: u64,
}

impl<'a> Model for Unread<'a> {
    ghost use Rattle.msgpack_cursor.specs.Standing.{items_in, is_whole};
    ghost use Rattle.msgpack_cursor.specs.Unread.{Rest, rest_code};

    ghost Value = { Rest };

    ghost coded = { rest_code };

    ghost view = { λ u. record {
      items = items_in 99 u.left u.octets.now;
      is_whole = is_whole 99 u.left u.octets.now;
    } };
}

impl<'a> Unread<'a> {
    /// The elements of a message; `None` where the octets don't begin with the head of a list.
    pub fn of(octets: &'a [u8]) -> Option<Unread<'a>>
        ensures whole { IfSome result (λ u. u.is_whole ≡ true
            → Spells 100 octets.entry.now (list u.items)) }
        ensures spelled { IfSome result (λ u. (d : Data) → Spells 100 octets.entry.now d
            → (u.is_whole ≡ true) × (d ≡ list u.items)) }
        ensures none { IfNone result ((ds : Items) → Spells 100 octets.entry.now (list ds) → ⊥) }
    {
        let Ok((token, rest)) = first_token(octets) else {
            return None;
        };
        match token {
            Token::List(left) => Some(Unread { octets: rest, left }),
            _ => None,
        }
    }

    /// The next element.
    #[inline(always)]
    pub fn value(&mut self) -> Option<Value<'a>>
        ensures some { IfSome result (λ v. StandsBefore v self.new self.old) }
        ensures bounded { IfSome result (λ v. depth v ≤ 99) }
        ensures none { IfNone result (self.old.is_whole ≡ true → self.old.items ≡ no_items) }
    {
        if self.left == 0 {
            return None;
        }
        let Some((value, rest)) = first_value(self.octets, ROOM) else {
            return None;
        };
        self.octets = rest;
        self.left -= 1;
        Some(value)
    }

    /// The next element, a whole number.
    #[inline(always)]
    pub fn whole(&mut self) -> Option<i128>
        ensures some { IfSome result (λ z. StandsBefore (whole z) self.new self.old) }
        ensures none { IfNone result (HasNone whole self.old) }
    {
        if self.left == 0 {
            return None;
        }
        let Some((number, rest)) = whole_at(self.octets) else {
            return None;
        };
        self.octets = rest;
        self.left -= 1;
        Some(number)
    }

    /// The next element, a text.
    #[inline(always)]
    pub fn text(&mut self) -> Option<&'a str>
        ensures some { IfSome result (λ s. StandsBefore (text s.now) self.new self.old) }
        ensures none { IfNone result (HasNone text self.old) }
    {
        if self.left == 0 {
            return None;
        }
        let Some((text, rest)) = first_text(self.octets) else {
            return None;
        };
        self.octets = rest;
        self.left -= 1;
        Some(text)
    }

    /// Passes over the next element where it is a dictionary without entries that is spelled in one
    /// octet, and says whether it is; otherwise nothing is changed.
    pub fn pass_empty_dict(&mut self) -> bool
        ensures passed { result ≡ true → StandsBefore (dict no_entries) self.new self.old }
        ensures kept { result ≡ false → self.new ≡ self.old }
    {
        if self.left == 0 {
            return false;
        }
        let Some((first, rest)) = self.octets.split_first() else {
            return false;
        };
        if *first != EMPTY_DICT {
            return false;
        }
        self.octets = rest;
        self.left -= 1;
        true
    }

    /// Whether nothing is left: no element, and no octet.
    pub fn is_end(&self) -> bool
        ensures end { result ≡ true → (self.now.is_whole ≡ true) × (self.now.items ≡ no_items) }
        ensures more { self.now.is_whole ≡ true → self.now.items ≡ no_items → result ≡ true }
    {
        self.left == 0 && self.octets.is_empty()
    }

    /// Whether what is left is whole. It is passed over.
    pub fn is_whole(self) -> bool
        ensures { result ≡ self.entry.is_whole }
    {
        are_values(self.octets, self.left)
    }
}

/// Whether octets are so many values, and nothing more.
fn are_values(octets: &[u8], count: u64) -> bool
    ensures { result ≡ is_whole 99 count octets.now }
{
    let mut rest = octets;
    for _ in 0..count {
        let Some((_value, next)) = first_value(rest, ROOM) else {
            return false;
        };
        rest = next;
    }
    rest.is_empty()
}
