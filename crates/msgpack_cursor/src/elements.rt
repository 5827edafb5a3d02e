//! The elements of a list.
ghost use Rattle.std.specs.Prelude.{◌≡◌, MatchOption};
ghost use Rattle.message_tree.specs.Data.{item, no_items};

use crate::front::first_value;
use crate::value::Value;
use std::marker::Model;

/// The elements of a list that aren't read yet. Contracts see their data.
#[derive(Drop)]
pub struct Elements<'a> {
    pub(crate) octets: &'a [u8],
    pub(crate) left: u64,
    pub(crate) room: u8,
}

impl<'a> Model for Elements<'a> {
    ghost use Rattle.std.specs.Prelude.{◌≤◌};
    ghost use Rattle.message_tree.specs.Data.{Items};
    ghost use Rattle.message_tree.specs.Code.{items_code};
    ghost use Rattle.msgpack_cursor.specs.Standing.{items_in, AreThere};

    ghost Value = { Items };

    ghost coded = { items_code };

    ghost view = { λ e. items_in e.room e.left e.octets.now };

    ghost invariant = { λ e. AreThere e.room e.left e.octets.now × (e.room ≤ 100) };
}

impl<'a> Elements<'a> {
    /// The next element.
    pub fn next(&mut self) -> Option<Value<'a>>
        ensures { MatchOption result ((self.old ≡ no_items) × (self.new ≡ no_items))
            (λ v. self.old ≡ item v self.new) }
    {
        if self.left == 0 {
            return None;
        }
        let Some((value, rest)) = first_value(self.octets, self.room) else {
            unreachable!()
        };
        self.octets = rest;
        self.left -= 1;
        Some(value)
    }
}
