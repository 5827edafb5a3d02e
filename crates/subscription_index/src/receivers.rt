//! The receivers of a topic, as a search finds them.
ghost use Rattle.std.specs.Prelude.{◌≡◌, ◌==◌, ◌<◌, ◌^◌, [], get_or, length, map};
ghost use Rattle.subscription_index.specs.body.Receivers.{receiver_by};

use crate::receiver::Receiver;
use std::alloc::Global;
use std::marker::Model;
use wamp_ids::{Conn, Id};

/// What a search found: the holders of one pattern where the index keeps them, or a list.
#[derive(Drop)]
pub(crate) enum Found<'a> {
    One {
        conns: &'a [Conn],
        number: Id,
        names_topic: bool,
    },
    Several(Vec<Receiver>),
}

/// Who is to receive what is published to a topic: each subscription whose pattern matches, once,
/// ascending by connection and then by number. Contracts see a list of them. Where one pattern
/// matches, as mostly, they take no memory of their own.
#[derive(Drop)]
pub struct Receivers<'a> {
    found: Found<'a>,
}

impl<'a> Model for Receivers<'a> {
    ghost use Rattle.std.specs.Prelude.{List};
    ghost use Rattle.subscription_index.specs.declared.receiver.Receiver.{Receiver};
    ghost use Rattle.subscription_index.specs.body.Receivers.{list_of};

    ghost Value = { List Receiver };

    ghost view = { λ r. list_of r.found };
}

impl<'a> Receivers<'a> {
    /// Nobody.
    pub(crate) fn none(alloc: Global) -> Receivers<'a>
        ensures { result ≡ [] }
    {
        Receivers::listed(Vec::new(alloc))
    }

    /// The connections, which hold the pattern of the number.
    pub(crate) fn of_one(conns: &'a [Conn], number: Id, names_topic: bool) -> Receivers<'a>
        ensures { result ≡ map (λ c. receiver_by (λ n. names_topic) (c, number)) conns.now }
    {
        Receivers {
            found: Found::One {
                conns,
                number,
                names_topic,
            },
        }
    }

    /// These.
    pub(crate) fn listed(receivers: Vec<Receiver>) -> Receivers<'a>
        ensures { result ≡ receivers.items }
    {
        Receivers {
            found: Found::Several(receivers),
        }
    }

    /// How many there are.
    pub fn len(&self) -> usize
        ensures count { result ≡ length self.now }
        ensures few { result < 2 ^ 63 }
    {
        match &self.found {
            Found::One { conns, .. } => conns.len(),
            Found::Several(receivers) => receivers.len(),
        }
    }

    /// Whether there is none.
    pub fn is_empty(&self) -> bool
        ensures { result ≡ (length self.now == 0) }
    {
        self.len() == 0
    }

    /// The one at this place, from 0.
    pub fn at(&self, place: usize) -> Receiver
        requires { place < length self.now }
        ensures { result ≡ get_or self.now place result }
    {
        match &self.found {
            Found::One {
                conns,
                number,
                names_topic,
            } => held_at(conns, *number, *names_topic, place),
            Found::Several(receivers) => receivers[place],
        }
    }
}

/// The holder at this place of the number's pattern.
fn held_at(conns: &[Conn], number: Id, names_topic: bool, place: usize) -> Receiver
    requires { place < length conns.now }
    ensures { result ≡ get_or (map (λ c. receiver_by (λ n. names_topic) (c, number)) conns.now)
        place result }
{
    Receiver {
        conn: conns[place],
        number,
        names_topic,
    }
}
