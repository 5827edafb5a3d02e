//! What is kept from one entry to the next: room for items, a publication until it is taken, and what is noted for who looks on.
ghost use Rattle.std.specs.Prelude.{◌≡◌, []};

use crate::events::Given;
use crate::notes::{Notes, Refusal};
use message_tree::Shared;
use std::alloc::Global;
use std::marker::Model;
use std::mem;
use wamp_messages::Publication;

/// A list with room for more items than this isn't kept.
const MOST_ITEMS: usize = 1024;

/// The room of a list that an earlier entry's items stood in, the last publication that the realm is
/// done with, and what is noted for who looks on. Contracts see nothing of it, so that nothing that a
/// realm gives rests on it.
#[derive(Drop)]
pub struct Spare {
    list: Given,
    spent: Option<Shared<Publication>>,
    notes: Notes,
}

impl Model for Spare {
    ghost use Rattle.std.specs.Prelude.{⊤, ◌≡◌, []};

    ghost Value = { ⊤ };

    ghost view = { λ _. tt };

    ghost invariant = { λ s. s.list.items ≡ [] };
}

impl Spare {
    /// No room.
    pub fn new(alloc: Global) -> Spare {
        Spare {
            list: Vec::new(alloc),
            spent: None,
            notes: Notes::new(),
        }
    }

    /// What is noted for who looks on.
    pub(crate) fn notes(&self) -> &Notes {
        &self.notes
    }

    /// A request was refused.
    pub fn note_refusal(&mut self, refusal: Refusal) {
        self.notes.note_refusal(refusal);
    }

    /// The last request that was refused, where it wasn't taken yet.
    pub fn take_refusal(&mut self) -> Option<Refusal> {
        self.notes.take_refusal()
    }

    /// A publication gave so many EVENTs.
    pub fn note_publication(&mut self, events: usize) {
        self.notes.note_publication(events);
    }

    /// An empty list, with the room that is kept, which goes with it.
    pub fn take(&mut self, alloc: Global) -> Given
        ensures { result.items ≡ [] }
    {
        mem::replace(&mut self.list, Vec::new(alloc))
    }

    /// Keeps a publication that the realm is done with until it is taken, in place of an earlier one.
    pub fn put_aside(&mut self, made: Shared<Publication>) {
        self.spent = Some(made);
    }

    /// The publication that was put aside last, where it wasn't taken yet.
    pub fn take_spent(&mut self) -> Option<Shared<Publication>> {
        self.spent.take()
    }

    /// Lets go of what the list holds, and keeps its room, if that is more than there is and for no
    /// more than 1,024 items.
    pub fn keep(&mut self, given: Given) {
        let mut given = given;
        given.clear();
        let room = given.capacity();
        if self.list.capacity() < room && room <= MOST_ITEMS {
            self.list = given;
        }
    }
}
