//! A history that owes each connection the same items, and what adds them.
ghost use Rattle.std.specs.Prelude.{◌≡◌, [], None};

use outbox_queue::{Drain, Full, MOST_ITEMS, Outbox, Owed, Stamped, pair};
use session::Item;
use std::alloc::{AllocError, Global};
use std::collections::VecDeque;
use std::marker::Model;
use std::snapshot::Snapshot;
use std::sync::Wait;

/// The items that are owed. It takes no bytes.
#[derive(Drop)]
pub struct Listed {
    items: Snapshot<Vec<Item>>,
}

/// The history that owes these items, for a stamp. It takes no bytes.
#[derive(Drop)]
pub struct ListHistory {
    of: Snapshot<Listed>,
}

impl ListHistory {
    fn of(listed: &Listed) -> ListHistory
        ensures { result.of.value ≡ listed.now }
    {
        ListHistory {
            of: Snapshot::of(listed),
        }
    }
}

impl Owed<Item> for ListHistory {
    ghost use Rattle.std.specs.Prelude.{⊤, false};
    ghost use Rattle.std.proofs.Common.{refl, ◌∙◌};
    ghost use Rattle.cases_connection.specs.Listing.{Same, owed, owes_on};

    ghost begins = { Same };

    ghost owed = { owed };

    ghost begins_itself = { λ h. refl };

    ghost begins_on = { λ h k l p q. p ∙ q };

    ghost owes_on = { owes_on };

    ghost is_of = { λ h chronicle. ⊤ };

    ghost is_over = { λ h conn. ⊤ };

    ghost was_cut = { λ h conn. false };
}

/// Adds what is owed, item by item, and then closes the outbox.
#[derive(Drop)]
pub struct Adder {
    outbox: Outbox<Item, ListHistory>,
    left: VecDeque<Item>,
    listed: Listed,
}

impl Model for Adder {
    ghost use Rattle.std.specs.Prelude.{Bool};
    ghost use Rattle.cases_connection.specs.Listing.{Names, Owes};

    ghost Value = { Bool };

    ghost view = { λ a. a.outbox.is_closed };

    ghost invariant = { λ a. Owes a.listed a.outbox.added a.left.items
        × Names a.listed a.outbox.history };
}

// Lets go of an item that found no room.
fn let_go(_back: Full<Stamped<Item, ListHistory>>) {}

impl Adder {
    // Adds the items of an outbox to which nothing was added.
    fn new(outbox: Outbox<Item, ListHistory>, items: Vec<Item>) -> Adder
        requires added { outbox.added ≡ [] }
        requires history { outbox.history ≡ None }
    {
        let listed = Listed {
            items: Snapshot::of(&items),
        };
        Adder {
            outbox,
            left: VecDeque::from_vec(items),
            listed,
        }
    }

    /// Adds the next item. Where there is none, or no room for it, the outbox is closed, and it answers false.
    pub fn add<R: Wait>(&mut self, rt: &R) -> bool {
        if self.outbox.is_closed() {
            return false;
        }
        let Some(item) = self.left.pop_front() else {
            self.outbox.close();
            return false;
        };
        let stamped = self.outbox.stamp(item, ListHistory::of(&self.listed));
        if let Err(back) = self.outbox.add(rt, stamped) {
            let_go(back);
            self.left.clear();
            return false;
        }
        true
    }

    /// Adds all items.
    pub fn add_all<R: Wait>(&mut self, rt: &R) {
        for _ in 0..MOST_ITEMS {
            if !self.add(rt) {
                break;
            }
        }
    }
}

/// Both ends of an outbox to which nothing was added yet.
#[derive(Drop)]
pub struct Owing {
    pub adder: Adder,
    pub drain: Drain<Item, ListHistory>,
}

impl Owing {
    /// These items are owed.
    pub fn of(alloc: Global, items: Vec<Item>) -> Result<Owing, AllocError> {
        let cap = items.len().max(1).min(MOST_ITEMS);
        let (outbox, drain) = pair::<Item, ListHistory>(alloc, 1, cap)?;
        Ok(Owing {
            adder: Adder::new(outbox, items),
            drain,
        })
    }
}
