//! What a writer told who watches it, in a list that only clauses read.
ghost use Rattle.std.specs.Prelude.{◌≡◌, []};
ghost use Rattle.connection.specs.Watch.{told_to};

use crate::watch::Watch;
use ghost_state::GhostList;
use session::{Fault, Item};
use std::snapshot::Snapshot;

/// What was told of an item.
#[derive(Drop)]
enum Mark {
    Taken(Snapshot<Item>),
    Written(Snapshot<Item>),
    GivenUp(Snapshot<Item>, Fault),
}

/// All that was told. It takes no bytes, and nothing comes of what it is told: so by it alone nobody watches.
#[derive(Drop)]
pub struct Told {
    marks: GhostList<Mark>,
}

impl Told {
    /// Nothing was told so far.
    pub fn nothing() -> Told
        ensures { told_to result ≡ [] }
    {
        Told {
            marks: GhostList::new(),
        }
    }
}

impl Watch for Told {
    ghost told = { told_to };

    fn takes(&mut self, item: &Item) {
        self.marks
            .add(Snapshot::of(&Mark::Taken(Snapshot::of(item))));
    }

    fn writes(&mut self, item: &Item) {
        self.marks
            .add(Snapshot::of(&Mark::Written(Snapshot::of(item))));
    }

    fn gives_up(&mut self, item: &Item, fault: Fault) {
        self.marks
            .add(Snapshot::of(&Mark::GivenUp(Snapshot::of(item), fault)));
    }
}
