//! Words counted from 0.
ghost use Rattle.std.specs.Prelude.{◌≡◌, ◌++◌, ◌∷◌, [], true};
ghost use Rattle.ghost_state.specs.GhostList.{items_of};

use realm_actor::IdSource;
use realm_inbox::GhostList;
use std::snapshot::Snapshot;

/// Gives 0, 1, 2 and so on.
#[derive(Drop)]
pub struct Counted {
    next: u64,
    past: GhostList<u64>,
}

impl Counted {
    /// It gave no word yet.
    pub fn new() -> Counted {
        Counted {
            next: 0,
            past: GhostList::new(),
        }
    }
}

impl IdSource for Counted {
    ghost given = { λ c. record { is_counting = true; given = items_of c.past } };

    fn next_word(&mut self) -> u64
        ensures { items_of self.new.past ≡ items_of self.old.past ++ result ∷ [] }
    {
        let word = self.next;
        self.next = word.wrapping_add(1);
        self.past.add(Snapshot::of(&word));
        word
    }
}
