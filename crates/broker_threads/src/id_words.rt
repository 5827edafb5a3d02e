//! The words that a realm draws.
ghost use Rattle.std.specs.Prelude.{◌≡◌, ◌∷◌, [], IfOk};
ghost use Rattle.realm_actor.specs.Words.{◌⊕◌};
ghost use Rattle.broker_threads.specs.Words.{AreInOrder, CountsOn, Draws, is_counting, are_counted};

use broker_config::Ids;
use rand::make_rng;
use rand::rngs::StdRng;
use rand_core::Rng;
use realm_actor::IdSource;
use realm_inbox::GhostList;
use std::io;
use std::marker::Model;
use std::random::RandomSource;
use std::snapshot::Snapshot;

// Where the next word comes from.
#[derive(Drop)]
enum Origin {
    Random(StdRng),
    Count(u64),
}

impl Origin {
    // Where words of this kind begin.
    fn of<R: RandomSource>(rt: &R, ids: Ids) -> io::Result<Origin>
        ensures kind { IfOk result (λ o. is_counting o ≡ are_counted ids) }
        ensures begins { IfOk result (λ o. CountsOn o []) }
    {
        match ids {
            Ids::Random => Ok(Origin::Random(make_rng(rt)?)),
            Ids::Count => Ok(Origin::Count(0)),
        }
    }

    fn next(&mut self) -> u64
        ensures { Draws self.old result self.new }
    {
        match self {
            Origin::Random(generator) => generator.next_u64(),
            Origin::Count(next) => {
                let word = *next;
                *next = word.wrapping_add(1);
                word
            }
        }
    }
}

/// A realm's words, and those that were drawn, which take no bytes.
///
/// Contracts see the words that were drawn, and whether they are counted.
#[derive(Drop)]
pub struct IdWords {
    origin: Origin,
    drawn: GhostList<u64>,
}

impl Model for IdWords {
    ghost use Rattle.ghost_state.specs.GhostList.{items_of};
    ghost use Rattle.realm_actor.specs.Words.{Words};
    ghost use Rattle.broker_threads.specs.Words.{CountsOn, is_counting};

    ghost Value = { Words };

    ghost view = { λ w. record { is_counting = is_counting w.origin; given = items_of w.drawn } };

    ghost invariant = { λ w. CountsOn w.origin (items_of w.drawn) };
}

impl IdWords {
    /// Words of this kind, of which none is drawn.
    ///
    /// # Errors
    /// Where the system gives no seed for random words.
    pub fn new<R: RandomSource>(rt: &R, ids: Ids) -> io::Result<IdWords>
        ensures { IfOk result (λ w. w ≡ record { is_counting = are_counted ids; given = [] }) }
    {
        Ok(IdWords {
            origin: Origin::of(rt, ids)?,
            drawn: GhostList::new(),
        })
    }

    /// Shows that words that are counted were given in order.
    pub fn shows(&self)
        ensures { AreInOrder self.now }
    {
        let _ = &self.origin;
    }
}

impl IdSource for IdWords {
    ghost given = { λ w. w };

    fn next_word(&mut self) -> u64
        ensures given { self.new ≡ self.old ⊕ (result ∷ []) }
        ensures counted { AreInOrder self.new }
    {
        let word = self.origin.next();
        self.drawn.add(Snapshot::of(&word));
        word
    }
}
