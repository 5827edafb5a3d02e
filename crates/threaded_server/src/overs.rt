//! What became of streams.
ghost use Rattle.std.specs.Prelude.{◌≡◌, [], ◌∷◌, ◌++◌, All};
ghost use Rattle.ghost_state.specs.GhostList.{items_of};
ghost use Rattle.threaded_server.specs.Overs.{Went};
ghost use Rattle.broker_threads.specs.Streams.{offer_of, sight};

use crate::over::Over;
use broker_threads::Plan;
use ghost_state::GhostList;
use rawsocket::devices::{Sink, Source};
use realm_inbox::Shut;
use std::snapshot::Snapshot;

/// The streams that are over, in the order of that, and what all were served by. It takes no bytes: contracts alone see it.
#[derive(Drop)]
pub struct Overs<I: Source, O: Sink, S: Shut> {
    plan: Snapshot<Plan>,
    streams: GhostList<Over<I, O, S>>,
    ghost went: { All (λ it. ∥ Went (sight I.seen O.seen) (offer_of plan.value) it ∥₁)
        (items_of streams) },
}

impl<I: Source, O: Sink, S: Shut> Overs<I, O, S> {
    /// None is over.
    pub fn new(plan: &Plan) -> Overs<I, O, S>
        ensures plan { result.plan.value ≡ plan.now }
        ensures streams { items_of result.streams ≡ [] }
    {
        Overs {
            plan: Snapshot::of(plan),
            streams: GhostList::new(),
        }
    }

    /// One more is over.
    pub fn add(&mut self, over: Snapshot<Over<I, O, S>>)
        requires { Went (sight I.seen O.seen)
            (offer_of self.old.plan.value) over.value }
        ensures plan { self.new.plan ≡ self.old.plan }
        ensures streams { items_of self.new.streams ≡ items_of self.old.streams ++ over.value ∷ [] }
    {
        self.streams.add(over);
    }

    /// Shows that each went as it should.
    pub fn shows(&self)
        ensures { All (λ it. ∥ Went
            (sight I.seen O.seen)
            (offer_of self.now.plan.value) it ∥₁) (items_of self.now.streams) }
    {
        let _ = &self.streams;
    }
}
