//! The streams that an acceptor gives away.
ghost use Rattle.std.specs.Prelude.{◌≡◌, [], ◌∷◌, ◌++◌, length};
ghost use Rattle.threaded_server.specs.Lending.{asked_of, lending_of, none_lent, returned, returned_to, with_lent, with_refused, with_returned};

use crate::acceptor::Parts;
use broker_threads::{Closed, StreamFate};
use ghost_state::{GhostCount, GhostList};
use std::snapshot::Snapshot;

/// Which streams an acceptor gave away, and which of them were let go of. It takes no bytes: contracts alone see it.
#[derive(Drop)]
pub struct Account<I, O> {
    lent: GhostList<(I, O)>,
    returned: GhostList<(Snapshot<I>, Snapshot<O>, StreamFate)>,
    refused: GhostCount,
    // Those that were let go of when accepting was asked last.
    asked: Snapshot<GhostList<(Snapshot<I>, Snapshot<O>, StreamFate)>>,
}

impl<I: Drop, O: Drop> Account<I, O> {
    /// Nothing was given away.
    pub fn new() -> Account<I, O>
        ensures lending { lending_of result ≡ none_lent }
        ensures asked { asked_of result ≡ 0 }
    {
        let returned = GhostList::new();
        Account {
            lent: GhostList::new(),
            asked: Snapshot::of(&returned),
            returned,
            refused: GhostCount::new(),
        }
    }

    /// Accepting is asked.
    pub fn asks(&mut self)
        ensures lending { lending_of self.new ≡ lending_of self.old }
        ensures asked { asked_of self.new ≡ length (returned_to (lending_of self.old)) }
    {
        self.asked = Snapshot::of(&self.returned);
    }

    /// A stream is given away, taken apart.
    pub fn lend<S>(&mut self, parts: Parts<I, O, S>) -> Parts<I, O, S>
        ensures lending { lending_of self.new
            ≡ with_lent (lending_of self.old) (parts.source, parts.sink) }
        ensures same { result ≡ parts }
        ensures asked { asked_of self.new ≡ asked_of self.old }
    {
        let Parts { source, sink, shut } = parts;
        let halves = (source, sink);
        self.lent.add(Snapshot::of(&halves));
        let (source, sink) = halves;
        Parts { source, sink, shut }
    }

    /// A stream couldn't be taken apart.
    pub fn refuse(&mut self)
        ensures lending { lending_of self.new ≡ with_refused (lending_of self.old) }
        ensures asked { asked_of self.new ≡ asked_of self.old }
    {
        self.refused.tick();
    }

    /// Both halves of a stream were let go of, and this became of it.
    pub fn take_back(&mut self, source: Closed<I>, sink: Closed<O>, fate: StreamFate)
        ensures lending { lending_of self.new ≡ with_returned (lending_of self.old)
            (returned source.last.value sink.last.value fate) }
        ensures asked { asked_of self.new ≡ asked_of self.old }
    {
        let back = (source.into_last(), sink.into_last(), fate);
        self.returned.add(Snapshot::of(&back));
    }
}
