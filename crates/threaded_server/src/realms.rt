//! The realms of a broker, as the accepting thread has them.
ghost use Rattle.std.specs.Prelude.{◌≡◌, ◌++◌, ◌∷◌, [], length, map, IfOk, IfSome, MatchResult};
ghost use Rattle.ghost_state.specs.GhostList.{items_of};
ghost use Rattle.threaded_server.specs.Posters.{Stand, lists_of};
ghost use Rattle.threaded_server.specs.Stopping.{AreDoorsOf, door_view, doors_of};
ghost use Rattle.threaded_server.specs.Realms.{AllReceived, EachRuns, IsAtHome, Keeps, TakesIn, places_of, realms_of, shown};

use crate::doors::Doors;
use crate::poster_table::PosterTable;
use crate::realm_handle::RealmHandle;
use crate::realm_run::RealmRun;
use broker_threads::SeenHistory;
use ghost_state::GhostList;
use realm_inbox::Shut;
use std::alloc::{AllocError, Global};
use std::snapshot::Snapshot;
use std::sync::Wait;
use std::thread::Threads;

/// The realms of a broker, in order.
#[derive(Drop)]
pub struct Realms<S: Shut + Send + 'static> {
    handles: Vec<RealmHandle<S>>,
}

impl<S: Shut + Send + 'static> Realms<S> {
    /// None yet, with room for so many.
    ///
    /// # Errors
    /// Where memory was refused.
    pub fn with_capacity(alloc: Global, count: usize) -> Result<Realms<S>, AllocError>
        ensures { IfOk result (λ realms. realms_of realms ≡ []) }
    {
        Ok(Realms {
            handles: Vec::with_capacity(alloc, count)?,
        })
    }

    /// How many there are.
    pub fn len(&self) -> usize
        ensures { result ≡ length (realms_of self.now) }
    {
        self.handles.len()
    }

    /// One more. It comes back where memory was refused.
    pub fn add(&mut self, handle: RealmHandle<S>) -> Result<(), RealmHandle<S>>
        ensures { MatchResult result
            (λ _. realms_of self.new ≡ realms_of self.old ++ shown handle ∷ [])
            (λ back. (realms_of self.new ≡ realms_of self.old) × (back ≡ handle)) }
    {
        match self.handles.push(handle) {
            Ok(()) => Ok(()),
            Err(refused) => Err(refused.value),
        }
    }

    /// Keeps what a writer saw last, if it took anything.
    pub fn take_in<R: Wait>(&mut self, rt: &R, seen: Option<SeenHistory>)
        requires { IfSome seen (λ s. IsAtHome (realms_of self.old) s) }
        ensures { TakesIn (realms_of self.old) seen (realms_of self.new) }
    {
        if let Some(seen) = seen {
            self.keep(rt, seen);
        }
    }

    fn keep<R: Wait>(&mut self, rt: &R, seen: SeenHistory)
        requires { IsAtHome (realms_of self.old) seen }
        ensures { Keeps (realms_of self.old) seen (realms_of self.new) }
    {
        let handle = &mut self.handles[seen.realm];
        handle.keep(rt, seen.history);
    }

    /// Waits until each actor, which was told to stop, has marked whose sessions it holds.
    pub fn await_marks<R: Wait>(&self, rt: &R) {
        for handle in self.handles.iter() {
            handle.await_marks(rt);
        }
    }

    /// Waits for the actors' threads, whose doors these are, once no reader is left that posts, and empties the inbox of each: what it
    /// received of a seat in the end is what was posted there by the realm's poster of that seat.
    pub fn join<R: Threads + Wait>(
        self,
        rt: &R,
        mut doors: Doors<S>,
        mut posters: PosterTable<S>,
    ) -> GhostList<RealmRun<S>>
        requires posters { Stand (places_of (realms_of self)) (lists_of posters) }
        requires doors { AreDoorsOf (realms_of self) (doors_of doors) }
        ensures doors { doors_of doors ≡ map (λ run. door_view run.door.value) (items_of result) }
        ensures runs { EachRuns (realms_of self) (items_of result) }
        ensures received { AllReceived (items_of result) (lists_of posters) }
    {
        let mut handles = self.handles;
        let mut runs = GhostList::new();
        for realm in 0..handles.len() {
            let Some(door) = doors.take_first() else {
                unreachable!()
            };
            let last = Snapshot::of(&door);
            let (began, acted) = handles.remove(0).join(rt, door);
            let ended = Snapshot::of(&acted);
            let mut inbox = acted.inbox;
            posters.drain_inbox(rt, realm, &mut inbox);
            let run = RealmRun {
                began,
                door: last,
                ended,
                inbox: Snapshot::of(&inbox),
            };
            runs.add(Snapshot::of(&run));
        }
        runs
    }
}
