//! The doors of the realms' inboxes.
ghost use Rattle.std.specs.Prelude.{◌≡◌, ◌++◌, ◌∷◌, [], IfOk, MatchOption};
ghost use Rattle.threaded_server.specs.Posters.{traces};
ghost use Rattle.threaded_server.specs.Stopping.{AllMayStop, AllSee, AreOfInboxes, SeesAt, doors_of, door_view, inboxes_in};

use broker_threads::handover::{Posters, put_poster, take_poster};
use realm_inbox::{Door, Shut};
use std::alloc::{AllocError, Global};
use std::sync::Wait;

/// The doors of the realms' inboxes, in the order of the realms.
#[derive(Drop)]
pub struct Doors<S: Shut + 'static> {
    doors: Vec<Door<S>>,
}

impl<S: Shut + 'static> Doors<S> {
    /// None yet, with room for so many.
    ///
    /// # Errors
    /// Where memory was refused.
    pub fn with_capacity(alloc: Global, count: usize) -> Result<Doors<S>, AllocError>
        ensures { IfOk result (λ doors. doors_of doors ≡ []) }
    {
        Ok(Doors {
            doors: Vec::with_capacity(alloc, count)?,
        })
    }

    /// One more. It takes no memory, so none is refused: where `push` says that it is, it is tried again.
    pub fn add<R: Wait>(&mut self, rt: &R, mut door: Door<S>)
        ensures { doors_of self.new ≡ doors_of self.old ++ door_view door ∷ [] }
    {
        for _ in rt.forever() {
            match self.doors.push(door) {
                Ok(()) => return,
                Err(refused) => door = refused.value,
            }
        }
        unreachable!()
    }

    /// Shows each door the poster of its realm, of those of one seat, as they came back from a connection: so a stop comes behind what
    /// they posted. They don't change; nobody waits.
    pub fn see(&mut self, posters: &mut Posters<S>)
        requires inboxes { AreOfInboxes (inboxes_in (doors_of self.old)) (traces posters.old.items) }
        ensures traces { traces posters.new.items ≡ traces posters.old.items }
        ensures seen { AllSee (traces posters.old.items) (doors_of self.old) (doors_of self.new) }
    {
        for realm in 0..self.doors.len() {
            self.see_at(realm, posters);
        }
    }

    // Shows the door of one realm its poster.
    fn see_at(&mut self, realm: usize, posters: &mut Posters<S>)
        requires inboxes { AreOfInboxes (inboxes_in (doors_of self.old)) (traces posters.old.items) }
        ensures traces { traces posters.new.items ≡ traces posters.old.items }
        ensures seen { SeesAt realm (traces posters.old.items)
            (doors_of self.old) (doors_of self.new) }
    {
        let Some(door) = self.doors.get_mut(realm) else {
            return;
        };
        if let Some(mut poster) = take_poster(posters, realm) {
            door.sees(&mut poster);
            put_poster(posters, realm, poster);
        }
    }

    /// Posts a stop at each door. Where an actor's inbox is gone nothing happens.
    pub fn stop<R: Wait>(&mut self, rt: &R)
        ensures { AllMayStop (doors_of self.old) (doors_of self.new) }
    {
        for realm in 0..self.doors.len() {
            self.stop_at(rt, realm);
        }
    }

    fn stop_at<R: Wait>(&mut self, rt: &R, realm: usize)
        ensures { AllMayStop (doors_of self.old) (doors_of self.new) }
    {
        if let Some(door) = self.doors.get_mut(realm) {
            let _ = door.stop(rt);
        }
    }

    /// The first door, which leaves.
    pub fn take_first(&mut self) -> Option<Door<S>>
        ensures { MatchOption result (doors_of self.old ≡ [])
            (λ door. doors_of self.old ≡ door_view door ∷ doors_of self.new) }
    {
        if self.doors.is_empty() {
            return None;
        }
        Some(self.doors.remove(0))
    }
}
