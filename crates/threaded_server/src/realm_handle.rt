//! What the accepting thread has of a realm.
ghost use Rattle.std.specs.Prelude.{◌≡◌, ◌++◌, ◌∷◌, [], Some, All, IfOk};
ghost use mathlib.Core.List.{IsPrefix};
ghost use Rattle.realm.specs.History.{Begins};
ghost use Rattle.chronicle.specs.Recorded.{Reaches};

use broker_threads::work::{Doing, start};
use broker_threads::{Acted, ActorThread};
use crossbeam_channel::Receiver;
use outbox_queue::check_seen;
use realm_inbox::{Door, RealmChronicle, RealmHistory, Shut};
use std::alloc::{AllocError, Global};
use std::snapshot::Snapshot;
use std::sync::Wait;
use std::thread::{PromisedHandle, Threads};
use std::time::{Clock, CpuClock};

/// What the accepting thread has of a realm beside the door of its inbox: its actor's thread, and what that tells.
#[derive(Drop)]
pub struct RealmHandle<S: Shut + Send + 'static> {
    // What the actor's thread was given. It takes no bytes.
    began: Snapshot<ActorThread<S>>,
    actor: PromisedHandle<Acted<S>, Doing<ActorThread<S>>>,
    told: Receiver<()>,
    // What the writers of its sessions saw last of its history, where they are over. They take no bytes.
    seen: Vec<RealmHistory>,
    ghost same: { actor.promise.0.value ≡ began.value },
    ghost of: { All (λ kept. kept.chronicle ≡ began.value.chronicle.chronicle) seen.items },
}

impl<S: Shut + Send + 'static> RealmHandle<S> {
    ghost use Rattle.realm_inbox.specs.Behind.{told_by};
    ghost use Rattle.realm_inbox.specs.EndViews.{inbox_of, inbox_of_door, received, shown as shown_to, told};
    ghost use Rattle.threaded_server.specs.Realms.{GivesBack, shown};

    /// Starts a realm's actor, which receives what is posted at the door and at the seats of its inbox, and tells what it tells to the
    /// other end of `told`.
    ///
    /// # Errors
    /// Where a thread was refused.
    pub fn start<R: Threads + Wait + Clock + CpuClock + Copy + Send + 'static>(
        rt: R,
        alloc: Global,
        told: Receiver<()>,
        work: ActorThread<S>,
    ) -> Result<RealmHandle<S>, AllocError>
        ensures { IfOk result (λ handle. shown handle ≡ record {
          work = work;
          seen = [];
        }) }
    {
        let began = Snapshot::of(&work);
        let actor = start(rt, work)?;
        Ok(RealmHandle {
            began,
            actor,
            told,
            seen: Vec::new(alloc),
        })
    }

    /// Keeps what a writer saw last of the realm's history. It takes no memory, so none is refused: where `push` says that it is, it is
    /// tried again.
    pub fn keep<R: Wait>(&mut self, rt: &R, seen: RealmHistory)
        requires { seen.chronicle ≡ self.old.began.value.chronicle.chronicle }
        ensures { shown self.new ≡ record (shown self.old) {
          seen = self.old.seen.items ++ seen ∷ [];
        } }
    {
        push_seen(rt, &mut self.seen, seen);
    }

    /// Waits until the actor, which was told to stop, has marked whose sessions it holds.
    pub fn await_marks<R: Wait>(&self, rt: &R) {
        let _ = self.told.recv(rt);
    }

    /// Waits for the actor's thread, once no reader is left that posts. It ends at the second stop: the first ends its actor, unless that
    /// was told to stop before, so two are posted. What it was given, and what it gave back: what the writers saw begins the history of
    /// that; and what the stops told that it received begins what the door's told, with these two.
    pub fn join<R: Threads + Wait>(
        self,
        rt: &R,
        mut door: Door<S>,
    ) -> (Snapshot<ActorThread<S>>, Acted<S>)
        requires inbox { inbox_of (shown self).work.inbox ≡ inbox_of_door door }
        ensures back { GivesBack (shown self) result.0.value result.1 }
        ensures told { IsPrefix (told_by (received result.1.inbox))
            (told door ++ shown_to door ∷ shown_to door ∷ []) }
    {
        let RealmHandle {
            began,
            actor,
            told,
            seen,
        } = self;
        // Nobody takes what the actor still tells: without this end it doesn't wait to tell it.
        drop(told);
        let _ = door.stop(rt);
        let _ = door.stop(rt);
        let mut acted = actor.join(rt);
        acted.inbox.compare_stops(&mut door);
        check_all(rt, &mut acted.chronicle, seen);
        (began, acted)
    }
}

// One more that was seen.
fn push_seen<R: Wait>(rt: &R, all: &mut Vec<RealmHistory>, mut seen: RealmHistory)
    ensures { all.new.items ≡ all.old.items ++ seen ∷ [] }
{
    for _ in rt.forever() {
        match all.push(seen) {
            Ok(()) => return,
            Err(refused) => seen = refused.value,
        }
    }
    unreachable!()
}

// Takes in what was seen of the chronicle's history, and shows that all of it begins what the chronicle has.
fn check_all<R: Wait>(rt: &R, chronicle: &mut RealmChronicle, mut seen: Vec<RealmHistory>)
    requires { All (λ kept. kept.chronicle ≡ chronicle.old.chronicle) seen.items }
    ensures same { chronicle.new ≡ chronicle.old }
    ensures begins { All (λ kept. Reaches Begins (Some kept.history) chronicle.old.history)
        seen.items }
{
    for _ in rt.forever() {
        match seen.pop() {
            Some(last) => check_seen(chronicle, Some(last)),
            None => return,
        }
    }
    unreachable!()
}
