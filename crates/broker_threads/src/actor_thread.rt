//! The thread of a realm's actor.
ghost use Rattle.std.specs.Prelude.{◌≡◌, Some, None, length};
ghost use mathlib.Core.List.{IsPrefix};
ghost use Rattle.std.specs.Coded.{codes};
ghost use Rattle.realm.specs.History.{begun, grants_of};
ghost use Rattle.realm.specs.body.HistoryCode.{history_code};
ghost use Rattle.realm_inbox.specs.EndViews.{home_of, inbox_of, received};

use crate::id_words::IdWords;
use crate::plan::Plan;
use crate::seat_table::SeatTable;
use crate::told::{tell_request_refused, tell_retained_full};
use crate::work::{Task, Work};
use crossbeam_channel::Sender;
use realm::{Realm, Refusal};
use realm_actor::{Actor, Load, Onlooker};
use realm_inbox::{Act, Inbox, Letter, Post, RealmChronicle, Shut};
use std::alloc::Global;
use std::io;
use std::snapshot::Snapshot;
use std::sync::{Arc, Wait};
use std::time::{Clock, CpuClock, Duration};
use wamp_ids::SEATS;

/// What the thread of a realm's actor has.
#[derive(Drop)]
pub struct ActorThread<S: Shut> {
    pub alloc: Global,
    pub plan: Arc<Plan>,
    /// The realm's place.
    pub realm: usize,
    /// What it keeps: nothing happened there yet.
    pub kept: Realm,
    pub words: IdWords,
    /// Of the realm's history: nothing is recorded yet.
    pub chronicle: RealmChronicle,
    pub inbox: Inbox<S>,
    /// It is told, once the actor has ended, that the marks are set.
    pub teller: Sender<()>,
    pub marks: Arc<SeatTable>,
    ghost new: { length (received inbox) ≡ 0 },
    ghost unrecorded: { chronicle.history ≡ None },
    ghost empty: { kept ≡ begun (grants_of kept) } by { Prim.hlevel (codes, history_code) },
    ghost home: { home_of inbox ≡ Some chronicle.chronicle },
}

/// What it gives back.
#[derive(Drop)]
pub struct Acted<S: Shut> {
    /// The chronicle of the realm's history.
    pub chronicle: RealmChronicle,
    /// The actor, as it ended.
    pub actor: Snapshot<Actor<S, IdWords>>,
    /// The inbox, from which nothing is received any more.
    pub inbox: Inbox<S>,
}

impl<S: Shut + Send + 'static> Task for ActorThread<S> {
    ghost use Rattle.broker_threads.specs.Acts.{Acts};

    type Done = Acted<S>;

    ghost does = { λ w acted. Acts w acted };
}

impl<R: Wait + Clock + CpuClock + Copy, S: Shut + Send + 'static> Work<R> for ActorThread<S> {
    ghost use Rattle.broker_threads.specs.Acts.{Acts};

    /// Makes the actor, which runs until it is stopped, marks whose sessions it holds then, hands their outboxes over to their writers, and
    /// tells that they are marked. What is posted behind the stop is turned away until the next stop.
    fn run(self, rt: R) -> Acted<S>
        ensures { Acts self result }
    {
        let ActorThread {
            alloc,
            plan,
            realm,
            kept,
            words,
            chronicle,
            mut inbox,
            teller,
            marks,
        } = self;
        let actor = Actor::of_realm(alloc, chronicle, kept, words);
        let mut onlooker = Notices {
            rt,
            plan: &plan,
            realm,
            is_told: false,
        };
        let mut actor = actor.run_to_stop(&rt, alloc, &mut inbox, &mut onlooker);
        mark_held(&actor, &marks);
        actor.shows();
        let ended = Snapshot::of(&actor);
        actor.sweep();
        let (chronicle, words) = actor.into_parts();
        words.shows();
        let _ = teller.send(&rt, ());
        turn_away_rest(&rt, &mut inbox);
        Acted {
            chronicle,
            actor: ended,
            inbox,
        }
    }
}

// Tells what happens in a realm: once, that as many topics as may have a retained publication have one; the first request of each session
// that is refused; and how much there is, where that is told from time to time.
#[derive(Drop)]
struct Notices<'a, R> {
    rt: R,
    plan: &'a Plan,
    realm: usize,
    is_told: bool,
}

impl<R: Wait + Clock + CpuClock> Onlooker for Notices<'_, R> {
    fn sees_retained(&mut self, is_full: bool) {
        if !is_full || self.is_told {
            return;
        }
        self.is_told = true;
        if let Some(realm) = self.plan.realms.get(self.realm) {
            tell_retained_full(&self.rt, &self.plan.log, realm);
        }
    }

    fn sees_refusal(&mut self, refusal: Refusal) {
        tell_request_refused(&self.rt, &self.plan.log, &refusal);
    }

    fn wants_load(&mut self, is_idle: bool) -> bool {
        match self.plan.board(self.realm) {
            Some(board) => is_idle || board.is_wanted(),
            None => false,
        }
    }

    fn sees_load(&mut self, load: &Load) {
        if let Some(board) = self.plan.board(self.realm) {
            board.put(load);
        }
    }

    fn nanos(&mut self) -> u64 {
        nanos_of(self.rt.monotonic())
    }

    fn worked(&mut self) -> u64 {
        nanos_of(self.rt.thread_cpu_time())
    }
}

// What a clock tells, in nanoseconds; 0 where it fails.
fn nanos_of(told: io::Result<Duration>) -> u64 {
    let Ok(time) = told else {
        return 0;
    };
    time.as_secs()
        .wrapping_mul(1_000_000_000)
        .wrapping_add(u64::from(time.subsec_nanos()))
}

// Receives until the next stop, which is posted once no reader is left that posts, and turns away what comes. It can't be left in the
// inbox, whose posts last as long as a sender does: the writer of a session that asked to join would wait for its outbox, its reader for
// the writer, and the sender is the reader's.
fn turn_away_rest<R: Wait, S: Shut>(rt: &R, inbox: &mut Inbox<S>)
    ensures more { IsPrefix (received inbox.old) (received inbox.new) }
    ensures same { inbox_of inbox.new ≡ inbox_of inbox.old }
{
    for _ in rt.forever() {
        match inbox.receive(rt) {
            Some(Post::Act(letter)) => turn_away(&letter),
            Some(Post::Stop(_)) | None => return,
        }
    }
    unreachable!()
}

// Nobody joins any more: the outbox is closed, so that its writer ends, and the transport is shut. Another act says nothing to anybody.
fn turn_away<S: Shut>(letter: &Letter<S>) {
    if let Act::Join(joining) = letter.act() {
        joining.transport.shut();
    }
}

// Marks the connections whose sessions the actor holds.
fn mark_held<S: Shut>(actor: &Actor<S, IdWords>, marks: &SeatTable) {
    for place in 0..SEATS as usize {
        if let Some(conn) = marks.conn_at(place) {
            if actor.holds(conn) {
                marks.hold(conn);
            }
        }
    }
}
