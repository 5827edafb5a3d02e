//! The thread that reads what a client sends.
ghost use Rattle.std.specs.Prelude.{◌≡◌};
ghost use Rattle.std.specs.Arc.{arc_value};
ghost use Rattle.broker_threads.specs.Streams.{GoesBy, IsUntouched, Reads, offer_within, sight, stream};

use crate::closed::Closed;
use crate::course::Course;
use crate::fate::Fate;
use crate::handover::{Posters, SharedTransport, put_poster, take_poster};
use crate::plan::Plan;
use crate::talk::{Broker, Session, talk};
use crate::told::tell_closed;
use crate::work::Task;
use log_lines::CloseReason;
use rawsocket::MessageBound;
use rawsocket::devices::{Sink, Source};
use realm_inbox::Shut;
use session::{Asked, Fault, open_session_within};
use std::alloc::Global;
use std::sync::atomic::Ordering;
use std::sync::{Arc, Wait};
use std::thread::Threads;
use std::time::Clock;
use wamp_ids::{Conn, Topic};

/// What a reader's thread has.
#[derive(Drop)]
pub struct Reader<I, O, S: Shut> {
    pub alloc: Global,
    pub plan: Arc<Plan>,
    pub conn: Conn,
    pub fate: Arc<Fate>,
    pub source: I,
    pub sink: O,
    pub posters: Posters<S>,
    pub transport: S,
    /// What the accepting thread has of the same stream.
    pub shared: SharedTransport<S>,
}

/// What it gives back.
#[derive(Drop)]
pub struct Ended<I, O, S: Shut> {
    /// What it read from.
    pub source: Closed<I>,
    /// What it posted by.
    pub posters: Posters<S>,
    /// What became of the stream.
    pub course: Course<O>,
    /// Why the stream was closed.
    pub reason: CloseReason,
}

impl<
    I: Source + Drop + Send + 'static,
    O: Sink + Drop + Send + 'static,
    S: Shut + Send + 'static,
> Task for Reader<I, O, S> {
    type Done = Ended<I, O, S>;

    ghost does = { λ r ended. Reads (sight I.seen O.seen) r ended };
}

impl<
    I: Source + Drop + Send + 'static,
    O: Sink + Drop + Send + 'static,
    S: Shut + Send + 'static,
> Reader<I, O, S> {
    /// Serves the connection until it is over: both its threads, when it returns, but for what is left of this one. The stream is closed
    /// then, unless the realm's actor is about to let go of it.
    pub fn run<R: Threads + Wait + Clock + Copy + Send + 'static>(self, rt: R) -> Ended<I, O, S>
        ensures { Reads (sight I.seen O.seen) self result }
    {
        let Reader {
            alloc,
            plan,
            conn,
            fate,
            source,
            sink,
            posters,
            transport,
            shared,
        } = self;
        if shared.is_over.load(Ordering::SeqCst) {
            return untouched(source, sink, posters);
        }
        let broker = Broker {
            alloc,
            plan: &plan,
            fate: &fate,
        };
        let ended = serve(
            rt,
            broker,
            &plan.realms,
            plan.bound,
            source,
            sink,
            &transport,
            posters,
        );
        tell_closed(&rt, &plan, conn, ended.reason, &fate);
        transport.shut();
        drop(transport);
        drop(shared.take_transport(&rt));
        shared.is_over.store(true, Ordering::SeqCst);
        ended
    }
}

// Nothing is read or written.
fn untouched<I: Drop, O: Drop, S: Shut>(source: I, sink: O, posters: Posters<S>) -> Ended<I, O, S>
    ensures source { result.source.last.value ≡ source }
    ensures posters { result.posters ≡ posters }
    ensures course { IsUntouched sink result.course }
{
    Ended {
        source: Closed::of(source),
        posters,
        course: Course::Untouched(Closed::of(sink)),
        reason: CloseReason::NoThread,
    }
}

// Opens a session and serves it until it is over.
fn serve<
    R: Threads + Wait + Clock + Copy + Send + 'static,
    I: Source + Drop,
    O: Sink + Drop + Send + 'static,
    S: Shut + Send + 'static,
>(
    rt: R,
    broker: Broker<'_>,
    realms: &[Topic],
    bound: MessageBound,
    mut source: I,
    mut sink: O,
    transport: &S,
    mut posters: Posters<S>,
) -> Ended<I, O, S>
    ensures { GoesBy (sight I.seen O.seen)
        (offer_within bound realms.now (arc_value broker.entry.plan.now).outbox)
        (stream source sink posters.items) result.source result.posters.items result.course }
{
    let mut asked = None;
    let opened = match open_session_within(
        broker.alloc,
        &mut source,
        &mut sink,
        realms,
        bound,
        &mut asked,
    ) {
        Ok(opened) => opened,
        Err(fault) => {
            note_asked(&rt, broker.fate, asked);
            return Ended {
                source: Closed::of(source),
                posters,
                course: Course::NotOpened(Closed::of(sink), fault),
                reason: not_opened(broker.plan, fault),
            };
        }
    };
    let realm = opened.realm;
    let Some(poster) = take_poster(&mut posters, realm) else {
        return Ended {
            source: Closed::of(source),
            posters,
            course: Course::OpenedAlone(Closed::of(sink)),
            reason: CloseReason::NoMemory,
        };
    };
    let session = Session {
        broker,
        transport,
        sink,
        opened,
    };
    let talked = talk(rt, session, &mut source, poster);
    put_poster(&mut posters, realm, talked.poster);
    Ended {
        source: Closed::of(source),
        posters,
        course: talked.course,
        reason: talked.reason,
    }
}

// Keeps what a HELLO asked for whose realm isn't there.
fn note_asked<R: Wait>(rt: &R, fate: &Fate, asked: Option<Asked>) {
    if let Some(asked) = asked {
        fate.note_asked(rt, asked);
    }
}

// Why a connection has no session: the fault, unless its stream was ended by a stop.
fn not_opened(plan: &Plan, fault: Fault) -> CloseReason {
    if plan.is_stopping.load(Ordering::SeqCst) {
        CloseReason::Stop
    } else {
        CloseReason::NotOpened(fault)
    }
}
