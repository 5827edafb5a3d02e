//! A session that was opened: its writer, and what is posted for it.
ghost use Rattle.std.specs.Prelude.{◌≡◌, MatchResult, Option, option_map, IfOk, IfSome};
ghost use Rattle.std.specs.Arc.{arc_value};
ghost use Rattle.std.specs.String.{string_bytes};
ghost use Rattle.atomic_table.specs.Seated.{TableId};
ghost use Rattle.outbox_queue.specs.Outbox.{new_outbox};
ghost use Rattle.realm_inbox.specs.EndViews.{home_of_poster, poster_conn};
ghost use Rattle.session.specs.Opened.{session as session_of};
ghost use Rattle.broker_threads.specs.Begun.{IsMade, IsRefused, course_of, room_of};
ghost use Rattle.broker_threads.specs.Sights.{sight};
ghost use Rattle.broker_threads.specs.Talks.{Converses, Talks, passage, start_of};
ghost use Rattle.broker_threads.specs.Writes.{IsNewDrain};

use crate::closed::Closed;
use crate::closing::Closing;
use crate::course::Course;
use crate::fate::Fate;
use crate::plan::Plan;
use crate::work::{Doing, Work};
use crate::writer_thread::{Writer, Written};
use connection::{
    AskedPongs, EncodingPoster, FarewellPoster, InUse, OwedPongs, PongPoster, ReadEnd, WriteEnd,
    read_counted, share_pongs,
};
use log_lines::CloseReason;
use message_tree::Text;
use outbox_queue::{Drain, pair_of};
use rawsocket::devices::{Sink, Source};
use realm_inbox::{Act, Joining, Poster, RealmHistory, Shut};
use session::{Asked, Item, Opened};
use std::alloc::Global;
use std::snapshot::Snapshot;
use std::sync::atomic::Ordering;
use std::sync::{Arc, Wait};
use std::thread::{self, PromisedHandle, Threads};
use std::time::Clock;

/// The most octets that a payload has.
const MOST_OCTETS: u32 = 16_777_215;

/// What a connection is served with.
#[derive(Clone, Copy, Drop)]
pub struct Broker<'a> {
    pub alloc: Global,
    pub plan: &'a Arc<Plan>,
    pub fate: &'a Arc<Fate>,
}

/// A session that was opened, and what it is served with.
#[derive(Drop)]
pub struct Session<'a, O, S> {
    pub broker: Broker<'a>,
    pub transport: &'a S,
    pub sink: O,
    pub opened: Opened,
}

/// What became of a session that was opened.
#[derive(Drop)]
pub struct Talked<O, S: Shut> {
    /// What posted for it.
    pub poster: Poster<S>,
    pub course: Course<O>,
    /// Why it is over.
    pub reason: CloseReason,
}

/// Serves a session until it is over: starts its writer, asks the realm's actor for the session, posts what the source gives, and waits
/// for the writer.
pub fn talk<
    R: Threads + Wait + Clock + Copy + Send + 'static,
    I: Source,
    O: Sink + Drop + Send + 'static,
    S: Shut + Send + 'static,
>(rt: R, session: Session<O, S>, source: &mut I, poster: Poster<S>) -> Talked<O, S>
    ensures { Talks (sight I.seen O.seen)
        (room_of session.entry) (session_of session.entry.opened) session.entry.sink
        (passage source.old poster) (passage source.new result.poster) result.course }
{
    let broker = session.broker;
    let limit = session.opened.limit.min(MOST_OCTETS);
    let realm = session.opened.realm;
    note_asked(&rt, broker, &session.opened);
    let begun = match begin(rt, session, &poster) {
        Ok(begun) => begun,
        Err(refused) => return not_begun(poster, refused),
    };
    let Begun { made, writer } = begun;
    let Conversed {
        poster,
        read,
        has_aborted,
        has_greeted,
    } = converse(&rt, broker, source, made, poster);
    let is_unwritable = broker.fate.is_unwritable();
    let written = writer.join(&rt);
    let ends = SessionEnds {
        read,
        has_aborted,
        has_greeted,
        is_unwritable,
        write: written.end,
        octets: written.octets,
    };
    Talked {
        poster,
        course: Course::Served(read, written),
        reason: reason_of(broker, realm, ends, limit),
    }
}

// Keeps what the HELLO asked for, where it may have to be told that this wasn't granted. Where there is no memory for it, it isn't told.
fn note_asked<R: Wait>(rt: &R, broker: Broker<'_>, opened: &Opened) {
    let Broker { alloc, plan, fate } = broker;
    if plan.log.is_none() {
        return;
    }
    if let Some(asked) = asked_of(alloc, plan, opened) {
        fate.note_asked(rt, asked);
    }
}

// What a HELLO asked for. None where there is no memory for it.
fn asked_of(alloc: Global, plan: &Plan, opened: &Opened) -> Option<Asked> {
    let realm = plan.realms.get(opened.realm)?;
    let authid = match &opened.authid {
        Some(authid) => Some(Text::of(alloc, authid.as_str()).ok()?),
        None => None,
    };
    Some(Asked {
        realm: Text::of(alloc, realm.text()).ok()?,
        authid,
    })
}

// Nothing was read or posted, as no writer began.
fn not_begun<O, S: Shut>(poster: Poster<S>, refused: Refused<O>) -> Talked<O, S>
    ensures poster { result.poster ≡ poster }
    ensures course { result.course ≡ course_of refused }
{
    match refused {
        Refused::Memory(sink) => Talked {
            poster,
            course: Course::OpenedAlone(sink),
            reason: CloseReason::NoMemory,
        },
        Refused::Thread(written) => Talked {
            poster,
            course: Course::Served(ReadEnd::NoMemory, written),
            reason: CloseReason::NoThread,
        },
    }
}

// What a session's reader has posted, once it has ended.
#[derive(Drop)]
struct Conversed<S: Shut> {
    poster: Poster<S>,
    read: ReadEnd,
    has_aborted: bool,
    has_greeted: bool,
}

// Asks for the session, and posts what is read, until that is over. Where the Join comes back it is let go of here, so that the writer ends.
fn converse<R: Wait, I: Source, S: Shut>(
    rt: &R,
    broker: Broker<'_>,
    source: &mut I,
    made: Made<S>,
    mut poster: Poster<S>,
) -> Conversed<S>
    requires own { made.joining.outbox.conn ≡ poster_conn poster }
    requires home { made.joining.outbox.chronicle ≡ home_of_poster poster }
    ensures { Converses I.seen (start_of (session_of made.opened))
        made.joining (passage source.old poster) (passage source.new result.poster) result.read }
{
    let Made {
        opened,
        joining,
        pongs,
        in_use,
    } = made;
    if let Err(_) = poster.post(rt, Act::Join(joining), 0) {
        return Conversed {
            poster,
            read: ReadEnd::ActorGone,
            has_aborted: false,
            has_greeted: false,
        };
    }
    let turn = broker.plan.long_turns.of(poster.conn());
    let encoding = EncodingPoster {
        alloc: broker.alloc,
        in_use: &in_use,
        own: opened.serializer,
        using: None,
        poster,
    };
    let mut posting = FarewellPoster {
        poster: PongPoster {
            pongs,
            poster: encoding,
        },
        has_aborted: false,
        has_greeted: false,
        received: 0,
    };
    let mut octets = 0;
    let read = read_counted(
        rt,
        broker.alloc,
        turn,
        source,
        opened,
        &mut posting,
        &mut octets,
    );
    let FarewellPoster {
        poster,
        has_aborted,
        has_greeted,
        received,
    } = posting;
    broker.fate.note_read(received, octets);
    let PongPoster { poster, .. } = poster;
    let EncodingPoster { poster, .. } = poster;
    Conversed {
        poster,
        read,
        has_aborted,
        has_greeted,
    }
}

// How both threads of a session ended.
#[derive(Clone, Copy, Drop)]
struct SessionEnds {
    read: ReadEnd,
    has_aborted: bool,
    has_greeted: bool,
    // Whether a write had failed before the reader ended.
    is_unwritable: bool,
    write: WriteEnd,
    octets: Option<usize>,
}

// Why a session is over.
fn reason_of(broker: Broker<'_>, realm: usize, ends: SessionEnds, limit: u32) -> CloseReason {
    let Broker {
        alloc: _,
        plan,
        fate,
    } = broker;
    let closing = Closing {
        read: ends.read,
        has_aborted: ends.has_aborted,
        has_greeted: ends.has_greeted,
        write: ends.write,
        octets: ends.octets,
        is_admitted: fate.is_admitted(),
        is_full: fate.is_full(),
        is_lost: fate.is_lost(),
        is_unwritable: ends.is_unwritable,
        is_stopping: plan.is_stopping.load(Ordering::SeqCst),
        outbox: plan.outbox,
        limit,
    };
    let reason = closing.reason();
    if let CloseReason::OutboxFull(_) = reason {
        plan.note_cut(realm);
    }
    reason
}

// A session whose writer runs.
#[derive(Drop)]
struct Begun<O: Sink + Drop + Send + 'static, S: Shut + 'static> {
    made: Made<S>,
    writer: PromisedHandle<Written<O>, Doing<Writer<O, S>>>,
}

// Why no writer runs for a session.
#[derive(Drop)]
pub(crate) enum Refused<O> {
    // There was no memory for it.
    Memory(Closed<O>),
    // There was no thread for it: it ran in this one, behind its outbox's end.
    Thread(Written<O>),
}

// Starts the writer of a session. Where no thread can be made for it, it is run here once its outbox is dropped: so it waits for nothing.
fn begin<
    R: Threads + Wait + Clock + Copy + Send + 'static,
    O: Sink + Drop + Send + 'static,
    S: Shut + Send + 'static,
>(rt: R, session: Session<O, S>, poster: &Poster<S>) -> Result<Begun<O, S>, Refused<O>>
    ensures { MatchResult result
        (λ b. IsMade session.entry poster.now b.made b.writer.promise.0.value)
        (λ refused. IsRefused O.seen session.entry poster.now refused) }
{
    let (made, writer) = match make(session, poster) {
        Ok(parts) => parts,
        Err(sink) => return Err(Refused::Memory(sink)),
    };
    let doing = Doing(Snapshot::of(&writer));
    match thread::spawn_with(&rt, doing, move || writer.run(rt)) {
        Ok(writer) => Ok(Begun { made, writer }),
        Err(refused) => {
            drop(made);
            Err(Refused::Thread((refused.value)()))
        }
    }
}

// A session whose writer doesn't run yet.
#[derive(Drop)]
pub(crate) struct Made<S: Shut> {
    opened: Opened,
    joining: Joining<S>,
    pongs: AskedPongs,
    // What the sessions of its realm use.
    in_use: InUse,
}

// What a session begins with, and its writer, of whose sink nothing else is taken. The sink, where memory was refused.
fn make<O: Sink + Drop, S: Shut>(
    session: Session<O, S>,
    poster: &Poster<S>,
) -> Result<(Made<S>, Writer<O, S>), Closed<O>>
    ensures { MatchResult result (λ r. IsMade session.entry poster.now r.0 r.1)
        (λ closed. closed.last.value ≡ session.entry.sink) }
{
    let Session {
        broker,
        transport,
        sink,
        opened,
    } = session;
    let Some((made, tools)) = prepare(broker, transport, opened, poster) else {
        return Err(Closed::of(sink));
    };
    let writer = Writer {
        alloc: broker.alloc,
        plan: tools.plan,
        fate: tools.fate,
        realm: made.opened.realm,
        drain: tools.drain,
        pongs: tools.pongs,
        sink,
        transport: tools.transport,
        serializer: made.opened.serializer,
        limit: made.opened.limit.min(MOST_OCTETS),
    };
    Ok((made, writer))
}

// What a writer has, beside its sink.
#[derive(Drop)]
struct WriterTools<S> {
    plan: Arc<Plan>,
    fate: Arc<Fate>,
    drain: Drain<Item, RealmHistory>,
    pongs: OwedPongs,
    transport: S,
}

// What a session begins with, and what its writer has beside its sink. None where memory was refused.
fn prepare<S: Shut>(
    broker: Broker<'_>,
    transport: &S,
    mut opened: Opened,
    poster: &Poster<S>,
) -> Option<(Made<S>, WriterTools<S>)>
    ensures outbox { IfSome result (λ r. r.0.joining.outbox ≡ new_outbox r.1.drain.queue
        (arc_value broker.entry.plan.now).outbox (poster_conn poster.now)
        (home_of_poster poster.now)) }
    ensures asks { IfSome result (λ r. r.0.joining.authid ≡ (session_of opened).authid) }
    ensures start { IfSome result (λ r. start_of (session_of r.0.opened)
        ≡ start_of (session_of opened)) }
    ensures realm { IfSome result (λ r. r.0.opened.realm ≡ opened.realm) }
    ensures limit { IfSome result (λ r. r.0.opened.limit ≡ opened.limit) }
    ensures drain { IfSome result (λ r. IsNewDrain r.0.joining.outbox.queue
        (arc_value broker.entry.plan.now).outbox (poster_conn poster.now)
        (home_of_poster poster.now) r.1.drain) }
{
    let Broker { alloc, plan, fate } = broker;
    let in_use = plan.in_use.get(opened.realm)?.twin().ok()?;
    let (joining, drain) = joining(alloc, plan, opened.authid.take(), poster, transport)?;
    let (asked, owed) = share_pongs(alloc).ok()?;
    let tools = WriterTools {
        plan: Arc::try_clone(plan).ok()?,
        fate: Arc::try_clone(fate).ok()?,
        drain,
        pongs: owed,
        transport: transport.twin()?,
    };
    let made = Made {
        opened,
        joining,
        pongs: asked,
        in_use,
    };
    Some((made, tools))
}

// What the connection brings to join, with an outbox of its own, whose chronicle the caller picks, and the other end of that.
fn joining<S: Shut>(
    alloc: Global,
    plan: &Plan,
    authid: Option<String>,
    poster: &Poster<S>,
    transport: &S,
) -> Option<(Joining<S>, Drain<Item, RealmHistory>)>
    ghost home: { Option TableId }
    ensures outbox { IfSome result (λ r. r.0.outbox
        ≡ new_outbox r.1.queue plan.now.outbox (poster_conn poster.now) home) }
    ensures authid { IfSome result (λ r. r.0.authid ≡ option_map string_bytes authid) }
    ensures drain { IfSome result (λ r. IsNewDrain r.0.outbox.queue plan.now.outbox
        (poster_conn poster.now) home r.1) }
{
    let (outbox, drain) = pair_of::<Item, RealmHistory>(
        alloc,
        poster.conn().value(),
        plan.outbox,
    ).ok()?;
    let joining = Joining {
        authid: authid.map(Text::from_string),
        outbox,
        transport: transport.twin()?,
    };
    Some((joining, drain))
}
