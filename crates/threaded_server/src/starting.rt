//! How the reader of a stream is started.
ghost use Rattle.std.specs.Prelude.{◌≡◌, IfSome, MatchResult};
ghost use Rattle.std.specs.Arc.{arc_value};
ghost use Rattle.threaded_server.specs.Starting.{Runs, Starts};
ghost use Rattle.broker_threads.specs.Streams.{Reads, sight};

use crate::acceptor::Parts;
use crate::entry::Connection;
use broker_threads::handover::{Posters, SharedTransport};
use broker_threads::work::Doing;
use broker_threads::{Ended, Fate, Plan, Reader};
use rawsocket::devices::{Sink, Source};
use realm_inbox::Shut;
use std::alloc::Global;
use std::snapshot::Snapshot;
use std::sync::atomic::{AtomicBool, Ordering};
use std::sync::{Arc, Wait};
use std::thread::{self, PromisedHandle, Threads};
use std::time::Clock;
use wamp_ids::Conn;

/// A connection that is to begin.
#[derive(Drop)]
pub struct Newcomer<I, O, S: Shut> {
    pub conn: Conn,
    pub parts: Parts<I, O, S>,
    pub fate: Arc<Fate>,
    /// One of each realm.
    pub posters: Posters<S>,
}

/// How the reader of a stream was started.
#[derive(Drop)]
pub enum Started<
    I: Source + Drop + Send + 'static,
    O: Sink + Drop + Send + 'static,
    S: Shut + Send + 'static,
> {
    /// Its thread runs.
    Runs(Snapshot<(I, O)>, Connection<I, O, S>),
    /// No thread could be made for it: it gave back what it had.
    Ended(Snapshot<(I, O)>, Snapshot<Reader<I, O, S>>, Ended<I, O, S>),
    /// Memory was refused for it.
    Refused((I, O), Posters<S>),
}

// What a reader has of a stream beside its halves, and what the accepting thread keeps.
#[derive(Drop)]
struct ReaderTools<S> {
    plan: Arc<Plan>,
    transport: S,
    ours: SharedTransport<S>,
    theirs: SharedTransport<S>,
}

/// Starts the reader of a connection.
pub fn start<
    R: Threads + Wait + Clock + Copy + Send + 'static,
    I: Source + Drop + Send + 'static,
    O: Sink + Drop + Send + 'static,
    S: Shut + Send + 'static,
>(rt: R, alloc: Global, plan: &Arc<Plan>, newcomer: Newcomer<I, O, S>) -> Started<I, O, S>
    ensures { Starts (sight I.seen O.seen)
        (arc_value plan.now) newcomer.conn (newcomer.parts.source, newcomer.parts.sink)
        newcomer.posters.items result }
{
    let Newcomer {
        conn,
        parts,
        fate,
        posters,
    } = newcomer;
    let Parts { source, sink, shut } = parts;
    let halves = (source, sink);
    let Some(tools) = tools_of(alloc, plan, shut) else {
        return Started::Refused(halves, posters);
    };
    let lent = Snapshot::of(&halves);
    let (source, sink) = halves;
    let reader = Reader {
        alloc,
        plan: tools.plan,
        conn,
        fate,
        source,
        sink,
        posters,
        transport: tools.transport,
        shared: tools.theirs,
    };
    run(rt, lent, reader, tools.ours)
}

// What a reader has of a stream, beside its halves. None where memory was refused: the stream's handle is gone then.
fn tools_of<S: Shut>(alloc: Global, plan: &Arc<Plan>, shut: S) -> Option<ReaderTools<S>>
    ensures { IfSome result (λ tools. arc_value tools.plan ≡ arc_value plan.now) }
{
    let transport = shut.twin()?;
    let ours = SharedTransport::new(alloc, shut).ok()?;
    Some(ReaderTools {
        plan: Arc::try_clone(plan).ok()?,
        transport,
        theirs: ours.another().ok()?,
        ours,
    })
}

// Starts the thread of a reader. Where none can be made it has given back what it had.
fn run<
    R: Threads + Wait + Clock + Copy + Send + 'static,
    I: Source + Drop + Send + 'static,
    O: Sink + Drop + Send + 'static,
    S: Shut + Send + 'static,
>(
    rt: R,
    lent: Snapshot<(I, O)>,
    reader: Reader<I, O, S>,
    ours: SharedTransport<S>,
) -> Started<I, O, S>
    requires { lent.value ≡ (reader.source, reader.sink) }
    ensures { Runs (sight I.seen O.seen)
        reader result }
{
    let conn = reader.conn;
    let began = Snapshot::of(&reader);
    match start_reader(rt, reader, &ours.is_over) {
        Ok(reader) => Started::Runs(
            lent,
            Connection {
                conn,
                shared: ours,
                began,
                reader,
            },
        ),
        Err(ended) => Started::Ended(lent, began, ended),
    }
}

// Starts the thread of a reader. Where no thread can be made the reader is run here, which is told first that it is over: so it gives back
// what it has at once.
fn start_reader<
    R: Threads + Wait + Clock + Copy + Send + 'static,
    I: Source + Drop + Send + 'static,
    O: Sink + Drop + Send + 'static,
    S: Shut + Send + 'static,
>(
    rt: R,
    reader: Reader<I, O, S>,
    is_over: &AtomicBool,
) -> Result<PromisedHandle<Ended<I, O, S>, Doing<Reader<I, O, S>>>, Ended<I, O, S>>
    ensures { MatchResult result (λ thread. thread.promise.0.value ≡ reader)
        (λ ended. Reads (sight I.seen O.seen)
        reader ended) }
{
    let doing = Doing(Snapshot::of(&reader));
    match thread::spawn_with(&rt, doing, move || reader.run(rt)) {
        Ok(thread) => Ok(thread),
        Err(refused) => {
            is_over.store(true, Ordering::SeqCst);
            Err((refused.value)())
        }
    }
}
