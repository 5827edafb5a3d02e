//! The accepting thread.
ghost use Rattle.std.specs.Prelude.{◌≡◌, ◌≢◌, ◌≤◌, ◌<◌, ◌+◌, [], ◌∷◌, ◌++◌, length, All, IfOk, MatchOption, None, OnOk};
ghost use Rattle.ghost_state.specs.GhostList.{items_of};
ghost use Rattle.threaded_server.specs.Answers.{Serves};
ghost use Rattle.threaded_server.specs.Histories.{start_of};
ghost use Rattle.threaded_server.specs.Lending.{returned, returned_to, with_returned};
ghost use Rattle.threaded_server.specs.Overs.{GoesOver, Moves};
ghost use Rattle.threaded_server.specs.Realms.{realms_of};
ghost use Rattle.threaded_server.specs.Served.{Served};
ghost use Rattle.threaded_server.specs.Stopping.{NoneStopped, StopsCover, stops_of};
ghost use Rattle.threaded_server.specs.body.Served.{LentUntil};
ghost use Rattle.broker_threads.specs.Streams.{offer, offer_within, sight};
ghost use Rattle.threaded_server.specs.Table.{IsUnused, books};
ghost use Rattle.broker_threads.specs.declared.fate.Marked.{Marked};

use crate::acceptor::{Accepted, Acceptor, Parts};
use crate::connection_table::{Arrival, ConnectionTable};
use crate::opening::open;
use crate::over::Gone;
use broker_config::{Config, Fault};
use broker_threads::told::{tell_failed, tell_refused, tell_stopping};
use broker_threads::{Log, Marked, Plan};
use connection::{InUse, LongTurns};
use log_lines::ConnectionRefusal;
use rawsocket::MessageBound;
use rawsocket::devices::{Sink, Source};
use realm_inbox::Shut;
use std::alloc::{AllocError, Global};
use std::random::RandomSource;
use std::snapshot::Snapshot;
use std::sync::atomic::{AtomicBool, AtomicU64, Ordering};
use std::sync::{Arc, Wait};
use std::thread::Threads;
use std::time::{Clock, CpuClock};
use wamp_ids::Topic;

/// After so many failures in a row nothing is accepted any more.
const MOST_FAILURES: u32 = 100;

/// Serves the realms to the clients of the streams that are accepted, until the acceptor says to stop. Then, and where accepting failed
/// 100 times in a row, every live session gets its GOODBYE (WAMP, "Session Closing"), every other stream is ended, and all threads are
/// waited for: as long as a peer takes nothing of what its session is still owed, this doesn't return.
///
/// Each stream that the acceptor gave comes back to it ([`Acceptor::take_back`]), with what became of it.
///
/// A connection takes the lowest free seat of 256. One for which none is free gets the octets 7F 40 00 00, and is closed. Where memory or a
/// thread is refused for a connection, that connection is closed, and the broker goes on.
///
/// # Errors
/// [`Fault::NoMemory`] where memory, a thread or a seed was refused before anything was accepted; [`Fault::ListenFault`] after 100
/// failures in a row.
pub fn serve_on<
    R: Threads + Wait + Clock + CpuClock + RandomSource + Copy + Send + 'static,
    A: Acceptor,
>(rt: R, alloc: Global, acceptor: &mut A, config: &Config) -> Result<(), Fault>
    requires realms { 0 < length config.now.realms.items }
    requires least { 0 < config.now.outbox }
    requires most { config.now.outbox ≤ 65536 }
    ensures answers { Serves (A.answers acceptor.old) (A.answers acceptor.new) result }
    ensures streams { ∥ Served (Marked A.Shut)
        (sight A.Source.seen A.Sink.seen)
        (offer config.now.realms.items config.now.outbox) (start_of config.now)
        (A.answers acceptor.old) (A.answers acceptor.new) (A.lending acceptor.old)
        (A.lending acceptor.new) (A.asked acceptor.new) ∥₁ }
{
    serve_logged(rt, alloc, acceptor, config, None)
}

/// The same, where what happens to connections is told to a log, if there is one.
///
/// # Errors
/// As for [`serve_on`].
pub fn serve_logged<
    R: Threads + Wait + Clock + CpuClock + RandomSource + Copy + Send + 'static,
    A: Acceptor,
>(rt: R, alloc: Global, acceptor: &mut A, config: &Config, log: Option<Log>) -> Result<(), Fault>
    requires realms { 0 < length config.now.realms.items }
    requires least { 0 < config.now.outbox }
    requires most { config.now.outbox ≤ 65536 }
    ensures answers { Serves (A.answers acceptor.old) (A.answers acceptor.new) result }
    ensures streams { ∥ Served (Marked A.Shut)
        (sight A.Source.seen A.Sink.seen)
        (offer config.now.realms.items config.now.outbox) (start_of config.now)
        (A.answers acceptor.old) (A.answers acceptor.new) (A.lending acceptor.old)
        (A.lending acceptor.new) (A.asked acceptor.new) ∥₁ }
{
    serve_within(rt, alloc, acceptor, config, MessageBound::largest(), log)
}

/// The same, where the messages of clients have to be within this bound, which the reply to their handshake says
/// (WAMP, "RawSocket Transport").
///
/// # Errors
/// As for [`serve_on`].
pub fn serve_within<
    R: Threads + Wait + Clock + CpuClock + RandomSource + Copy + Send + 'static,
    A: Acceptor,
>(
    rt: R,
    alloc: Global,
    acceptor: &mut A,
    config: &Config,
    bound: MessageBound,
    log: Option<Log>,
) -> Result<(), Fault>
    requires realms { 0 < length config.now.realms.items }
    requires least { 0 < config.now.outbox }
    requires most { config.now.outbox ≤ 65536 }
    ensures answers { Serves (A.answers acceptor.old) (A.answers acceptor.new) result }
    ensures streams { ∥ Served (Marked A.Shut)
        (sight A.Source.seen A.Sink.seen)
        (offer_within bound config.now.realms.items config.now.outbox) (start_of config.now)
        (A.answers acceptor.old) (A.answers acceptor.new) (A.lending acceptor.old)
        (A.lending acceptor.new) (A.asked acceptor.new) ∥₁ }
{
    let plan = plan_of(alloc, config, bound, log)?;
    let mut connection_table = ConnectionTable::new(alloc, plan)?;
    let served = open_and_accept(rt, acceptor, &mut connection_table, config);
    tell_stopping(&rt, &connection_table.plan.log, &served);
    stop(&rt, &mut connection_table);
    join_all(&rt, acceptor, &mut connection_table);
    connection_table.finish(&rt);
    served
}

// Starts the realms' actors, and accepts streams until there is an end to it.
fn open_and_accept<
    R: Threads + Wait + Clock + CpuClock + RandomSource + Copy + Send + 'static,
    A: Acceptor,
>(
    rt: R,
    acceptor: &mut A,
    connection_table: &mut ConnectionTable<A::Source, A::Sink, Marked<A::Shut>>,
    config: &Config,
) -> Result<(), Fault>
    requires config { connection_table.old.roster.over.plan.value.config.value ≡ config.now }
    requires realms { connection_table.old.roster.over.plan.value.realms.items
        ≡ config.now.realms.items }
    requires none { realms_of connection_table.old.realms ≡ [] }
    requires unused { IsUnused connection_table.old.roster.entries.items
        (items_of connection_table.old.roster.over.streams) }
    ensures lent { LentUntil (A.answers acceptor.old) (A.answers acceptor.new)
        (A.lending acceptor.old) (A.lending acceptor.new)
        (books connection_table.old.roster.lent connection_table.old.roster.over.streams)
        (books connection_table.new.roster.lent connection_table.new.roster.over.streams) result }
    ensures plan { connection_table.new.roster.over.plan ≡ connection_table.old.roster.over.plan }
    ensures realms { result ≢ Err Fault.NoMemory
        → length (realms_of connection_table.new.realms) ≡ length config.now.realms.items }
    ensures stops { NoneStopped (stops_of connection_table.old.doors)
        → NoneStopped (stops_of connection_table.new.doors) }
    ensures asked { result ≢ Err Fault.NoMemory
        → A.asked acceptor.new ≡ length (returned_to (A.lending acceptor.new)) }
{
    if let Err(_) = open(rt, connection_table, config) {
        return Err(Fault::NoMemory);
    }
    accept_all(rt, acceptor, connection_table)
}

fn copies_of(alloc: Global, realms: &[Topic]) -> Result<Vec<Topic>, AllocError>
    ensures { IfOk result (λ copies. copies.items ≡ realms.now) }
{
    let mut copies = Vec::with_capacity(alloc, realms.len())?;
    for realm in realms {
        copies.push(realm.try_copy(alloc)?)?;
    }
    Ok(copies)
}

// For each of so many realms, that nobody uses any serialization.
fn counts_of(alloc: Global, realms: usize) -> Result<Vec<InUse>, AllocError> {
    let mut counts = Vec::with_capacity(alloc, realms)?;
    for _ in 0..realms {
        counts.push(InUse::new(alloc)?)?;
    }
    Ok(counts)
}

fn plan_of(
    alloc: Global,
    config: &Config,
    bound: MessageBound,
    log: Option<Log>,
) -> Result<Plan, AllocError>
    requires least { 0 < config.now.outbox }
    requires most { config.now.outbox ≤ 65536 }
    ensures realms { IfOk result (λ plan. plan.realms.items ≡ config.now.realms.items) }
    ensures config { IfOk result (λ plan. plan.config.value ≡ config.now) }
    ensures bound { IfOk result (λ plan. plan.bound ≡ bound) }
{
    let realms = copies_of(alloc, &config.realms)?;
    let in_use = counts_of(alloc, realms.len())?;
    Ok(Plan {
        config: Snapshot::of(config),
        realms,
        in_use,
        outbox: config.outbox,
        bound,
        long_turns: LongTurns::new(),
        log,
        is_stopping: AtomicBool::new(false),
        connections: AtomicU64::new(0),
    })
}

// Accepts streams until there is an end to it.
fn accept_all<R: Threads + Wait + Clock + Copy + Send + 'static, A: Acceptor>(
    rt: R,
    acceptor: &mut A,
    connection_table: &mut ConnectionTable<A::Source, A::Sink, Marked<A::Shut>>,
) -> Result<(), Fault>
    ensures lent { LentUntil (A.answers acceptor.old) (A.answers acceptor.new)
        (A.lending acceptor.old) (A.lending acceptor.new)
        (books connection_table.old.roster.lent connection_table.old.roster.over.streams)
        (books connection_table.new.roster.lent connection_table.new.roster.over.streams) result }
    ensures plan { connection_table.new.roster.over.plan ≡ connection_table.old.roster.over.plan }
    ensures realms { length (realms_of connection_table.new.realms)
        ≡ length (realms_of connection_table.old.realms) }
    ensures stops { stops_of connection_table.new.doors ≡ stops_of connection_table.old.doors }
    ensures asked { A.asked acceptor.new ≡ length (returned_to (A.lending acceptor.new)) }
{
    let mut failures: u32 = 0;
    'accepting: for _ in rt.forever() {
        match acceptor.accept() {
            Accepted::Stream(stream) => {
                failures = 0;
                reap(&rt, acceptor, connection_table);
                receive(rt, acceptor, connection_table, stream);
            }
            Accepted::Stop => return Ok(()),
            Accepted::Failed => {
                failures += 1;
                tell_failure(&rt, acceptor, &connection_table.plan);
                if failures >= MOST_FAILURES {
                    return Err(Fault::ListenFault);
                }
                reap(&rt, acceptor, connection_table);
                acceptor.pause(failures);
            }
        }
    }
    unreachable!()
}

// Takes back what is left of a stream, if it is over.
fn take_back<A: Acceptor>(acceptor: &mut A, gone: Option<Gone<A::Source, A::Sink>>)
    ensures answers { A.answers acceptor.new ≡ A.answers acceptor.old }
    ensures asked { A.asked acceptor.new ≡ A.asked acceptor.old }
    ensures lending { MatchOption gone (A.lending acceptor.new ≡ A.lending acceptor.old)
        (λ gone. A.lending acceptor.new ≡ with_returned (A.lending acceptor.old)
        (returned gone.source.last.value gone.sink.last.value gone.fate)) }
{
    if let Some(Gone { source, sink, fate }) = gone {
        acceptor.take_back(source, sink, fate);
    }
}

// Joins the readers that are over, and frees their seats.
fn reap<R: Threads + Wait, A: Acceptor>(
    rt: &R,
    acceptor: &mut A,
    connection_table: &mut ConnectionTable<A::Source, A::Sink, Marked<A::Shut>>,
)
    ensures answers { A.answers acceptor.new ≡ A.answers acceptor.old }
    ensures moves { Moves 0 (A.lending acceptor.old) (A.lending acceptor.new)
        (books connection_table.old.roster.lent connection_table.old.roster.over.streams)
        (books connection_table.new.roster.lent connection_table.new.roster.over.streams) }
    ensures plan { connection_table.new.roster.over.plan ≡ connection_table.old.roster.over.plan }
    ensures realms { length (realms_of connection_table.new.realms)
        ≡ length (realms_of connection_table.old.realms) }
    ensures stops { stops_of connection_table.new.doors ≡ stops_of connection_table.old.doors }
{
    for place in 0..connection_table.places() {
        let gone = connection_table.reap(rt, place);
        take_back(acceptor, gone);
    }
}

// Waits for all threads of connections.
fn join_all<R: Threads + Wait, A: Acceptor>(
    rt: &R,
    acceptor: &mut A,
    connection_table: &mut ConnectionTable<A::Source, A::Sink, Marked<A::Shut>>,
)
    ensures answers { A.answers acceptor.new ≡ A.answers acceptor.old }
    ensures asked { A.asked acceptor.new ≡ A.asked acceptor.old }
    ensures moves { Moves 0 (A.lending acceptor.old) (A.lending acceptor.new)
        (books connection_table.old.roster.lent connection_table.old.roster.over.streams)
        (books connection_table.new.roster.lent connection_table.new.roster.over.streams) }
    ensures plan { connection_table.new.roster.over.plan ≡ connection_table.old.roster.over.plan }
    ensures realms { length (realms_of connection_table.new.realms)
        ≡ length (realms_of connection_table.old.realms) }
    ensures stops { stops_of connection_table.new.doors ≡ stops_of connection_table.old.doors }
    ensures none { All (λ slot. slot ≡ None) connection_table.new.roster.entries.items }
{
    for place in 0..connection_table.places() {
        let gone = connection_table.release(rt, place);
        take_back(acceptor, gone);
    }
}

// Takes a stream apart, and admits it.
fn receive<R: Threads + Wait + Clock + Copy + Send + 'static, A: Acceptor>(
    rt: R,
    acceptor: &mut A,
    connection_table: &mut ConnectionTable<A::Source, A::Sink, Marked<A::Shut>>,
    stream: A::Stream,
)
    ensures answers { A.answers acceptor.new ≡ A.answers acceptor.old }
    ensures moves { Moves 1 (A.lending acceptor.old) (A.lending acceptor.new)
        (books connection_table.old.roster.lent connection_table.old.roster.over.streams)
        (books connection_table.new.roster.lent connection_table.new.roster.over.streams) }
    ensures plan { connection_table.new.roster.over.plan ≡ connection_table.old.roster.over.plan }
    ensures realms { length (realms_of connection_table.new.realms)
        ≡ length (realms_of connection_table.old.realms) }
    ensures stops { stops_of connection_table.new.doors ≡ stops_of connection_table.old.doors }
{
    let peer = peer_of(acceptor, &connection_table.plan, &stream);
    match acceptor.split(connection_table.alloc, stream) {
        Ok(parts) => {
            let gone = admit(rt, connection_table, parts, peer);
            take_back(acceptor, gone);
        }
        Err(_) => tell_refused(
            &rt,
            &connection_table.plan.log,
            &peer,
            ConnectionRefusal::NoMemory,
        ),
    }
}

// Who is at the other end of a stream, in words, where anybody is told.
fn peer_of<A: Acceptor>(acceptor: &A, plan: &Plan, stream: &A::Stream) -> Option<String> {
    match &plan.log {
        Some(log) => acceptor.peer(log.alloc(), stream),
        None => None,
    }
}

// Tells why accepting failed, where anybody is told.
fn tell_failure<R: Wait + Clock, A: Acceptor>(rt: &R, acceptor: &A, plan: &Plan) {
    if let Some(log) = &plan.log {
        tell_failed(rt, log, &acceptor.failure(log.alloc()));
    }
}

// Admits a stream, whose handle marks the fate of its connection from now on. Where memory is refused it is closed. What is left of it,
// where it is closed.
fn admit<
    R: Threads + Wait + Clock + Copy + Send + 'static,
    I: Source + Drop + Send + 'static,
    O: Sink + Drop + Send + 'static,
    S: Shut + Send + 'static,
>(
    rt: R,
    connection_table: &mut ConnectionTable<I, O, Marked<S>>,
    parts: Parts<I, O, S>,
    peer: Option<String>,
) -> Option<Gone<I, O>>
    ensures plan { connection_table.new.roster.over.plan ≡ connection_table.old.roster.over.plan }
    ensures realms { length (realms_of connection_table.new.realms)
        ≡ length (realms_of connection_table.old.realms) }
    ensures stops { stops_of connection_table.new.doors ≡ stops_of connection_table.old.doors }
    ensures lent { items_of connection_table.new.roster.lent
        ≡ items_of connection_table.old.roster.lent
        ++ (parts.source, parts.sink) ∷ [] }
    ensures over { GoesOver (items_of connection_table.old.roster.over.streams)
        (items_of connection_table.new.roster.over.streams) result }
{
    let Parts { source, sink, shut } = parts;
    let Ok((shut, fate)) = Marked::new(connection_table.alloc, shut) else {
        tell_refused(
            &rt,
            &connection_table.plan.log,
            &peer,
            ConnectionRefusal::NoMemory,
        );
        return Some(connection_table.let_go((source, sink)));
    };
    let parts = Parts { source, sink, shut };
    connection_table.admit(rt, Arrival { parts, fate, peer })
}

// Stops the actors, and ends the streams that no session's writer will end. What the streams posted that are over was handled whole before.
// Each actor turns away what is posted behind its stop until it is told once more to stop, which is last of all: so no thread waits for
// what nobody would do.
fn stop<
    R: Threads + Wait,
    I: Source + Drop + Send + 'static,
    O: Sink + Drop + Send + 'static,
    S: Shut + Send + 'static,
>(rt: &R, connection_table: &mut ConnectionTable<I, O, S>)
    ensures roster { connection_table.new.roster ≡ connection_table.old.roster }
    ensures realms { length (realms_of connection_table.new.realms)
        ≡ length (realms_of connection_table.old.realms) }
    ensures stops { NoneStopped (stops_of connection_table.old.doors)
        → ∥ StopsCover (items_of connection_table.old.roster.over.streams)
        (stops_of connection_table.new.doors) ∥₁ }
{
    connection_table
        .plan
        .is_stopping
        .store(true, Ordering::SeqCst);
    connection_table.stop_actors(rt);
    connection_table.shut_unheld(rt);
}
