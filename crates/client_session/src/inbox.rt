//! What came from the broker and is not heard yet, and what comes next.
ghost use Rattle.std.specs.Prelude.{◌≡◌, ◌≢◌, ◌≤◌, ◌<◌, ◌+◌, [], length, IfOk, IfErr, IfSome, IfNone, OnOk, OnErr, Err, Some, None, true};
ghost use Rattle.rawsocket.specs.Frames.{contents, fault_of, Reads};
ghost use Rattle.rawsocket.specs.Steps.{Fine, Steps, read_meter, told_by, write_meter};
ghost use Rattle.client_session.specs.Faults.{read_told, write_told};
ghost use Rattle.client_session.specs.Hearing.{ReadsMore, ReadStops, IsLost, HearsNext, ListensNext, ear, terms, client_takes};

use crate::fault::Fault;
use crate::hearing::hear_waiting;
use client_messages::Heard;
use rawsocket::devices::{Sink, Source, Turns, read_piece};
use rawsocket::{Deframer, Frame, Serializer};
use std::alloc::Global;
use std::collections::VecDeque;

/// A broker, by its handshake.
#[derive(Clone, Copy, Drop)]
pub(crate) struct BrokerTerms {
    /// How messages are serialized.
    pub serializer: Serializer,
    /// How many octets it takes in one payload.
    pub limit: u32,
}

/// What came and is not heard yet: whole frames, and the octets behind them.
#[derive(Drop)]
pub(crate) struct UnheardFrames {
    pub waiting: VecDeque<Frame>,
    pub deframer: Deframer,
}

/// Why the octets that are held can't become a frame.
fn held_fault(deframer: &Deframer) -> Option<Fault>
    requires { deframer.now.most ≡ client_takes }
    ensures fault { IfSome result (λ f. ReadStops deframer.now.held f) }
    ensures none { IfNone result (fault_of client_takes deframer.now.held ≡ None) }
    ensures which { IfSome result (λ f. read_told f ≡ Fine) }
    ensures memory { result ≢ Some Fault.NoMemory }
    ensures ended { result ≢ Some Fault.Ended }
{
    match deframer.fault() {
        None => None,
        Some(rawsocket::Fault::FrameType) => Some(Fault::FrameType),
        Some(rawsocket::Fault::FrameTooLong) => Some(Fault::FrameTooLong),
        Some(_) => unreachable!(),
    }
}

/// The frames that the next octets of the stream complete. Octets at fault end the reading.
fn read_more<I: Source>(
    alloc: Global,
    deframer: &mut Deframer,
    source: &mut I,
    buffer: &mut [u8],
    turns: &mut Turns,
) -> Result<VecDeque<Frame>, Fault>
    requires some { 0 < length buffer.old }
    requires most { deframer.old.most ≡ client_takes }
    ensures most { deframer.new.most ≡ client_takes }
    ensures more { IfOk result (λ frames. ReadsMore deframer.old.held deframer.new.held
        (I.seen source.old).given (I.seen source.new).given (contents frames.items)) }
    ensures same { OnErr result (deframer.new ≡ deframer.old) }
    ensures stops { IfErr result (ReadStops deframer.old.held) }
    ensures lost { IfErr result (IsLost (I.seen source.old).given (I.seen source.new).given) }
    ensures ended { result ≡ Err Fault.Ended → (I.seen source.new).is_ended ≡ true }
    ensures turn { OnOk result (turns.old ≡ turns.new + 1) }
    ensures reads { Steps (read_meter (I.seen source.old) turns.old)
        (read_meter (I.seen source.new) turns.new) (told_by read_told result) }
{
    if let Some(fault) = held_fault(deframer) {
        return Err(fault);
    }
    let count = match read_piece(source, buffer, turns) {
        Ok(count) => count,
        Err(none) => return Err(Fault::from(none)),
    };
    match deframer.feed(alloc, &buffer[..count]) {
        Ok(fed) => Ok(VecDeque::from_vec(fed.frames)),
        Err(_) => Err(Fault::NoMemory),
    }
}

/// What the next message says of the frames that wait; or of those that one read completes, where none waits. It may say that none
/// is here yet.
pub(crate) fn listen_next<I: Source, O: Sink>(
    alloc: Global,
    broker: BrokerTerms,
    inbox: &mut UnheardFrames,
    source: &mut I,
    sink: &mut O,
    buffer: &mut [u8],
    reading: &mut Turns,
    writing: &mut Turns,
) -> Result<Option<Heard>, Fault>
    requires fits { broker.limit ≤ 16777215 }
    requires some { 0 < length buffer.old }
    requires most { inbox.old.deframer.most ≡ client_takes }
    requires steady { Reads client_takes inbox.old.deframer.held [] inbox.old.deframer.held }
    ensures most { inbox.new.deframer.most ≡ client_takes }
    ensures next { ListensNext (terms broker.serializer broker.limit) (ear
        (contents inbox.old.waiting.items) inbox.old.deframer.held (I.seen source.old).given
        (O.seen sink.old).taken) (ear (contents inbox.new.waiting.items) inbox.new.deframer.held
        (I.seen source.new).given (O.seen sink.new).taken) result }
    ensures unread { contents inbox.old.waiting.items ≢ [] →
        I.seen source.new ≡ I.seen source.old }
    ensures once { OnOk result (contents inbox.old.waiting.items ≡ [] →
        (I.seen source.new).calls ≡ (I.seen source.old).calls + 1) }
    ensures ended { result ≡ Err Fault.Ended → (I.seen source.new).is_ended ≡ true }
    ensures reads { Steps (read_meter (I.seen source.old) reading.old)
        (read_meter (I.seen source.new) reading.new) (told_by read_told result) }
    ensures writes { Steps (write_meter (O.seen sink.old) writing.old)
        (write_meter (O.seen sink.new) writing.new) (told_by write_told result) }
{
    if inbox.waiting.is_empty() {
        match read_more(alloc, &mut inbox.deframer, source, buffer, reading) {
            Ok(frames) => inbox.waiting = frames,
            Err(fault) => return Err(fault),
        }
    }
    hear_waiting(alloc, broker, &mut inbox.waiting, sink, writing)
}

/// What the next message says of the frames that wait and of those that come.
pub(crate) fn hear_next<I: Source, O: Sink>(
    alloc: Global,
    broker: BrokerTerms,
    inbox: &mut UnheardFrames,
    source: &mut I,
    sink: &mut O,
    buffer: &mut [u8],
    reading: &mut Turns,
    writing: &mut Turns,
) -> Result<Heard, Fault>
    requires fits { broker.limit ≤ 16777215 }
    requires some { 0 < length buffer.old }
    requires most { inbox.old.deframer.most ≡ client_takes }
    requires steady { Reads client_takes inbox.old.deframer.held [] inbox.old.deframer.held }
    ensures most { inbox.new.deframer.most ≡ client_takes }
    ensures next { HearsNext (terms broker.serializer broker.limit) (ear
        (contents inbox.old.waiting.items) inbox.old.deframer.held (I.seen source.old).given
        (O.seen sink.old).taken) (ear (contents inbox.new.waiting.items) inbox.new.deframer.held
        (I.seen source.new).given (O.seen sink.new).taken) result }
    ensures ended { result ≡ Err Fault.Ended → (I.seen source.new).is_ended ≡ true }
    ensures reads { Steps (read_meter (I.seen source.old) reading.old)
        (read_meter (I.seen source.new) reading.new) (told_by read_told result) }
    ensures writes { Steps (write_meter (O.seen sink.old) writing.old)
        (write_meter (O.seen sink.new) writing.new) (told_by write_told result) }
{
    'looks: loop {
        match listen_next(alloc, broker, inbox, source, sink, buffer, reading, writing) {
            Ok(Some(heard)) => return Ok(heard),
            Ok(None) => {}
            Err(fault) => return Err(fault),
        }
    }
}
