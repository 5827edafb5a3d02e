//! What the frames say that wait to be heard.
ghost use Rattle.std.specs.Prelude.{◌≡◌, ◌≢◌, ◌≤◌, ◌<◌, Some, IfOk, IfErr, OnOk, OnErr};
ghost use Rattle.rawsocket.specs.Frames.{content, contents};
ghost use Rattle.rawsocket.specs.Steps.{Steps, told_by, write_meter};
ghost use Rattle.client_session.specs.Faults.{write_told};
ghost use Rattle.client_session.specs.Hearing.{Says, SaysNothing, first_kind, stand, terms, ping, HearsFirst, IsUnheard, IsAnswered, StopsAt, PassesFirst, StopsFirst, Gives};

use crate::fault::Fault;
use crate::inbox::BrokerTerms;
use crate::sending::send;
use client_messages::{Heard, read_event, read_heard};
use rawsocket::devices::{Sink, Turns};
use rawsocket::{Frame, Kind, Serializer, write_frame};
use session::decode;
use std::alloc::Global;
use std::collections::VecDeque;

/// What the payload of a message says: of an event at once, and of another message by its tree.
fn read_message(alloc: Global, serializer: Serializer, payload: &[u8]) -> Result<Heard, Fault>
    ensures ok { IfOk result (λ heard. Says serializer payload.now heard) }
    ensures bad { IfErr result (λ f. f ≢ Fault.NoMemory → SaysNothing serializer payload.now f) }
{
    match read_event(alloc, serializer, payload) {
        Ok(heard) => Ok(heard),
        Err(client_messages::Fault::NoMemory) => Err(Fault::NoMemory),
        Err(_) => read_tree(alloc, serializer, payload),
    }
}

/// What the tree of a message says.
fn read_tree(alloc: Global, serializer: Serializer, payload: &[u8]) -> Result<Heard, Fault>
    ensures ok { IfOk result (λ heard. Says serializer payload.now heard) }
    ensures bad { IfErr result (λ f. f ≢ Fault.NoMemory → SaysNothing serializer payload.now f) }
{
    let message = match decode(alloc, serializer, payload) {
        Ok(message) => message,
        Err(session::Fault::NoMemory) => return Err(Fault::NoMemory),
        Err(session::Fault::TooDeep) => return Err(Fault::TooDeep),
        Err(session::Fault::Malformed) => return Err(Fault::Malformed),
        Err(_) => unreachable!(),
    };
    match read_heard(alloc, message) {
        Ok(heard) => Ok(heard),
        Err(client_messages::Fault::NoMemory) => Err(Fault::NoMemory),
        Err(client_messages::Fault::NoBrokerMessage) => Err(Fault::NoBrokerMessage),
        Err(client_messages::Fault::TooDeep) => unreachable!(),
    }
}

/// The kind of the first frame.
fn first_kind(waiting: &VecDeque<Frame>) -> Option<Kind>
    ensures { result ≡ first_kind (contents waiting.now.items) }
{
    match waiting.front() {
        None => None,
        Some(frame) => Some(frame.kind),
    }
}

/// What the first frame says, a message. It stays where it says nothing.
fn hear_first(
    alloc: Global,
    serializer: Serializer,
    waiting: &mut VecDeque<Frame>,
) -> Result<Heard, Fault>
    requires { first_kind (contents waiting.old.items) ≡ Some Kind.Message }
    ensures heard { IfOk result (λ heard. HearsFirst serializer (contents waiting.old.items)
        (contents waiting.new.items) heard) }
    ensures stays { OnErr result (waiting.new.items ≡ waiting.old.items) }
    ensures unheard { IfErr result (λ f.
        IsUnheard serializer (contents waiting.old.items) f) }
{
    let Some(frame) = waiting.front() else {
        unreachable!();
    };
    let heard = match read_message(alloc, serializer, &frame.payload) {
        Ok(heard) => heard,
        Err(fault) => return Err(fault),
    };
    let _ = waiting.pop_front();
    Ok(heard)
}

/// Answers a PING, where the broker takes its octets back.
fn answer_ping<O: Sink>(
    alloc: Global,
    limit: u32,
    payload: &[u8],
    sink: &mut O,
    turns: &mut Turns,
) -> Result<(), Fault>
    requires { limit ≤ 16777215 }
    ensures answered { OnOk result
        (IsAnswered limit (ping payload.now) (O.seen sink.old).taken (O.seen sink.new).taken) }
    ensures stops { IfErr result
        (StopsAt limit (ping payload.now) (O.seen sink.old).taken (O.seen sink.new).taken) }
    ensures writes { Steps (write_meter (O.seen sink.old) turns.old)
        (write_meter (O.seen sink.new) turns.new) (told_by write_told result) }
{
    if payload.len() > limit as usize {
        return Err(Fault::TooLongForBroker);
    }
    let mut out = Vec::new(alloc);
    match write_frame(alloc, Kind::Pong, payload, &mut out) {
        Ok(()) => {}
        Err(rawsocket::Fault::NoMemory) => return Err(Fault::NoMemory),
        Err(_) => unreachable!(),
    }
    send(sink, &out, turns)
}

/// Answers a frame that is no message.
fn answer<O: Sink>(
    alloc: Global,
    limit: u32,
    frame: Frame,
    sink: &mut O,
    turns: &mut Turns,
) -> Result<(), Fault>
    requires fits { limit ≤ 16777215 }
    requires aside { frame.kind ≢ Kind.Message }
    ensures answered { OnOk result
        (IsAnswered limit (content frame) (O.seen sink.old).taken (O.seen sink.new).taken) }
    ensures stops { IfErr result
        (StopsAt limit (content frame) (O.seen sink.old).taken (O.seen sink.new).taken) }
    ensures writes { Steps (write_meter (O.seen sink.old) turns.old)
        (write_meter (O.seen sink.new) turns.new) (told_by write_told result) }
{
    match frame.kind {
        Kind::Message => unreachable!(),
        Kind::Ping => answer_ping(alloc, limit, &frame.payload, sink, turns),
        Kind::Pong => Ok(()),
    }
}

/// Passes over the first frame, which is no message, and answers it.
fn pass_first<O: Sink>(
    alloc: Global,
    limit: u32,
    kind: Kind,
    waiting: &mut VecDeque<Frame>,
    sink: &mut O,
    turns: &mut Turns,
) -> Result<(), Fault>
    requires fits { limit ≤ 16777215 }
    requires first { first_kind (contents waiting.old.items) ≡ Some kind }
    requires aside { kind ≢ Kind.Message }
    ensures passes { OnOk result (PassesFirst limit
        (stand (contents waiting.old.items) (O.seen sink.old).taken)
        (stand (contents waiting.new.items) (O.seen sink.new).taken)) }
    ensures stops { IfErr result (StopsFirst limit
        (stand (contents waiting.old.items) (O.seen sink.old).taken)
        (stand (contents waiting.new.items) (O.seen sink.new).taken)) }
    ensures writes { Steps (write_meter (O.seen sink.old) turns.old)
        (write_meter (O.seen sink.new) turns.new) (told_by write_told result) }
{
    let Some(frame) = waiting.pop_front() else {
        unreachable!();
    };
    answer(alloc, limit, frame, sink, turns)
}

/// What the next message says among the frames that wait. Those before it are answered.
pub(crate) fn hear_waiting<O: Sink>(
    alloc: Global,
    broker: BrokerTerms,
    waiting: &mut VecDeque<Frame>,
    sink: &mut O,
    turns: &mut Turns,
) -> Result<Option<Heard>, Fault>
    requires { broker.limit ≤ 16777215 }
    ensures gives { Gives (terms broker.serializer broker.limit)
        (stand (contents waiting.old.items) (O.seen sink.old).taken)
        (stand (contents waiting.new.items) (O.seen sink.new).taken) result }
    ensures writes { Steps (write_meter (O.seen sink.old) turns.old)
        (write_meter (O.seen sink.new) turns.new) (told_by write_told result) }
{
    'frames: while let Some(kind) = first_kind(waiting) {
        match kind {
            Kind::Message => {
                return match hear_first(alloc, broker.serializer, waiting) {
                    Ok(heard) => Ok(Some(heard)),
                    Err(fault) => Err(fault),
                };
            }
            _ => {
                if let Err(fault) = pass_first(alloc, broker.limit, kind, waiting, sink, turns) {
                    return Err(fault);
                }
            }
        }
    }
    Ok(None)
}
