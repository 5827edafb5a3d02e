//! What the frames of a client decide up to its HELLO.
ghost use Rattle.std.specs.Prelude.{◌≡◌, ◌≢◌, ◌≤◌, ◌<◌, ◌++◌, ◌∷◌, [], Some, Ok, true, false, length, option_map, string_bytes, IfOk, IfErr, OnOk};
ghost use Rattle.rawsocket.specs.Frames.{contents, spelled};
ghost use Rattle.session.specs.Opened.{Asks, IsRefused, Leads, abort_frame, pong, refusal, terms};
ghost use Rattle.session.specs.FrameWalk.{Adds, AddsFor, verdict_of};

use crate::fault::Fault;
use crate::messages::from_client::read_payload;
use crate::messages::to_client::farewell;
use crate::opening::first_message::{abort_reason, first_noting};
use crate::opening::hello::{Asked, First};
use crate::wire::serializer::{decode, encode};
use rawsocket::{Frame, Kind, Serializer, write_frame};
use std::alloc::{AllocError, Global};
use std::collections::VecDeque;
use wamp_ids::Topic;
use wamp_messages::Reason;

/// A client, by its handshake and the reply to it.
#[derive(Clone, Copy, Drop)]
pub(crate) struct Client {
    /// How messages are serialized.
    pub serializer: Serializer,
    /// How many octets it takes in one payload.
    pub limit: u32,
    /// How many octets a payload may have at most that it sends.
    pub most: usize,
}

/// What frames decide.
#[derive(Drop)]
pub(crate) enum Verdict {
    /// Nothing so far.
    Undecided,
    /// A session is opened, and these frames stand behind its HELLO.
    Opens(First, Vec<Frame>),
    /// It is refused.
    Refuses(Fault),
}

/// What the payload of a first message asks for.
fn ask(
    alloc: Global,
    serializer: Serializer,
    realms: &[Topic],
    payload: &[u8],
    asked: &mut Option<Asked>,
) -> Result<First, Fault>
    ensures ok { IfOk result (λ f. Asks serializer realms.now
        payload.now (f.realm, option_map string_bytes f.authid)) }
    ensures refused { IfErr result (λ f. f ≢ Fault.NoMemory
        → IsRefused serializer realms.now payload.now f) }
{
    let said = match read_payload(alloc, serializer, payload) {
        Ok(said) => said,
        Err(fault) => return Err(fault),
    };
    first_noting(said, realms, asked)
}

/// Writes the frame of an ABORT at the end.
fn write_abort(
    alloc: Global,
    serializer: Serializer,
    reason: Reason,
    out: &mut Vec<u8>,
) -> Result<(), AllocError>
    ensures ok { OnOk result (out.new.items ≡ out.old.items ++ abort_frame
        serializer (Some reason)) }
{
    let message = farewell(alloc, 3, reason)?;
    let payload = encode(alloc, serializer, &message)?;
    match write_frame(alloc, Kind::Message, &payload, out) {
        Ok(()) => Ok(()),
        Err(_) => Err(AllocError),
    }
}

/// Refuses a session, and tells the client why where it is told at all.
pub(crate) fn refuse(
    alloc: Global,
    serializer: Serializer,
    fault: Fault,
    out: &mut Vec<u8>,
) -> Result<Verdict, AllocError>
    ensures verdict { IfOk result (λ v. verdict_of v ≡ verdict_of (Verdict.Refuses fault)) }
    ensures told { OnOk result (out.new.items ≡ out.old.items ++ refusal serializer fault) }
{
    if let Some(reason) = abort_reason(fault) {
        write_abort(alloc, serializer, reason, out)?;
    }
    Ok(Verdict::Refuses(fault))
}

/// What a first message decides, with the frames behind it.
fn decide(
    alloc: Global,
    client: Client,
    realms: &[Topic],
    payload: &[u8],
    early: Vec<Frame>,
    out: &mut Vec<u8>,
    asked: &mut Option<Asked>,
) -> Result<Verdict, AllocError>
    ensures decided { IfOk result (λ v. AddsFor
        (terms client.serializer client.limit realms.now)
        (record { kind = Kind.Message; payload = payload.now } ∷ contents early.items)
        out.old.items out.new.items (verdict_of v)) }
{
    match ask(alloc, client.serializer, realms, payload, asked) {
        Ok(first) => Ok(Verdict::Opens(first, early)),
        Err(Fault::NoMemory) => Err(AllocError),
        Err(fault) => refuse(alloc, client.serializer, fault, out),
    }
}

/// Answers a PING, unless the client takes fewer octets.
fn answer_ping(
    alloc: Global,
    limit: u32,
    payload: &[u8],
    out: &mut Vec<u8>,
) -> Result<bool, AllocError>
    requires { limit ≤ 16777215 }
    ensures answered { result ≡ Ok true → (length payload.now ≤ limit)
        × (out.new.items ≡ out.old.items ++ spelled (pong payload.now)) }
    ensures long { result ≡ Ok false → (limit < length payload.now)
        × (out.new.items ≡ out.old.items) }
{
    if payload.len() > limit as usize {
        return Ok(false);
    }
    match write_frame(alloc, Kind::Pong, payload, out) {
        Ok(()) => Ok(true),
        Err(rawsocket::Fault::NoMemory) => Err(AllocError),
        Err(_) => unreachable!(),
    }
}

/// What a rest behind the last frame decides, where it is at fault.
fn judge_rest(
    alloc: Global,
    serializer: Serializer,
    fault: Option<rawsocket::Fault>,
    out: &mut Vec<u8>,
) -> Result<Verdict, AllocError>
    ensures decided { IfOk result (λ v. Adds (Leads (terms serializer 0 []) fault [])
        out.old.items out.new.items (verdict_of v)) }
{
    match fault {
        None => Ok(Verdict::Undecided),
        Some(fault) => refuse(alloc, serializer, Fault::from(fault), out),
    }
}

/// What frames decide, and the fault of what stands behind them; what is to be written is added to
/// the output.
pub(crate) fn judge(
    alloc: Global,
    client: Client,
    realms: &[Topic],
    frames: Vec<Frame>,
    fault: Option<rawsocket::Fault>,
    out: &mut Vec<u8>,
    asked: &mut Option<Asked>,
) -> Result<Verdict, AllocError>
    requires { client.limit ≤ 16777215 }
    ensures decided { IfOk result (λ v. Adds
        (Leads (terms client.serializer client.limit realms.now) fault (contents frames.items))
        out.old.items out.new.items (verdict_of v)) }
{
    let mut left = VecDeque::from_vec(frames);
    while let Some(frame) = left.pop_front() {
        match frame.kind {
            Kind::Pong => {}
            Kind::Ping => match answer_ping(alloc, client.limit, &frame.payload, out) {
                Ok(true) => {}
                Ok(false) => return Ok(Verdict::Refuses(Fault::TooLongForClient)),
                Err(fault) => return Err(fault),
            },
            Kind::Message => {
                return decide(
                    alloc,
                    client,
                    realms,
                    &frame.payload,
                    left.into_vec(),
                    out,
                    asked,
                );
            }
        }
    }
    judge_rest(alloc, client.serializer, fault, out)
}
