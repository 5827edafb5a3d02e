//! The handshake with a broker (WAMP, "RawSocket Transport").
ghost use Rattle.std.specs.Prelude.{◌≡◌, ◌≢◌, ◌≤◌, ◌<◌, ◌++◌, ℕ, length, IfOk, IfErr, Ok, Err, true, MatchOption};
ghost use Rattle.rawsocket.specs.Handshakes.{answered, refusing};
ghost use Rattle.rawsocket.specs.Steps.{Steps, read_meter, told_by, write_meter};
ghost use Rattle.session.specs.Opened.{exchanged};
ghost use Rattle.client_session.specs.Faults.{read_told, write_told};
ghost use Rattle.client_session.specs.Handshake.{asking, IsCut, IsRefused, IsReply, Replies};
ghost use Rattle.rawsocket.specs.Devices.{Gives};

use crate::fault::Fault;
use crate::sending::send;
use rawsocket::devices::{Sink, Source, Turns, read_piece};
use rawsocket::{Handshake, Serializer, answer};
use std::alloc::Global;

/// The handshake of a client that takes up to 2^24 - 1 octets in one payload, which is all that a
/// frame can have. A broker reads it as that.
fn asking(serializer: Serializer) -> [u8; 4]
    ensures octets { result ≡ asking serializer }
    ensures asks { answered result ≡ Handshake.Accept serializer 16777215 }
{
    match serializer {
        Serializer::Json => [0x7f, 0xf1, 0, 0],
        Serializer::MsgPack => [0x7f, 0xf2, 0, 0],
    }
}

/// How many octets a broker takes, where it accepts the serializer.
fn accepted(serializer: Serializer, reply: Handshake) -> Option<u32>
    ensures { MatchOption result ((limit : ℕ) → reply ≢ Handshake.Accept serializer limit)
        (λ limit. reply ≡ Handshake.Accept serializer limit) }
{
    match (serializer, reply) {
        (
            Serializer::Json,
            Handshake::Accept {
                serializer: Serializer::Json,
                limit,
            },
        ) => Some(limit),
        (
            Serializer::MsgPack,
            Handshake::Accept {
                serializer: Serializer::MsgPack,
                limit,
            },
        ) => Some(limit),
        _ => None,
    }
}

/// Why a broker refuses, where it does.
fn refused(reply: [u8; 4]) -> Option<u8>
    ensures { MatchOption result ((code : ℕ) → reply ≢ refusing code)
        (λ code. reply ≡ refusing code) }
{
    if reply[0] != 0x7f {
        return None;
    }
    if reply[1] % 16 != 0 {
        return None;
    }
    if reply[2] != 0 {
        return None;
    }
    if reply[3] != 0 {
        return None;
    }
    Some(reply[1] / 16)
}

/// What four octets reply to a handshake.
fn judge_reply(serializer: Serializer, octets: &[u8]) -> Result<u32, Fault>
    requires { length octets.now ≡ 4 }
    ensures { IsReply serializer octets.now result }
{
    let reply = [octets[0], octets[1], octets[2], octets[3]];
    match accepted(serializer, answer(reply)) {
        Some(limit) => Ok(limit),
        None => match refused(reply) {
            Some(code) => Err(Fault::Refused(code)),
            None => Err(Fault::NoBroker),
        },
    }
}

/// Reads the four octets of a reply, and no more.
fn read_reply<I: Source>(alloc: Global, source: &mut I, turns: &mut Turns) -> Result<Vec<u8>, Fault>
    ensures read { IfOk result
        (λ reply. Gives (I.seen source.old) (I.seen source.new) reply.items) }
    ensures four { IfOk result (λ reply. length reply.items ≡ 4) }
    ensures cut { IfErr result (IsCut (I.seen source.old).given (I.seen source.new).given) }
    ensures ended { result ≡ Err Fault.Ended → (I.seen source.new).is_ended ≡ true }
    ensures reads { Steps (read_meter (I.seen source.old) turns.old)
        (read_meter (I.seen source.new) turns.new) (told_by read_told result) }
{
    let mut octets = Vec::new(alloc);
    let mut piece = [0u8; 4];
    'octets: while octets.len() < 4 {
        let missing = 4 - octets.len();
        let count = match read_piece(source, &mut piece[..missing], turns) {
            Ok(count) => count,
            Err(none) => return Err(Fault::from(none)),
        };
        if octets.extend_from_slice(&piece[..count]).is_err() {
            return Err(Fault::NoMemory);
        }
    }
    Ok(octets)
}

/// Asks a broker to speak a serializer: how many octets it takes in one payload.
pub(crate) fn shake_hands<I: Source, O: Sink>(
    alloc: Global,
    serializer: Serializer,
    source: &mut I,
    sink: &mut O,
    reading: &mut Turns,
    writing: &mut Turns,
) -> Result<u32, Fault>
    ensures accepted { IfOk result (λ limit. Replies serializer
        (exchanged (I.seen source.old) (O.seen sink.old))
        (exchanged (I.seen source.new) (O.seen sink.new)) (Ok limit)) }
    ensures fits { IfOk result (λ limit. limit ≤ 16777215) }
    ensures refused { IfErr result (IsRefused serializer
        (exchanged (I.seen source.old) (O.seen sink.old))
        (exchanged (I.seen source.new) (O.seen sink.new))) }
    ensures ended { result ≡ Err Fault.Ended → (I.seen source.new).is_ended ≡ true }
    ensures reads { Steps (read_meter (I.seen source.old) reading.old)
        (read_meter (I.seen source.new) reading.new) (told_by read_told result) }
    ensures writes { Steps (write_meter (O.seen sink.old) writing.old)
        (write_meter (O.seen sink.new) writing.new) (told_by write_told result) }
{
    if let Err(fault) = send(sink, &asking(serializer), writing) {
        return Err(fault);
    }
    let octets = match read_reply(alloc, source, reading) {
        Ok(octets) => octets,
        Err(fault) => return Err(fault),
    };
    judge_reply(serializer, &octets)
}
