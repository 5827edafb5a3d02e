//! A value of MessagePack as JSON text.
ghost use Rattle.std.specs.Prelude.{◌≡◌, ◌++◌, ℕ, IfOk, OnOk, Err};
ghost use Rattle.serde_json.specs.Written.{comma_if};
ghost use Rattle.msgpack_to_json.specs.Standing.{IsWritten, NothingStands};
ghost use Rattle.msgpack_to_json.specs.body.Members.{IsWrittenAt, NothingAt, AreItemsWritten, NoItemsAt, ArePairsWritten, NoPairsAt, IsKeyWritten, NoKeyAt};

use crate::fault::Fault;
use crate::leaves::{text_of, write_leaf};
use message_tree::Appender;
use msgpack_codec::{Token, first_token, short_text};
use std::alloc::{AllocError, Global};

/// The most levels that lists and dictionaries nest in a message.
const ROOM: u8 = 100;

/// Writes the JSON text of the value at the front of octets, where these are what
/// [`encode`](msgpack_codec::encode) writes for it, and gives the octets after it: what is written is what
/// [`json_codec::encode_into`] writes for the same value. No tree is made of it.
///
/// # Errors
/// [`Fault::NoMemory`] where a growth was refused, [`Fault::Malformed`] where no value stands there as it is written.
/// What was written up to there stays in `out`. Octets that spell a value otherwise than `encode` may be refused, or written
/// as they stand.
pub fn write_json<'a>(
    alloc: Global,
    octets: &'a [u8],
    out: &mut Appender,
) -> Result<&'a [u8], Fault>
    ensures ok { IfOk result (λ rest. IsWritten octets.entry.now rest.now out.old.since
        out.new.since) }
    ensures fault { result ≡ Err Fault.Malformed → NothingStands octets.entry.now }
    ensures before { out.new.before ≡ out.old.before }
{
    write_any_value(alloc, octets, ROOM, out)
}

/// Writes the value at the front, which nests no more than `room` levels. Short texts are looked for first.
#[cycle(writing)]
fn write_value<'a>(
    alloc: Global,
    octets: &'a [u8],
    room: u8,
    out: &mut Appender,
) -> Result<&'a [u8], Fault>
    ensures ok { IfOk result (λ rest. IsWrittenAt room octets.entry.now rest.now out.old.since
        out.new.since) }
    ensures fault { result ≡ Err Fault.Malformed → NothingAt room octets.entry.now }
    ensures before { out.new.before ≡ out.old.before }
{
    match short_text(octets) {
        Some((text, rest)) => {
            json_codec::encode_text_into(alloc, text, out)?;
            Ok(rest)
        }
        None => write_any_value(alloc, octets, room, out),
    }
}

/// The same, whatever the value is.
#[cycle(writing)]
fn write_any_value<'a>(
    alloc: Global,
    octets: &'a [u8],
    room: u8,
    out: &mut Appender,
) -> Result<&'a [u8], Fault>
    ensures ok { IfOk result (λ rest. IsWrittenAt room octets.entry.now rest.now out.old.since
        out.new.since) }
    ensures fault { result ≡ Err Fault.Malformed → NothingAt room octets.entry.now }
    ensures before { out.new.before ≡ out.old.before }
{
    let (token, rest) = match first_token(octets) {
        Ok(found) => found,
        Err(_) => return Err(Fault::Malformed),
    };
    match token {
        Token::List(count) => match room.checked_sub(1) {
            Some(room) => write_items(alloc, rest, count, room, out),
            None => Err(Fault::Malformed),
        },
        Token::Dict(count) => match room.checked_sub(1) {
            Some(room) => write_pairs(alloc, rest, count, room, out),
            None => Err(Fault::Malformed),
        },
        leaf => match write_leaf(alloc, leaf, out) {
            Ok(()) => Ok(rest),
            Err(fault) => Err(fault),
        },
    }
}

/// Separates a member from one before it.
fn separate(later: bool, out: &mut Appender) -> Result<(), AllocError>
    ensures ok { OnOk result (out.new.since ≡ out.old.since ++ comma_if later) }
    ensures before { out.new.before ≡ out.old.before }
{
    if later { out.put(b',') } else { Ok(()) }
}

/// Writes so many values as a list.
#[cycle(writing)]
fn write_items<'a>(
    alloc: Global,
    octets: &'a [u8],
    count: u64,
    room: u8,
    out: &mut Appender,
) -> Result<&'a [u8], Fault>
    ensures ok { IfOk result (λ rest. AreItemsWritten room count octets.entry.now rest.now
        out.old.since out.new.since) }
    ensures fault { result ≡ Err Fault.Malformed → NoItemsAt room count octets.entry.now }
    ensures before { out.new.before ≡ out.old.before }
{
    out.put(b'[')?;
    let mut rest = octets;
    let mut later = false;
    for _ in 0..count {
        separate(later, out)?;
        rest = match write_value(alloc, rest, room, out) {
            Ok(rest) => rest,
            Err(fault) => return Err(fault),
        };
        later = true;
    }
    out.put(b']')?;
    Ok(rest)
}

/// Writes a key, and the colon behind it.
fn write_key<'a>(alloc: Global, octets: &'a [u8], out: &mut Appender) -> Result<&'a [u8], Fault>
    ensures ok { IfOk result (λ rest. (room : ℕ) → IsKeyWritten room octets.entry.now rest.now
        out.old.since out.new.since) }
    ensures fault { result ≡ Err Fault.Malformed → (room : ℕ) → NoKeyAt room octets.entry.now }
    ensures before { out.new.before ≡ out.old.before }
{
    match short_text(octets) {
        Some((key, rest)) => {
            json_codec::encode_text_into(alloc, key, out)?;
            out.put(b':')?;
            Ok(rest)
        }
        None => write_any_key(alloc, octets, out),
    }
}

/// The same, whatever the key is.
fn write_any_key<'a>(alloc: Global, octets: &'a [u8], out: &mut Appender) -> Result<&'a [u8], Fault>
    ensures ok { IfOk result (λ rest. (room : ℕ) → IsKeyWritten room octets.entry.now rest.now
        out.old.since out.new.since) }
    ensures fault { result ≡ Err Fault.Malformed → (room : ℕ) → NoKeyAt room octets.entry.now }
    ensures before { out.new.before ≡ out.old.before }
{
    let (token, rest) = match first_token(octets) {
        Ok(found) => found,
        Err(_) => return Err(Fault::Malformed),
    };
    let Some(key) = text_of(token) else {
        return Err(Fault::Malformed);
    };
    json_codec::encode_text_into(alloc, key, out)?;
    out.put(b':')?;
    Ok(rest)
}

/// Writes so many keys, each with its value behind it, as a dictionary.
#[cycle(writing)]
fn write_pairs<'a>(
    alloc: Global,
    octets: &'a [u8],
    count: u64,
    room: u8,
    out: &mut Appender,
) -> Result<&'a [u8], Fault>
    ensures ok { IfOk result (λ rest. ArePairsWritten room count octets.entry.now rest.now
        out.old.since out.new.since) }
    ensures fault { result ≡ Err Fault.Malformed → NoPairsAt room count octets.entry.now }
    ensures before { out.new.before ≡ out.old.before }
{
    out.put(b'{')?;
    let mut rest = octets;
    let mut later = false;
    for _ in 0..count {
        separate(later, out)?;
        let value = match write_key(alloc, rest, out) {
            Ok(value) => value,
            Err(fault) => return Err(fault),
        };
        rest = match write_value(alloc, value, room, out) {
            Ok(rest) => rest,
            Err(fault) => return Err(fault),
        };
        later = true;
    }
    out.put(b'}')?;
    Ok(rest)
}
