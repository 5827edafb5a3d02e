//! Items as they are written:
//!
//! - `frames SERIALIZER`: the frame of each kind of item but EVENT.
//! - `frame SERIALIZER LIMIT MARKS JSON`: the frame of the EVENT that `event MARKS JSON` tells, for a
//!   client that takes so many octets. Further marks are `j`, by which what its arguments are in JSON
//!   is kept beside them, and `m`, which changes nothing: what is kept of them is MessagePack.
//!
//! A number in place of JSON stands for a PUBLISH of one text of so many `x`.
//!
//! A frame is written behind the octets `ab`, and compared with the frame of the payload alone, with
//! that of the item's message, and with what is written of a frame whose end isn't copied, and that end. Of more than 300 octets their number, the first 12 and the last
//! 4 are printed.
use crate::publishing::event_item;
use crate::telling::each_kind;
use case_text::{line_of, number_of, spell};
use message_tree::Message;
use rawsocket::{Kind, Serializer, write_frame};
use session::{Item, item_message, write_item, write_payload, write_unless_large};
use std::alloc::Global;
use std::io;

/// What the buffer holds before.
const BEFORE: &[u8] = b"ab";

/// The most octets that a client may take.
const MOST: u32 = 16_777_215;

fn serializer_of(name: &str) -> Serializer {
    match name {
        "json" => Serializer::Json,
        _ => Serializer::MsgPack,
    }
}

/// The frames of all kinds of items but EVENT.
pub fn frames(alloc: Global, serializer: &str) -> io::Result<String> {
    let mut text = String::new(alloc);
    for item in each_kind(alloc) {
        let line = told_if(alloc, serializer_of(serializer), MOST, item)?;
        text.push_str(line.as_str())?;
    }
    Ok(text)
}

/// The frame of an EVENT, by the words `SERIALIZER LIMIT MARKS JSON`.
pub fn frame(alloc: Global, words: &str) -> io::Result<String> {
    let Some((serializer, rest)) = words.split_once(' ') else {
        return line_of(alloc, "no limit");
    };
    let Some((limit, rest)) = rest.split_once(' ') else {
        return line_of(alloc, "no marks");
    };
    let Some((marks, json)) = rest.split_once(' ') else {
        return line_of(alloc, "no message");
    };
    let json = message_of(alloc, json)?;
    let item = event_item(alloc, json.as_str(), marks);
    told_if(alloc, serializer_of(serializer), limit_of(limit), item)
}

/// The PUBLISH that is told, or that of one text of so many letters.
fn message_of(alloc: Global, told: &str) -> io::Result<String> {
    if told.starts_with('[') {
        return Ok(String::from_str(alloc, told)?);
    }
    let mut message = String::from_str(alloc, "[16,1,{},\"a\",[\"")?;
    for _ in 0..number_of(told) {
        message.push('x')?;
    }
    message.push_str("\"]]")?;
    Ok(message)
}

fn limit_of(word: &str) -> u32 {
    word.parse::<u32>().unwrap_or(MOST)
}

/// The frame of an item: there is one, unless memory was refused.
fn told_if(
    alloc: Global,
    serializer: Serializer,
    limit: u32,
    item: Option<Item>,
) -> io::Result<String> {
    match &item {
        None => line_of(alloc, "no item, or E1 no memory"),
        Some(item) => told(alloc, serializer, limit, item),
    }
}

fn told(alloc: Global, serializer: Serializer, limit: u32, item: &Item) -> io::Result<String> {
    let mut out = begun(alloc)?;
    match write_item(alloc, serializer, limit.min(MOST), item, &mut out) {
        Ok(()) => compared(alloc, serializer, item, &out),
        Err(_) if out.as_slice() != BEFORE => line_of(alloc, "the buffer is not as before"),
        Err(fault) => Ok(format!(in alloc; "{fault}\n")?),
    }
}

fn begun(alloc: Global) -> io::Result<Vec<u8>> {
    let mut out = Vec::new(alloc);
    out.extend_from_slice(BEFORE)?;
    Ok(out)
}

/// What was written, and whether the other ways write it.
fn compared(alloc: Global, serializer: Serializer, item: &Item, out: &[u8]) -> io::Result<String> {
    let mut text = String::new(alloc);
    summarize(&mut text, out)?;
    text.push_str(others_mark(is_alike(alloc, serializer, item, out)))?;
    text.push('\n')?;
    Ok(text)
}

fn others_mark(is_alike: Option<bool>) -> &'static str {
    match is_alike {
        Some(true) => "",
        Some(false) => " but not by other ways",
        None => " E1 no memory",
    }
}

/// Whether the other ways write this; nothing where memory was refused.
fn is_alike(alloc: Global, serializer: Serializer, item: &Item, out: &[u8]) -> Option<bool> {
    let payload = by_payload(alloc, serializer, item)?;
    let message = by_message(alloc, serializer, item)?;
    let parts = by_parts(alloc, serializer, item)?;
    Some(payload.as_slice() == out && message.as_slice() == out && parts.as_slice() == out)
}

fn kind_of(item: &Item) -> Kind {
    match item {
        Item::Pong(_) => Kind::Pong,
        _ => Kind::Message,
    }
}

/// The frame of this payload, behind the same octets.
fn framed(alloc: Global, item: &Item, payload: &[u8]) -> Option<Vec<u8>> {
    let mut out = begun(alloc).ok()?;
    write_frame(alloc, kind_of(item), payload, &mut out).ok()?;
    Some(out)
}

fn by_payload(alloc: Global, serializer: Serializer, item: &Item) -> Option<Vec<u8>> {
    let mut payload = Vec::new(alloc);
    write_payload(alloc, serializer, item, &mut payload).ok()?;
    framed(alloc, item, &payload)
}

/// What is written of the frame, and behind it the end that isn't.
fn by_parts(alloc: Global, serializer: Serializer, item: &Item) -> Option<Vec<u8>> {
    let mut out = begun(alloc).ok()?;
    if let Some(end) = write_unless_large(alloc, serializer, MOST, item, &mut out).ok()? {
        out.extend_from_slice(end.arguments).ok()?;
        out.extend_from_slice(end.closing).ok()?;
    }
    Some(out)
}

fn by_message(alloc: Global, serializer: Serializer, item: &Item) -> Option<Vec<u8>> {
    match (item_message(alloc, item).ok()?, item) {
        (Some(message), _) => framed(alloc, item, &encoded(alloc, serializer, &message)?),
        (None, Item::Pong(octets)) => framed(alloc, item, octets.as_slice()),
        _ => None,
    }
}

fn encoded(alloc: Global, serializer: Serializer, message: &Message) -> Option<Vec<u8>> {
    match serializer {
        Serializer::Json => json_codec::encode(alloc, message).ok(),
        Serializer::MsgPack => msgpack_codec::encode(alloc, message).ok(),
    }
}

fn summarize(text: &mut String, octets: &[u8]) -> io::Result<()> {
    let count = octets.len();
    if count <= 300 {
        return spell(text, octets);
    }
    write!(text, "{count} octets: ")?;
    spell(text, &octets[..12])?;
    text.push_str(" .. ")?;
    spell(text, &octets[count - 4..])
}
