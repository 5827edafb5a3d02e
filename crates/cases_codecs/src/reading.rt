//! What is read of octets, and written of what was read.
use crate::describing::describe;
use case_text::{line_of, number_of, octets_of, part, part_of, spell};
use message_tree::Message;
use std::alloc::Global;
use std::io;

/// What octets in JSON spell.
pub fn json(alloc: Global, octets: &[u8]) -> io::Result<String> {
    match json_codec::decode(alloc, octets) {
        Ok(message) => told(alloc, &message),
        Err(fault) => Ok(format!(in alloc; "{fault}\n")?),
    }
}

/// What octets in MessagePack spell.
pub fn msgpack(alloc: Global, octets: &[u8]) -> io::Result<String> {
    match msgpack_codec::decode(alloc, octets) {
        Ok(message) => told(alloc, &message),
        Err(fault) => Ok(format!(in alloc; "{fault}\n")?),
    }
}

/// A copy of a message in words, and as both serializations write it.
fn told(alloc: Global, message: &Message) -> io::Result<String> {
    let copy = message.try_copy(alloc)?;
    if copy.tree() == message.tree() {
        in_words(alloc, &copy)
    } else {
        line_of(alloc, "the copy differs")
    }
}

fn in_words(alloc: Global, message: &Message) -> io::Result<String> {
    let depth = message.depth();
    let mut text = format!(in alloc; "{depth} ")?;
    describe(&mut text, message.tree(), 102)?;
    text.push('\n')?;
    write(alloc, &mut text, message)?;
    Ok(text)
}

/// Adds a message as both serializations write it, each a line.
pub fn write(alloc: Global, text: &mut String, message: &Message) -> io::Result<()> {
    write_json(alloc, text, message)?;
    text.push('\n')?;
    write_msgpack(alloc, text, message)?;
    text.push('\n')?;
    Ok(())
}

fn write_json(alloc: Global, text: &mut String, message: &Message) -> io::Result<()> {
    match json_codec::encode(alloc, message) {
        Ok(octets) => spell(text, &octets),
        Err(fault) => Ok(write!(text, "{fault}")?),
    }
}

fn write_msgpack(alloc: Global, text: &mut String, message: &Message) -> io::Result<()> {
    match msgpack_codec::encode(alloc, message) {
        Ok(octets) => spell(text, &octets),
        Err(fault) => Ok(write!(text, "{fault}")?),
    }
}

/// The words of `N WORD OPEN LAST CLOSE`.
pub fn nested(alloc: Global, text: &str) -> io::Result<String> {
    let (count, words) = part(text);
    let (serializer, words) = part(words);
    let (open, words) = part(words);
    let (last, words) = part(words);
    let (close, _) = part(words);
    let count = number_of(count);
    let mut octets = Vec::new(alloc);
    repeat(alloc, &mut octets, count, open)?;
    repeat(alloc, &mut octets, 1, last)?;
    repeat(alloc, &mut octets, count, close)?;
    match serializer {
        "json" => json(alloc, &octets),
        _ => msgpack(alloc, &octets),
    }
}

/// Adds so many times the octets of a word.
fn repeat(alloc: Global, octets: &mut Vec<u8>, count: u64, word: &str) -> io::Result<()> {
    let part = octets_of(alloc, part_of(word))?;
    for _ in 0..count {
        octets.extend_from_slice(&part)?;
    }
    Ok(())
}
