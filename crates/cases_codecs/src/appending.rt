//! What is written behind what a buffer held, here the octets `ab`:
//!
//! - `number N`, `letters TEXT`, `appended JSON`: this value in JSON, and in MessagePack.
//! - `header KIND AT OCTETS`: these octets, once the header that begins at AT is filled in.
use crate::frames::kind_of;
use case_text::{line_of, number_of, octets_of, spell, spelled, text_of};
use message_tree::{Appender, Tree};
use rawsocket::fill_header;
use std::alloc::Global;
use std::io;

/// What the buffer holds before.
const BEFORE: &[u8] = b"ab";

/// Begins behind a buffer.
fn begun(alloc: Global) -> io::Result<Appender> {
    let mut out = Vec::new(alloc);
    out.extend_from_slice(BEFORE)?;
    Ok(Appender::new(out))
}

/// Adds what the buffer holds as a line; where memory was refused, that it is as before.
fn tell(text: &mut String, out: Appender, is_written: bool) -> io::Result<()> {
    if is_written {
        spell(text, &out.into_vec())?;
    } else {
        text.push_str(refusal(&out.into_before()))?;
    }
    text.push('\n')?;
    Ok(())
}

fn refusal(before: &[u8]) -> &'static str {
    if before == BEFORE {
        "E1 no memory"
    } else {
        "the buffer is not as before"
    }
}

/// A number, in JSON and in MessagePack.
pub fn number(alloc: Global, words: &str) -> io::Result<String> {
    let number = number_of(words);
    let mut text = String::new(alloc);
    number_in_json(alloc, &mut text, number)?;
    number_in_msgpack(alloc, &mut text, number)?;
    Ok(text)
}

fn number_in_json(alloc: Global, text: &mut String, number: u64) -> io::Result<()> {
    let mut out = begun(alloc)?;
    let is_written = json_codec::encode_number_into(number, &mut out).is_ok();
    tell(text, out, is_written)
}

fn number_in_msgpack(alloc: Global, text: &mut String, number: u64) -> io::Result<()> {
    let mut out = begun(alloc)?;
    let is_written = msgpack_codec::encode_number_into(number, &mut out).is_ok();
    tell(text, out, is_written)
}

/// A text, in JSON and in MessagePack.
pub fn letters(alloc: Global, words: &str) -> io::Result<String> {
    let letters = text_of(alloc, words)?;
    let mut text = String::new(alloc);
    letters_in_json(alloc, &mut text, letters.as_str())?;
    letters_in_msgpack(alloc, &mut text, letters.as_str())?;
    Ok(text)
}

fn letters_in_json(alloc: Global, text: &mut String, letters: &str) -> io::Result<()> {
    let mut out = begun(alloc)?;
    let is_written = json_codec::encode_text_into(alloc, letters, &mut out).is_ok();
    tell(text, out, is_written)
}

fn letters_in_msgpack(alloc: Global, text: &mut String, letters: &str) -> io::Result<()> {
    let mut out = begun(alloc)?;
    let is_written = msgpack_codec::encode_text_into(letters, &mut out).is_ok();
    tell(text, out, is_written)
}

/// A message in JSON, in JSON and in MessagePack.
pub fn appended(alloc: Global, octets: &[u8]) -> io::Result<String> {
    match json_codec::decode(alloc, octets) {
        Ok(message) if message.is_carried() => tree(alloc, message.tree()),
        Ok(_) => line_of(alloc, "not carried"),
        Err(fault) => Ok(format!(in alloc; "{fault}\n")?),
    }
}

fn tree(alloc: Global, tree: &Tree) -> io::Result<String> {
    let mut text = String::new(alloc);
    if !tree.is_carried() {
        return Ok(text);
    }
    let mut out = begun(alloc)?;
    let is_written = json_codec::encode_into(alloc, tree, &mut out).is_ok();
    tell(&mut text, out, is_written)?;
    let mut out = begun(alloc)?;
    let is_written = msgpack_codec::encode_into(tree, &mut out).is_ok();
    tell(&mut text, out, is_written)?;
    Ok(text)
}

/// A header, by the words `KIND AT OCTETS`.
pub fn header(alloc: Global, words: &str) -> io::Result<String> {
    let Some((kind, rest)) = words.split_once(' ') else {
        return line_of(alloc, "no place");
    };
    let Some((at, octets)) = rest.split_once(' ') else {
        return line_of(alloc, "no octets");
    };
    let mut out = octets_of(alloc, octets)?;
    let at = number_of(at) as usize;
    if at > 1000 || out.len() < at + 4 || out.len() > 1000 {
        return line_of(alloc, "no room");
    }
    fill_header(kind_of(kind), at, &mut out);
    let mut text = spelled(alloc, &out)?;
    text.push('\n')?;
    Ok(text)
}
