//! Octets as a table spells them.
ghost use Rattle.std.specs.Prelude.{◌<◌};

use std::alloc::Global;
use std::io;

/// How much of an escape was read.
#[derive(Drop)]
enum Escape {
    /// None of it: the next octet stands for itself, or begins one.
    Nothing,
    /// The backslash.
    Backslash,
    /// The backslash and the first digit, of this value.
    Digit(u8),
}

fn hex_value(digit: u8) -> u8
    ensures { result < 16 }
{
    match digit {
        b'0'..=b'9' => digit - b'0',
        b'a'..=b'f' => digit - b'a' + 10,
        _ => 0,
    }
}

/// The octet that is complete, if any, and what of an escape was read now.
fn step(escape: Escape, next: u8) -> (Option<u8>, Escape) {
    match escape {
        Escape::Nothing if next == b'\\' => (None, Escape::Backslash),
        Escape::Nothing => (Some(next), Escape::Nothing),
        Escape::Backslash if next == b'\\' => (Some(next), Escape::Nothing),
        Escape::Backslash => (None, Escape::Digit(hex_value(next))),
        Escape::Digit(high) => (Some(high << 4 | hex_value(next)), Escape::Nothing),
    }
}

/// The octets that a text spells.
pub fn octets_of(alloc: Global, text: &str) -> io::Result<Vec<u8>> {
    let mut octets = Vec::new(alloc);
    let mut escape = Escape::Nothing;
    for next in text.as_bytes() {
        let (octet, rest) = step(escape, *next);
        escape = rest;
        if let Some(octet) = octet {
            octets.push(octet)?;
        }
    }
    Ok(octets)
}

/// The text in UTF-8 that a text spells, and none where the octets are not UTF-8.
pub fn text_of(alloc: Global, text: &str) -> io::Result<String> {
    match String::from_utf8(octets_of(alloc, text)?) {
        Ok(text) => Ok(text),
        Err(_) => Ok(String::new(alloc)),
    }
}

// Adds an octet by two digits.
fn put_digits(out: &mut String, octet: u8) -> io::Result<()> {
    Ok(write!(out, "{octet:02x}")?)
}

/// Adds octets by two digits each.
pub fn hexadecimal(out: &mut String, octets: &[u8]) -> io::Result<()> {
    for octet in octets {
        put_digits(out, *octet)?;
    }
    Ok(())
}

/// Adds the spelling of these octets.
pub fn spell(out: &mut String, octets: &[u8]) -> io::Result<()> {
    for octet in octets {
        let octet = *octet;
        if octet == b'\\' {
            out.push_str("\\\\")?;
        } else if octet >= 0x20 && octet < 0x7f {
            out.push(octet as char)?;
        } else {
            out.push('\\')?;
            put_digits(out, octet)?;
        }
    }
    Ok(())
}

/// The spelling of these octets.
pub fn spelled(alloc: Global, octets: &[u8]) -> io::Result<String> {
    let mut text = String::new(alloc);
    spell(&mut text, octets)?;
    Ok(text)
}
