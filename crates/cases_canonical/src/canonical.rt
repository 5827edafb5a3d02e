//! What is written in canonical form.
use case_text::{line_of, number_of, octets_of, part, part_of, spell};
use message_tree::Appender;
use msgpack_canonical::{canonicalize, canonicalize_value};
use msgpack_codec::{Fault, decode, encode};
use msgpack_cursor::{Value, message};
use std::alloc::Global;
use std::io;

/// What `ROOM OCTETS` gives.
pub fn canonical(alloc: Global, text: &str) -> io::Result<String> {
    let (room, text) = part(text);
    let room = u8::try_from(number_of(room)).unwrap_or(u8::MAX);
    let octets = octets_of(alloc, text)?;
    let mut out = Appender::new(Vec::from_slice(alloc, b"ab")?);
    match canonicalize(alloc, &octets, room, &mut out) {
        Ok(done) => {
            let mut told = String::new(alloc);
            if done.is_written {
                spell(&mut told, &out.into_vec())?;
            } else {
                spell(&mut told, &out.into_before())?;
                told.push_str(" E6 UncarriedLeaf")?;
            }
            told.push(' ')?;
            spell(&mut told, done.rest)?;
            told.push('\n')?;
            Ok(told)
        }
        Err(fault) => Ok(format!(in alloc; "{fault}\n")?),
    }
}

/// The octets of exactly one value in canonical form.
fn whole(alloc: Global, octets: &[u8]) -> Result<Vec<u8>, Fault> {
    let mut out = Appender::new(Vec::new(alloc));
    let done = canonicalize(alloc, octets, 100, &mut out)?;
    if !done.rest.is_empty() {
        return Err(Fault::Malformed);
    }
    if !done.is_written {
        return Err(Fault::UncarriedLeaf);
    }
    Ok(out.into_vec())
}

/// The octets that a tree between has.
fn through_tree(alloc: Global, octets: &[u8]) -> Result<Vec<u8>, Fault> {
    let message = decode(alloc, octets)?;
    encode(alloc, &message)
}

/// What is written for a value that was passed over; `None` where it can't be carried.
fn of_value(alloc: Global, value: &Value) -> io::Result<Option<Vec<u8>>> {
    let spelling = value.spelling();
    let mut out = Appender::new(Vec::new(alloc));
    if canonicalize_value(alloc, spelling.octets, spelling.room, &mut out)? {
        Ok(Some(out.into_vec()))
    } else {
        Ok(None)
    }
}

/// Whether octets that are one value are written as it is, or not as it isn't.
fn is_same_by_value(alloc: Global, octets: &[u8]) -> io::Result<bool> {
    let Ok(value) = message(octets) else {
        return Ok(true);
    };
    match (of_value(alloc, &value)?, whole(alloc, octets)) {
        (Some(one), Ok(other)) => Ok(one.as_slice() == other.as_slice()),
        (None, Err(Fault::UncarriedLeaf)) => Ok(true),
        _ => Ok(false),
    }
}

/// Whether octets are written, or refused, as through a tree; and as the value that they are.
pub fn same(alloc: Global, octets: &[u8]) -> io::Result<String> {
    if !is_same_by_value(alloc, octets)? {
        return line_of(alloc, "another value, or E1 no memory");
    }
    match (whole(alloc, octets), through_tree(alloc, octets)) {
        (Ok(one), Ok(other)) => {
            let is_same = one.as_slice() == other.as_slice();
            line_of(alloc, if is_same { "same" } else { "other octets" })
        }
        (Err(one), Err(other)) => Ok(format!(in alloc; "{one}, {other}\n")?),
        (Err(one), Ok(_)) => Ok(format!(in alloc; "{one}, octets\n")?),
        (Ok(_), Err(other)) => Ok(format!(in alloc; "octets, {other}\n")?),
    }
}

/// The octets that `N HEAD MEMBER END` stands for: HEAD, so many times MEMBER, and END.
pub fn shaped(alloc: Global, text: &str) -> io::Result<Vec<u8>> {
    let (count, text) = part(text);
    let (head, text) = part(text);
    let (member, end) = part(text);
    let member = octets_of(alloc, part_of(member))?;
    let mut octets = octets_of(alloc, part_of(head))?;
    for _ in 0..number_of(count) {
        octets.extend_from_slice(&member)?;
    }
    octets.extend_from_slice(&octets_of(alloc, part_of(end))?)?;
    Ok(octets)
}

/// What `N HEAD MEMBER END` gives.
pub fn shape(alloc: Global, text: &str) -> io::Result<String> {
    match whole(alloc, &shaped(alloc, text)?) {
        Ok(out) => {
            let len = out.len();
            Ok(format!(in alloc; "{len} octets\n")?)
        }
        Err(fault) => Ok(format!(in alloc; "{fault}\n")?),
    }
}
