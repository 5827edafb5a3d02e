//! What is read of the elements of a message one by one, before anybody looked whether they are whole.
use crate::looking::{ROOM, quote, separate, tell};
use case_text::{line_of, octets_of, part};
use msgpack_cursor::Unread;
use std::alloc::Global;
use std::io;

/// The elements of a message by `value`, as far as they come; said before them and behind them, whether what is left is whole.
pub fn unread(alloc: Global, octets: &[u8]) -> io::Result<String> {
    let (Some(all), Some(rest)) = (Unread::of(octets), Unread::of(octets)) else {
        return line_of(alloc, "no list");
    };
    let mut told = String::new(alloc);
    told.push_str(whole_or_broken(all))?;
    told.push(' ')?;
    tell_values(&mut told, rest)?;
    Ok(told)
}

/// What `KINDS OCTETS` gives: an element by each letter, up to the first that isn't there.
pub fn take(alloc: Global, text: &str) -> io::Result<String> {
    let (kinds, octets) = part(text);
    let octets = octets_of(alloc, octets)?;
    let Some(mut rest) = Unread::of(&octets) else {
        return line_of(alloc, "no list");
    };
    let mut told = String::new(alloc);
    for kind in kinds.as_bytes() {
        if !tell_next(&mut told, &mut rest, *kind)? {
            told.push_str("none\n")?;
            return Ok(told);
        }
        told.push(' ')?;
    }
    tell_left(&mut told, rest)?;
    Ok(told)
}

/// Adds the values that come, and what is left behind them.
fn tell_values(out: &mut String, rest: Unread) -> io::Result<()> {
    let mut rest = rest;
    let mut is_first = true;
    out.push('[')?;
    while let Some(value) = rest.value() {
        separate(out, is_first)?;
        tell(out, &value, ROOM)?;
        is_first = false;
    }
    out.push_str("] ")?;
    tell_left(out, rest)
}

/// Adds the next element, which is a whole number by `w`, a text by `t`, and any value by other letters; says whether there is one.
fn tell_next(out: &mut String, rest: &mut Unread, kind: u8) -> io::Result<bool> {
    match kind {
        b'w' => match rest.whole() {
            Some(number) => write!(out, "{number}")?,
            None => return Ok(false),
        },
        b't' => match rest.text() {
            Some(text) => quote(out, text)?,
            None => return Ok(false),
        },
        _ => match rest.value() {
            Some(value) => tell(out, &value, ROOM)?,
            None => return Ok(false),
        },
    }
    Ok(true)
}

/// Adds whether nothing is left, and whether what is left is whole.
fn tell_left(out: &mut String, rest: Unread) -> io::Result<()> {
    out.push_str(if rest.is_end() { "end " } else { "more " })?;
    out.push_str(whole_or_broken(rest))?;
    out.push('\n')?;
    Ok(())
}

fn whole_or_broken(rest: Unread) -> &'static str {
    if rest.is_whole() { "whole" } else { "broken" }
}
