//! What a JSON text is in MessagePack.
use crate::canonical::shaped;
use case_text::{line_of, spell};
use json_to_msgpack::{Transliteration, to_msgpack};
use std::alloc::Global;
use std::io;

/// The octets of MessagePack that a JSON text becomes, and whether they are the message that it is read as; or `no JSON`, `too deep`
/// or `undecided`, and what the text is.
pub fn transliterate(alloc: Global, json: &[u8]) -> io::Result<String> {
    match to_msgpack(alloc, json) {
        Ok(Transliteration::Octets(octets)) => compare(alloc, json, &octets),
        Ok(Transliteration::NoJson) => left(alloc, "no JSON", json),
        Ok(Transliteration::TooDeep) => left(alloc, "too deep", json),
        Ok(Transliteration::Undecided) => left(alloc, "undecided", json),
        Err(_) => line_of(alloc, "E1 no memory"),
    }
}

/// A word, and what a JSON text is that doesn't become octets: read, or its fault.
fn left(alloc: Global, word: &str, json: &[u8]) -> io::Result<String> {
    match json_codec::decode(alloc, json) {
        Ok(_) => Ok(format!(in alloc; "{word}, read\n")?),
        Err(fault) => Ok(format!(in alloc; "{word}, {fault}\n")?),
    }
}

/// The first octets of what the JSON text becomes that `N HEAD MEMBER END` stands for, and how many there are.
pub fn transliterate_long(alloc: Global, text: &str) -> io::Result<String> {
    match to_msgpack(alloc, &shaped(alloc, text)?) {
        Ok(Transliteration::Octets(octets)) => {
            let len = octets.len();
            let mut told = String::new(alloc);
            let first = if len < 8 { &octets[..] } else { &octets[..8] };
            spell(&mut told, first)?;
            Ok(format!(in alloc; "{told} {len} octets\n")?)
        }
        Ok(Transliteration::NoJson) => line_of(alloc, "no JSON"),
        Ok(Transliteration::TooDeep) => line_of(alloc, "too deep"),
        Ok(Transliteration::Undecided) => line_of(alloc, "undecided"),
        Err(_) => line_of(alloc, "E1 no memory"),
    }
}

/// The octets, and whether they are the message that a JSON text is read as.
fn compare(alloc: Global, json: &[u8], octets: &[u8]) -> io::Result<String> {
    let read = match json_codec::decode(alloc, json) {
        Ok(message) => message,
        Err(fault) => return Ok(format!(in alloc; "octets, {fault}\n")?),
    };
    let spelled = match msgpack_codec::decode(alloc, octets) {
        Ok(message) => message,
        Err(fault) => return Ok(format!(in alloc; "octets of {fault}\n")?),
    };
    let mut told = String::new(alloc);
    spell(&mut told, octets)?;
    told.push_str(if read.tree() == spelled.tree() {
        " same\n"
    } else {
        " differs\n"
    })?;
    Ok(told)
}
