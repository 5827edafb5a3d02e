//! The entries of a dictionary where they stand.
use crate::looking::{ROOM, quote, separate, tell};
use case_text::line_of;
use msgpack_cursor::{Dictionary, Seen, message};
use std::alloc::Global;
use std::io;

/// The entries of the dictionary that the octets of a message are, each as it stands.
pub fn entries(alloc: Global, octets: &[u8]) -> io::Result<String> {
    match message(octets) {
        Ok(value) => match value.seen() {
            Seen::Dict(dictionary) => walk(alloc, &dictionary),
            _ => line_of(alloc, "no dictionary"),
        },
        Err(refusal) => Ok(format!(in alloc; "{refusal}\n")?),
    }
}

/// Each entry in words, in the order in which they stand.
fn walk(alloc: Global, dictionary: &Dictionary) -> io::Result<String> {
    let mut told = String::new(alloc);
    let mut entries = dictionary.entries();
    let mut is_first = true;
    told.push('{')?;
    while let Some((key, value)) = entries.next() {
        separate(&mut told, is_first)?;
        quote(&mut told, key)?;
        told.push(':')?;
        tell(&mut told, &value, ROOM)?;
        is_first = false;
    }
    told.push_str("}\n")?;
    Ok(told)
}
