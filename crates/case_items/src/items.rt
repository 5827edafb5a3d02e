//! Items as the drivers print them.
use case_text::is_refused;
use message_tree::Message;
use session::{Item, item_message};
use std::alloc::{AllocError, Global};
use std::io;

fn as_text(alloc: Global, octets: &[u8]) -> io::Result<String> {
    match std::str::from_utf8(octets) {
        Ok(text) => Ok(String::from_str(alloc, text)?),
        Err(_) => Ok(String::from_str(alloc, "no text")?),
    }
}

/// This text, unless it says that memory was refused: then what it speaks of can't be had once more, and the driver ends.
pub fn unless_refused(text: String) -> io::Result<String> {
    if is_refused(text.as_str()) {
        return Err(AllocError)?;
    }
    Ok(text)
}

fn json(alloc: Global, message: &Message) -> io::Result<String> {
    match json_codec::encode(alloc, message) {
        Ok(octets) => as_text(alloc, &octets),
        Err(fault) => unless_refused(format!(in alloc; "{fault}")?),
    }
}

fn pong(alloc: Global, payload: &[u8]) -> io::Result<String> {
    let text = as_text(alloc, payload)?;
    Ok(format!(in alloc; "pong {text}")?)
}

/// An item: its message in JSON, or the payload of a PONG.
pub fn item_text(alloc: Global, item: &Item) -> io::Result<String> {
    if let Item::Pong(payload) = item {
        return pong(alloc, payload.as_slice());
    }
    match item_message(alloc, item)? {
        Some(message) => json(alloc, &message),
        None => Ok(String::from_str(alloc, "no message")?),
    }
}
