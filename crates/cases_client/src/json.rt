//! Messages and trees in JSON.
use message_tree::{Message, Tree};
use std::alloc::Global;
use std::io;

/// A message in JSON; `uncarried` where it has none.
pub fn message_json(alloc: Global, message: &Message) -> io::Result<String> {
    match json_codec::encode(alloc, message) {
        Ok(octets) => match String::from_utf8(octets) {
            Ok(text) => Ok(text),
            Err(_) => Ok(String::from_str(alloc, "no text")?),
        },
        Err(json_codec::Fault::UncarriedLeaf) => Ok(String::from_str(alloc, "uncarried")?),
        Err(fault) => Ok(format!(in alloc; "{fault}")?),
    }
}

/// A tree in JSON; `uncarried` where it has none.
pub fn tree_json(alloc: Global, tree: Tree) -> io::Result<String> {
    match Message::of(tree) {
        Ok(message) => message_json(alloc, &message),
        Err(_) => Ok(String::from_str(alloc, "too deep")?),
    }
}
