//! Values in JSON.
use message_tree::{Message, Tree};
use std::alloc::Global;
use std::io;

/// What a word is as a value.
pub fn value(alloc: Global, word: &str) -> io::Result<String> {
    let json = tree_json(alloc, client_commands::value_of(alloc, word)?)?;
    Ok(format!(in alloc; "{json}\n")?)
}

fn tree_json(alloc: Global, tree: Tree) -> io::Result<String> {
    let Ok(message) = Message::of(tree) else {
        return Ok(String::from_str(alloc, "too deep")?);
    };
    match json_codec::encode(alloc, &message) {
        Ok(octets) => match String::from_utf8(octets) {
            Ok(text) => Ok(text),
            Err(_) => Ok(String::from_str(alloc, "no text")?),
        },
        Err(json_codec::Fault::UncarriedLeaf) => Ok(String::from_str(alloc, "uncarried")?),
        Err(fault) => Ok(format!(in alloc; "{fault}")?),
    }
}
