//! Values whose length no two octets hold.
use case_text::{line_of, number_of, spelled};
use message_tree::{Dict, Message, Tree};
use std::alloc::{AllocError, Global};
use std::io;

/// The words of `KIND N`: how MessagePack begins so many letters, octets, items or keys, and whether
/// it reads them back.
pub fn great(alloc: Global, text: &str) -> io::Result<String> {
    let Some((kind, count)) = text.split_once(' ') else {
        return line_of(alloc, "no kind");
    };
    let tree = tree_of(alloc, kind, number_of(count))?;
    told(alloc, tree)
}

fn tree_of(alloc: Global, kind: &str, count: u64) -> Result<Tree, AllocError> {
    match kind {
        "letters" => letters(alloc, count),
        "octets" => octets(alloc, count),
        "items" => items(alloc, count),
        _ => keys(alloc, count),
    }
}

fn letters(alloc: Global, count: u64) -> Result<Tree, AllocError> {
    let mut text = String::new(alloc);
    for _ in 0..count {
        text.push('a')?;
    }
    Ok(Tree::Text(text))
}

fn octets(alloc: Global, count: u64) -> Result<Tree, AllocError> {
    Ok(Tree::Bytes(vec![in alloc; 0u8; count as usize]?))
}

fn items(alloc: Global, count: u64) -> Result<Tree, AllocError> {
    let mut items = Vec::new(alloc);
    for _ in 0..count {
        items.push(Tree::Null)?;
    }
    Ok(Tree::List(items))
}

fn keys(alloc: Global, count: u64) -> Result<Tree, AllocError> {
    let mut dict = Dict::new(alloc);
    for number in 0..count {
        dict.set(alloc, format!(in alloc; "{number}")?, Tree::Null)?;
    }
    Ok(Tree::Dict(dict))
}

fn told(alloc: Global, tree: Tree) -> io::Result<String> {
    match Message::of(tree) {
        Ok(message) => encoded(alloc, &message),
        Err((fault, _)) => Ok(format!(in alloc; "{fault}\n")?),
    }
}

fn encoded(alloc: Global, message: &Message) -> io::Result<String> {
    match msgpack_codec::encode(alloc, message) {
        Ok(octets) => begun(alloc, message, &octets),
        Err(fault) => Ok(format!(in alloc; "{fault}\n")?),
    }
}

/// The first five octets, and whether all of them are read as the message.
fn begun(alloc: Global, message: &Message, octets: &[u8]) -> io::Result<String> {
    let is_read = match msgpack_codec::decode(alloc, octets) {
        Ok(again) => again.tree() == message.tree(),
        Err(fault) => return Ok(format!(in alloc; "{fault}\n")?),
    };
    let begin = spelled(alloc, first_of(octets))?;
    Ok(format!(in alloc; "{begin} {is_read}\n")?)
}

/// The first five octets, or all of fewer.
fn first_of(octets: &[u8]) -> &[u8] {
    match octets.get(..5) {
        Some(first) => first,
        None => octets,
    }
}
