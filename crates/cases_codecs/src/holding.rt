//! What holds texts, octets and trees.
use case_text::{number_of, octets_of, spelled, text_of};
use message_tree::{MAX_DEPTH, Message, Octets, Shared, Text, Tree};
use std::alloc::Global;
use std::io;

/// So many lists, each the only item of the one around it, as a message.
pub fn deep(alloc: Global, text: &str) -> io::Result<String> {
    let mut tree = Tree::List(Vec::new(alloc));
    for _ in 1..number_of(text) {
        tree = Tree::List(vec![in alloc; tree]?);
    }
    match Message::of(tree) {
        Ok(message) => {
            let depth = message.depth();
            let measured = message.tree().depth();
            Ok(format!(in alloc; "{depth} {measured} of {MAX_DEPTH}\n")?)
        }
        Err((fault, tree)) => {
            let depth = tree.depth();
            Ok(format!(in alloc; "{fault}: {depth} of {MAX_DEPTH}\n")?)
        }
    }
}

/// A text that is held, a copy of it, and the text taken out.
pub fn text(alloc: Global, text: &str) -> io::Result<String> {
    let held = Text::of(alloc, text_of(alloc, text)?.as_str())?;
    let copy = held.try_copy(alloc)?;
    two(
        alloc,
        copy.as_str().as_bytes(),
        held.into_string().as_bytes(),
    )
}

/// Octets that are held, a copy of them, and the octets taken out.
pub fn octets(alloc: Global, text: &str) -> io::Result<String> {
    let held = Octets::of(alloc, &octets_of(alloc, text)?)?;
    let copy = held.try_copy(alloc)?;
    let moved = Octets::from_vec(held.into_vec());
    two(alloc, copy.as_slice(), moved.into_vec().as_slice())
}

fn two(alloc: Global, first: &[u8], second: &[u8]) -> io::Result<String> {
    let first = spelled(alloc, first)?;
    let second = spelled(alloc, second)?;
    Ok(format!(in alloc; "{first} {second}\n")?)
}

/// What a twin holds when the first is gone.
pub fn shared(alloc: Global, text: &str) -> io::Result<String> {
    let shared = Shared::new(alloc, Text::from_string(text_of(alloc, text)?))?;
    let twin = shared.twin()?;
    drop(shared);
    let text = spelled(alloc, twin.value().as_str().as_bytes())?;
    Ok(format!(in alloc; "{text}\n")?)
}
