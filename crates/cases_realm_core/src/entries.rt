//! Entries and steps, as a line has them.
use crate::words::{conn, conn_and_word, number};
use case_items::said_of;
use case_text::part;
use message_tree::{Octets, Text};
use realm_core::{Entry, Step};
use std::alloc::Global;
use std::io;

fn join(alloc: Global, text: &str) -> io::Result<Option<Entry>> {
    match conn_and_word(text) {
        None => Ok(None),
        Some((conn, word, "")) => Ok(Some(Entry::Join {
            conn,
            word,
            authid: None,
        })),
        Some((conn, word, authid)) => Ok(Some(Entry::Join {
            conn,
            word,
            authid: Some(Text::of(alloc, authid)?),
        })),
    }
}

fn said(alloc: Global, text: &str) -> io::Result<Option<Entry>> {
    let Some((conn, word, message)) = conn_and_word(text) else {
        return Ok(None);
    };
    match said_of(alloc, message)? {
        None => Ok(None),
        Some(said) => Ok(Some(Entry::Said { conn, word, said })),
    }
}

fn ping(alloc: Global, text: &str) -> io::Result<Option<Entry>> {
    let (first, payload) = part(text);
    match conn(first) {
        None => Ok(None),
        Some(conn) => Ok(Some(Entry::Ping {
            conn,
            payload: Octets::of(alloc, payload.as_bytes())?,
        })),
    }
}

fn cut(text: &str) -> Option<Entry> {
    let (first, word) = part(text);
    match conn(first) {
        None => None,
        Some(conn) => Some(Entry::Cut {
            conn,
            word: number(word),
        }),
    }
}

/// An ending that draws a word.
fn ending(kind: &str, text: &str) -> Option<Entry> {
    let Some((conn, word, _)) = conn_and_word(text) else {
        return None;
    };
    match kind {
        "spoilt" => Some(Entry::Spoilt { conn, word }),
        "gone" => Some(Entry::Gone { conn, word }),
        "closed" => Some(Entry::Closed { conn, word }),
        _ => None,
    }
}

/// The entry that the text names.
pub fn entry_of(alloc: Global, text: &str) -> io::Result<Option<Entry>> {
    let (kind, rest) = part(text);
    match kind {
        "join" => join(alloc, rest),
        "said" => said(alloc, rest),
        "ping" => ping(alloc, rest),
        "cut" => Ok(cut(rest)),
        _ => Ok(ending(kind, rest)),
    }
}

/// The step that the text names.
pub fn step_of(alloc: Global, text: &str) -> io::Result<Option<Step>> {
    let (kind, rest) = part(text);
    match kind {
        "post" => match entry_of(alloc, rest)? {
            Some(entry) => Ok(Some(Step::Post(entry))),
            None => Ok(None),
        },
        "accept" => Ok(Some(Step::Accept)),
        "lose" => Ok(Some(Step::Lose(number(rest)))),
        "push" => Ok(Some(Step::Push)),
        "take" => match conn(rest) {
            Some(conn) => Ok(Some(Step::Take(conn))),
            None => Ok(None),
        },
        "leave" => Ok(Some(Step::Leave(number(rest)))),
        _ => Ok(None),
    }
}
