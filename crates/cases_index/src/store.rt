//! The retained publications.
use crate::reading::{pattern_of, topic_of};
use case_text::{line_of, number_of, spell, text_of};
use message_tree::{Shared, Text};
use retained::Store;
use session::{Args, CarriedArgs, Lists, Publication, Who};
use std::alloc::Global;
use std::io;
use wamp_ids::{Conn, Id, Topic};

fn publisher(alloc: Global) -> Option<Who> {
    Some(Who {
        conn: Conn::new(1)?,
        id: Id::new(1).ok()?,
        authid: Shared::new(alloc, Text::of(alloc, "anonymous").ok()?).ok()?,
        authrole: Shared::new(alloc, Text::of(alloc, "anonymous").ok()?).ok()?,
    })
}

/// A publication of this number and topic; there is one, unless memory was refused.
fn publication(alloc: Global, number: u64, topic: Topic) -> Option<Shared<Publication>> {
    let publication = Publication {
        id: Id::new(number).ok()?,
        topic,
        lists: Lists::everyone(),
        publisher: publisher(alloc)?,
        disclosed: false,
        args: CarriedArgs::of(Args::none()).ok()?,
    };
    Shared::new(alloc, publication).ok()
}

/// Keeps a publication of the words `NUMBER TOPIC`.
pub fn keep(alloc: Global, store: &mut Store, words: &str) -> io::Result<String> {
    let Some((number, topic)) = words.split_once(' ') else {
        return line_of(alloc, "no topic");
    };
    match topic_of(alloc, topic)? {
        Ok(topic) => kept_if(alloc, store, publication(alloc, number_of(number), topic)),
        Err(fault) => Ok(format!(in alloc; "{fault}\n")?),
    }
}

fn kept_if(
    alloc: Global,
    store: &mut Store,
    publication: Option<Shared<Publication>>,
) -> io::Result<String> {
    let Some(publication) = publication else {
        return line_of(alloc, "no publication, or E1 no memory");
    };
    match store.keep(alloc, publication) {
        Ok(()) => Ok(String::new(alloc)),
        Err(fault) => Ok(format!(in alloc; "{fault}\n")?),
    }
}

/// Whether there is room for a publication of this topic.
pub fn room(alloc: Global, store: &Store, topic: &str) -> io::Result<String> {
    let topic = text_of(alloc, topic)?;
    let has_room = store.has_room(topic.as_str());
    Ok(format!(in alloc; "{has_room}\n")?)
}

/// Those that match the pattern of the words `POLICY TEXT`.
pub fn kept(alloc: Global, store: &Store, words: &str) -> io::Result<String> {
    match pattern_of(alloc, words)? {
        Ok(pattern) => in_words(alloc, store.matching(alloc, &pattern)?.as_slice()),
        Err(fault) => Ok(format!(in alloc; "{fault}\n")?),
    }
}

fn in_words(alloc: Global, publications: &[Shared<Publication>]) -> io::Result<String> {
    let mut text = String::from_str(alloc, "kept")?;
    for shared in publications {
        let publication = shared.value();
        let number = publication.id.value();
        write!(&mut text, " {number} ")?;
        spell(&mut text, publication.topic.text().as_bytes())?;
        text.push(';')?;
    }
    text.push('\n')?;
    Ok(text)
}

/// How many match the pattern of the words `POLICY TEXT`.
pub fn count(alloc: Global, store: &Store, words: &str) -> io::Result<String> {
    match pattern_of(alloc, words)? {
        Ok(pattern) => {
            let count = store.matching(alloc, &pattern)?.len();
            Ok(format!(in alloc; "{count}\n")?)
        }
        Err(fault) => Ok(format!(in alloc; "{fault}\n")?),
    }
}
