//! Items, as a line has them.
use case_text::octets_of;
use message_tree::{Octets, Shared, Text};
use session::{CarriedArgs, Item, Lists, Publication, Reason, Said, Who, read_said};
use std::alloc::Global;
use std::io;
use wamp_ids::{Conn, Id, Topic};

fn id_of(word: &str) -> Option<Id> {
    Id::new(word.parse::<u64>().ok()?).ok()
}

// The arguments of a PUBLISH that has these in JSON.
fn args_of(alloc: Global, json: &str) -> Option<CarriedArgs> {
    let text = format!(in alloc; "[16,1,{{}},\"a.b\",{json}]").ok()?;
    let message = json_codec::decode(alloc, text.as_bytes()).ok()?;
    match read_said(alloc, message).ok()? {
        Said::Publish(publish) => CarriedArgs::of(publish.args).ok(),
        _ => None,
    }
}

/// A publication of these arguments; none where memory was refused.
pub fn publication(alloc: Global, id: Id, args: CarriedArgs) -> Option<Shared<Publication>> {
    let topic = Topic::read(alloc, "a.b").ok()?;
    let publisher = Who {
        conn: Conn::new(2)?,
        id: Id::new(2).ok()?,
        authid: Shared::new(alloc, Text::of(alloc, "anonymous").ok()?).ok()?,
        authrole: Shared::new(alloc, Text::of(alloc, "anonymous").ok()?).ok()?,
    };
    let publication = Publication {
        id,
        topic,
        lists: Lists::everyone(),
        publisher,
        disclosed: false,
        args,
    };
    Shared::new(alloc, publication).ok()
}

/// An EVENT of a publication.
pub fn event_of(subscription: Id, publication: Shared<Publication>) -> Item {
    Item::Event {
        subscription,
        publication,
        with_topic: false,
        retained: false,
    }
}

fn event(alloc: Global, text: &str) -> Option<Item> {
    let (subscription, rest) = text.split_once(' ')?;
    let (id, json) = rest.split_once(' ')?;
    let args = args_of(alloc, json)?;
    let publication = publication(alloc, id_of(id)?, args)?;
    Some(event_of(id_of(subscription)?, publication))
}

fn published(text: &str) -> Option<Item> {
    let (request, publication) = text.split_once(' ')?;
    Some(Item::Published {
        request: id_of(request)?,
        publication: id_of(publication)?,
    })
}

// As in `1 3 496 x`: the words of an EVENT with one text of so many letters.
fn letters(alloc: Global, text: &str) -> io::Result<String> {
    let mut words = String::new(alloc);
    let mut parts = text.rsplitn(3, ' ');
    let letter = parts.next().unwrap_or("");
    let count = parts.next().unwrap_or("");
    let ids = parts.next().unwrap_or("");
    write!(words, "{ids} [\"")?;
    for _ in 0..count.parse::<u64>().unwrap_or(0) {
        words.push_str(letter)?;
    }
    words.push_str("\"]")?;
    Ok(words)
}

fn pong(alloc: Global, text: &str) -> io::Result<Option<Item>> {
    let octets = octets_of(alloc, text)?;
    Ok(Some(Item::Pong(Octets::from_vec(octets))))
}

/// The item that a line names; none also where memory was refused.
pub fn item_of(alloc: Global, line: &str) -> io::Result<Option<Item>> {
    let (word, text) = match line.split_once(' ') {
        Some(parts) => parts,
        None => (line, ""),
    };
    match word {
        "event" => Ok(event(alloc, text)),
        "letters" => {
            let words = letters(alloc, text)?;
            Ok(event(alloc, words.as_str()))
        }
        "published" => Ok(published(text)),
        "pong" => pong(alloc, text),
        "goodbye" => Ok(Some(Item::Goodbye(Reason::GoodbyeAndOut))),
        _ => Ok(None),
    }
}
