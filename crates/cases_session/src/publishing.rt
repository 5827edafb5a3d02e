//! What is published, and the events that it gives.
use crate::saying::args_in_words;
use crate::telling::{anonymous, told_if};
use case_text::{crossing, may_be_shared};
use message_tree::{Content, Shared, Tree};
use session::{Args, CarriedArgs, Item, Lists, Publication, Said, read_said};
use std::alloc::Global;
use std::io;
use wamp_ids::{Id, Topic};

/// No arguments, and a list of none alone.
pub fn arguments(alloc: Global) -> io::Result<String> {
    let none = args_in_words(alloc, &Args::none())?;
    let list = listed(alloc)?;
    Ok(format!(in alloc; "none:{none}, a list:{list}\n")?)
}

fn listed(alloc: Global) -> io::Result<String> {
    let list = Content::of(Tree::List(Vec::new(alloc)));
    args_in_words(alloc, &Args::positional(alloc, list)?)
}

/// The arguments of a PUBLISH in JSON.
pub fn args_of(alloc: Global, json: &str) -> Option<Args> {
    let message = json_codec::decode(alloc, json.as_bytes()).ok()?;
    match read_said(alloc, message).ok()? {
        Said::Publish(publish) => Some(publish.args),
        _ => None,
    }
}

/// Whether the arguments of a PUBLISH are carried.
pub fn carried(alloc: Global, json: &str) -> io::Result<String> {
    let Some(args) = args_of(alloc, json) else {
        return Ok(String::from_str(alloc, "no PUBLISH, or E1 no memory\n")?);
    };
    let is_carried = args.is_carried();
    let is_taken = CarriedArgs::of(args).is_ok();
    Ok(format!(in alloc; "{is_carried} {is_taken}\n")?)
}

/// The arguments, under the mark `j` with what they are in JSON beside them.
fn marked(alloc: Global, args: Args, marks: &str) -> Args {
    if marks.contains('j') {
        return args.with_json(alloc);
    }
    args
}

/// The carried arguments of a PUBLISH in JSON, by a copy of them.
fn carried_of(alloc: Global, json: &str, marks: &str) -> Option<CarriedArgs> {
    let args = args_of(alloc, json)?;
    let args = marked(alloc, args.try_copy(alloc).ok()?, marks);
    CarriedArgs::of(args).ok()
}

fn publication(alloc: Global, json: &str, marks: &str) -> Option<Publication> {
    let args = carried_of(alloc, json, marks)?;
    let topic = Topic::read(alloc, "a.b.c").ok()?;
    let publisher = anonymous(alloc, 2)?;
    Some(Publication {
        id: Id::of_word(2),
        topic,
        lists: Lists::everyone(),
        publisher,
        disclosed: marks.contains('d'),
        args,
    })
}

/// The EVENT that a PUBLISH in JSON gives subscription 1, under these marks.
pub fn event_item(alloc: Global, json: &str, marks: &str) -> Option<Item> {
    let publication = publication(alloc, json, marks)?;
    Some(Item::Event {
        subscription: Id::new(1).ok()?,
        publication: Shared::new(alloc, publication).ok()?,
        with_topic: marks.contains('t'),
        retained: marks.contains('r'),
    })
}

/// The message of that EVENT, by the words `MARKS JSON`.
pub fn event(alloc: Global, text: &str) -> io::Result<String> {
    match text.split_once(' ') {
        None => Ok(String::from_str(alloc, "no marks\n")?),
        Some((marks, json)) => told_if(alloc, event_item(alloc, json, marks)),
    }
}

/// That what is said and published may be shared between threads.
pub fn threads(alloc: Global) -> io::Result<String> {
    may_be_shared::<Said>();
    may_be_shared::<Publication>();
    may_be_shared::<Shared<Publication>>();
    crossing(alloc)
}
