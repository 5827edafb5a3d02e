//! Who is eligible.
use case_text::{crossing, line_of, may_be_shared, number_of, octets_of};
use eligibility::{ListOptions, Lists, Who};
use message_tree::{Dict, Shared, Text, Tree};
use msgpack_cursor::{Dictionary, Seen, message};
use std::alloc::{AllocError, Global};
use std::io;
use wamp_ids::{Conn, Id};

/// Who the words `CONN ID AUTHID AUTHROLE` name.
pub fn who_of(alloc: Global, words: &str) -> io::Result<Option<Who>> {
    let mut words = words.split(' ');
    let Some(conn) = Conn::new(number_of(words.next().unwrap_or(""))) else {
        return Ok(None);
    };
    let Ok(id) = Id::new(number_of(words.next().unwrap_or(""))) else {
        return Ok(None);
    };
    let authid = Shared::new(alloc, Text::of(alloc, words.next().unwrap_or(""))?)?;
    let authrole = Shared::new(alloc, Text::of(alloc, words.next().unwrap_or(""))?)?;
    Ok(Some(Who {
        conn,
        id,
        authid,
        authrole,
    }))
}

/// Who they are, by a twin.
pub fn who_in_words(alloc: Global, who: &Option<Who>) -> io::Result<String> {
    match who {
        None => line_of(alloc, "nobody"),
        Some(who) => {
            let twin = who.twin()?;
            let conn = twin.conn.value();
            let id = twin.id.value();
            let authid = twin.authid.value().as_str();
            let authrole = twin.authrole.value().as_str();
            Ok(format!(in alloc; "{conn} {id} {authid} {authrole}\n")?)
        }
    }
}

/// Whether the lists of options in JSON admit the receiver.
pub fn lists(
    alloc: Global,
    json: &str,
    receiver: &Option<Who>,
    publisher: &Option<Who>,
) -> io::Result<String> {
    match json_codec::decode(alloc, json.as_bytes()) {
        Ok(message) => match message.tree() {
            Tree::Dict(options) => asked(alloc, options, receiver, publisher),
            _ => line_of(alloc, "no options"),
        },
        Err(fault) => Ok(format!(in alloc; "{fault}\n")?),
    }
}

/// Whether the lists of options in JSON admit nobody at all.
pub fn nobody(alloc: Global, json: &str) -> io::Result<String> {
    match json_codec::decode(alloc, json.as_bytes()) {
        Ok(message) => match message.tree() {
            Tree::Dict(options) => empty(alloc, options),
            _ => line_of(alloc, "no options"),
        },
        Err(fault) => Ok(format!(in alloc; "{fault}\n")?),
    }
}

fn empty(alloc: Global, options: &Dict) -> io::Result<String> {
    match Lists::read(alloc, options) {
        Ok(lists) => {
            let nobody = lists.admits_nobody();
            Ok(format!(in alloc; "{nobody}\n")?)
        }
        Err(fault) => Ok(format!(in alloc; "{fault}\n")?),
    }
}

/// Whether the lists that are taken out of options in JSON admit the receiver.
pub fn taken(
    alloc: Global,
    json: &str,
    receiver: &Option<Who>,
    publisher: &Option<Who>,
) -> io::Result<String> {
    match json_codec::decode(alloc, json.as_bytes()) {
        Ok(message) => match message.into_tree() {
            Tree::Dict(options) => match Lists::take(alloc, options) {
                Ok(lists) => admitted(alloc, &lists, receiver, publisher),
                Err(fault) => Ok(format!(in alloc; "{fault}\n")?),
            },
            _ => line_of(alloc, "no options"),
        },
        Err(fault) => Ok(format!(in alloc; "{fault}\n")?),
    }
}

/// Whether the lists of options that stand in these octets admit the receiver.
pub fn standing(
    alloc: Global,
    text: &str,
    receiver: &Option<Who>,
    publisher: &Option<Who>,
) -> io::Result<String> {
    let octets = octets_of(alloc, text)?;
    match message(&octets) {
        Ok(value) => match value.seen() {
            Seen::Dict(options) => found(alloc, &options, receiver, publisher),
            _ => line_of(alloc, "no options"),
        },
        Err(refusal) => Ok(format!(in alloc; "{refusal}\n")?),
    }
}

/// The same of options where they stand, by a twin of the lists.
fn found(
    alloc: Global,
    options: &Dictionary<'_>,
    receiver: &Option<Who>,
    publisher: &Option<Who>,
) -> io::Result<String> {
    let options = ListOptions {
        exclude_me: options.get("exclude_me"),
        exclude: options.get("exclude"),
        exclude_authid: options.get("exclude_authid"),
        exclude_authrole: options.get("exclude_authrole"),
        eligible: options.get("eligible"),
        eligible_authid: options.get("eligible_authid"),
        eligible_authrole: options.get("eligible_authrole"),
    };
    match Lists::of_values(alloc, &options)? {
        Some(lists) => admitted(alloc, &lists.twin()?, receiver, publisher),
        None => line_of(alloc, "wrong type"),
    }
}

fn asked(
    alloc: Global,
    options: &Dict,
    receiver: &Option<Who>,
    publisher: &Option<Who>,
) -> io::Result<String> {
    match Lists::read(alloc, options) {
        Ok(lists) => admitted(alloc, &lists, receiver, publisher),
        Err(fault) => Ok(format!(in alloc; "{fault}\n")?),
    }
}

fn admitted(
    alloc: Global,
    lists: &Lists,
    receiver: &Option<Who>,
    publisher: &Option<Who>,
) -> io::Result<String> {
    match (receiver, publisher) {
        (Some(receiver), Some(publisher)) => {
            let admits = lists.admits(receiver, publisher);
            Ok(format!(in alloc; "{admits}\n")?)
        }
        _ => line_of(alloc, "nobody"),
    }
}

/// Whether no lists admit the receiver.
pub fn everyone(
    alloc: Global,
    receiver: &Option<Who>,
    publisher: &Option<Who>,
) -> io::Result<String> {
    admitted(alloc, &Lists::everyone(), receiver, publisher)
}

/// Whether lists under this key, each with a number beyond 64 bits, admit the receiver.
pub fn beyond(
    alloc: Global,
    key: &str,
    receiver: &Option<Who>,
    publisher: &Option<Who>,
) -> io::Result<String> {
    let mut text = String::new(alloc);
    for number in [18446744073709551616, -9223372036854775809] {
        let options = options_of(alloc, key, number)?;
        text.push_str(asked(alloc, &options, receiver, publisher)?.as_str())?;
    }
    Ok(text)
}

/// Options with a list of 1 and this number.
fn options_of(alloc: Global, key: &str, number: i128) -> Result<Dict, AllocError> {
    let list = vec![in alloc; Tree::Whole(1), Tree::Whole(number)]?;
    let mut options = Dict::new(alloc);
    options.set(alloc, String::from_str(alloc, key)?, Tree::List(list))?;
    Ok(options)
}

/// That lists and who they name may be shared between threads.
pub fn threads(alloc: Global) -> io::Result<String> {
    may_be_shared::<Lists>();
    may_be_shared::<Who>();
    crossing(alloc)
}
