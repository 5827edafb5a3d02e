//! What the options of a request ask for.
use crate::matching::name_of;
use case_text::{line_of, octets_of};
use eligibility::{Lists, Who};
use message_tree::{Dict, Tree};
use msgpack_cursor::{Dictionary, Seen, message};
use std::alloc::{AllocError, Global};
use std::io;
use wamp_ids::Policy;
use wamp_messages::{PublishOptions, SubscribeOptions};

/// What `REQUEST OPTIONS` asks for, or `none` of either request.
pub fn options(
    alloc: Global,
    words: &str,
    receiver: &Option<Who>,
    publisher: &Option<Who>,
) -> io::Result<String> {
    match words.split_once(' ') {
        Some(("publish", octets)) => {
            let asked = published(alloc, &octets_of(alloc, octets)?)?;
            publish(alloc, &asked, receiver, publisher)
        }
        Some(("publish-json", json)) => {
            let asked = published_in_json(alloc, json)?;
            publish(alloc, &asked, receiver, publisher)
        }
        Some(("subscribe", octets)) => subscribe(alloc, subscribed(&octets_of(alloc, octets)?)),
        Some(("subscribe-json", json)) => subscribe(alloc, subscribed_in_json(alloc, json)?),
        _ => nothing(alloc, receiver, publisher),
    }
}

/// What requests without options ask for.
fn nothing(alloc: Global, receiver: &Option<Who>, publisher: &Option<Who>) -> io::Result<String> {
    let mut told = publish(alloc, &Some(PublishOptions::none()), receiver, publisher)?;
    told.push_str(subscribe(alloc, Some(SubscribeOptions::none()))?.as_str())?;
    Ok(told)
}

/// What the options of a PUBLISH ask for in octets, which are a dictionary.
fn published(alloc: Global, octets: &[u8]) -> io::Result<Option<PublishOptions>> {
    match dictionary_of(octets) {
        Some(options) => Ok(Some(PublishOptions::of_octets(alloc, &options)?)),
        None => Ok(None),
    }
}

/// What the options of a PUBLISH ask for in JSON.
fn published_in_json(alloc: Global, json: &str) -> io::Result<Option<PublishOptions>> {
    match dict_of(alloc, json)? {
        Some(options) => Ok(Some(PublishOptions::of_dict(alloc, options)?)),
        None => Ok(None),
    }
}

/// What the options of a SUBSCRIBE ask for in octets, which are a dictionary.
fn subscribed(octets: &[u8]) -> Option<SubscribeOptions> {
    let options = dictionary_of(octets)?;
    Some(SubscribeOptions::of_octets(&options))
}

/// What the options of a SUBSCRIBE ask for in JSON.
fn subscribed_in_json(alloc: Global, json: &str) -> io::Result<Option<SubscribeOptions>> {
    match dict_of(alloc, json)? {
        Some(options) => Ok(Some(SubscribeOptions::of_dict(&options))),
        None => Ok(None),
    }
}

/// The dictionary that octets are.
fn dictionary_of(octets: &[u8]) -> Option<Dictionary<'_>> {
    let Ok(value) = message(octets) else {
        return None;
    };
    match value.seen() {
        Seen::Dict(options) => Some(options),
        _ => None,
    }
}

/// The dictionary of a JSON text.
fn dict_of(alloc: Global, json: &str) -> io::Result<Option<Dict>> {
    match json_codec::decode(alloc, json.as_bytes()) {
        Ok(message) => match message.into_tree() {
            Tree::Dict(options) => Ok(Some(options)),
            _ => Ok(None),
        },
        Err(json_codec::Fault::NoMemory) => Err(AllocError)?,
        Err(_) => Ok(None),
    }
}

/// What a PUBLISH asks for, by a twin.
fn publish(
    alloc: Global,
    asked: &Option<PublishOptions>,
    receiver: &Option<Who>,
    publisher: &Option<Who>,
) -> io::Result<String> {
    let Some(asked) = asked else {
        return line_of(alloc, "no options");
    };
    let twin = asked.twin()?;
    let acknowledge = flag(twin.acknowledge);
    let disclose_me = flag(twin.disclose_me);
    let retain = flag(twin.retain);
    let lists = who(&twin.lists, receiver, publisher);
    Ok(format!(in alloc;
        "acknowledge {acknowledge}, disclose_me {disclose_me}, retain {retain}, {lists}\n"
    )?)
}

/// What a SUBSCRIBE asks for.
fn subscribe(alloc: Global, asked: Option<SubscribeOptions>) -> io::Result<String> {
    let Some(asked) = asked else {
        return line_of(alloc, "no options");
    };
    let policy = policy(asked.policy);
    let get_retained = flag(asked.get_retained);
    Ok(format!(in alloc; "match {policy}, get_retained {get_retained}\n")?)
}

fn flag(flag: Option<bool>) -> &'static str {
    match flag {
        Some(true) => "true",
        Some(false) => "false",
        None => "wrong",
    }
}

fn policy(policy: Option<Policy>) -> &'static str {
    match policy {
        Some(policy) => name_of(policy),
        None => "wrong",
    }
}

/// Whether the lists admit the receiver.
fn who(lists: &Option<Lists>, receiver: &Option<Who>, publisher: &Option<Who>) -> &'static str {
    let Some(lists) = lists else {
        return "wrong lists";
    };
    match (receiver, publisher) {
        (Some(receiver), Some(publisher)) => {
            if lists.admits(receiver, publisher) {
                "admitted"
            } else {
                "left out"
            }
        }
        _ => "nobody",
    }
}
