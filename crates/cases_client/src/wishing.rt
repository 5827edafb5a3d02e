//! Wishes, as the options that ask for them.
use crate::json::tree_json;
use case_text::number_of;
use client_messages::{PublishWishes, SessionLists, SubscribeWishes};
use message_tree::{Options, Text, Tree};
use std::alloc::Global;
use std::io;
use wamp_ids::{Id, Policy};

/// The options of a SUBSCRIBE.
pub fn subscribe(alloc: Global, words: &str) -> io::Result<String> {
    let wishes = SubscribeWishes {
        policy: policy_in(words),
        get_retained: words.contains("get_retained"),
    };
    told(alloc, wishes.options(alloc)?)
}

fn policy_in(words: &str) -> Policy {
    if words.contains("prefix") {
        Policy::Prefix
    } else if words.contains("wildcard") {
        Policy::Wildcard
    } else {
        Policy::Exact
    }
}

/// The options of a PUBLISH.
pub fn publish(alloc: Global, words: &str) -> io::Result<String> {
    let mut wishes = PublishWishes::none();
    for word in words.split(' ') {
        match word.split_once('=') {
            Some((name, list)) => match name.strip_prefix("not_") {
                Some(name) => name_some(alloc, &mut wishes.exclude, name, list)?,
                None => name_some(alloc, &mut wishes.eligible, name, list)?,
            },
            None => wish(&mut wishes, word),
        }
    }
    told(alloc, wishes.options(alloc)?)
}

/// Names those of a list by what its name says that they are.
fn name_some(alloc: Global, lists: &mut SessionLists, name: &str, list: &str) -> io::Result<()> {
    match name {
        "ids" => lists.ids = Some(ids_of(alloc, list)?),
        "authids" => lists.authids = Some(texts_of(alloc, list)?),
        _ => lists.authroles = Some(texts_of(alloc, list)?),
    }
    Ok(())
}

fn wish(wishes: &mut PublishWishes, word: &str) {
    match word {
        "acknowledge" => wishes.acknowledge = true,
        "disclose_me" => wishes.disclose_me = true,
        "include_me" => wishes.exclude_me = false,
        "retain" => wishes.retain = true,
        _ => {}
    }
}

/// The members of a list that commas part; none of an empty one.
fn texts_of(alloc: Global, list: &str) -> io::Result<Vec<Text>> {
    let mut texts = Vec::new(alloc);
    if list.is_empty() {
        return Ok(texts);
    }
    for text in list.split(',') {
        texts.push(Text::of(alloc, text)?)?;
    }
    Ok(texts)
}

/// The same of ids; a number that is none is left out.
fn ids_of(alloc: Global, list: &str) -> io::Result<Vec<Id>> {
    let mut ids = Vec::new(alloc);
    for number in list.split(',') {
        if let Ok(id) = Id::new(number_of(number)) {
            ids.push(id)?;
        }
    }
    Ok(ids)
}

fn told(alloc: Global, options: Options) -> io::Result<String> {
    let tree = Tree::Dict(options.into_dict());
    let depth = tree.depth();
    let json = tree_json(alloc, tree)?;
    Ok(format!(in alloc; "{json} of depth {depth}\n")?)
}
