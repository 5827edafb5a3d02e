//! What options ask for, in words: each that isn't as it is where no options are given, with `?` where it has a wrong type.
use message_tree::{Shared, Text};
use session::{Lists, PublishOptions, SubscribeOptions, Who};
use std::alloc::Global;
use std::io;
use wamp_ids::{Conn, Id, Policy};

/// The publisher, and receivers that lists may tell apart.
const RECEIVERS: [(u64, u64, &str, &str); 5] = [
    (1, 1, "anonymous", "anonymous"),
    (2, 2, "anonymous", "anonymous"),
    (3, 7, "bob", "ops"),
    (4, 9007199254740992, "", "a"),
    (5, 128, "a", ""),
];

/// Whom lists admit by default: all but the publisher.
const EVERYBODY: &str = "01111";

/// One more word.
fn push_word(text: &mut String, name: &str, mark: &str) -> io::Result<()> {
    push_comma(text)?;
    text.push_str(name)?;
    text.push_str(mark)?;
    Ok(())
}

/// A comma behind the word before, if there is one.
fn push_comma(text: &mut String) -> io::Result<()> {
    if text.len() > 1 {
        text.push_str(",")?;
    }
    Ok(())
}

fn push_flag(text: &mut String, name: &str, flag: Option<bool>) -> io::Result<()> {
    match flag {
        Some(false) => Ok(()),
        Some(true) => push_word(text, name, ""),
        None => push_word(text, name, "?"),
    }
}

fn who(alloc: Global, of: (u64, u64, &str, &str)) -> io::Result<Option<Who>> {
    let (Some(conn), Ok(id)) = (Conn::new(of.0), Id::new(of.1)) else {
        return Ok(None);
    };
    Ok(Some(Who {
        conn,
        id,
        authid: Shared::new(alloc, Text::of(alloc, of.2)?)?,
        authrole: Shared::new(alloc, Text::of(alloc, of.3)?)?,
    }))
}

/// For each receiver whether it is admitted.
fn admitted(alloc: Global, lists: &Lists) -> io::Result<String> {
    let mut bits = String::new(alloc);
    let Some(publisher) = who(alloc, RECEIVERS[0])? else {
        return Ok(bits);
    };
    for receiver in RECEIVERS {
        if let Some(receiver) = who(alloc, receiver)? {
            push_bit(&mut bits, lists.admits(&receiver, &publisher))?;
        }
    }
    Ok(bits)
}

fn push_bit(bits: &mut String, bit: bool) -> io::Result<()> {
    Ok(bits.push(if bit { '1' } else { '0' })?)
}

fn push_lists(alloc: Global, text: &mut String, lists: &Option<Lists>) -> io::Result<()> {
    let Some(lists) = lists else {
        return push_word(text, "lists", "?");
    };
    let bits = admitted(alloc, lists)?;
    if lists.has_no_lists() && bits.as_str() == EVERYBODY {
        return Ok(());
    }
    push_word(text, "admits=", bits.as_str())
}

fn push_policy(text: &mut String, policy: Option<Policy>) -> io::Result<()> {
    match policy {
        Some(Policy::Exact) => Ok(()),
        Some(Policy::Prefix) => push_word(text, "prefix", ""),
        Some(Policy::Wildcard) => push_word(text, "wildcard", ""),
        None => push_word(text, "match", "?"),
    }
}

/// What the options of a PUBLISH ask for.
pub fn publish_options(alloc: Global, options: &PublishOptions) -> io::Result<String> {
    let mut text = String::from_str(alloc, "{")?;
    push_flag(&mut text, "acknowledge", options.acknowledge)?;
    push_flag(&mut text, "disclose_me", options.disclose_me)?;
    push_flag(&mut text, "retain", options.retain)?;
    push_lists(alloc, &mut text, &options.lists)?;
    text.push_str("}")?;
    Ok(text)
}

/// What the options of a SUBSCRIBE ask for.
pub fn subscribe_options(alloc: Global, options: SubscribeOptions) -> io::Result<String> {
    let mut text = String::from_str(alloc, "{")?;
    push_policy(&mut text, options.policy)?;
    push_flag(&mut text, "get_retained", options.get_retained)?;
    text.push_str("}")?;
    Ok(text)
}
