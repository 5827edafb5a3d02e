//! What a client's message says, in words.
use crate::asking::{publish_options, subscribe_options};
use message_tree::{Message, Text, Tree};
use rawsocket::Serializer;
use session::{Args, Fault, Publish, Said, decode, read_payload, read_said};
use std::alloc::Global;
use std::io;
use wamp_ids::Id;

/// What a message in JSON says, unless its tree says something else.
pub fn said(alloc: Global, json: &str) -> io::Result<String> {
    payload(alloc, Serializer::Json, json.as_bytes())
}

/// What the octets of a message say, unless its tree says something else.
pub fn payload(alloc: Global, serializer: Serializer, octets: &[u8]) -> io::Result<String> {
    let words = answer(alloc, read_payload(alloc, serializer, octets))?;
    let by_tree = answer(alloc, said_by_tree(alloc, serializer, octets))?;
    if words == by_tree {
        Ok(words)
    } else {
        Ok(format!(in alloc; "differs: {words}its tree: {by_tree}")?)
    }
}

fn said_by_tree(alloc: Global, serializer: Serializer, octets: &[u8]) -> Result<Said, Fault> {
    read_said(alloc, decode(alloc, serializer, octets)?)
}

fn answer(alloc: Global, said: Result<Said, Fault>) -> io::Result<String> {
    match said {
        Ok(said) => in_words(alloc, said),
        Err(fault) => Ok(format!(in alloc; "{fault}\n")?),
    }
}

fn in_words(alloc: Global, said: Said) -> io::Result<String> {
    match said {
        Said::Hello { realm, authid } => hello(alloc, realm, authid),
        Said::Abort => Ok(String::from_str(alloc, "abort\n")?),
        Said::Goodbye => Ok(String::from_str(alloc, "goodbye\n")?),
        Said::Publish(publish) => published(alloc, publish),
        Said::Subscribe {
            request,
            options,
            topic,
        } => {
            let options = subscribe_options(alloc, options)?;
            asked(alloc, ("subscribe", options.as_str()), request, topic, "")
        }
        Said::Unsubscribe {
            request,
            subscription,
        } => unsubscribe(alloc, request, subscription),
    }
}

fn published(alloc: Global, publish: Publish) -> io::Result<String> {
    let options = publish_options(alloc, &publish.options)?;
    let args = args_in_words(alloc, &publish.args)?;
    asked(
        alloc,
        ("publish", options.as_str()),
        publish.request,
        publish.topic,
        args.as_str(),
    )
}

/// A text within a line: a line feed in it is spelled.
fn shown(alloc: Global, text: &Text) -> io::Result<String> {
    let mut line = String::new(alloc);
    for c in text.as_str().chars() {
        push_shown(&mut line, c)?;
    }
    Ok(line)
}

fn push_shown(line: &mut String, c: char) -> io::Result<()> {
    if c == '\n' {
        Ok(line.push_str("\\0a")?)
    } else {
        Ok(line.push(c)?)
    }
}

fn hello(alloc: Global, realm: Text, authid: Option<Text>) -> io::Result<String> {
    let realm = shown(alloc, &realm)?;
    match &authid {
        None => Ok(format!(in alloc; "hello {realm}\n")?),
        Some(authid) => {
            let authid = shown(alloc, authid)?;
            Ok(format!(in alloc; "hello {realm} as {authid}\n")?)
        }
    }
}

/// A request, by its name and what its options ask for, at a topic, and what is behind it.
fn asked(
    alloc: Global,
    (name, options): (&str, &str),
    request: Id,
    topic: Text,
    behind: &str,
) -> io::Result<String> {
    let number = request.value();
    let topic = shown(alloc, &topic)?;
    Ok(format!(in alloc; "{name} {number} {options} {topic}{behind}\n")?)
}

fn unsubscribe(alloc: Global, request: Id, subscription: Id) -> io::Result<String> {
    let number = request.value();
    let subscription = subscription.value();
    Ok(format!(in alloc; "unsubscribe {number} {subscription}\n")?)
}

/// Arguments, each behind a space.
pub fn args_in_words(alloc: Global, args: &Args) -> io::Result<String> {
    let mut words = String::new(alloc);
    let arguments = args.decoded(alloc)?;
    for content in [arguments.args, arguments.kwargs] {
        if let Some(content) = content {
            words.push_str(" ")?;
            words.push_str(json_of(alloc, content.into_tree())?.as_str())?;
        }
    }
    Ok(words)
}

/// A tree in JSON; `uncarried` where it has none.
fn json_of(alloc: Global, tree: Tree) -> io::Result<String> {
    match Message::of(tree) {
        Ok(message) => message_json(alloc, &message),
        Err(_) => Ok(String::from_str(alloc, "too deep")?),
    }
}

/// A message in JSON; `uncarried` where it has none.
pub fn message_json(alloc: Global, message: &Message) -> io::Result<String> {
    match json_codec::encode(alloc, message) {
        Ok(octets) => match String::from_utf8(octets) {
            Ok(text) => Ok(text),
            Err(_) => Ok(String::from_str(alloc, "no text")?),
        },
        Err(json_codec::Fault::UncarriedLeaf) => Ok(String::from_str(alloc, "uncarried")?),
        Err(fault) => Ok(format!(in alloc; "{fault}")?),
    }
}
