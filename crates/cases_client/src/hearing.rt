//! What a broker's message says, in words.
use crate::json::tree_json;
use case_text::line_of;
use client_messages::{EventDetails, Heard, read_heard};
use message_tree::{Message, Text};
use session::{Args, Request};
use std::alloc::Global;
use std::io;
use wamp_ids::Id;

/// What a message in JSON says.
pub fn heard(alloc: Global, json: &str) -> io::Result<String> {
    match json_codec::decode(alloc, json.as_bytes()) {
        Ok(message) => heard_by(alloc, message),
        Err(fault) => Ok(format!(in alloc; "{fault}\n")?),
    }
}

fn heard_by(alloc: Global, message: Message) -> io::Result<String> {
    match read_heard(alloc, message) {
        Ok(heard) => in_words(alloc, heard),
        Err(fault) => Ok(format!(in alloc; "{fault}\n")?),
    }
}

/// What a broker says, as a line.
pub fn in_words(alloc: Global, heard: Heard) -> io::Result<String> {
    match heard {
        Heard::Welcome { session } => numbers(alloc, "welcome", [Some(session), None]),
        Heard::Abort { reason } => reasoned(alloc, "abort", &reason),
        Heard::Goodbye { reason } => reasoned(alloc, "goodbye", &reason),
        Heard::Error {
            kind,
            request,
            reason,
        } => error(alloc, kind, request, &reason),
        Heard::Published {
            request,
            publication,
        } => numbers(alloc, "published", [Some(request), Some(publication)]),
        Heard::Subscribed {
            request,
            subscription,
        } => numbers(alloc, "subscribed", [Some(request), Some(subscription)]),
        Heard::Unsubscribed { request } => numbers(alloc, "unsubscribed", [Some(request), None]),
        Heard::Event {
            subscription,
            publication,
            details,
            args,
        } => event(
            alloc,
            [Some(subscription), Some(publication)],
            &details,
            &args,
        ),
    }
}

/// A name and the numbers behind it.
fn numbers(alloc: Global, name: &str, ids: [Option<Id>; 2]) -> io::Result<String> {
    let mut line = String::from_str(alloc, name)?;
    for id in ids {
        if let Some(id) = id {
            let number = id.value();
            line.push_str(format!(in alloc; " {number}")?.as_str())?;
        }
    }
    line_of(alloc, line.as_str())
}

fn reasoned(alloc: Global, name: &str, reason: &Text) -> io::Result<String> {
    let reason = reason.as_str();
    Ok(format!(in alloc; "{name} {reason}\n")?)
}

fn error(alloc: Global, kind: Request, request: Id, reason: &Text) -> io::Result<String> {
    let kind = match kind {
        Request::Publish => "publish",
        Request::Subscribe => "subscribe",
        Request::Unsubscribe => "unsubscribe",
    };
    let number = request.value();
    let reason = reason.as_str();
    Ok(format!(in alloc; "error of {kind} {number} {reason}\n")?)
}

fn event(
    alloc: Global,
    ids: [Option<Id>; 2],
    details: &EventDetails,
    args: &Args,
) -> io::Result<String> {
    let head = numbers(alloc, "event", ids)?;
    let details = details_in_words(alloc, details)?;
    let args = args_in_words(alloc, args)?;
    let head = head.as_str().trim_end();
    Ok(format!(in alloc; "{head}{details}{args}\n")?)
}

fn details_in_words(alloc: Global, details: &EventDetails) -> io::Result<String> {
    let mut words = String::new(alloc);
    if details.retained {
        words.push_str(" retained")?;
    }
    put_text(alloc, &mut words, "topic", &details.topic)?;
    if let Some(publisher) = &details.publisher {
        let number = publisher.value();
        words.push_str(format!(in alloc; " publisher {number}")?.as_str())?;
    }
    put_text(alloc, &mut words, "authid", &details.publisher_authid)?;
    put_text(alloc, &mut words, "authrole", &details.publisher_authrole)?;
    Ok(words)
}

fn put_text(alloc: Global, words: &mut String, name: &str, text: &Option<Text>) -> io::Result<()> {
    if let Some(text) = text {
        let text = text.as_str();
        words.push_str(format!(in alloc; " {name} {text}")?.as_str())?;
    }
    Ok(())
}

/// Arguments, each behind a space.
fn args_in_words(alloc: Global, args: &Args) -> io::Result<String> {
    let mut words = String::new(alloc);
    let arguments = args.decoded(alloc)?;
    for content in [arguments.args, arguments.kwargs] {
        if let Some(content) = content {
            words.push_str(" ")?;
            words.push_str(tree_json(alloc, content.into_tree())?.as_str())?;
        }
    }
    Ok(words)
}
