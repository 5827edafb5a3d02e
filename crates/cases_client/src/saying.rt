//! What a client says, as messages.
use crate::json::message_json;
use crate::messages::client_message;
use case_text::line_of;
use client_messages::{ClientMessage, Fault, said_message};
use message_tree::{Dict, Message, Options, Text, Tree};
use std::alloc::{AllocError, Global};
use std::io;
use wamp_ids::Id;

/// The message that says what a broker reads in this one.
pub fn said(alloc: Global, json: &str) -> io::Result<String> {
    match json_codec::decode(alloc, json.as_bytes()) {
        Ok(message) => said_by(alloc, message),
        Err(fault) => Ok(format!(in alloc; "{fault}\n")?),
    }
}

fn said_by(alloc: Global, message: Message) -> io::Result<String> {
    match client_message(alloc, message) {
        Ok(said) => told(alloc, said),
        Err(fault) => Ok(format!(in alloc; "read: {fault}\n")?),
    }
}

fn told(alloc: Global, said: ClientMessage) -> io::Result<String> {
    match said_message(alloc, said) {
        Ok(message) => {
            let json = message_json(alloc, &message)?;
            Ok(format!(in alloc; "{json}\n")?)
        }
        Err(fault) => Ok(format!(in alloc; "{fault}\n")?),
    }
}

/// Lists in one another.
fn nested(alloc: Global, levels: u64) -> Result<Tree, AllocError> {
    let mut tree = Tree::Null;
    for _ in 0..levels {
        tree = Tree::List(vec![in alloc; tree]?);
    }
    Ok(tree)
}

/// How deep the message nests of a SUBSCRIBE with an option that nests so deep.
pub fn deep(alloc: Global, levels: u64) -> io::Result<String> {
    let Ok(request) = Id::new(1) else {
        return line_of(alloc, "no id");
    };
    let mut dict = Dict::new(alloc);
    dict.set(alloc, String::from_str(alloc, "x")?, nested(alloc, levels)?)?;
    let said = ClientMessage::Subscribe {
        request,
        options: Options::of(dict),
        topic: Text::of(alloc, "a")?,
    };
    match said_message(alloc, said) {
        Ok(message) => {
            let depth = message.depth();
            Ok(format!(in alloc; "a message of depth {depth}\n")?)
        }
        Err(fault) => Ok(format!(in alloc; "{fault}\n")?),
    }
}

const FAULTS: [Fault; 3] = [Fault::NoMemory, Fault::TooDeep, Fault::NoBrokerMessage];

/// Each fault as it is printed.
pub fn faults(alloc: Global) -> io::Result<String> {
    let mut text = String::new(alloc);
    for fault in FAULTS {
        text.push_str(format!(in alloc; "fault {fault}\n")?.as_str())?;
    }
    Ok(text)
}
