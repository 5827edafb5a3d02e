//! What a client says, read from a line of a table.
use message_tree::Message;
use session::{Publish, Said, read_said};
use std::alloc::{AllocError, Global};
use std::io;

/// The same PUBLISH. What its arguments are in JSON is kept beside them, as a publisher's reader keeps it.
fn with_json(alloc: Global, publish: Publish) -> Publish {
    Publish {
        args: publish.args.with_json(alloc),
        ..publish
    }
}

fn as_posted(alloc: Global, said: Said) -> Said {
    match said {
        Said::Publish(publish) => Said::Publish(with_json(alloc, publish)),
        other => other,
    }
}

/// What a client's message says.
fn meant(alloc: Global, message: Message) -> io::Result<Option<Said>> {
    match read_said(alloc, message) {
        Ok(said) => Ok(Some(as_posted(alloc, said))),
        Err(session::Fault::NoMemory) => Err(AllocError)?,
        Err(_) => Ok(None),
    }
}

/// What a client says by a message in JSON; `None` where it says nothing.
pub fn said_of(alloc: Global, text: &str) -> io::Result<Option<Said>> {
    match json_codec::decode(alloc, text.as_bytes()) {
        Ok(message) => meant(alloc, message),
        Err(json_codec::Fault::NoMemory) => Err(AllocError)?,
        Err(_) => Ok(None),
    }
}
