//! What a client says, from a message that a broker reads.
use client_messages::ClientMessage;
use message_tree::{Dict, Message, Options, Tree};
use session::{Fault, Publish, Said, read_said};
use std::alloc::{AllocError, Global};

/// The third element, where it is a dictionary.
fn options_of(alloc: Global, message: &Message) -> Result<Options, AllocError> {
    if let Tree::List(elements) = message.tree() {
        if let Some(Tree::Dict(options)) = elements.get(2) {
            return Ok(Options::of(options.try_copy(alloc)?));
        }
    }
    Ok(Options::of(Dict::new(alloc)))
}

/// A PUBLISH, with its options as they stand.
fn said_again(publish: Publish, options: Options) -> ClientMessage {
    let Publish {
        request,
        options: read,
        topic,
        args,
    } = publish;
    drop(read);
    ClientMessage::Publish {
        request,
        options,
        topic,
        args,
    }
}

/// What says just what a broker reads in this message, with its options as they stand.
pub fn client_message(alloc: Global, message: Message) -> Result<ClientMessage, Fault> {
    let options = options_of(alloc, &message)?;
    Ok(match read_said(alloc, message)? {
        Said::Hello { realm, authid } => ClientMessage::Hello { realm, authid },
        Said::Abort => ClientMessage::Abort,
        Said::Goodbye => ClientMessage::Goodbye,
        Said::Publish(publish) => said_again(publish, options),
        Said::Subscribe {
            request,
            options: _,
            topic,
        } => ClientMessage::Subscribe {
            request,
            options,
            topic,
        },
        Said::Unsubscribe {
            request,
            subscription,
        } => ClientMessage::Unsubscribe {
            request,
            subscription,
        },
    })
}
