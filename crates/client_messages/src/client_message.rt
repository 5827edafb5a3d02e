//! What a client says.
use message_tree::{Options, Text};
use session::Args;
use wamp_ids::Id;

/// A message of a client (WAMP, "Messages").
#[derive(Drop)]
pub enum ClientMessage {
    /// HELLO: it asks for a realm, and perhaps for an authid.
    Hello {
        /// The realm's URI.
        realm: Text,
        /// The authid that it asks for.
        authid: Option<Text>,
    },
    /// ABORT: it gives the session up.
    Abort,
    /// GOODBYE: it closes the session.
    Goodbye,
    /// GOODBYE, as the answer to the one of a broker that closes the session.
    GoodbyeAndOut,
    /// PUBLISH.
    Publish {
        /// The request's id.
        request: Id,
        /// The options, as they are sent.
        options: Options,
        /// The topic's URI.
        topic: Text,
        /// Arguments and ArgumentsKw.
        args: Args,
    },
    /// SUBSCRIBE.
    Subscribe {
        /// The request's id.
        request: Id,
        /// The options, as they are sent.
        options: Options,
        /// The pattern's URI.
        topic: Text,
    },
    /// UNSUBSCRIBE.
    Unsubscribe {
        /// The request's id.
        request: Id,
        /// The subscription's number.
        subscription: Id,
    },
}
