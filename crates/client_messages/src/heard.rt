//! What a broker says.
use message_tree::Text;
use session::{Args, Request};
use wamp_ids::Id;

/// What a broker says to a client that publishes and subscribes: one message of a session (WAMP,
/// "Messages").
#[derive(Drop)]
pub enum Heard {
    /// WELCOME: the session is established.
    Welcome {
        /// The session's id.
        session: Id,
    },
    /// ABORT: the session is refused, or ended by a violation.
    Abort {
        /// Why, as a URI.
        reason: Text,
    },
    /// GOODBYE: the session is closed.
    Goodbye {
        /// Why, as a URI.
        reason: Text,
    },
    /// ERROR: a request is refused.
    Error {
        /// The kind of the request.
        kind: Request,
        /// Its id.
        request: Id,
        /// Why, as a URI.
        reason: Text,
    },
    /// PUBLISHED: the answer to a PUBLISH that asked for one.
    Published {
        /// The request's id.
        request: Id,
        /// The publication's id.
        publication: Id,
    },
    /// SUBSCRIBED: the answer to a SUBSCRIBE.
    Subscribed {
        /// The request's id.
        request: Id,
        /// The subscription's id.
        subscription: Id,
    },
    /// UNSUBSCRIBED: the answer to an UNSUBSCRIBE.
    Unsubscribed {
        /// The request's id.
        request: Id,
    },
    /// EVENT: a publication for one subscription.
    Event {
        /// The subscription's id.
        subscription: Id,
        /// The publication's id.
        publication: Id,
        /// What the broker tells of it.
        details: EventDetails,
        /// Arguments and ArgumentsKw. What no serialization writes, as a float, is uncarried there.
        args: Args,
    },
}

/// What a broker tells of an event beside its arguments, each where it is named.
#[derive(Drop)]
pub struct EventDetails {
    /// The topic (WAMP, "Pattern-based Subscriptions").
    pub topic: Option<Text>,
    /// Whether the event was retained (WAMP, "Event Retention").
    pub retained: bool,
    /// The publisher's session (WAMP, "Publisher Identification").
    pub publisher: Option<Id>,
    /// The publisher's authid.
    pub publisher_authid: Option<Text>,
    /// The publisher's authrole.
    pub publisher_authrole: Option<Text>,
}
