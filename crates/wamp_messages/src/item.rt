//! What the broker tells a session.
use arguments::CarriedArgs;
use eligibility::{Lists, Who};
use message_tree::{Octets, Shared};
use wamp_ids::{Id, Topic};

/// Why a request or a session is refused, or ended: each is one URI (WAMP, "Predefined URIs"; those
/// under `broker.error` are this broker's own).
#[derive(Clone, Copy, Debug, PartialEq, Eq)]
pub enum Reason {
    /// `wamp.error.protocol_violation`
    ProtocolViolation,
    /// `wamp.error.no_such_realm`
    NoSuchRealm,
    /// `wamp.error.not_authorized`
    NotAuthorized,
    /// `broker.error.session_id_taken`
    SessionIdTaken,
    /// `wamp.error.invalid_uri`
    InvalidUri,
    /// `wamp.error.invalid_argument`
    InvalidArgument,
    /// `wamp.error.no_such_subscription`
    NoSuchSubscription,
    /// `broker.error.too_many_subscriptions`
    TooManySubscriptions,
    /// `broker.error.retained_full`
    RetainedFull,
    /// `wamp.close.goodbye_and_out`
    GoodbyeAndOut,
    /// `wamp.close.system_shutdown`
    SystemShutdown,
}

/// The kind of a request that an ERROR answers.
#[derive(Clone, Copy, Debug, PartialEq, Eq)]
pub enum Request {
    /// PUBLISH, of type 16.
    Publish,
    /// SUBSCRIBE, of type 32.
    Subscribe,
    /// UNSUBSCRIBE, of type 34.
    Unsubscribe,
}

/// An accepted PUBLISH.
#[derive(Drop)]
pub struct Publication {
    /// The id that was drawn for it.
    pub id: Id,
    /// Its topic.
    pub topic: Topic,
    /// Who is to receive it.
    pub lists: Lists,
    /// Who published it.
    pub publisher: Who,
    /// Whether its events name the publisher (WAMP, "Publisher Identification").
    pub disclosed: bool,
    /// Its arguments.
    pub args: CarriedArgs,
}

impl Publication {
    /// How many octets its topic and arguments take, as MessagePack has these.
    pub fn octets(&self) -> u64 {
        let topic = self.topic.text().len() as u64;
        topic.wrapping_add(self.args.args().octets() as u64)
    }
}

/// What the broker owes a session: each item is one message to it (WAMP, "Messages"), or the PONG
/// of a PING (WAMP, "RawSocket Transport").
#[derive(Drop)]
pub enum Item {
    /// WELCOME: the session is established.
    Welcome(Who),
    /// ABORT: the session is refused, or ended by a violation.
    Abort(Reason),
    /// GOODBYE: the session is closed.
    Goodbye(Reason),
    /// ERROR: a request is refused.
    Error {
        /// The kind of the request.
        kind: Request,
        /// Its id.
        request: Id,
        /// Why it is refused.
        reason: Reason,
    },
    /// PUBLISHED: the answer to a PUBLISH that asked for one.
    Published {
        /// The request's id.
        request: Id,
        /// The publication's id.
        publication: Id,
    },
    /// SUBSCRIBED: the answer to a SUBSCRIBE.
    Subscribed {
        /// The request's id.
        request: Id,
        /// The subscription's number.
        subscription: Id,
    },
    /// UNSUBSCRIBED: the answer to an UNSUBSCRIBE.
    Unsubscribed {
        /// The request's id.
        request: Id,
    },
    /// EVENT: a publication for one subscription.
    Event {
        /// The subscription's number.
        subscription: Id,
        /// What was published.
        publication: Shared<Publication>,
        /// Whether the details name the topic, as for prefix and wildcard subscriptions.
        with_topic: bool,
        /// Whether it is a retained event (WAMP, "Event Retention").
        retained: bool,
    },
    /// PONG: the answer to a PING, with its payload. It is a frame and no message.
    Pong(Octets),
}
