//! Who is to receive what is published to a topic.
use wamp_ids::{Conn, Id};

/// A subscription whose pattern matches a topic.
#[derive(Clone, Copy, Debug, PartialEq, Eq)]
pub struct Receiver {
    /// Whose it is.
    pub conn: Conn,
    /// Its number.
    pub number: Id,
    /// Whether its events have to name the topic: of a prefix and of a wildcard, since these match
    /// other topics too.
    pub names_topic: bool,
}
