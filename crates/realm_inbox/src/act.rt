//! What a connection does.
use crate::joining::Joining;
use crate::transport::Shut;
use message_tree::Octets;
use wamp_messages::Said;

/// What a connection does, as its reader sees it.
#[derive(Drop)]
pub enum Act<S: Shut> {
    /// It asks for a session (WAMP, "Session Establishment").
    Join(Joining<S>),
    /// Its client said this.
    Said(Said),
    /// Its client sent a PING with these octets.
    Ping(Octets),
    /// Its client sent what is no message of a client.
    Spoilt,
    /// Its stream has ended.
    Gone,
}
