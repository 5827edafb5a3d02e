//! What happens to a realm: the entries of its history.
ghost use Rattle.std.specs.Prelude.{◌≡◌};
ghost use Rattle.realm.specs.Sessions.{conn_of};
ghost use Rattle.realm.specs.Words.{draws_word, is_silent, says_with_word};

use message_tree::{Octets, Text};
use wamp_ids::Conn;
use wamp_messages::{Said, SaidKind};

/// What happens to a realm: one entry of its history.
#[derive(Drop)]
pub enum Entry {
    /// A connection asks for a session: its HELLO named this realm. The word gives the session's
    /// id, and that of the publication of its joining; `authid` is that of HELLO.Details, where it
    /// has one.
    Join {
        /// The connection that asks.
        conn: Conn,
        /// The word that was drawn for it.
        word: u64,
        /// The authid that it asks for.
        authid: Option<Text>,
    },
    /// A live session said something. The word gives the id of what is published then: by a
    /// PUBLISH, or of the session's end by a last word. Else it isn't looked at.
    Said {
        /// The session's connection.
        conn: Conn,
        /// The word that was drawn for the publication.
        word: u64,
        /// What it said.
        said: Said,
    },
    /// A live session sent a PING.
    Ping {
        /// The session's connection.
        conn: Conn,
        /// The octets that the PONG carries back.
        payload: Octets,
    },
    /// A live session sent what is no message of a client.
    Spoilt {
        /// The session's connection.
        conn: Conn,
        /// The word that was drawn for the publication of its end.
        word: u64,
    },
    /// The connection of a live session is gone.
    Gone {
        /// The session's connection.
        conn: Conn,
        /// The word that was drawn for the publication of its end.
        word: u64,
    },
    /// A live session is ended by the broker, since it doesn't take what it is owed. Without a word
    /// nothing is published of it.
    Cut {
        /// The session's connection.
        conn: Conn,
        /// The word that was drawn for the publication of its end, where one was.
        word: Option<u64>,
    },
    /// A live session is closed, since the broker shuts down.
    Closed {
        /// The session's connection.
        conn: Conn,
        /// The word that was drawn for the publication of its end.
        word: u64,
    },
}

/// Whether a message of a client draws a word: a PUBLISH, or the last that a session says.
pub fn says_with_word(said: &Said) -> bool
    ensures { result ≡ says_with_word said.now }
{
    said.kind() != SaidKind::Request
}

impl Entry {
    /// The connection that it is of.
    pub fn conn(&self) -> Conn
        ensures { result ≡ conn_of self.now }
    {
        match self {
            Entry::Join { conn, .. } => *conn,
            Entry::Said { conn, .. } => *conn,
            Entry::Ping { conn, .. } => *conn,
            Entry::Spoilt { conn, .. } => *conn,
            Entry::Gone { conn, .. } => *conn,
            Entry::Cut { conn, .. } => *conn,
            Entry::Closed { conn, .. } => *conn,
        }
    }

    /// Whether the entry draws a word: a Join, a message that does, and each ending but a Cut
    /// without a word.
    pub fn draws_word(&self) -> bool
        ensures { result ≡ draws_word self.now }
    {
        match self {
            Entry::Join { .. } => true,
            Entry::Said { said, .. } => says_with_word(said),
            Entry::Ping { .. } => false,
            Entry::Spoilt { .. } => true,
            Entry::Gone { .. } => true,
            Entry::Cut { word, .. } => word.is_some(),
            Entry::Closed { .. } => true,
        }
    }

    /// Whether it is a Cut without a word.
    pub fn is_silent(&self) -> bool
        ensures { result ≡ is_silent self.now }
    {
        match self {
            Entry::Join { .. } => false,
            Entry::Said { .. } => false,
            Entry::Ping { .. } => false,
            Entry::Spoilt { .. } => false,
            Entry::Gone { .. } => false,
            Entry::Cut { word, .. } => word.is_none(),
            Entry::Closed { .. } => false,
        }
    }
}
