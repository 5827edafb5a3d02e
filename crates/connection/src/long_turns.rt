//! Whose long message is read.
use std::sync::Mutex;
use wamp_ids::{Conn, seat};

/// A message of so many octets is read in its turn.
pub const LONG_MESSAGE: usize = 16_384;

/// Whose turn it is to have a long message read, among all connections of a broker. Two are read at a time, however many come: so the
/// threads of clients that say little find a processor that is free, and readers don't wait for one another in the system's lock on the
/// memory that they share.
#[derive(Drop)]
pub struct LongTurns {
    odd: Mutex<()>,
    even: Mutex<()>,
}

impl LongTurns {
    /// Nobody's.
    pub fn new() -> LongTurns {
        LongTurns {
            odd: Mutex::new(()),
            even: Mutex::new(()),
        }
    }

    /// What a connection waits for: half of the seats have the same.
    pub fn of(&self, conn: Conn) -> LongTurn<'_> {
        let turn = if seat(conn) % 2 == 0 {
            &self.even
        } else {
            &self.odd
        };
        LongTurn { turn: Some(turn) }
    }
}

/// What a connection waits for before a long message of it is read. It isn't held while anything else is waited for: so who has it gives
/// it back once that message is read.
#[derive(Clone, Copy, Drop)]
pub struct LongTurn<'a> {
    pub(crate) turn: Option<&'a Mutex<()>>,
}

impl LongTurn<'_> {
    /// There is nothing to wait for.
    pub fn free() -> LongTurn<'static> {
        LongTurn { turn: None }
    }
}
