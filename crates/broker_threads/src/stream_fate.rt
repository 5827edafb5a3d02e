//! What the acceptor of a stream is told of it.
use connection::{ReadEnd, WriteEnd};
use session::Fault;

/// How the two threads of a session ended.
#[derive(Clone, Copy, Debug, Drop, PartialEq, Eq)]
pub struct SessionEnds {
    pub read: ReadEnd,
    pub write: WriteEnd,
}

/// What became of a stream, once it is over: whether it was served, and if not, why.
#[derive(Clone, Copy, Debug, Drop, PartialEq, Eq)]
pub enum StreamFate {
    /// No seat was free for it, and its client was told so.
    NoSeat,
    /// Nothing was read or written, as memory or a thread was refused for it.
    NoMemory,
    /// No session was opened, for this fault.
    NotOpened(Fault),
    /// A session was opened, and nothing was read or written behind its opening, as memory was refused for it.
    OpenedAlone,
    /// A session was opened and served, until its reader and its writer ended so.
    Served(SessionEnds),
}
