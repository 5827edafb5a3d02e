//! Why a connection was refused, or closed.
use session::Fault;

/// Why a connection was refused before it got a number.
#[derive(Clone, Copy, Debug, Drop, PartialEq, Eq)]
pub enum ConnectionRefusal {
    /// As many connections are served as there are seats.
    NoSeat,
    /// A growth of memory, or a second handle to the stream, was refused.
    NoMemory,
}

/// Why a connection was closed: the first of what ended it, in the broker's order of telling.
#[derive(Clone, Copy, Debug, Drop, PartialEq, Eq)]
pub enum CloseReason {
    /// Its client said GOODBYE.
    Goodbye,
    /// Its client said ABORT.
    Abort,
    /// Its client ended the stream.
    Ended,
    /// Its client broke the protocol by this fault.
    Violation(Fault),
    /// No session was opened, for this fault.
    NotOpened(Fault),
    /// Its realm admitted no session: by an ABORT, or for want of memory.
    NotAdmitted,
    /// So many items waited for it, as many as its outbox holds.
    OutboxFull(usize),
    /// An item has so many octets in one payload, over its client's limit.
    TooLong {
        /// The octets of the payload.
        octets: usize,
        /// The most octets that the client takes.
        limit: u32,
    },
    /// An item has no spelling in its serialization, or its octets over the client's limit couldn't be counted.
    Unspelt,
    /// A read failed.
    ReadFailed,
    /// A write failed.
    WriteFailed,
    /// Its stream was read, or written, 2^32 times.
    TooManyTurns,
    /// A growth of memory was refused.
    NoMemory,
    /// A thread was refused.
    NoThread,
    /// The broker was stopped.
    Stop,
}

/// Why a broker stops.
#[derive(Clone, Copy, Drop)]
pub enum Stopping {
    /// It was asked to.
    Asked,
    /// Accepting failed too often in a row.
    ListenFault,
    /// Memory, a thread or a seed was refused before anything was accepted.
    NoMemory,
}
