//! Why a connection was closed, by all that ended it.
ghost use Rattle.std.specs.Prelude.{◌≡◌};
ghost use Rattle.broker_threads.specs.Closing.{if_admitted, reason_by_farewell, reason_by_octets, reason_by_reader, reason_by_stream, reason_of};

use connection::{ReadEnd, WriteEnd};
use log_lines::CloseReason;
use session::Fault;

/// What ended a session.
#[derive(Clone, Copy, Drop)]
pub struct Closing {
    /// How its reader ended.
    pub read: ReadEnd,
    /// Whether its client said ABORT.
    pub has_aborted: bool,
    /// Whether its client said HELLO once more, which its realm answers by ABORT.
    pub has_greeted: bool,
    /// How its writer ended.
    pub write: WriteEnd,
    /// How many octets the payload of the item has that its writer couldn't write, where that is known.
    pub octets: Option<usize>,
    /// Whether its realm admitted it.
    pub is_admitted: bool,
    /// Whether its outbox was found full.
    pub is_full: bool,
    /// Whether it was cut for want of memory.
    pub is_lost: bool,
    /// Whether a write had failed before its reader ended.
    pub is_unwritable: bool,
    /// Whether the broker was told to stop.
    pub is_stopping: bool,
    /// How many items its outbox holds.
    pub outbox: usize,
    /// How many octets its client takes in one payload.
    pub limit: u32,
}

impl Closing {
    /// The reason: what the broker cut it for, then what couldn't be written, then what its client did.
    pub fn reason(&self) -> CloseReason
        ensures { result ≡ reason_of self.now }
    {
        if self.is_full {
            return CloseReason::OutboxFull(self.outbox);
        }
        if self.is_lost {
            return CloseReason::NoMemory;
        }
        match self.write {
            WriteEnd::TooLong => self.by_octets(),
            WriteEnd::NoMemory => CloseReason::NoMemory,
            WriteEnd::TooManyTurns => CloseReason::TooManyTurns,
            WriteEnd::Full => CloseReason::OutboxFull(self.outbox),
            WriteEnd::Lost => CloseReason::NoMemory,
            WriteEnd::Stopped => self.by_reader(),
            WriteEnd::Dropped => self.by_reader(),
            WriteEnd::Device => self.by_reader(),
        }
    }

    // The reason where the client can't take an item.
    fn by_octets(&self) -> CloseReason
        ensures { result ≡ reason_by_octets self.now }
    {
        match self.octets {
            None => CloseReason::Unspelt,
            Some(octets) => CloseReason::TooLong {
                octets,
                limit: self.limit,
            },
        }
    }

    // The reason where the writer has none of its own.
    fn by_reader(&self) -> CloseReason
        ensures { result ≡ reason_by_reader self.now }
    {
        match self.read {
            ReadEnd::Left => self.if_admitted(self.by_farewell()),
            ReadEnd::Violation(fault) => self.if_admitted(CloseReason::Violation(fault)),
            ReadEnd::NoMemory => CloseReason::NoMemory,
            ReadEnd::TooManyTurns => CloseReason::TooManyTurns,
            ReadEnd::ActorGone => CloseReason::Stop,
            ReadEnd::Ended => self.by_stream(CloseReason::Ended),
            ReadEnd::Device => self.by_stream(CloseReason::ReadFailed),
        }
    }

    // The reason where its client said what ends a session, unless there was none.
    fn if_admitted(&self, itself: CloseReason) -> CloseReason
        ensures { result ≡ if_admitted self.now itself }
    {
        if self.is_admitted {
            return itself;
        }
        if self.is_stopping {
            CloseReason::Stop
        } else {
            CloseReason::NotAdmitted
        }
    }

    // The reason where the client has left.
    fn by_farewell(&self) -> CloseReason
        ensures { result ≡ reason_by_farewell self.now }
    {
        if self.has_aborted {
            CloseReason::Abort
        } else {
            CloseReason::Goodbye
        }
    }

    // The reason where the stream has ended or failed, which says this for itself.
    fn by_stream(&self, itself: CloseReason) -> CloseReason
        ensures { result ≡ reason_by_stream self.now itself }
    {
        if self.has_greeted {
            self.if_admitted(CloseReason::Violation(Fault::Shape))
        } else if self.is_stopping {
            CloseReason::Stop
        } else if !self.is_admitted {
            CloseReason::NotAdmitted
        } else if self.is_unwritable {
            CloseReason::WriteFailed
        } else {
            itself
        }
    }
}
