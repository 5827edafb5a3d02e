//! What became of a stream.
ghost use Rattle.std.specs.Prelude.{◌≡◌};
ghost use Rattle.broker_threads.specs.Courses.{fate_of, seen_of, sink_of};

use crate::closed::Closed;
use crate::stream_fate::{SessionEnds, StreamFate};
use crate::writer_thread::{SeenHistory, Written};
use connection::ReadEnd;
use session::Fault;

/// What became of a stream that had a seat.
#[derive(Drop)]
pub enum Course<O> {
    /// Nothing was read or written: no thread could be made for it.
    Untouched(Closed<O>),
    /// No session was opened, for this fault.
    NotOpened(Closed<O>, Fault),
    /// A session was opened, and nothing was read or written behind its opening, as memory was refused for it.
    OpenedAlone(Closed<O>),
    /// A session was opened and served, until its reader and its writer ended.
    Served(ReadEnd, Written<O>),
}

impl<O: Drop> Course<O> {
    /// The same, as its acceptor is told it.
    pub fn fate(&self) -> StreamFate
        ensures { result ≡ fate_of self.now }
    {
        match self {
            Course::Untouched(_) => StreamFate::NoMemory,
            Course::NotOpened(_, fault) => StreamFate::NotOpened(*fault),
            Course::OpenedAlone(_) => StreamFate::OpenedAlone,
            Course::Served(read, written) => StreamFate::Served(SessionEnds {
                read: *read,
                write: written.end,
            }),
        }
    }

    /// The half that was written to, and what the writer saw last of its realm's history, if it took anything.
    pub fn into_parts(self) -> (Closed<O>, Option<SeenHistory>)
        ensures sink { result.0 ≡ sink_of self }
        ensures seen { result.1 ≡ seen_of self }
    {
        match self {
            Course::Untouched(sink) => (sink, None),
            Course::NotOpened(sink, _) => (sink, None),
            Course::OpenedAlone(sink) => (sink, None),
            Course::Served(_, written) => written.into_parts(),
        }
    }
}
