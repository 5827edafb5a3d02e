//! Streams that are over.
use broker_threads::{Closed, Ended, Reader, StreamFate};
use realm_inbox::Shut;
use std::snapshot::Snapshot;

/// What became of a stream that was lent. A value of it is only looked at by a snapshot.
#[derive(Drop)]
pub enum Over<I, O, S: Shut> {
    /// It had a seat and a reader: what that was given, and what it gave back.
    Seated(Snapshot<Reader<I, O, S>>, Snapshot<Ended<I, O, S>>),
    /// No seat was free for it, and its client was told so: what its halves were, and what they were last.
    TurnedAway(Snapshot<(I, O)>, Snapshot<I>, Snapshot<O>),
    /// Nothing was read or written, as memory was refused for it.
    Untouched(Snapshot<(I, O)>),
}

/// The halves of a stream that is over, let go of.
#[derive(Drop)]
pub struct Gone<I, O> {
    pub source: Closed<I>,
    pub sink: Closed<O>,
    /// What became of the stream.
    pub fate: StreamFate,
}
