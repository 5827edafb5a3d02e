//! What a realm notes for who looks on.
use message_tree::Text;
use wamp_ids::{Conn, Id};
use wamp_messages::{Reason, Request};

/// A request that was refused.
#[derive(Drop)]
pub struct Refusal {
    /// Whose session asked.
    pub conn: Conn,
    /// The kind of the request.
    pub kind: Request,
    /// Its id.
    pub request: Id,
    /// Why it was refused.
    pub reason: Reason,
    /// The topic or pattern that it named. `None` of UNSUBSCRIBE, and where memory for it was refused.
    pub topic: Option<Text>,
}

/// How much a realm holds, and gave so far.
#[derive(Clone, Copy, Debug, Drop, PartialEq, Eq)]
pub struct Tally {
    /// The live sessions.
    pub sessions: usize,
    /// The patterns that they hold: each as often as there are sessions that hold it.
    pub subscriptions: usize,
    /// The topics with a retained publication.
    pub retained: usize,
    /// The octets of these topics and of their arguments.
    pub retained_octets: u64,
    /// The publications of clients that were accepted so far.
    pub publications: u64,
    /// The EVENTs that these gave when they were accepted.
    pub events: u64,
}

/// What a realm notes for who looks on. Contracts see nothing of it.
#[derive(Drop)]
pub(crate) struct Notes {
    // The last request that was refused, until it is taken.
    refusal: Option<Refusal>,
    publications: u64,
    events: u64,
}

impl Notes {
    /// Nothing so far.
    pub fn new() -> Notes {
        Notes {
            refusal: None,
            publications: 0,
            events: 0,
        }
    }

    /// A request was refused.
    pub fn note_refusal(&mut self, refusal: Refusal) {
        self.refusal = Some(refusal);
    }

    /// The last request that was refused, where it wasn't taken yet.
    pub fn take_refusal(&mut self) -> Option<Refusal> {
        self.refusal.take()
    }

    /// A publication gave so many EVENTs.
    pub fn note_publication(&mut self, events: usize) {
        self.publications = self.publications.wrapping_add(1);
        self.events = self.events.wrapping_add(events as u64);
    }

    /// How many publications were accepted.
    pub fn publications(&self) -> u64 {
        self.publications
    }

    /// How many EVENTs these gave.
    pub fn events(&self) -> u64 {
        self.events
    }
}
