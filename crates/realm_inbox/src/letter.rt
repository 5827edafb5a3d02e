//! What an inbox carries. Nobody outside this crate makes a post: it comes out of an inbox, or not at all.
ghost use Rattle.std.specs.Prelude.{◌≡◌};
ghost use Rattle.realm_inbox.specs.declared.joining.Joining.{Joining as AJoining};
ghost use Rattle.realm_inbox.specs.declared.act.Act.TheVariants.{Join};

use crate::act::Act;
use crate::backlog::Weight;
use crate::transport::Shut;
use ghost_state::{GhostCount, GhostList};
use std::marker::Model;
use std::snapshot::Snapshot;
use wamp_ids::Conn;

/// An act of a connection, with what had been posted at its seat before it. A Join brings an outbox of this connection.
///
/// A poster alone makes one, as it posts. Contracts see the connection, the act, and what had been posted before.
#[derive(Drop)]
pub struct Letter<S: Shut> {
    pub(crate) conn: Conn,
    pub(crate) act: Act<S>,
    // It takes no bytes.
    pub(crate) before: Snapshot<GhostList<(Conn, Act<S>)>>,
    // What it takes of its seat's backlog.
    pub(crate) weight: Weight,
    ghost own: { (joining : AJoining S) → act ≡ Join joining → joining.outbox.conn ≡ conn },
}

impl<S: Shut> Letter<S> {
    ghost use Rattle.realm_inbox.specs.Seats.{BringsOwn, act_of_letter, conn_of_letter};

    /// Whose act it is.
    pub fn conn(&self) -> Conn
        ensures { result ≡ conn_of_letter self.now }
    {
        self.conn
    }

    /// The act.
    pub fn act(&self) -> &Act<S>
        ensures { result.now ≡ act_of_letter self.now }
    {
        &self.act
    }

    /// Whose act it is, and the act. A Join brings an outbox of this connection. The third is what the letter takes of its seat's
    /// backlog: who handles the act drops it afterwards, and so makes room for the client's next acts.
    pub fn into_parts(self) -> (Conn, Act<S>, Weight)
        ensures conn { result.0 ≡ conn_of_letter self }
        ensures act { result.1 ≡ act_of_letter self }
        ensures own { BringsOwn result.0 result.1 }
    {
        let Letter {
            conn,
            act,
            before: _,
            weight,
        } = self;
        (conn, act, weight)
    }
}

/// A seat's number, and how many acts had been posted there. It is only looked at by a snapshot.
#[derive(Drop)]
pub(crate) struct SeatCount {
    pub(crate) number: u64,
    pub(crate) posted: Snapshot<GhostCount>,
}

impl Model for SeatCount {
    ghost use Rattle.std.specs.Prelude.{ℕ};

    ghost Value = { ℕ × ℕ };

    ghost view = { λ c. (c.number, c.posted.value) };
}

/// What a stop is made of. A door alone has it, and posts it.
///
/// Contracts see what the stop comes behind: of each seat that its door was shown, how many acts had been posted there.
#[derive(Drop)]
pub struct Halt {
    // It takes no bytes.
    pub(crate) behind: Snapshot<GhostList<SeatCount>>,
}

/// What the actor is told.
#[derive(Drop)]
pub enum Post<S: Shut> {
    /// An act of a connection.
    Act(Letter<S>),
    /// To stop. It stands at no seat.
    Stop(Halt),
}
