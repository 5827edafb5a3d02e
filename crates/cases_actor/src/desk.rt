//! An actor at its inbox.
ghost use Rattle.std.specs.Prelude.{◌≡◌, None};
ghost use Rattle.realm_inbox.specs.EndViews.{received, home_of};
ghost use Rattle.realm_actor.specs.Run.{SameAtSeats};

use case_posts::{Counted, Wire};
use realm_actor::{Actor, Inbox, Outcome};
use std::alloc::Global;
use std::marker::Model;
use std::sync::Wait;
use wamp_ids::Conn;

/// An actor, and the inbox whose posts it handles, one after another. What it has handled is, seat by seat, what the inbox gave.
/// No chronicle is picked for the inbox.
#[derive(Drop)]
pub struct Desk {
    actor: Actor<Wire, Counted>,
    inbox: Inbox<Wire>,
}

impl Model for Desk {
    ghost use Rattle.std.specs.Prelude.{◌≡◌, ℕ, List, None};
    ghost use Rattle.realm_inbox.specs.EndViews.{received, home_of};
    ghost use Rattle.realm_actor.specs.Run.{SameAtSeats};

    ghost Value = { List ℕ };

    ghost view = { λ d. d.actor.last_cut };

    ghost invariant = { λ d. SameAtSeats d.actor.handled (received d.inbox)
        × (home_of d.inbox ≡ None) };
}

// Handles the next post. None where each sender is gone.
fn handle_one<R: Wait>(
    rt: &R,
    alloc: Global,
    actor: &mut Actor<Wire, Counted>,
    inbox: &mut Inbox<Wire>,
) -> Option<Outcome>
    requires same { SameAtSeats actor.old.handled (received inbox.old) }
    requires home { home_of inbox.old ≡ None }
    ensures same { SameAtSeats actor.new.handled (received inbox.new) }
    ensures home { home_of inbox.new ≡ None }
{
    let post = inbox.receive(rt)?;
    Some(actor.handle(rt, alloc, post))
}

impl Desk {
    /// An actor that handled nothing, at an inbox that gave nothing.
    pub fn new(actor: Actor<Wire, Counted>, inbox: Inbox<Wire>) -> Desk
        requires same { SameAtSeats actor.handled (received inbox) }
        requires home { home_of inbox ≡ None }
    {
        Desk { actor, inbox }
    }

    /// Waits for the next post, and handles it.
    pub fn handle<R: Wait>(&mut self, rt: &R, alloc: Global) -> Option<Outcome> {
        let Desk { actor, inbox } = self;
        handle_one(rt, alloc, actor, inbox)
    }

    /// Handles what is posted until each sender is gone, or a stop was posted; then the outboxes are closed.
    pub fn run<R: Wait>(self, rt: &R, alloc: Global) {
        let Desk { actor, mut inbox } = self;
        let _ = actor.run(rt, alloc, &mut inbox);
    }

    /// Whom the last post cut.
    pub fn last_cut(&self) -> &[Conn] {
        self.actor.last_cut()
    }

    /// Whether the connection has a live session.
    pub fn is_live(&self, conn: Conn) -> bool {
        self.actor.is_live(conn)
    }

    /// Whether its outbox is held.
    pub fn holds(&self, conn: Conn) -> bool {
        self.actor.holds(conn)
    }

    /// Forgets the sessions that aren't live.
    pub fn sweep(&mut self) {
        self.actor.sweep();
    }
}
