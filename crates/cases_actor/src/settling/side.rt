//! Posts of one connection, each of which is handled at once.
ghost use Rattle.std.specs.Prelude.{◌≡◌, ◌≢◌, ℕ, Some, None, false, IfSome};
ghost use Rattle.realm_inbox.specs.Joins.{is_join};
ghost use Rattle.realm_inbox.specs.EndViews.{received, poster_conn, inbox_of, inbox_of_poster};
ghost use Rattle.realm_inbox.specs.Seats.{BringsOwn};
ghost use Rattle.realm_inbox.specs.declared.act.Act.TheVariants.{Join as AJoin};
ghost use Rattle.realm_inbox.specs.declared.joining.Joining.{Joining as AJoining};
ghost use Rattle.realm_actor.specs.OutboxHistory.{Box};
ghost use Rattle.realm_actor.specs.LastCut.{outbox_of};
ghost use Rattle.realm_actor.specs.declared.outcome.Outcome.TheVariants.{Applied as IsApplied};
ghost use Rattle.cases_actor.specs.declared.settling.desk.Desk.{Desk as ADesk};
ghost use Rattle.cases_actor.specs.Desks.{GoesOn, InStep};
ghost use Rattle.cases_actor.specs.Posts.{BringsNone};
ghost use Rattle.cases_actor.specs.Sides.{IsSide, Pairs};
ghost use Rattle.case_posts.specs.declared.wire.Wire.{Wire as AWire};

use crate::settling::desk::Desk;
use case_posts::{Entrance, Wire};
use outbox_queue::{Drain, Next};
use realm_actor::Outcome;
use realm_inbox::{Act, Poster, RealmHistory};
use session::Item;
use std::alloc::Global;
use std::io;
use std::sync::Wait;
use wamp_ids::Conn;

/// A connection: its poster, while each of its posts came through, and the drain of its outbox, while the actor holds that.
#[derive(Drop)]
pub struct Side {
    conn: Conn,
    poster: Option<Poster<Wire>>,
    drain: Option<Drain<Item, RealmHistory>>,
}

impl Side {
    /// Nothing was posted yet.
    pub fn new(poster: Poster<Wire>) -> Side
        ensures conn { result.conn ≡ poster_conn poster }
        ensures poster { result.poster ≡ Some poster }
        ensures drain { result.drain ≡ None }
    {
        Side {
            conn: poster.conn(),
            poster: Some(poster),
            drain: None,
        }
    }

    /// Whose posts they are.
    pub fn conn(&self) -> Conn
        ensures { result ≡ self.now.conn }
    {
        self.conn
    }

    // Keeps the drain of an outbox, in the place of an earlier one.
    fn keep(&mut self, drain: Drain<Item, RealmHistory>)
        ensures { self.new ≡ record self.old { drain = Some drain } }
    {
        self.drain = Some(drain);
    }

    /// The connection's next item. None where nothing waits, or no drain is here.
    pub fn take<R: Wait>(&mut self, rt: &R) -> Option<Item>
        ensures conn { self.new.conn ≡ self.old.conn }
        ensures poster { self.new.poster ≡ self.old.poster }
        ensures pair { (c : ℕ) (held : _) → Pairs c held self.old.drain
            → Pairs c held self.new.drain }
    {
        match &mut self.drain {
            None => None,
            Some(drain) => match drain.next(rt) {
                Next::Item(item) => Some(item),
                Next::Empty => None,
            },
        }
    }

    /// Shows that a post of somebody else was received, and none of this connection.
    pub fn keep_up(&mut self, desk: &mut Desk)
        requires at { (p : _) → self.old.poster ≡ Some p
            → inbox_of_poster p ≡ inbox_of desk.old.inbox }
        ensures conn { self.new.conn ≡ self.old.conn }
        ensures side { (was : ADesk) → GoesOn was desk.old → IsSide was self.old
            → IsSide desk.new self.new }
        ensures desk { (desk.new.actor ≡ desk.old.actor)
            × (received desk.new.inbox ≡ received desk.old.inbox)
            × (inbox_of desk.new.inbox ≡ inbox_of desk.old.inbox) }
    {
        if let Some(poster) = &mut self.poster {
            desk.compare(poster);
        }
    }
}

// Posts an act of the connection, and has it handled. None where that didn't come through.
fn pass<R: Wait>(
    rt: &R,
    alloc: Global,
    desk: &mut Desk,
    side: &mut Side,
    other: &mut Side,
    act: Act<Wire>,
) -> Option<Outcome>
    requires desk { InStep desk.old }
    requires own { BringsOwn side.old.conn act }
    requires home { BringsNone act }
    requires side { IsSide desk.old side.old }
    requires other { IsSide desk.old other.old }
    ensures desk { InStep desk.new }
    ensures side { IsSide desk.new side.new }
    ensures other { IsSide desk.new other.new }
    ensures conns { (side.new.conn ≡ side.old.conn) × (other.new.conn ≡ other.old.conn) }
    ensures joined { IfSome result (λ r. (joining : AJoining AWire) → act ≡ AJoin joining
        → r ≡ IsApplied → (p : Box)
        × (outbox_of desk.new.actor.rows side.old.conn ≡ Some p)
        × (p.queue ≡ joining.outbox.queue)) }
{
    let poster = side.poster.take()?;
    let passed = desk.pass(rt, alloc, poster, act);
    other.keep_up(desk);
    let (outcome, poster) = passed?;
    side.poster = Some(poster);
    Some(outcome)
}

/// Posts an act of the connection that is no Join, and has it handled. None where that didn't come through.
pub fn post<R: Wait>(
    rt: &R,
    alloc: Global,
    desk: &mut Desk,
    side: &mut Side,
    other: &mut Side,
    act: Act<Wire>,
) -> Option<Outcome>
    requires desk { InStep desk.old }
    requires act { is_join act ≡ false }
    requires side { IsSide desk.old side.old }
    requires other { IsSide desk.old other.old }
    ensures desk { InStep desk.new }
    ensures side { IsSide desk.new side.new }
    ensures other { IsSide desk.new other.new }
    ensures conns { (side.new.conn ≡ side.old.conn) × (other.new.conn ≡ other.old.conn) }
{
    pass(rt, alloc, desk, side, other, act)
}

/// Posts a Join of the connection, and has it handled. Where it is applied, the drain is kept.
pub fn enter<R: Wait>(
    rt: &R,
    alloc: Global,
    desk: &mut Desk,
    side: &mut Side,
    other: &mut Side,
    entrance: Entrance,
) -> Option<Outcome>
    requires desk { InStep desk.old }
    requires own { entrance.joining.outbox.conn ≡ side.old.conn }
    requires home { entrance.joining.outbox.chronicle ≡ None }
    requires drain { entrance.drain.conn ≡ side.old.conn }
    requires pair { entrance.joining.outbox.queue ≡ entrance.drain.queue }
    requires side { IsSide desk.old side.old }
    requires other { IsSide desk.old other.old }
    ensures desk { InStep desk.new }
    ensures side { IsSide desk.new side.new }
    ensures other { IsSide desk.new other.new }
    ensures conns { (side.new.conn ≡ side.old.conn) × (other.new.conn ≡ other.old.conn) }
{
    let Entrance { joining, drain } = entrance;
    let outcome = pass(rt, alloc, desk, side, other, Act::Join(joining))?;
    match outcome {
        Outcome::Applied => side.keep(drain),
        Outcome::Dropped | Outcome::NoMemory => {}
    }
    Some(outcome)
}

/// Puts the connection's outbox and its drain together again, and gives what is left. None where no drain is here.
pub fn settle<R: Wait>(
    rt: &R,
    alloc: Global,
    desk: &mut Desk,
    side: &mut Side,
    other: &Side,
) -> io::Result<Option<Vec<Item>>>
    requires desk { InStep desk.old }
    requires side { IsSide desk.old side.old }
    requires other { IsSide desk.old other.now }
    requires apart { side.old.conn ≢ other.now.conn }
    ensures desk { InStep desk.new }
    ensures side { IsSide desk.new side.new }
    ensures other { IsSide desk.new other.now }
    ensures conn { side.new.conn ≡ side.old.conn }
{
    let Some(drain) = side.drain.take() else {
        return Ok(None);
    };
    match desk.settle(rt, alloc, drain) {
        Ok(rest) => Ok(Some(rest.items)),
        Err((refused, drain)) => {
            side.keep(drain);
            Err(refused)?
        }
    }
}
