//! Posts of two connections, each of which is handled before the next one is posted.
ghost use Rattle.std.specs.Prelude.{◌≡◌, ◌≢◌, None, false};
ghost use Rattle.realm_inbox.specs.Joins.{is_join};
ghost use Rattle.cases_actor.specs.declared.settling.desk.Desk.{Desk as ADesk};
ghost use Rattle.cases_actor.specs.Desks.{InStep};
ghost use Rattle.cases_actor.specs.Sides.{IsSide};

use crate::settling::desk::Desk;
use crate::settling::side::{Side, enter, post, settle};
use case_posts::{Entrance, Wire};
use realm_actor::Outcome;
use realm_inbox::{Act, Door};
use session::Item;
use std::alloc::{AllocError, Global};
use std::io;
use std::marker::Model;
use std::sync::Wait;
use wamp_ids::Conn;

// Lets an act go that is posted by nobody.
fn leave(act: Act<Wire>) {
    drop(act);
}

// Lets an entrance go that is posted by nobody.
fn leave_entrance(entrance: Entrance) {
    drop(entrance);
}

// What came of a post, which came through.
fn handled(outcome: Option<Outcome>) -> io::Result<Option<Outcome>> {
    match outcome {
        None => Err(AllocError)?,
        Some(outcome) => Ok(Some(outcome)),
    }
}

// Posts a Join of the connection. None where it is neither of the two.
fn enter_one<R: Wait>(
    rt: &R,
    alloc: Global,
    desk: &mut Desk,
    first: &mut Side,
    second: &mut Side,
    conn: Conn,
    entrance: Entrance,
) -> io::Result<Option<Outcome>>
    requires own { entrance.joining.outbox.conn ≡ conn }
    requires home { entrance.joining.outbox.chronicle ≡ None }
    requires drain { entrance.drain.conn ≡ conn }
    requires pair { entrance.joining.outbox.queue ≡ entrance.drain.queue }
    requires desk { InStep desk.old }
    requires sides { IsSide desk.old first.old × IsSide desk.old second.old }
    ensures desk { InStep desk.new }
    ensures sides { IsSide desk.new first.new × IsSide desk.new second.new }
    ensures conns { (first.new.conn ≡ first.old.conn) × (second.new.conn ≡ second.old.conn) }
{
    if conn == first.conn() {
        handled(enter(rt, alloc, desk, first, second, entrance))
    } else if conn == second.conn() {
        handled(enter(rt, alloc, desk, second, first, entrance))
    } else {
        leave_entrance(entrance);
        Ok(None)
    }
}

// Posts another act of the connection. None where it is neither of the two.
fn post_one<R: Wait>(
    rt: &R,
    alloc: Global,
    desk: &mut Desk,
    first: &mut Side,
    second: &mut Side,
    conn: Conn,
    act: Act<Wire>,
) -> io::Result<Option<Outcome>>
    requires act { is_join act ≡ false }
    requires desk { InStep desk.old }
    requires sides { IsSide desk.old first.old × IsSide desk.old second.old }
    ensures desk { InStep desk.new }
    ensures sides { IsSide desk.new first.new × IsSide desk.new second.new }
    ensures conns { (first.new.conn ≡ first.old.conn) × (second.new.conn ≡ second.old.conn) }
{
    if conn == first.conn() {
        handled(post(rt, alloc, desk, first, second, act))
    } else if conn == second.conn() {
        handled(post(rt, alloc, desk, second, first, act))
    } else {
        leave(act);
        Ok(None)
    }
}

// Posts a stop, and has it handled. None where that didn't come through.
fn stop_both<R: Wait>(
    rt: &R,
    alloc: Global,
    desk: &mut Desk,
    door: &mut Door<Wire>,
    first: &mut Side,
    second: &mut Side,
) -> Option<Outcome>
    requires desk { InStep desk.old }
    requires sides { IsSide desk.old first.old × IsSide desk.old second.old }
    ensures desk { InStep desk.new }
    ensures sides { IsSide desk.new first.new × IsSide desk.new second.new }
    ensures conns { (first.new.conn ≡ first.old.conn) × (second.new.conn ≡ second.old.conn) }
{
    if !door.stop(rt) {
        return None;
    }
    let outcome = desk.handle(rt, alloc);
    first.keep_up(desk);
    second.keep_up(desk);
    outcome
}

// The connection's next item. None where nothing waits.
fn take_one<R: Wait>(rt: &R, first: &mut Side, second: &mut Side, conn: Conn) -> Option<Item>
    ensures first { (d : ADesk) → IsSide d first.old → IsSide d first.new }
    ensures second { (d : ADesk) → IsSide d second.old → IsSide d second.new }
    ensures conns { (first.new.conn ≡ first.old.conn) × (second.new.conn ≡ second.old.conn) }
{
    if conn == first.conn() {
        first.take(rt)
    } else if conn == second.conn() {
        second.take(rt)
    } else {
        None
    }
}

// Puts the connection's outbox and its drain together again, and gives what is left. None where no drain is here.
fn settle_one<R: Wait>(
    rt: &R,
    alloc: Global,
    desk: &mut Desk,
    first: &mut Side,
    second: &mut Side,
    conn: Conn,
) -> io::Result<Option<Vec<Item>>>
    requires apart { first.old.conn ≢ second.old.conn }
    requires desk { InStep desk.old }
    requires sides { IsSide desk.old first.old × IsSide desk.old second.old }
    ensures desk { InStep desk.new }
    ensures sides { IsSide desk.new first.new × IsSide desk.new second.new }
    ensures conns { (first.new.conn ≡ first.old.conn) × (second.new.conn ≡ second.old.conn) }
{
    if conn == first.conn() {
        settle(rt, alloc, desk, first, second)
    } else if conn == second.conn() {
        settle(rt, alloc, desk, second, first)
    } else {
        Ok(None)
    }
}

/// An actor that handles posts of two connections. Each drain that is here is the other end of the outbox that the actor holds.
#[derive(Drop)]
pub struct TwoSides {
    desk: Desk,
    door: Door<Wire>,
    first: Side,
    second: Side,
}

impl Model for TwoSides {
    ghost use Rattle.std.specs.Prelude.{ℕ, List, ◌≢◌};
    ghost use Rattle.cases_actor.specs.Desks.{InStep};
    ghost use Rattle.cases_actor.specs.Sides.{IsSide};

    ghost Value = { List ℕ };

    ghost view = { λ h. h.desk.actor.last_cut };

    ghost invariant = { λ h. InStep h.desk × IsSide h.desk h.first × IsSide h.desk h.second
        × (h.first.conn ≢ h.second.conn) };
}

impl TwoSides {
    /// The two connections at the desk.
    pub fn new(desk: Desk, door: Door<Wire>, first: Side, second: Side) -> TwoSides
        requires same { InStep desk }
        requires first { IsSide desk first }
        requires second { IsSide desk second }
        requires apart { first.conn ≢ second.conn }
    {
        TwoSides {
            desk,
            door,
            first,
            second,
        }
    }

    /// Posts a Join of a connection. None where it is neither of the two.
    pub fn join<R: Wait>(
        &mut self,
        rt: &R,
        alloc: Global,
        conn: Conn,
        entrance: Entrance,
    ) -> io::Result<Option<Outcome>>
        requires own { entrance.joining.outbox.conn ≡ conn }
        requires home { entrance.joining.outbox.chronicle ≡ None }
        requires drain { entrance.drain.conn ≡ conn }
        requires pair { entrance.joining.outbox.queue ≡ entrance.drain.queue }
    {
        let TwoSides {
            desk,
            first,
            second,
            ..
        } = self;
        enter_one(rt, alloc, desk, first, second, conn, entrance)
    }

    /// Posts another act of a connection. None where it is neither of the two.
    pub fn post<R: Wait>(
        &mut self,
        rt: &R,
        alloc: Global,
        conn: Conn,
        act: Act<Wire>,
    ) -> io::Result<Option<Outcome>>
        requires { is_join act ≡ false }
    {
        let TwoSides {
            desk,
            first,
            second,
            ..
        } = self;
        post_one(rt, alloc, desk, first, second, conn, act)
    }

    /// Posts a stop.
    pub fn stop<R: Wait>(&mut self, rt: &R, alloc: Global) -> io::Result<Option<Outcome>> {
        let TwoSides {
            desk,
            door,
            first,
            second,
        } = self;
        handled(stop_both(rt, alloc, desk, door, first, second))
    }

    /// The connection's next item. None where nothing waits.
    pub fn take<R: Wait>(&mut self, rt: &R, conn: Conn) -> Option<Item> {
        let TwoSides { first, second, .. } = self;
        take_one(rt, first, second, conn)
    }

    /// Puts the connection's outbox and its drain together again, and gives what is left. None where no drain is here.
    pub fn settle<R: Wait>(
        &mut self,
        rt: &R,
        alloc: Global,
        conn: Conn,
    ) -> io::Result<Option<Vec<Item>>> {
        let TwoSides {
            desk,
            first,
            second,
            ..
        } = self;
        settle_one(rt, alloc, desk, first, second, conn)
    }

    /// Whether the connection's outbox is held.
    pub fn holds(&self, conn: Conn) -> bool {
        self.desk.holds(conn)
    }

    /// Whom the last post found full, or cut.
    pub fn last_cut(&self) -> &[Conn] {
        self.desk.last_cut()
    }
}
