//! The actor of a case whose outboxes are settled, its two connections, and the transports.
ghost use Rattle.std.specs.Prelude.{◌≡◌, ◌≤◌, [], IfOk};
ghost use Rattle.wamp_ids.specs.Numbers.{seat_of};
ghost use Rattle.realm_inbox.specs.EndViews.{posted, posted_at, poster_conn, seat_number, inbox_of_door, inbox_of_poster, inbox_of_seat};

use crate::settling::desk::{Acting, Desk};
use crate::settling::side::Side;
use crate::settling::two_sides::TwoSides;
use case_posts::{Counted, Watching, Wire, entrance_of};
use case_text::line_of;
use realm::RealmConfig;
use realm_actor::{Actor, Outcome};
use realm_inbox::opening::inbox;
use realm_inbox::{Door, Poster, Seat};
use std::alloc::{AllocError, Global};
use std::io;
use std::sync::Wait;
use wamp_ids::{Conn, Topic};

/// How many posts may wait: each is handled before the next one is posted.
const ROOM: usize = 4;

/// An actor that handles posts of two connections, and the transports of its sessions.
#[derive(Drop)]
pub struct Pair {
    pub sides: TwoSides,
    watching: Watching,
}

fn actor_of(alloc: Global) -> io::Result<Acting>
    ensures handled { IfOk result (λ a. a.handled ≡ []) }
    ensures rows { IfOk result (λ a. a.rows ≡ []) }
{
    let Ok(name) = Topic::read(alloc, "r.one") else {
        return Err(AllocError)?;
    };
    let grants = Vec::new(alloc);
    match Actor::new(alloc, RealmConfig { name, grants }, Counted::new()) {
        Ok(actor) => Ok(actor),
        Err(_) => Err(AllocError)?,
    }
}

// The poster of the connection of this number at the seat.
fn poster_of(
    alloc: Global,
    door: &Door<Wire>,
    seat: Seat<Wire>,
    number: u64,
) -> io::Result<Poster<Wire>>
    requires own { seat_of number ≡ seat_number seat }
    requires inbox { inbox_of_seat seat ≡ inbox_of_door door.now }
    ensures conn { IfOk result (λ p. poster_conn p ≡ number) }
    ensures posted { IfOk result (λ p. posted p ≡ posted_at seat) }
    ensures inbox { IfOk result (λ p. inbox_of_poster p ≡ inbox_of_seat seat) }
{
    let Some(conn) = Conn::new(number) else {
        return Err(AllocError)?;
    };
    match door.poster(alloc, seat, conn) {
        Ok(poster) => Ok(poster),
        Err(_) => Err(AllocError)?,
    }
}

impl Pair {
    /// An actor that handled nothing, and the connections 1 and 2, which posted nothing.
    pub fn new(alloc: Global) -> io::Result<Pair> {
        let (door, mut seats, inbox) = inbox::<Wire>(alloc, ROOM)?;
        let second = seats.swap_remove(1);
        let first = seats.swap_remove(0);
        let first = Side::new(poster_of(alloc, &door, first, 1)?);
        let second = Side::new(poster_of(alloc, &door, second, 2)?);
        let actor = actor_of(alloc)?;
        let desk = Desk { actor, inbox };
        Ok(Pair {
            sides: TwoSides::new(desk, door, first, second),
            watching: Watching::new(alloc),
        })
    }

    /// Posts a Join of the connection. None where it is neither 1 nor 2.
    pub fn join<R: Wait>(
        &mut self,
        rt: &R,
        alloc: Global,
        conn: Conn,
        cap: usize,
    ) -> io::Result<Option<Outcome>>
        requires least { 1 ≤ cap }
        requires most { cap ≤ 65536 }
    {
        let transport = self.watch(alloc, conn)?;
        let entrance = entrance_of(alloc, conn, None, cap, transport)?;
        self.sides.join(rt, alloc, conn, entrance)
    }

    // A transport of which it is told when it is shut.
    fn watch(&mut self, alloc: Global, conn: Conn) -> io::Result<Wire> {
        let transport = Wire::new(alloc)?;
        let wire = transport.again()?;
        self.watching.add(conn, wire)?;
        Ok(transport)
    }

    /// What came of a post, as a line: the outcome, whom it cut, and whose transports it shut.
    pub fn told(&mut self, alloc: Global, outcome: Option<Outcome>) -> io::Result<String> {
        let outcome = match outcome {
            None => return line_of(alloc, "no such connection"),
            Some(Outcome::NoMemory) => return Err(AllocError)?,
            Some(Outcome::Applied) => "applied",
            Some(Outcome::Dropped) => "dropped",
        };
        self.watching.told(alloc, outcome, self.sides.last_cut())
    }
}
