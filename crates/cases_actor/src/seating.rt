//! Who posts: the seats of an inbox, and the posters at them.
ghost use Rattle.std.specs.Prelude.{◌≡◌, ◌≤◌, ◌<◌, false, length, IfSome};
ghost use Rattle.realm_inbox.specs.Joins.{is_join};

use case_posts::{Entrance, Wire, entrance_of};
use message_tree::Text;
use outbox_queue::Drain;
use realm_inbox::{Act, Door, Poster, Posting, RealmHistory, Seat};
use session::Item;
use std::alloc::Global;
use std::io;
use std::sync::Wait;
use wamp_ids::{Conn, seat};

/// The door of an inbox, its free seats, and the posters that have a seat.
#[derive(Drop)]
pub struct Seating {
    door: Door<Wire>,
    seats: Vec<Seat<Wire>>,
    posters: Vec<Poster<Wire>>,
}

/// What is left here of a connection that posted its Join.
#[derive(Drop)]
pub struct Entered {
    pub drain: Drain<Item, RealmHistory>,
    pub wire: Wire,
}

// Posts a Join of the poster's connection.
fn post_join<R: Wait>(
    rt: &R,
    alloc: Global,
    poster: &mut Poster<Wire>,
    cap: usize,
    authid: Option<Text>,
) -> io::Result<Entered>
    requires least { 1 ≤ cap }
    requires most { cap ≤ 65536 }
{
    let transport = Wire::new(alloc)?;
    let wire = transport.again()?;
    let Entrance { joining, drain } = entrance_of(alloc, poster.conn(), authid, cap, transport)?;
    let _ = poster.post(rt, Act::Join(joining), 0);
    Ok(Entered { drain, wire })
}

/// Posts an act that is no Join. False where nobody receives it.
pub fn post_act<R: Wait>(rt: &R, poster: &mut Poster<Wire>, act: Act<Wire>) -> bool
    requires { is_join act ≡ false }
{
    Posting::post(poster, rt, act, 0).is_ok()
}

impl Seating {
    /// Nobody has a seat yet.
    pub fn new(alloc: Global, door: Door<Wire>, seats: Vec<Seat<Wire>>) -> Seating {
        Seating {
            door,
            seats,
            posters: Vec::new(alloc),
        }
    }

    fn place_of(&self, conn: Conn) -> Option<usize>
        ensures { IfSome result (λ place. place < length self.now.posters.items) }
    {
        self.posters.iter().position(|poster| poster.conn() == conn)
    }

    // The free seat of this number, which is free no longer.
    fn take_seat(&mut self, number: u64) -> Option<Seat<Wire>> {
        let place = self.seats.iter().position(|seat| seat.number() == number)?;
        Some(self.seats.swap_remove(place))
    }

    // Makes the connection's poster at its seat. False where that isn't free.
    fn sit(&mut self, conn: Conn) -> io::Result<bool> {
        let Some(at) = self.take_seat(seat(conn)) else {
            return Ok(false);
        };
        match at.into_poster(conn) {
            Ok(poster) => {
                self.posters.push(poster)?;
                Ok(true)
            }
            Err(at) => {
                self.seats.push(at)?;
                Ok(false)
            }
        }
    }

    /// Sees that the connection has a poster. False where it has none, and its seat isn't free.
    pub fn seat(&mut self, conn: Conn) -> io::Result<bool> {
        if self.place_of(conn).is_some() {
            return Ok(true);
        }
        self.sit(conn)
    }

    /// The connection's poster gives its seat back. False where it has none.
    pub fn leave(&mut self, conn: Conn) -> io::Result<bool> {
        match self.place_of(conn) {
            None => Ok(false),
            Some(place) => {
                let poster = self.posters.swap_remove(place);
                self.seats.push(poster.into_seat())?;
                Ok(true)
            }
        }
    }

    /// The connection's poster, which is no longer here.
    pub fn take(&mut self, conn: Conn) -> Option<Poster<Wire>> {
        let place = self.place_of(conn)?;
        Some(self.posters.swap_remove(place))
    }

    /// Posts a Join of the connection, with an outbox in which so many items may wait. None where it has no poster.
    pub fn join<R: Wait>(
        &mut self,
        rt: &R,
        alloc: Global,
        conn: Conn,
        cap: usize,
        authid: Option<Text>,
    ) -> io::Result<Option<Entered>>
        requires least { 1 ≤ cap }
        requires most { cap ≤ 65536 }
    {
        match self.place_of(conn) {
            None => Ok(None),
            Some(place) => {
                let poster = &mut self.posters[place];
                Ok(Some(post_join(rt, alloc, poster, cap, authid)?))
            }
        }
    }

    /// Posts another act of the connection. False where it has no poster.
    pub fn post<R: Wait>(&mut self, rt: &R, conn: Conn, act: Act<Wire>) -> bool
        requires { is_join act ≡ false }
    {
        match self.place_of(conn) {
            None => false,
            Some(place) => {
                let poster = &mut self.posters[place];
                post_act(rt, poster, act)
            }
        }
    }

    /// Posts a stop.
    pub fn stop<R: Wait>(&mut self, rt: &R) -> bool {
        self.door.stop(rt)
    }
}
