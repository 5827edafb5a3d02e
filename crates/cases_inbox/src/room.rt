//! The ends of one inbox that a case still has.
ghost use Rattle.std.specs.Prelude.{◌≡◌, ◌≤◌, false};
ghost use Rattle.realm_inbox.specs.Joins.{is_join};

use crate::acts::{act_of, joining_of};
use crate::wire::Wire;
use realm_inbox::opening::inbox;
use realm_inbox::{Act, Door, Inbox, Post, Poster, Posting, Seat};
use std::alloc::{AllocError, Global};
use std::io;
use std::sync::Wait;
use wamp_ids::{Conn, seat};

/// The ends of one inbox.
#[derive(Drop)]
pub struct Room {
    pub door: Option<Door<Wire>>,
    pub seats: Vec<Seat<Wire>>,
    pub posters: Vec<Poster<Wire>>,
    pub inbox: Option<Inbox<Wire>>,
}

/// Posts an act that is no Join, as if it was read from so many octets. Who receives it may sleep on.
pub fn post_quietly<R: Wait>(
    rt: &R,
    poster: &mut Poster<Wire>,
    act: Act<Wire>,
    octets: usize,
) -> Result<(), Act<Wire>>
    requires { is_join act ≡ false }
{
    Posting::post(poster, rt, act, octets)
}

/// The same, and who receives it is woken.
pub fn post<R: Wait>(
    rt: &R,
    poster: &mut Poster<Wire>,
    act: Act<Wire>,
    octets: usize,
) -> Result<(), Act<Wire>>
    requires { is_join act ≡ false }
{
    let posted = post_quietly(rt, poster, act, octets);
    poster.rouse();
    posted
}

impl Room {
    /// All ends of an inbox of this capacity, which is from 1 on.
    pub fn new(alloc: Global, cap: usize) -> Result<Room, AllocError>
        requires { 1 ≤ cap }
    {
        let (door, seats, inbox) = inbox::<Wire>(alloc, cap)?;
        Ok(Room {
            door: Some(door),
            seats,
            posters: Vec::new(alloc),
            inbox: Some(inbox),
        })
    }

    /// The free seat of this number, which is free no longer.
    pub fn take_seat(&mut self, number: u64) -> Option<Seat<Wire>> {
        let at = self.seats.iter().position(|seat| seat.number() == number)?;
        Some(self.seats.swap_remove(at))
    }

    /// The poster of a connection, which is the case's no longer.
    pub fn take_poster(&mut self, conn: Conn) -> Option<Poster<Wire>> {
        let at = self
            .posters
            .iter()
            .position(|poster| poster.conn() == conn)?;
        Some(self.posters.swap_remove(at))
    }

    /// Makes a connection's poster at its seat. False where that isn't free.
    pub fn seat_poster(&mut self, conn: Conn) -> io::Result<bool> {
        let Some(at) = self.take_seat(seat(conn)) else {
            return Ok(false);
        };
        match at.into_poster(conn) {
            Ok(poster) => {
                self.posters.push(poster)?;
                Ok(true)
            }
            Err(at) => {
                self.seats.push(at)?;
                Ok(false)
            }
        }
    }

    /// Frees the seat of a poster. False where there is no such poster.
    pub fn leave(&mut self, conn: Conn) -> io::Result<bool> {
        match self.take_poster(conn) {
            None => Ok(false),
            Some(poster) => {
                self.seats.push(poster.into_seat())?;
                Ok(true)
            }
        }
    }

    /// A post, if one is found: by waiting, or at once. None also where there is no inbox any more.
    pub fn receive<R: Wait>(&mut self, rt: &R, waits: bool) -> Option<Post<Wire>> {
        let Some(inbox) = &mut self.inbox else {
            return None;
        };
        if waits {
            inbox.receive(rt)
        } else {
            inbox.try_receive(rt)
        }
    }
}
