//! The seats of connections.
ghost use Rattle.std.specs.Prelude.{◌≡◌, ◌<◌, ℕ, IfOk, IfErr, OnErr, None, false, replicate};
ghost use Rattle.threaded_server.specs.Seats.{free_at, Takes, given_back};

use crate::seat_fault::SeatFault;
use std::marker::Model;
use wamp_ids::{Conn, SEATS, seat_index};

/// A fixed table of 256 seats, each for one connection at a time. A seat gives the numbers of its connections one after another:
/// seat 1 gives 1, 257, 513, and so on, so that [`wamp_ids::seat`] of a number is the seat that gave it. No number is given twice.
///
/// Contracts see how many numbers each seat has given, and whether its last one is out.
#[derive(Drop)]
pub struct Seats {
    given: [u64; 256],
    is_out: [bool; 256],
}

impl Model for Seats {
    ghost use Rattle.threaded_server.specs.Seats.{Table};

    ghost Value = { Table };

    ghost view = { λ s. record { given = s.given; is_out = s.is_out } };
}

impl Seats {
    /// All seats are free, and none has given a number. It takes no memory.
    pub fn new() -> Seats
        ensures { result ≡ record { given = replicate 256 0; is_out = replicate 256 false } }
    {
        Seats {
            given: [0; 256],
            is_out: [false; 256],
        }
    }

    // The next number of the seat at a place from 0, if it is free and has one.
    fn free_number(&self, place: usize) -> Option<Conn>
        requires { place < 256 }
        ensures { result ≡ free_at self.now place }
    {
        if self.is_out[place] {
            return None;
        }
        let before = self.given[place].checked_mul(256)?;
        Conn::new(before.checked_add(place as u64 + 1)?)
    }

    /// The next number of the lowest free seat, which is taken from then on. It takes no memory.
    ///
    /// # Errors
    /// [`SeatFault::TooManyConnections`] where all 256 seats are taken; nothing has changed then. A seat that has given its last number
    /// below 2^64 counts as taken.
    pub fn take(&mut self) -> Result<Conn, SeatFault>
        ensures ok { IfOk result (λ conn. Takes self.old conn self.new) }
        ensures full { OnErr result ((place : ℕ) → place < 256 → free_at self.old place ≡ None) }
        ensures err { OnErr result (self.new ≡ self.old) }
        ensures fault { IfErr result (λ f. f ≡ SeatFault.TooManyConnections) }
    {
        for place in 0..SEATS as usize {
            if let Some(conn) = self.free_number(place) {
                self.given[place] += 1;
                self.is_out[place] = true;
                return Ok(conn);
            }
        }
        Err(SeatFault::TooManyConnections)
    }

    /// Frees the seat of a connection, whose number was the last that it gave. Another number changes nothing.
    pub fn give_back(&mut self, conn: Conn)
        ensures { self.new ≡ given_back self.old conn }
    {
        let place = seat_index(conn);
        if self.is_out[place] && self.given[place] == (conn.value() - 1) / 256 + 1 {
            self.is_out[place] = false;
        }
    }
}
