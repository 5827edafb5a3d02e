//! Which connection is at each seat, and whose session an actor held when it ended.
use std::alloc::{AllocError, Global};
use std::sync::atomic::{AtomicBool, AtomicU64, Ordering};
use wamp_ids::{Conn, SEATS, seat_index};

/// What is known of one seat.
#[derive(Drop)]
struct SeatRow {
    // The number of the connection that is there, or 0.
    conn: AtomicU64,
    // Whether an actor held its session when it ended.
    is_held: AtomicBool,
}

/// What the accepting thread tells the actors, and they tell it at their end.
#[derive(Drop)]
pub struct SeatTable {
    rows: Vec<SeatRow>,
}

impl SeatTable {
    /// Nobody is at any seat.
    pub fn new(alloc: Global) -> Result<SeatTable, AllocError> {
        let mut rows = Vec::with_capacity(alloc, SEATS as usize)?;
        for _ in 0..SEATS {
            rows.push(SeatRow {
                conn: AtomicU64::new(0),
                is_held: AtomicBool::new(false),
            })?;
        }
        Ok(SeatTable { rows })
    }

    fn at(&self, conn: Conn) -> Option<&SeatRow> {
        self.rows.get(seat_index(conn))
    }

    /// The connection is at its seat from now on.
    pub fn sits(&self, conn: Conn) {
        if let Some(row) = self.at(conn) {
            row.conn.store(conn.value(), Ordering::SeqCst);
        }
    }

    /// The connection's seat is free.
    pub fn leaves(&self, conn: Conn) {
        if let Some(row) = self.at(conn) {
            row.conn.store(0, Ordering::SeqCst);
        }
    }

    /// The connection at the seat of this place, from 0.
    pub fn conn_at(&self, place: usize) -> Option<Conn> {
        let row = self.rows.get(place)?;
        Conn::new(row.conn.load(Ordering::SeqCst))
    }

    /// An actor that has ended held the session of the connection.
    pub fn hold(&self, conn: Conn) {
        if let Some(row) = self.at(conn) {
            row.is_held.store(true, Ordering::SeqCst);
        }
    }

    /// Whether an actor that has ended held the session of the connection.
    pub fn is_held(&self, conn: Conn) -> bool {
        match self.at(conn) {
            Some(row) => row.is_held.load(Ordering::SeqCst),
            None => false,
        }
    }
}
