//! The last connection that joined at each seat, since its number may not come again.
ghost use Rattle.std.specs.Prelude.{◌≡◌, ◌-◌, IfOk, None, Some, replicate, set};
ghost use Rattle.wamp_ids.specs.Numbers.{seat_of};
ghost use Rattle.realm.specs.body.LiveSessions.{may_join_by};

use std::alloc::{AllocError, Global};
use std::marker::Model;
use wamp_ids::{Conn, SEATS, seat_index};

/// The last connection that asked for a session, at each seat.
#[derive(Drop)]
pub struct LastAsked {
    last: Vec<Option<Conn>>,
}

impl Model for LastAsked {
    ghost use Rattle.std.specs.Prelude.{ℕ, List, ◌≡◌, length};
    ghost use Rattle.std.specs.declared.option.Option.{Option};

    ghost Value = { List (Option ℕ) };

    ghost view = { λ s. s.last.items };

    ghost invariant = { λ s. length s.last.items ≡ 256 };
}

impl LastAsked {
    /// LastAsked at which nobody asked yet.
    pub fn new(alloc: Global) -> Result<LastAsked, AllocError>
        ensures { IfOk result (λ seats. seats ≡ replicate 256 None) }
    {
        let mut last = Vec::with_capacity(alloc, SEATS as usize)?;
        for _ in 0..SEATS {
            last.push(None)?;
        }
        Ok(LastAsked { last })
    }

    /// Whether the number of the connection is greater than that of the last one at its seat.
    pub fn may_join(&self, conn: Conn) -> bool
        ensures { result ≡ may_join_by self.now conn }
    {
        match self.last[seat_index(conn)] {
            None => true,
            Some(last) => last.value() < conn.value(),
        }
    }

    /// Keeps the connection as the last one at its seat.
    pub fn note(&mut self, conn: Conn)
        ensures { self.new ≡ set self.old (seat_of conn - 1) (Some conn) }
    {
        self.last[seat_index(conn)] = Some(conn);
    }
}
