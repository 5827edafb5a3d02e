//! A realm with a row for each session that is live or held.
ghost use Rattle.std.specs.Prelude.{◌≡◌, Some};
ghost use Rattle.realm_actor.specs.Rows.{EachHome};

use crate::row::Row;
use crate::seat_guesses::SeatGuesses;
use realm::{Realm, Refusal};
use realm_inbox::{RealmChronicle, Shut, Weight};
use wamp_ids::Conn;

/// A realm, the chronicle of its history, and a row for each of its sessions that is live or held, ascending by connection.
#[derive(Drop)]
pub struct Table<S: Shut> {
    pub realm: Realm,
    pub chronicle: RealmChronicle,
    pub rows: Vec<Row<S>>,
    pub guesses: SeatGuesses,
    /// Whether a row may have a mark.
    pub has_marks: bool,
    /// Whether a row's session may have ended.
    pub has_ended: bool,
    ghost told: { chronicle.history ≡ Some realm },
    ghost home: { EachHome chronicle.chronicle rows.items },
}

impl<S: Shut> Table<S> {
    /// Hands back what the realm made of the post of this weight, and is done with.
    pub fn hand_back(&mut self, weight: &Weight)
        ensures { self.new ≡ self.old }
    {
        if let Some(spent) = self.realm.take_spent() {
            weight.hand_back(spent);
        }
    }

    /// The request that was refused last, where it wasn't taken yet and is the first of its session.
    pub fn first_refusal(&mut self) -> Option<Refusal>
        ensures { self.new ≡ self.old }
    {
        let refusal = self.realm.take_refusal()?;
        if is_first(self.rows.as_slice(), refusal.conn) {
            Some(refusal)
        } else {
            None
        }
    }

    /// How many items wait in the longest outbox.
    pub fn longest_outbox(&self) -> u64 {
        let mut most: u64 = 0;
        for row in &self.rows {
            most = most.max(row.waiting());
        }
        most
    }
}

// Counts a refusal of the connection's session. Whether it is the first one.
fn is_first<S: Shut>(rows: &[Row<S>], conn: Conn) -> bool {
    for row in rows {
        if row.conn == conn {
            return row.tell_refusal();
        }
    }
    false
}
