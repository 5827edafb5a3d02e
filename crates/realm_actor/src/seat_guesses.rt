//! Where the rows of the seats' connections are looked for first.
use wamp_ids::{Conn, SEATS, seat_index};

/// By seat, where the row of its connection stood when it was last looked for. These are guesses: rows move as sessions come and
/// go, and whoever asks looks whether the row is there.
#[derive(Drop)]
pub struct SeatGuesses {
    places: [u16; SEATS as usize],
}

impl SeatGuesses {
    /// The first place for each.
    pub fn new() -> SeatGuesses {
        SeatGuesses {
            places: [0; SEATS as usize],
        }
    }

    /// Where the connection's row may stand.
    pub fn of(&self, conn: Conn) -> usize {
        match self.places.get(seat_index(conn)) {
            Some(place) => usize::from(*place),
            None => 0,
        }
    }

    /// It stands there.
    pub fn note(&mut self, conn: Conn, place: usize) {
        if let (Some(guess), Ok(place)) = (
            self.places.get_mut(seat_index(conn)),
            u16::try_from(place),
        ) {
            *guess = place;
        }
    }
}
