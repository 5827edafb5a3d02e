//! The live sessions, ascending by connection.
ghost use Rattle.std.specs.Prelude.{◌≡◌, ◌==◌, [], length, None, OnOk, OnErr, MatchResult};
ghost use Rattle.std.specs.List.{list_any};
ghost use Rattle.std.specs.Option.{option_copied};
ghost use Rattle.realm.specs.body.LiveSessions.{session_of, others, added, AreByConn, StandsAt, BelongsAt};

use std::alloc::{AllocError, Global};
use std::marker::Model;
use wamp_ids::{Conn, Id, SEATS, seat_index};
use wamp_messages::Who;

/// The live sessions. Contracts see a list of them, ascending by connection.
#[derive(Drop)]
pub struct Sessions {
    live: Vec<Who>,
    /// For each seat where its session stands in the list: a guess, which is compared before it is
    /// used, so that nothing rests on it.
    guesses: [usize; SEATS as usize],
}

impl Model for Sessions {
    ghost use Rattle.std.specs.Prelude.{List};
    ghost use Rattle.eligibility.specs.declared.who.Who.{Who};
    ghost use Rattle.realm.specs.body.LiveSessions.{AreByConn};

    ghost Value = { List Who };

    ghost view = { λ s. s.live.items };

    ghost invariant = { λ s. AreByConn s.live.items };
}

impl Sessions {
    /// No session.
    pub fn new(alloc: Global) -> Sessions
        ensures { result ≡ [] }
    {
        Sessions {
            live: Vec::new(alloc),
            guesses: [0; SEATS as usize],
        }
    }

    /// How many there are.
    pub fn len(&self) -> usize
        ensures { result ≡ length self.now }
    {
        self.live.len()
    }

    /// The session of the connection.
    pub fn find(&self, conn: Conn) -> Option<&Who>
        ensures { option_copied result ≡ session_of self.now conn }
    {
        let guess = self.guesses[seat_index(conn)];
        if guess < self.live.len() && self.live[guess].conn == conn {
            return Some(&self.live[guess]);
        }
        match place_of(&self.live, conn) {
            Ok(place) => Some(&self.live[place]),
            Err(_) => None,
        }
    }

    /// Whether a session has the id.
    pub fn has_id(&self, id: Id) -> bool
        ensures { result ≡ list_any (λ w. w.id == id) self.now }
    {
        for who in &self.live {
            if who.id == id {
                return true;
            }
        }
        false
    }

    /// One session more, of a connection that has none.
    pub fn add(&mut self, who: Who) -> Result<(), AllocError>
        requires { session_of self.old who.conn ≡ None }
        ensures ok { OnOk result (self.new ≡ added who self.old) }
        ensures err { OnErr result (self.new ≡ self.old) }
    {
        match place_of(&self.live, who.conn) {
            Ok(_) => unreachable!(),
            Err(place) => {
                self.live.insert(place, who)?;
                note_places(&mut self.guesses, &self.live);
                Ok(())
            }
        }
    }

    /// Ends the session of the connection.
    pub fn remove(&mut self, conn: Conn)
        ensures { self.new ≡ others conn self.old }
    {
        if let Ok(place) = place_of(&self.live, conn) {
            self.live.remove(place);
            note_places(&mut self.guesses, &self.live);
        }
    }
}

/// Notes for each seat where its session stands.
fn note_places(guesses: &mut [usize; SEATS as usize], live: &[Who]) {
    for (place, who) in live.iter().enumerate() {
        guesses[seat_index(who.conn)] = place;
    }
}

/// Where the session of the connection stands, or the place that it would have.
fn place_of(live: &[Who], conn: Conn) -> Result<usize, usize>
    requires { AreByConn live.now }
    ensures { MatchResult result (λ i. StandsAt live.now i conn) (λ i. BelongsAt live.now i conn) }
{
    live.binary_search_by_key(&conn.value(), |who| who.conn.value())
}
