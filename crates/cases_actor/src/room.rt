//! One realm of a case: its actor, who posts, and who takes.
ghost use Rattle.std.specs.Prelude.{◌≡◌, ◌≤◌, [], None, false};
ghost use Rattle.realm_inbox.specs.Joins.{is_join};
ghost use Rattle.realm_inbox.specs.EndViews.{received, home_of};

use crate::desk::Desk;
use crate::drains::Drains;
use crate::seating::{Entered, Seating};
use case_posts::{Counted, Watching, Wire};
use case_text::line_of;
use message_tree::Text;
use realm::RealmConfig;
use realm_actor::opening::inbox;
use realm_actor::{Act, Actor, Inbox, Outcome};
use std::alloc::{AllocError, Global};
use std::io;
use std::sync::Wait;
use wamp_ids::{Conn, Topic};

/// How many posts may wait: each is handled before the next one is posted.
const ROOM: usize = 4;

/// A realm's actor at its inbox, who posts there, the drains of the outboxes, and the transports.
#[derive(Drop)]
pub struct Room {
    pub seating: Seating,
    pub drains: Drains,
    pub desk: Desk,
    watching: Watching,
    persists: bool,
}

fn desk_of(alloc: Global, grants: Vec<(String, String)>, inbox: Inbox<Wire>) -> io::Result<Desk>
    requires none { received inbox ≡ [] }
    requires home { home_of inbox ≡ None }
{
    let Ok(name) = Topic::read(alloc, "r.one") else {
        return Err(AllocError)?;
    };
    match Actor::new(alloc, RealmConfig { name, grants }, Counted::new()) {
        Ok(actor) => Ok(Desk::new(actor, inbox)),
        Err(_) => Err(AllocError)?,
    }
}

fn word_of(outcome: Outcome) -> &'static str {
    match outcome {
        Outcome::Applied => "applied",
        Outcome::Dropped => "dropped",
        Outcome::NoMemory => "no memory",
    }
}

impl Room {
    /// An actor of a realm with these grants, which handled nothing.
    pub fn new(alloc: Global, grants: Vec<(String, String)>) -> io::Result<Room> {
        let (door, seats, inbox) = inbox::<Wire>(alloc, ROOM)?;
        let desk = desk_of(alloc, grants, inbox)?;
        Ok(Room {
            seating: Seating::new(alloc, door, seats),
            drains: Drains::new(alloc),
            desk,
            watching: Watching::new(alloc),
            persists: false,
        })
    }

    /// From now on the case goes on after a post for which the actor had no memory.
    pub fn persist(&mut self) {
        self.persists = true;
    }

    // Handles the post that waits.
    fn handle<R: Wait>(&mut self, rt: &R, alloc: Global) -> io::Result<Outcome> {
        match self.desk.handle(rt, alloc) {
            None => Err(AllocError)?,
            Some(Outcome::NoMemory) if !self.persists => Err(AllocError)?,
            Some(outcome) => Ok(outcome),
        }
    }

    /// Posts a Join of the connection and has it handled. None where it has no poster and its seat isn't free.
    pub fn join<R: Wait>(
        &mut self,
        rt: &R,
        alloc: Global,
        conn: Conn,
        cap: usize,
        authid: Option<Text>,
    ) -> io::Result<Option<Outcome>>
        requires least { 1 ≤ cap }
        requires most { cap ≤ 65536 }
    {
        self.seating.seat(conn)?;
        match self.seating.join(rt, alloc, conn, cap, authid)? {
            None => Ok(None),
            Some(entered) => Ok(Some(self.enter(rt, alloc, conn, entered)?)),
        }
    }

    // Handles a Join. Where that is applied, the connection's drain is the one that belongs to it.
    fn enter<R: Wait>(
        &mut self,
        rt: &R,
        alloc: Global,
        conn: Conn,
        entered: Entered,
    ) -> io::Result<Outcome> {
        let Entered { drain, wire } = entered;
        self.watching.add(conn, wire)?;
        let outcome = self.handle(rt, alloc)?;
        if outcome == Outcome::Applied {
            self.drains.put(conn, drain)?;
        }
        Ok(outcome)
    }

    /// Posts another act of the connection and has it handled. None where it has no poster and its seat isn't free.
    pub fn act<R: Wait>(
        &mut self,
        rt: &R,
        alloc: Global,
        conn: Conn,
        act: Act<Wire>,
    ) -> io::Result<Option<Outcome>>
        requires { is_join act ≡ false }
    {
        self.seating.seat(conn)?;
        if !self.seating.post(rt, conn, act) {
            return Ok(None);
        }
        Ok(Some(self.handle(rt, alloc)?))
    }

    /// Posts a stop and has it handled.
    pub fn stop<R: Wait>(&mut self, rt: &R, alloc: Global) -> io::Result<Option<Outcome>> {
        if !self.seating.stop(rt) {
            return Ok(None);
        }
        Ok(Some(self.handle(rt, alloc)?))
    }

    /// Handles what is posted until each poster is gone, or a stop was posted; then the outboxes are closed. Nobody posts anew.
    pub fn run<R: Wait>(self, rt: &R, alloc: Global) {
        let Room {
            seating,
            drains,
            desk,
            watching,
            persists: _,
        } = self;
        drop(seating);
        drop(drains);
        drop(watching);
        desk.run(rt, alloc);
    }

    /// What came of a post, as a line: the outcome, whom it cut, and whose transports it shut.
    pub fn told(&mut self, alloc: Global, outcome: Option<Outcome>) -> io::Result<String> {
        let Some(outcome) = outcome else {
            return line_of(alloc, "its seat isn't free");
        };
        let cut = self.desk.last_cut();
        self.watching.told(alloc, word_of(outcome), cut)
    }
}
