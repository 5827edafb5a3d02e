//! A realm: contracts see its history, and the body keeps what the next entry needs of it.
ghost use Rattle.std.specs.Prelude.{◌≡◌, ◌+◌, ◌≤◌, true, false, length, vec_capacity, OnOk, OnErr, IfOk, IsOk};
ghost use Rattle.realm.specs.Grants.{pairs_of};
ghost use Rattle.realm.specs.History.{begun, ◌▷◌};
ghost use Rattle.realm.specs.Publications.{is_retained_full};
ghost use Rattle.realm.specs.Sessions.{live, may_come, may_join, IsHistory};
ghost use Rattle.realm.specs.Words.{is_silent};
ghost use Rattle.realm.specs.Given.{GivesExactly};

use crate::dispatch::answer;
use crate::entry::Entry;
use crate::fault::Fault;
use crate::grants::Grants;
use crate::last_asked::LastAsked;
use crate::notes::{Refusal, Tally};
use crate::sessions::Sessions;
use crate::spare::Spare;
use crate::state::State;
use message_tree::Shared;
use retained::Store;
use std::alloc::{AllocError, Global};
use std::marker::Model;
use std::snapshot::Snapshot;
use subscription_index::Index;
use wamp_ids::{Conn, Topic};
use wamp_messages::{Item, Publication};

/// What a realm is made from.
#[derive(Drop)]
pub struct RealmConfig {
    /// Its name, by which a HELLO asks for it.
    pub name: Topic,
    /// The authids that a HELLO may ask for, each with its role. Of two pairs of one authid the
    /// first counts.
    pub grants: Vec<(String, String)>,
}

/// A realm. Contracts see it as its history, whose entries take no memory: what is kept is the
/// sessions, what they hold, and what is retained.
#[derive(Drop)]
pub struct Realm {
    state: State,
    past: Vec<Snapshot<Entry>>,
}

impl Model for Realm {
    ghost use Rattle.std.specs.Prelude.{map};
    ghost use Rattle.realm.specs.History.{History, begun};

    ghost Value = { History };

    ghost use Rattle.realm.specs.body.HistoryCode.{history_code};

    ghost coded = { history_code };

    ghost use Rattle.realm.specs.body.Apply.{history_after};
    ghost use Rattle.realm.specs.body.Refinement.{Agrees};

    ghost view = { λ r. history_after (begun r.state.grants) (map (λ s. s.value) r.past.items) };

    ghost use Rattle.std.specs.Prelude.{◌+◌, ◌≤◌, length, vec_capacity};

    ghost invariant = { λ r.
        Agrees (history_after (begun r.state.grants) (map (λ s. s.value) r.past.items)) r.state
        × (length r.past.items + length r.state.sessions ≤ vec_capacity r.past) };
}

impl Realm {
    /// A realm with these grants and an empty history.
    pub fn new(alloc: Global, config: RealmConfig) -> Result<Realm, Fault>
        ensures begun { IfOk result (λ realm. realm ≡ begun (pairs_of config.grants.items)) }
        ensures whole { IfOk result (λ realm. IsHistory realm) }
    {
        let RealmConfig { name: _, grants } = config;
        let state = State {
            grants: Grants::of(alloc, grants)?,
            sessions: Sessions::new(alloc),
            seats: LastAsked::new(alloc)?,
            index: Index::new(alloc),
            store: Store::new(alloc),
            spare: Spare::new(alloc),
        };
        Ok(Realm {
            state,
            past: Vec::new(alloc),
        })
    }

    /// Whether the connection has a live session.
    pub fn is_live(&self, conn: Conn) -> bool
        ensures { result ≡ live self.now conn }
    {
        self.state.sessions.find(conn).is_some()
    }

    /// Whether the connection may join: its number is greater than that of every earlier Join
    /// with the same seat.
    pub fn may_join(&self, conn: Conn) -> bool
        ensures { result ≡ may_join self.now conn }
    {
        self.state.seats.may_join(conn)
    }

    /// Whether the entry may come next: a Join that may join, or another entry of a connection that
    /// is live.
    pub fn may_come(&self, entry: &Entry) -> bool
        ensures { result ≡ may_come self.now entry.now }
    {
        match entry {
            Entry::Join { conn, .. } => self.may_join(*conn),
            Entry::Said { conn, .. } => self.is_live(*conn),
            Entry::Ping { conn, .. } => self.is_live(*conn),
            Entry::Spoilt { conn, .. } => self.is_live(*conn),
            Entry::Gone { conn, .. } => self.is_live(*conn),
            Entry::Cut { conn, .. } => self.is_live(*conn),
            Entry::Closed { conn, .. } => self.is_live(*conn),
        }
    }

    /// Whether as many topics as may have a retained publication have one.
    pub fn is_retained_full(&self) -> bool
        ensures { result ≡ is_retained_full self.now }
    {
        self.state.store.is_full()
    }

    /// Shows that each entry of the history could come when it came.
    pub fn shows_history(&self)
        ensures { IsHistory self.now }
    {
        let _ = &self.state;
    }

    /// Adds the entry to the history, and gives each session what it is owed for it: ascending by
    /// connection, and for each its items in order. A Join may join (see [`Realm::may_join`]), and
    /// any other entry's connection is live (see [`Realm::is_live`]). A Cut without a word takes no
    /// memory.
    ///
    /// # Errors
    /// `NoMemory` where a growth was refused; the realm is then as it was.
    pub fn apply(&mut self, alloc: Global, entry: Entry) -> Result<Vec<(Conn, Item)>, Fault>
        requires { may_come self.old entry ≡ true }
        ensures history { OnOk result (self.new ≡ self.old ▷ entry) }
        ensures given { IfOk result (λ given. GivesExactly self.old entry given.items) }
        ensures unchanged { OnErr result (self.new ≡ self.old) }
        ensures silent { is_silent entry ≡ true → IsOk result }
        ensures whole { OnOk result (IsHistory self.new) }
    {
        let seen = Snapshot::of(&entry);
        make_room(&mut self.past, self.state.sessions.len(), &entry)?;
        let given = answer(alloc, &mut self.state, entry)?;
        self.past.push_reserved(seen);
        Ok(given)
    }

    /// Takes back a list that [`Realm::apply`] gave, with what it still holds: the next publication
    /// finds its room. Of a list with room for more than 1,024 items nothing is kept.
    pub fn give_back(&mut self, given: Vec<(Conn, Item)>)
        ensures { self.new ≡ self.old }
    {
        self.state.spare.keep(given);
    }

    /// The last request that was refused, where it wasn't taken yet: for a log.
    pub fn take_refusal(&mut self) -> Option<Refusal>
        ensures { self.new ≡ self.old }
    {
        self.state.spare.take_refusal()
    }

    /// How much it holds, and gave so far: for a log.
    pub fn tally(&self) -> Tally {
        let notes = self.state.spare.notes();
        Tally {
            sessions: self.state.sessions.len(),
            subscriptions: self.state.index.len(),
            retained: self.state.store.len(),
            retained_octets: self.state.store.octets(),
            publications: notes.publications(),
            events: notes.events(),
        }
    }

    /// The last publication that was made and isn't retained, where it wasn't taken yet: so that another thread can drop it.
    pub fn take_spent(&mut self) -> Option<Shared<Publication>>
        ensures { self.new ≡ self.old }
    {
        self.state.spare.take_spent()
    }
}

/// Makes room for the entry, and for a Cut of each session that is live after it. A Cut without a
/// word finds the room that was made for it.
fn make_room(past: &mut Vec<Snapshot<Entry>>, live: usize, entry: &Entry) -> Result<(), AllocError>
    ensures items { past.new.items ≡ past.old.items }
    ensures more { vec_capacity past.old ≤ vec_capacity past.new }
    ensures room { OnOk result (is_silent entry.now ≡ false
        → length past.new.items + (live + 2) ≤ vec_capacity past.new) }
    ensures silent { is_silent entry.now ≡ true → IsOk result }
{
    if entry.is_silent() {
        return Ok(());
    }
    match live.checked_add(2) {
        Some(room) => past.reserve(room),
        None => Err(AllocError),
    }
}
