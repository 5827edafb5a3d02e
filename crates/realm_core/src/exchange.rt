//! A realm with its inbox and its queues, and the steps that it makes.
ghost use Rattle.std.specs.Prelude.{◌≡◌, ◌≤◌, true, false, [], MatchOption, IfOk, OnErr};
ghost use Rattle.realm.specs.Grants.{pairs_of};
ghost use Rattle.realm.specs.Sessions.{live, may_come};
ghost use Rattle.realm_core.specs.body.Marks.{NoneJoinsAgain};
ghost use Rattle.realm_core.specs.body.Rest.{IsAtRest, IsFirstOf};
ghost use Rattle.realm_core.specs.Worlds.{new_world, Posts, Accepts, Loses, Pushes, Takes, Leaves, Moves};

use crate::copy::copy_of;
use crate::outboxes::{Outboxes, add, are_empty, count_for, make_room, take};
use crate::queues::{first_conn, is_in, next_leaver, next_post, remove_first, remove_front};
use crate::step::{Step, Stepped};
use realm::{Entry, Fault, Realm, RealmConfig};
use std::alloc::Global;
use std::collections::{BTreeMap, VecDeque};
use std::marker::Model;
use std::snapshot::Snapshot;
use wamp_ids::Conn;
use wamp_messages::Item;

/// A realm and what waits round it. Contracts see also all that went through, which takes no bytes.
///
/// The marks are those found full since an entry was last accepted: when one is, nobody else that
/// was found full is live.
#[derive(Drop)]
pub struct Exchange {
    realm: Realm,
    inbox_cap: usize,
    outbox_cap: usize,
    inbox: VecDeque<Entry>,
    pushing: VecDeque<(Conn, Item)>,
    outboxes: Outboxes,
    marks: Vec<Conn>,
    full: Vec<Snapshot<Conn>>,
    posted: Vec<Snapshot<Entry>>,
    lost: Vec<Snapshot<Entry>>,
    added: Vec<Snapshot<(Conn, Item)>>,
    taken: Vec<Snapshot<(Conn, Item)>>,
}

impl Model for Exchange {
    ghost use Rattle.realm_core.specs.Worlds.{Course};

    ghost Value = { Course };

    ghost use Rattle.realm_core.specs.body.CourseCode.{course_code};

    ghost coded = { course_code };

    ghost use Rattle.realm_core.specs.body.Exchange.{course_of, AgreesWith};

    ghost view = { course_of };

    ghost invariant = { AgreesWith };
}

impl Exchange {
    /// A realm with an empty history, round which nothing waits.
    pub fn new(
        alloc: Global,
        config: RealmConfig,
        inbox_cap: usize,
        outbox_cap: usize,
    ) -> Result<Exchange, Fault>
        ensures { IfOk result (λ exchange.
            exchange ≡ new_world (pairs_of config.grants.items) inbox_cap outbox_cap) }
    {
        let realm = Realm::new(alloc, config)?;
        Ok(Exchange {
            realm,
            inbox_cap,
            outbox_cap,
            inbox: VecDeque::new(alloc),
            pushing: VecDeque::new(alloc),
            outboxes: BTreeMap::new(alloc),
            marks: Vec::new(alloc),
            full: Vec::new(alloc),
            posted: Vec::new(alloc),
            lost: Vec::new(alloc),
            added: Vec::new(alloc),
            taken: Vec::new(alloc),
        })
    }

    /// Whether the connection has a live session.
    pub fn is_live(&self, conn: Conn) -> bool
        ensures { result ≡ live self.now.history conn }
    {
        self.realm.is_live(conn)
    }

    /// Whether the entry may come next.
    pub fn may_come(&self, entry: &Entry) -> bool
        ensures { result ≡ may_come self.now.history entry.now }
    {
        self.realm.may_come(entry)
    }

    /// Puts the entry at the back of the inbox.
    pub fn post(&mut self, entry: Entry) -> Result<Stepped, Fault>
        ensures moves { IfOk result (λ stepped. Posts self.old entry stepped self.new) }
        ensures unchanged { OnErr result (self.new ≡ self.old) }
    {
        if self.inbox.len() >= self.inbox_cap {
            return Ok(Stepped::Idle);
        }
        self.inbox.reserve(1)?;
        self.posted.reserve(1)?;
        self.posted.push_reserved(Snapshot::of(&entry));
        self.inbox.push_back_reserved(entry);
        Ok(Stepped::Posted)
    }

    /// Lets the front entry of the inbox enter the history.
    pub fn accept(&mut self, alloc: Global) -> Result<Stepped, Fault>
        requires { NoneJoinsAgain self.old.history self.old.full }
        ensures moves { IfOk result (λ stepped. Accepts self.old stepped self.new) }
        ensures unchanged { OnErr result (self.new ≡ self.old) }
    {
        let Some(entry) = next_post(&self.realm, &self.pushing, &self.marks, &self.inbox) else {
            return Ok(Stepped::Idle);
        };
        if !self.realm.may_come(entry) {
            remove_front(&mut self.inbox);
            return Ok(Stepped::Dropped);
        }
        let copy = copy_of(alloc, entry)?;
        let given = self.realm.apply(alloc, copy)?;
        self.pushing = VecDeque::from_vec(given);
        remove_front(&mut self.inbox);
        self.marks.clear();
        Ok(Stepped::Accepted)
    }

    /// Loses the front entry of the inbox, and cuts its session, if live.
    pub fn lose(&mut self, alloc: Global, word: Option<u64>) -> Result<Stepped, Fault>
        ensures moves { IfOk result (λ stepped. Loses self.old word stepped self.new) }
        ensures unchanged { OnErr result (self.new ≡ self.old) }
    {
        let Some(entry) = next_post(&self.realm, &self.pushing, &self.marks, &self.inbox) else {
            return Ok(Stepped::Idle);
        };
        let conn = entry.conn();
        let seen = Snapshot::of(entry);
        self.lost.reserve(1)?;
        if !self.realm.is_live(conn) {
            self.lost.push_reserved(seen);
            remove_front(&mut self.inbox);
            return Ok(Stepped::Lost);
        }
        let cut = Entry::Cut { conn, word };
        let given = self.realm.apply(alloc, cut)?;
        self.pushing = VecDeque::from_vec(given);
        self.lost.push_reserved(seen);
        remove_front(&mut self.inbox);
        Ok(Stepped::Lost)
    }

    /// Adds the first item that waits to be pushed to its session's queue.
    pub fn push(&mut self, alloc: Global) -> Result<Stepped, Fault>
        ensures moves { IfOk result (λ stepped. Pushes self.old stepped self.new) }
        ensures unchanged { OnErr result (self.new ≡ self.old) }
    {
        let Some(conn) = first_conn(&self.pushing) else {
            return Ok(Stepped::Idle);
        };
        if is_in(&self.marks, conn) {
            remove_first(&mut self.pushing);
            return Ok(Stepped::FoundFull);
        }
        if count_for(&self.outboxes, conn) >= self.outbox_cap {
            self.marks.reserve(1)?;
            self.full.reserve(1)?;
            self.marks.push_reserved(conn);
            self.full.push_reserved(Snapshot::of(&conn));
            remove_first(&mut self.pushing);
            return Ok(Stepped::FoundFull);
        }
        self.added.reserve(1)?;
        make_room(&mut self.outboxes, alloc, conn)?;
        let Some(pair) = self.pushing.pop_front() else {
            unreachable!();
        };
        self.added.push_reserved(Snapshot::of(&pair));
        add(&mut self.outboxes, conn, pair.1);
        Ok(Stepped::Pushed)
    }

    /// Takes the front of the session's queue.
    pub fn take(&mut self, conn: Conn) -> Result<Stepped, Fault>
        ensures moves { IfOk result (λ stepped. Takes self.old conn stepped self.new) }
        ensures unchanged { OnErr result (self.new ≡ self.old) }
    {
        self.taken.reserve(1)?;
        let Some(item) = take(&mut self.outboxes, conn) else {
            return Ok(Stepped::Idle);
        };
        let pair = (conn, item);
        self.taken.push_reserved(Snapshot::of(&pair));
        Ok(Stepped::Took(pair.1))
    }

    /// Cuts the least of the live sessions that were found full.
    pub fn leave(&mut self, alloc: Global, word: Option<u64>) -> Result<Stepped, Fault>
        ensures moves { IfOk result (λ stepped. Leaves self.old word stepped self.new) }
        ensures unchanged { OnErr result (self.new ≡ self.old) }
    {
        let Some(conn) = next_leaver(&self.realm, &self.pushing, &self.marks) else {
            return Ok(Stepped::Idle);
        };
        let given = self.realm.apply(alloc, Entry::Cut { conn, word })?;
        self.pushing = VecDeque::from_vec(given);
        Ok(Stepped::Left)
    }

    /// Whose item is the first that waits to be pushed.
    pub fn first_to_push(&self) -> Option<Conn>
        ensures { MatchOption result (self.now.pushing ≡ [])
            (λ conn. IsFirstOf conn self.now.pushing) }
    {
        first_conn(&self.pushing)
    }

    /// Whether nothing waits, nobody was found full, and there is room for a post and an item.
    pub fn is_at_rest(&self) -> bool
        ensures rests { result ≡ true → IsAtRest self.now }
        ensures moves { result ≡ false → IsAtRest self.now → ⊥ }
    {
        if self.inbox_cap == 0 || self.outbox_cap == 0 {
            return false;
        }
        if !self.inbox.is_empty() || !self.pushing.is_empty() {
            return false;
        }
        self.full.is_empty() && are_empty(&self.outboxes)
    }

    /// Makes one step.
    pub fn step(&mut self, alloc: Global, step: Step) -> Result<Stepped, Fault>
        requires { NoneJoinsAgain self.old.history self.old.full }
        ensures moves { IfOk result (λ stepped. Moves self.old step stepped self.new) }
        ensures unchanged { OnErr result (self.new ≡ self.old) }
    {
        match step {
            Step::Post(entry) => self.post(entry),
            Step::Accept => self.accept(alloc),
            Step::Lose(word) => self.lose(alloc, word),
            Step::Push => self.push(alloc),
            Step::Take(conn) => self.take(conn),
            Step::Leave(word) => self.leave(alloc, word),
        }
    }
}
