//! A world: a realm that moves one step at a time, in any order that a schedule gives.
ghost use Rattle.std.specs.Prelude.{◌≡◌, ◌≤◌, ◌<◌, ◌++◌, ℕ, true, false, [], take, length, vec_len, vec_capacity, IfOk, OnOk, OnErr, MatchOption};
ghost use Rattle.realm.specs.declared.fault.Fault.TheVariants.{NoMemory};
ghost use Rattle.realm.specs.Grants.{pairs_of};
ghost use Rattle.realm.specs.History.{◌▷◌};
ghost use Rattle.realm.specs.Sessions.{live, may_come};
ghost use Rattle.realm.specs.Given.{GivesExactly};
ghost use Rattle.realm_core.specs.body.Rest.{GivesLast, HasEntered, IsAtRest, IsFirstOf, IsGiving};
ghost use Rattle.realm_core.specs.Worlds.{new_world, EntersAtMost, Moves, Reaches, StaysOut};
ghost use Rattle.realm_core.specs.Delivery.{Delivers};
ghost use Rattle.realm_core.specs.body.Runs.{taker_of, taken_with, Advances};

use crate::exchange::Exchange;
use crate::step::{Step, Stepped};
use realm::{Entry, Fault, RealmConfig};
use std::alloc::Global;
use std::collections::VecDeque;
use std::marker::Model;
use wamp_ids::Conn;
use wamp_messages::Item;

/// A realm with its inbox and the queues of its sessions, which moves one step at a time, in any
/// order. Contracts see its history, what waits, and all that was posted, lost, added and taken;
/// what went through takes no memory.
#[derive(Drop)]
pub struct World {
    exchange: Exchange,
}

impl Model for World {
    ghost use Rattle.realm_core.specs.Worlds.{Course};

    ghost Value = { Course };

    ghost use Rattle.realm_core.specs.body.CourseCode.{course_code};

    ghost coded = { course_code };

    ghost use Rattle.realm_core.specs.Worlds.{IsReached};

    ghost view = { λ w. w.exchange };

    ghost invariant = { λ w. IsReached w.exchange };
}

/// What a run of steps did.
#[derive(Drop)]
pub struct Run {
    /// What was taken from the sessions' queues, in order.
    pub taken: Vec<(Conn, Item)>,
    /// How many steps were made.
    pub done: usize,
    /// Why the next one was refused, if not all were made.
    pub fault: Option<Fault>,
}

impl World {
    /// A world with an empty history, in which nothing waits. The inbox holds `inbox_cap` posts and
    /// each session's queue `outbox_cap` items, both at least 1.
    ///
    /// # Errors
    /// `NoMemory` where a growth was refused.
    pub fn new(
        alloc: Global,
        config: RealmConfig,
        inbox_cap: usize,
        outbox_cap: usize,
    ) -> Result<World, Fault>
        requires inbox { 1 ≤ inbox_cap }
        requires outbox { 1 ≤ outbox_cap }
        ensures { IfOk result (λ world.
            world ≡ new_world (pairs_of config.grants.items) inbox_cap outbox_cap) }
    {
        let exchange = Exchange::new(alloc, config, inbox_cap, outbox_cap)?;
        Ok(World { exchange })
    }

    /// Whether the connection has a live session.
    pub fn is_live(&self, conn: Conn) -> bool
        ensures { result ≡ live self.now.history conn }
    {
        self.exchange.is_live(conn)
    }

    /// Whether the entry may come next: a Join whose number is greater than that of every earlier
    /// Join with the same seat, or another entry of a connection that is live.
    pub fn may_come(&self, entry: &Entry) -> bool
        ensures { result ≡ may_come self.now.history entry.now }
    {
        self.exchange.may_come(entry)
    }

    /// What holds of every world: what each session's writer took is a beginning of what the realm's
    /// history owes that session, its EVENTs are exactly those that are due, and all that is owed was
    /// added or waits to be pushed, unless the session was found full.
    pub fn shows(&self)
        ensures { Delivers self.now }
    {
        let _ = &self.exchange;
    }

    /// Makes one step.
    ///
    /// # Errors
    /// `NoMemory` where a growth was refused; the world is then as it was, and the entry of a Post
    /// is dropped.
    pub fn step(&mut self, alloc: Global, step: Step) -> Result<Stepped, Fault>
        ensures moves { IfOk result (λ stepped. Moves self.old step stepped self.new) }
        ensures unchanged { OnErr result (self.new ≡ self.old) }
    {
        self.exchange.step(alloc, step)
    }

    /// Makes one step of a run.
    fn advance(
        &mut self,
        alloc: Global,
        step: Step,
        taken: &mut Vec<(Conn, Item)>,
    ) -> Result<(), Fault>
        ensures ok { OnOk result (Advances self.old step self.new taken.old.items taken.new.items) }
        ensures world { OnErr result (self.new ≡ self.old) }
        ensures taken { OnErr result (taken.new.items ≡ taken.old.items) }
    {
        taken.reserve(1)?;
        let taker = taker_of(&step);
        let stepped = self.step(alloc, step)?;
        note_taken(taken, taker, stepped);
        Ok(())
    }

    /// Whose item is the first that waits to be pushed.
    pub fn first_to_push(&self) -> Option<Conn>
        ensures { MatchOption result (self.now.pushing ≡ [])
            (λ conn. IsFirstOf conn self.now.pushing) }
    {
        self.exchange.first_to_push()
    }

    /// Posts the entry, accepts it, and pushes and takes each of its items in turn: what it gives each
    /// session, ascending by connection. Nothing waits when it is called, and it may come.
    ///
    /// # Errors
    /// `NoMemory` where a growth was refused. No other entry entered then; this one may have, and some
    /// of its items may be taken.
    pub fn deliver(&mut self, alloc: Global, entry: Entry) -> Result<Vec<(Conn, Item)>, Fault>
        requires rest { IsAtRest self.old }
        requires may_come { may_come self.old.history entry ≡ true }
        ensures rest { OnOk result (IsAtRest self.new) }
        ensures history { OnOk result (self.new.history ≡ self.old.history ▷ entry) }
        ensures given { IfOk result (λ given. GivesExactly self.old.history entry given.items) }
        ensures alone { OnErr result (EntersAtMost self.old entry self.new) }
    {
        self.enter(alloc, entry)?;
        self.take_all(alloc)
    }

    /// Whether nothing waits, nobody was found full, and there is room for a post and an item.
    pub fn is_at_rest(&self) -> bool
        ensures rests { result ≡ true → IsAtRest self.now }
        ensures moves { result ≡ false → IsAtRest self.now → ⊥ }
    {
        self.exchange.is_at_rest()
    }

    /// Posts the entry and accepts it. Nothing waits when it is called, and it may come.
    ///
    /// # Errors
    /// `NoMemory` where a growth was refused. The entry didn't enter the history then; it may wait in
    /// the inbox.
    pub fn enter(&mut self, alloc: Global, entry: Entry) -> Result<(), Fault>
        requires rest { IsAtRest self.old }
        requires may_come { may_come self.old.history entry ≡ true }
        ensures entered { OnOk result (IsGiving self.old.history entry self.new []) }
        ensures unchanged { OnErr result (self.new.history ≡ self.old.history) }
        ensures stays_out { OnErr result (StaysOut self.old entry self.new) }
    {
        self.step(alloc, Step::Post(entry))?;
        self.step(alloc, Step::Accept)?;
        Ok(())
    }

    /// Pushes and takes each item of the entry that entered, in turn: what it gives each session,
    /// ascending by connection.
    ///
    /// # Errors
    /// `NoMemory` where a growth was refused; some of the items may be taken then.
    pub fn take_all(&mut self, alloc: Global) -> Result<Vec<(Conn, Item)>, Fault>
        requires { HasEntered self.old }
        ensures history { self.new.history ≡ self.old.history }
        ensures rest { OnOk result (IsAtRest self.new) }
        ensures given { IfOk result (λ given. GivesLast self.old.history given.items) }
    {
        let mut given = Vec::new(alloc);
        while let Some(conn) = self.first_to_push() {
            self.advance(alloc, Step::Push, &mut given)?;
            self.advance(alloc, Step::Take(conn), &mut given)?;
        }
        Ok(given)
    }

    /// Makes the steps in their order, up to the first that is refused. What holds of every world
    /// holds of what they make, however they are ordered.
    pub fn run(&mut self, alloc: Global, steps: Vec<Step>) -> Run
        ensures reaches { Reaches self.old (take result.done steps.items) self.new }
        ensures done { MatchOption result.fault (result.done ≡ length steps.items)
            (λ fault. (fault ≡ NoMemory) × (result.done < length steps.items)) }
        ensures taken { self.new.taken ≡ self.old.taken ++ result.taken.items }
        ensures delivers { Delivers self.new }
    {
        let mut rest = VecDeque::from_vec(steps);
        let mut taken = Vec::new(alloc);
        let mut done: usize = 0;
        while let Some(step) = rest.pop_front() {
            match self.advance(alloc, step, &mut taken) {
                Ok(()) => done += 1,
                Err(_) => {
                    self.shows();
                    return Run {
                        taken,
                        done,
                        fault: Some(Fault::NoMemory),
                    };
                }
            }
        }
        self.shows();
        Run {
            taken,
            done,
            fault: None,
        }
    }
}

/// Whose queue a step takes from.
fn taker_of(step: &Step) -> Option<Conn>
    ensures { result ≡ taker_of step.now }
{
    match step {
        Step::Take(conn) => Some(*conn),
        _ => None,
    }
}

/// Keeps what a step took, if anything.
fn note_taken(taken: &mut Vec<(Conn, Item)>, taker: Option<Conn>, stepped: Stepped)
    requires { vec_len taken.old < vec_capacity taken.old }
    ensures { taken.new.items ≡ taken.old.items ++ taken_with taker stepped }
{
    let Some(conn) = taker else {
        return;
    };
    if let Stepped::Took(item) = stepped {
        taken.push_reserved((conn, item));
    }
}
