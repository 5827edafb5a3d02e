//! The actor of a realm.
ghost use Rattle.std.specs.Prelude.{◌≡◌, ℕ, Some, None, [], IfOk, IfErr, is_some};
ghost use Rattle.realm_inbox.specs.Seats.{IsHomed};
ghost use Rattle.realm.specs.Grants.{Grants, pairs_of};
ghost use Rattle.realm.specs.History.{begun};
ghost use Rattle.realm.specs.Publications.{is_retained_full};
ghost use Rattle.realm.specs.Sessions.{live};
ghost use Rattle.realm_actor.specs.LastCut.{outbox_of};
ghost use Rattle.realm_actor.specs.Run.{Handles, IsNextOf};
ghost use Rattle.realm_actor.specs.Settle.{IsOther, Settles, Sweeps};
ghost use Rattle.realm_actor.specs.HistoryGrowth.{IsMade};
ghost use Rattle.realm_actor.specs.Invariant.{Stands};

use crate::id_source::IdSource;
use crate::load::Load;
use crate::outcome::Outcome;
use crate::state::ActorState;
use outbox_queue::{Drain, Rest};
use realm::{Fault, Realm, RealmConfig, Refusal};
use realm_inbox::{Inbox, Post, RealmChronicle, RealmHistory, Shut};
use std::alloc::{AllocError, Global};
use std::marker::Model;
use std::sync::Wait;
use wamp_ids::Conn;
use wamp_messages::Item;

/// The actor of a realm: it alone changes the realm, and adds what each entry of its history gives to the sessions' outboxes.
///
/// Contracts see the chronicle of the realm's history, the history, the rows of its sessions, the words that were drawn, whom the last post found full, or cut,
/// and the acts that were handled, each with its connection.
#[derive(Drop)]
pub struct Actor<S: Shut, W: IdSource> {
    state: ActorState<S, W>,
}

impl<S: Shut, W: IdSource> Model for Actor<S, W> {
    ghost use Rattle.realm_actor.specs.ActorView.{Acting, acting};

    ghost Value = { Acting S };

    ghost use Rattle.std.specs.Coded.{codes};
    ghost use Rattle.realm.specs.body.HistoryCode.{history_code};
    ghost use Rattle.message_tree.specs.Code.{data_code, entries_code};

    ghost coded = { Prim.hlevel (codes, history_code, data_code, entries_code) };

    ghost use Rattle.realm_actor.specs.Invariant.{IsRoomy, Knows, Stands, WasMade};

    ghost view = { λ a. acting (W.given a.state.words) a.state };

    ghost invariant = { λ a. Stands a.state.table.realm a.state.table.rows.items
        × IsRoomy a.state × Knows a.state.table × WasMade a.state };
}

impl<S: Shut, W: IdSource> Actor<S, W> {
    /// An actor of a realm with an empty history, and with a chronicle of its own. Each entry that draws a word gets the next one of
    /// `words`.
    ///
    /// # Errors
    /// `NoMemory` where memory for the realm was refused.
    pub fn new(alloc: Global, config: RealmConfig, words: W) -> Result<Actor<S, W>, Fault>
        ensures { IfOk result (λ a. a ≡ record {
          chronicle = a.chronicle;
          history = begun (pairs_of config.grants.items);
          rows = [];
          words = W.given words;
          last_cut = [];
          handled = [];
        }) }
    {
        Actor::of_chronicle(alloc, RealmChronicle::new(alloc)?, config, words)
    }

    /// The same, with a chronicle that knows no history yet, as it was made: each outbox of that chronicle can join the realm.
    ///
    /// # Errors
    /// `NoMemory` where memory for the realm was refused.
    pub fn of_chronicle(
        alloc: Global,
        chronicle: RealmChronicle,
        config: RealmConfig,
        words: W,
    ) -> Result<Actor<S, W>, Fault>
        requires new { chronicle.history ≡ None }
        ensures { IfOk result (λ a. a ≡ record {
          chronicle = chronicle.chronicle;
          history = begun (pairs_of config.grants.items);
          rows = [];
          words = W.given words;
          last_cut = [];
          handled = [];
        }) }
    {
        let realm = Realm::new(alloc, config)?;
        Ok(Actor::of_realm(alloc, chronicle, realm, words))
    }

    /// The same, of a realm that nothing has entered yet. It takes no memory: so where there is none for the realm, its chronicle isn't
    /// lost.
    pub fn of_realm(alloc: Global, chronicle: RealmChronicle, realm: Realm, words: W) -> Actor<S, W>
        requires new { chronicle.history ≡ None }
        requires empty { (grants : Grants) × (realm ≡ begun grants) }
        ensures { result ≡ record {
          chronicle = chronicle.chronicle;
          history = realm;
          rows = [];
          words = W.given words;
          last_cut = [];
          handled = [];
        } }
    {
        Actor {
            state: ActorState::of_realm(alloc, chronicle, realm, words),
        }
    }

    /// Shows what holds of an actor between two posts: what was added to each held outbox begins what the history owes its
    /// connection, and is all of that where no step found it full; where one did, nothing was added since; the outbox is open
    /// exactly where its session is live; and nobody who was found full is live. Nobody was cut for nothing: the history cut a
    /// session only where its outbox, if it is held, was found full, or where memory was refused for something of it. The history
    /// is what the acts that were handled made of it from the beginning on, and stops between them.
    pub fn shows(&self)
        ensures stands { Stands self.now.history self.now.rows }
        ensures made { IsMade self.now.history self.now.handled }
    {
        let _ = &self.state;
    }

    /// Whether the connection has a live session.
    pub fn is_live(&self, conn: Conn) -> bool
        ensures { result ≡ live self.now.history conn }
    {
        self.state.is_live(conn)
    }

    /// Whether the connection's outbox is held.
    pub fn holds(&self, conn: Conn) -> bool
        ensures { result ≡ is_some (outbox_of self.now.rows conn) }
    {
        self.state.holds(conn)
    }

    /// Whether as many topics as may have a retained publication have one: 1,000.
    pub fn is_retained_full(&self) -> bool
        ensures { result ≡ is_retained_full self.now.history }
    {
        self.state.is_retained_full()
    }

    /// The connections that the last post found full, or cut for want of memory, ascending.
    pub fn last_cut(&self) -> &[Conn]
        ensures { result.now ≡ self.now.last_cut }
    {
        self.state.last_cut()
    }

    /// Handles a post, which is the next of its seat, and whose outbox, if it is a Join's, is of the actor's chronicle or of none: adds what it gives to the outboxes, cuts whom that found full, and wakes the
    /// writers of those that got something.
    ///
    /// An act of a connection enters the history (`Applied`), or it is `Dropped`: a Join that may not join, whose transport is
    /// shut, or another act of a connection that isn't live. Where memory was refused it doesn't enter, and the session is cut
    /// instead, if it is live (`NoMemory`). A stop closes each live session, ascending (WAMP, "Session Closing"); it is `NoMemory`
    /// where one had to be cut instead.
    pub fn handle<R: Wait>(&mut self, rt: &R, alloc: Global, post: Post<S>) -> Outcome
        requires next { IsNextOf self.old.handled post }
        requires home { IsHomed (Some self.old.chronicle) post }
        ensures handles { Handles result post self.old self.new }
        ensures chronicle { self.new.chronicle ≡ self.old.chronicle }
    {
        let outcome = self.take(rt, alloc, post);
        self.wake();
        outcome
    }

    // The same, but a writer is woken only where its outbox has got a quarter of what it can hold.
    pub(crate) fn take<R: Wait>(&mut self, rt: &R, alloc: Global, post: Post<S>) -> Outcome
        requires home { IsHomed (Some self.old.chronicle) post }
        ensures handles { Handles result post self.old self.new }
        ensures chronicle { self.new.chronicle ≡ self.old.chronicle }
    {
        let state = &mut self.state;
        state.handle(rt, alloc, post)
    }

    // The request that was refused last, where it wasn't taken yet and is the first of its session.
    pub(crate) fn first_refusal(&mut self) -> Option<Refusal>
        ensures { self.new ≡ self.old }
    {
        let state = &mut self.state;
        state.first_refusal()
    }

    // How much it holds, with what waits in its inbox.
    pub(crate) fn load(&self, inbox: &Inbox<S>) -> Load {
        Load {
            realm: self.state.tally(),
            longest_outbox: self.state.longest_outbox(),
            posts_waiting: inbox.posts_waiting(),
        }
    }

    // Wakes the writers of those that got something since they were last woken.
    pub(crate) fn wake(&self) {
        self.state.wake();
    }

    /// Forgets the sessions that aren't live: their outboxes are handed over to their writers, if they are held
    /// ([`outbox_queue::Outbox::hand_over`]).
    pub fn sweep(&mut self)
        ensures sweeps { Sweeps self.old self.new }
        ensures chronicle { self.new.chronicle ≡ self.old.chronicle }
    {
        let state = &mut self.state;
        state.sweep();
    }

    /// Puts the outbox of the drain's connection and the drain together again, and holds it no longer. The outbox is held, and it
    /// is the other end of the drain. What was taken, followed by what comes back, is what was added.
    ///
    /// # Errors
    /// Where there is no memory for what is left, the drain comes back, and nothing changed.
    pub fn settle<R: Wait>(
        &mut self,
        rt: &R,
        alloc: Global,
        drain: Drain<Item, RealmHistory>,
    ) -> Result<Rest<Item>, (AllocError, Drain<Item, RealmHistory>)>
        requires { IsOther drain (outbox_of self.old.rows drain.conn) }
        ensures ok { IfOk result (λ rest.
            Settles drain.conn drain rest.items.items self.old self.new) }
        ensures err { IfErr result (λ back. (self.new ≡ self.old) × (back.1 ≡ drain)) }
        ensures chronicle { self.new.chronicle ≡ self.old.chronicle }
    {
        let state = &mut self.state;
        state.settle(rt, alloc, drain)
    }

    /// The chronicle of the realm's history, which has the history of the actor, and the source of its words. What a drain saw of
    /// that history can be tied to it ([`outbox_queue::tie`]). No outbox is held, which would be dropped here, and not handed over.
    pub fn into_parts(self) -> (RealmChronicle, W)
        requires released { (c : ℕ) → outbox_of self.rows c ≡ None }
        ensures chronicle { result.0 ≡ record {
          chronicle = self.chronicle;
          history = Some self.history;
        } }
        ensures words { W.given result.1 ≡ self.words }
    {
        let state = self.state;
        let table = state.table;
        (table.chronicle, state.words)
    }
}
