//! What an actor keeps.
ghost use Rattle.std.specs.Prelude.{◌≡◌, [], true, None};
ghost use Rattle.realm.specs.Publications.{is_retained_full};
ghost use Rattle.realm.specs.Sessions.{conn_of, live, may_come};
ghost use Rattle.ghost_state.specs.GhostList.{items_of};
ghost use Rattle.realm_actor.specs.ActorView.{working};
ghost use Rattle.realm_actor.specs.Cuts.{NoneFull};
ghost use Rattle.realm_actor.specs.Handle.{TakesIn};
ghost use Rattle.realm_actor.specs.Invariant.{IsSound, KeepsRest, Knows};
ghost use Rattle.realm_actor.specs.Tables.{CutsNobody};

use crate::delivery::wake_all;
use crate::entering::tell;
use crate::id_source::IdSource;
use crate::outcome::Outcome;
use crate::seat_guesses::SeatGuesses;
use crate::table::Table;
use realm::{Entry, Realm, Refusal, Tally};
use realm_inbox::{GhostList, Letter, RealmChronicle, Shut};
use std::alloc::Global;
use std::sync::Wait;
use wamp_ids::Conn;

/// A realm with its rows, its source of words, the connections that the last post found full, or cut, and the letters that were
/// handled.
#[derive(Drop)]
pub struct ActorState<S: Shut, W: IdSource> {
    pub table: Table<S>,
    pub words: W,
    pub last_cut: Vec<Conn>,
    pub handled: GhostList<Letter<S>>,
}

impl<S: Shut, W: IdSource> ActorState<S, W> {
    /// An actor of this realm, which it tells the chronicle.
    pub fn of_realm(
        alloc: Global,
        mut chronicle: RealmChronicle,
        realm: Realm,
        words: W,
    ) -> ActorState<S, W>
        requires new { chronicle.history ≡ None }
        ensures chronicle { result.table.chronicle.chronicle ≡ chronicle.chronicle }
        ensures history { result.table.realm ≡ realm }
        ensures rows { result.table.rows.items ≡ [] }
        ensures words { result.words ≡ words }
        ensures last_cut { result.last_cut.items ≡ [] }
        ensures handled { items_of result.handled ≡ [] }
        ensures knows { Knows result.table }
    {
        tell(&mut chronicle, &realm);
        ActorState {
            table: Table {
                realm,
                chronicle,
                rows: Vec::new(alloc),
                guesses: SeatGuesses::new(),
                has_marks: false,
                has_ended: false,
            },
            words,
            last_cut: Vec::new(alloc),
            handled: GhostList::new(),
        }
    }

    /// Whether the connection has a live session.
    pub fn is_live(&self, conn: Conn) -> bool
        ensures { result ≡ live self.now.table.realm conn }
    {
        self.table.realm.is_live(conn)
    }

    /// Whether as many topics as may have a retained publication have one.
    pub fn is_retained_full(&self) -> bool
        ensures { result ≡ is_retained_full self.now.table.realm }
    {
        self.table.realm.is_retained_full()
    }

    /// The connections that the last post found full, or cut, ascending.
    pub fn last_cut(&self) -> &[Conn]
        ensures { result.now ≡ self.now.last_cut.items }
    {
        self.last_cut.as_slice()
    }

    /// The request that was refused last, where it wasn't taken yet and is the first of its session.
    pub fn first_refusal(&mut self) -> Option<Refusal>
        ensures { self.new ≡ self.old }
    {
        self.table.first_refusal()
    }

    /// What the realm holds, and gave so far.
    pub fn tally(&self) -> Tally {
        self.table.realm.tally()
    }

    /// How many items wait in the longest outbox.
    pub fn longest_outbox(&self) -> u64 {
        self.table.longest_outbox()
    }

    /// Wakes each writer for whom items were added since it was last woken.
    pub fn wake(&self) {
        wake_all(self.table.rows.as_slice());
    }

    // An entry of a live session, which cuts nobody, enters, or for want of memory the session is cut; then who was found full is
    // cut.
    pub(crate) fn take_in<R: Wait>(
        &mut self,
        rt: &R,
        alloc: Global,
        entry: Entry,
        conn: Conn,
    ) -> Outcome
        requires sound { IsSound self.old.table }
        requires none { NoneFull self.old.table.rows.items }
        requires own { conn_of entry ≡ conn }
        requires comes { may_come self.old.table.realm entry ≡ true }
        requires live { live self.old.table.realm conn ≡ true }
        requires uncut { CutsNobody self.old.table.realm entry }
        ensures outcome { TakesIn result conn entry (working (W.given self.old.words) self.old)
            (working (W.given self.new.words) self.new) }
        ensures last_cut { self.new.last_cut ≡ self.old.last_cut }
        ensures sound { IsSound self.new.table }
        ensures keeps { KeepsRest self.old self.new }
    {
        let ActorState { table, words, .. } = self;
        match table.accept(rt, alloc, words, entry, conn) {
            Ok(()) => Outcome::Applied,
            Err(_) => {
                table.lose(rt, alloc, words, conn);
                Outcome::NoMemory
            }
        }
    }
}
