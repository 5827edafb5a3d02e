//! The end of a session's outbox.
ghost use Rattle.std.specs.Prelude.{◌≡◌, ◌++◌, [], true, IfOk, IfErr, None, Some, is_some, filter};
ghost use Rattle.outbox_queue.specs.Rule.{Grows};
ghost use Rattle.realm.specs.History.{Begins};
ghost use Rattle.realm.specs.Sessions.{live};
ghost use Rattle.realm_actor.specs.Rows.{Ascending, EachHome, RowDue, RowHome, box_in};
ghost use Rattle.realm_actor.specs.Tables.{Accounts, Sound, has_joined};
ghost use Rattle.realm_actor.specs.LastCut.{outbox_of};
ghost use Rattle.realm_actor.specs.Settle.{EachParted, Emptied, EmptiesOne, IsOther, Parted};
ghost use Rattle.realm_actor.specs.Invariant.{IsSound, KeepsRest, Knows};

use crate::id_source::IdSource;
use crate::row::{HeldOutbox, Row};
use crate::row_search::{find, find_number};
use crate::state::ActorState;
use crate::table::Table;
use outbox_queue::{Drain, Rest, settle};
use realm::Realm;
use realm_inbox::{RealmChronicle, RealmHistory, RealmMoment, Shut};
use std::alloc::{AllocError, Global};
use std::sync::Wait;
use wamp_ids::Conn;
use wamp_messages::Item;

impl<S: Shut> Row<S> {
    // Puts the row's outbox and its drain together again. Where there is no memory for what is left, both come back.
    fn settle<R: Wait>(
        &mut self,
        rt: &R,
        alloc: Global,
        drain: Drain<Item, RealmHistory>,
    ) -> Result<Rest<Item>, (AllocError, Drain<Item, RealmHistory>)>
        requires { IsOther drain (box_in self.old) }
        ensures ok { IfOk result (λ rest. Emptied drain rest.items.items self.old self.new) }
        ensures err { IfErr result (λ back. (self.new ≡ self.old) × (back.1 ≡ drain)) }
    {
        let Some(held) = self.held.take() else {
            unreachable!();
        };
        let HeldOutbox {
            outbox,
            transport,
            is_full,
            since_wake,
            added,
        } = held;
        match settle(rt, alloc, outbox, drain) {
            Ok(rest) => return Ok(rest),
            Err((fault, outbox, drain)) => {
                self.held = Some(HeldOutbox {
                    outbox,
                    transport,
                    is_full,
                    since_wake,
                    added,
                });
                return Err((fault, drain));
            }
        }
    }

    // Whether its outbox is held.
    fn is_held(&self) -> bool
        ensures { result ≡ is_some (box_in self.now) }
    {
        self.held.is_some()
    }
}

// Puts the outbox of the row of the drain's connection and the drain together again.
fn settle_row<S: Shut, R: Wait>(
    rt: &R,
    alloc: Global,
    rows: &mut Vec<Row<S>>,
    drain: Drain<Item, RealmHistory>,
) -> Result<Rest<Item>, (AllocError, Drain<Item, RealmHistory>)>
    requires ascending { Ascending rows.old.items }
    requires pair { IsOther drain (outbox_of rows.old.items drain.conn) }
    ensures rows { IfOk result (λ rest.
        EmptiesOne drain.conn drain rest.items.items rows.old.items rows.new.items) }
    ensures err { IfErr result (λ back. (rows.new.items ≡ rows.old.items) × (back.1 ≡ drain)) }
{
    let Some(place) = find_number(rows.as_slice(), 0, drain.conn()) else {
        unreachable!();
    };
    let row = &mut rows[place];
    row.settle(rt, alloc, drain)
}

// Whether the connection's outbox is held.
pub fn holds<S: Shut>(rows: &[Row<S>], conn: Conn) -> bool
    requires { Ascending rows.now }
    ensures { result ≡ is_some (outbox_of rows.now conn) }
{
    let Some(place) = find(rows, rows.len(), conn) else {
        return false;
    };
    rows[place].is_held()
}

impl<S: Shut, W: IdSource> ActorState<S, W> {
    /// Whether the connection's outbox is held.
    pub fn holds(&self, conn: Conn) -> bool
        requires { Ascending self.now.table.rows.items }
        ensures { result ≡ is_some (outbox_of self.now.table.rows.items conn) }
    {
        holds(self.table.rows.as_slice(), conn)
    }

    /// Puts the outbox of the drain's connection and the drain together again. Where there is no memory for what is left, the drain comes
    /// back, and nothing changed.
    pub fn settle<R: Wait>(
        &mut self,
        rt: &R,
        alloc: Global,
        drain: Drain<Item, RealmHistory>,
    ) -> Result<Rest<Item>, (AllocError, Drain<Item, RealmHistory>)>
        requires ascending { Ascending self.old.table.rows.items }
        requires pair { IsOther drain (outbox_of self.old.table.rows.items drain.conn) }
        ensures rows { IfOk result (λ rest.
            EmptiesOne drain.conn drain rest.items.items self.old.table.rows.items
            self.new.table.rows.items) }
        ensures err { IfErr result (λ back. (self.new.table.rows.items ≡ self.old.table.rows.items)
            × (back.1 ≡ drain)) }
        ensures realm { self.new.table.realm ≡ self.old.table.realm }
        ensures words { self.new.words ≡ self.old.words }
        ensures last_cut { self.new.last_cut ≡ self.old.last_cut }
        ensures keeps { KeepsRest self.old self.new }
    {
        settle_row(rt, alloc, &mut self.table.rows, drain)
    }

    /// Forgets each session that isn't live. Its outbox is handed over to its writer, if it is held.
    pub fn sweep(&mut self)
        requires sound { IsSound self.old.table }
        requires knows { Knows self.old.table }
        ensures rows { self.new.table.rows.items ≡ filter (λ r. live self.old.table.realm r.conn)
            self.old.table.rows.items }
        ensures realm { self.new.table.realm ≡ self.old.table.realm }
        ensures words { self.new.words ≡ self.old.words }
        ensures last_cut { self.new.last_cut ≡ self.old.last_cut }
        ensures keeps { KeepsRest self.old self.new }
    {
        let Table {
            realm,
            chronicle,
            rows,
            has_ended,
            ..
        } = &mut self.table;
        if !*has_ended {
            return;
        }
        *has_ended = false;
        sweep(realm, chronicle, rows);
    }
}

// Hands the row's outbox over to its writer, if it is held, and the session isn't live: the realm's history owes it nothing more
// then. With it goes whether the session was lost.
fn hand_over<S: Shut>(realm: &Realm, chronicle: &mut RealmChronicle, row: &mut Row<S>)
    requires due { RowDue realm.now [] row.old }
    requires joined { has_joined realm.now row.old.conn ≡ true }
    requires accounts { Accounts realm.now row.old }
    requires told { chronicle.old.history ≡ Some realm.now }
    requires home { RowHome chronicle.old.chronicle row.old }
    ensures row { Parted realm.now row.old row.new }
    ensures kept { chronicle.new ≡ chronicle.old }
{
    if realm.is_live(row.conn) {
        return;
    }
    let Some(held) = row.held.take() else {
        return;
    };
    let HeldOutbox {
        outbox,
        transport: _,
        is_full: _,
        since_wake: _,
        added: _,
    } = held;
    let history = RealmHistory::by(chronicle, &RealmMoment::of(realm));
    outbox.hand_over(history, row.was_lost);
}

// The same of each row.
fn hand_over_ended<S: Shut>(realm: &Realm, chronicle: &mut RealmChronicle, rows: &mut [Row<S>])
    requires sound { Sound realm.now rows.old }
    requires told { chronicle.old.history ≡ Some realm.now }
    requires home { EachHome chronicle.old.chronicle rows.old }
    ensures rows { EachParted realm.now rows.old rows.new }
    ensures kept { chronicle.new ≡ chronicle.old }
{
    for row in rows.iter_mut() {
        hand_over(realm, chronicle, row);
    }
}

// The same of a Vec.
fn hand_over_in<S: Shut>(realm: &Realm, chronicle: &mut RealmChronicle, rows: &mut Vec<Row<S>>)
    requires sound { Sound realm.now rows.old.items }
    requires told { chronicle.old.history ≡ Some realm.now }
    requires home { EachHome chronicle.old.chronicle rows.old.items }
    ensures rows { EachParted realm.now rows.old.items rows.new.items }
    ensures kept { chronicle.new ≡ chronicle.old }
{
    let rows = rows.as_mut_slice();
    hand_over_ended(realm, chronicle, rows);
}

// The rows of live sessions stay.
fn sweep<S: Shut>(realm: &Realm, chronicle: &mut RealmChronicle, rows: &mut Vec<Row<S>>)
    requires sound { Sound realm.now rows.old.items }
    requires told { chronicle.old.history ≡ Some realm.now }
    requires home { EachHome chronicle.old.chronicle rows.old.items }
    ensures rows { rows.new.items ≡ filter (λ r. live realm.now r.conn) rows.old.items }
    ensures kept { chronicle.new ≡ chronicle.old }
{
    hand_over_in(realm, chronicle, rows);
    rows.retain(
        |row: &Row<S>| -> bool
            ensures { result ≡ live realm.entry.now row.now.conn }
        { realm.is_live(row.conn) },
    );
}
