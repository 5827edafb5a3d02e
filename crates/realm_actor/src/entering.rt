//! An entry enters: what it gives is added to the outboxes of the rows.
ghost use Rattle.std.specs.Prelude.{◌≡◌, ◌||◌, true, false, not, [], OnOk, OnErr, IfOk, IfErr, IsOk, List, Some, ℕ, ◌<◌, ◌≤◌, vec_len, vec_capacity};
ghost use Rattle.std.specs.List.{insert};
ghost use Rattle.chronicle.specs.Recorded.{Reaches};
ghost use Rattle.realm.specs.History.{◌▷◌, Begins};
ghost use Rattle.realm.specs.Words.{is_silent};
ghost use Rattle.realm.specs.Sessions.{live, may_come, may_join, conn_of};
ghost use Rattle.realm_actor.specs.declared.row.Row.{Row as ARow};
ghost use Rattle.realm_actor.specs.Rows.{Ascending, EachDue, EachGoes, EachHome, NoneRose, RowHome};
ghost use Rattle.realm_actor.specs.Tables.{EachEnds, EachWent, IsNewRow, Ready};
ghost use Rattle.realm_actor.specs.Cuts.{NoneFull};
ghost use Rattle.realm_actor.specs.Invariant.{IsSound, KeepsTable};

use crate::delivery::{either, offer_all};
use crate::row::Row;
use crate::row_search::{find, place_in};
use crate::seat_guesses::SeatGuesses;
use crate::table::Table;
use realm::{Entry, Fault, Realm};
use realm_inbox::{RealmChronicle, RealmHistory, RealmMoment, Shut};
use std::alloc::Global;
use std::sync::Wait;
use wamp_ids::Conn;
use wamp_messages::Item;

/// Records the realm's history, which the one that was recorded before has to begin.
pub fn tell(chronicle: &mut RealmChronicle, realm: &Realm)
    requires { Reaches Begins chronicle.old.history (Some realm.now) }
    ensures { chronicle.new ≡ record chronicle.old { history = Some realm.now } }
{
    let _ = RealmHistory::by(chronicle, &RealmMoment::of(realm));
}

// Closes the outbox of the connection, unless its session is live.
fn close_ended<S: Shut>(rows: &mut [Row<S>], conn: Conn, is_live: bool)
    requires { Ascending rows.old }
    ensures { EachEnds conn is_live rows.old rows.new }
{
    if is_live {
        return;
    }
    let Some(place) = find(rows, rows.len(), conn) else {
        return;
    };
    let row = &mut rows[place];
    row.close();
}

// Adds what an entry gave, and closes the outbox of its connection, unless its session is live. True where an outbox was found
// full.
fn deliver<S: Shut, R: Wait>(
    rt: &R,
    rows: &mut Vec<Row<S>>,
    guesses: &mut SeatGuesses,
    given: &mut Vec<(Conn, Item)>,
    realm: &Realm,
    chronicle: &mut RealmChronicle,
    conn: Conn,
    is_live: bool,
) -> bool
    requires ascending { Ascending rows.old.items }
    requires due { EachDue realm.now given.old.items rows.old.items }
    requires told { chronicle.old.history ≡ Some realm.now }
    requires home { EachHome chronicle.old.chronicle rows.old.items }
    ensures rows { (mid : List (ARow _)) × EachGoes rows.old.items mid × EachDue realm.now [] mid
        × EachEnds conn is_live mid rows.new.items }
    ensures none { result ≡ false → NoneRose rows.old.items rows.new.items }
    ensures home { EachHome chronicle.old.chronicle rows.new.items }
    ensures kept { chronicle.new ≡ chronicle.old }
{
    let rows = rows.as_mut_slice();
    let is_full = offer_all(rt, rows, guesses, given, realm, chronicle);
    close_ended(rows, conn, is_live);
    is_full
}

impl<S: Shut> Table<S> {
    /// The entry enters, and what it gives is added to the outboxes; that of its connection is closed where its session
    /// isn't live any more. True where an outbox was found full.
    pub fn enter<R: Wait>(
        &mut self,
        rt: &R,
        alloc: Global,
        entry: Entry,
        conn: Conn,
    ) -> Result<bool, Fault>
        requires ready { Ready entry self.old.realm self.old.rows.items }
        requires comes { may_come self.old.realm entry ≡ true }
        requires own { conn_of entry ≡ conn }
        ensures history { OnOk result (self.new.realm ≡ self.old.realm ▷ entry) }
        ensures rows { OnOk result (EachWent self.old.rows.items self.new.rows.items) }
        ensures sound { OnOk result (IsSound self.new) }
        ensures none { IfOk result (λ is_full. is_full ≡ false → NoneFull self.old.rows.items
            → NoneFull self.new.rows.items) }
        ensures err { OnErr result (self.new ≡ self.old) }
        ensures keeps { KeepsTable self.old self.new }
        ensures silent { is_silent entry ≡ true → IsOk result }
    {
        let given = self.realm.apply(alloc, entry)?;
        tell(&mut self.chronicle, &self.realm);
        Ok(self.hand_out(rt, given, conn))
    }

    /// The Join enters with the row of its connection, and what it gives is added. True where an outbox was found full. Where
    /// the Join is refused, the row comes back.
    pub fn admit<R: Wait>(
        &mut self,
        rt: &R,
        alloc: Global,
        entry: Entry,
        conn: Conn,
        row: Row<S>,
    ) -> Result<bool, Row<S>>
        requires sound { IsSound self.old }
        requires may { may_join self.old.realm conn ≡ true }
        requires comes { may_come self.old.realm entry ≡ true }
        requires own { conn_of entry ≡ conn }
        requires new { IsNewRow conn row }
        requires home { RowHome self.old.chronicle.chronicle row }
        requires room { vec_len self.old.rows < vec_capacity self.old.rows }
        ensures history { OnOk result (self.new.realm ≡ self.old.realm ▷ entry) }
        ensures rows { OnOk result ((place : ℕ)
            × EachWent (insert self.old.rows.items place row) self.new.rows.items) }
        ensures sound { OnOk result (IsSound self.new) }
        ensures none { IfOk result (λ is_full. is_full ≡ false → NoneFull self.old.rows.items
            → NoneFull self.new.rows.items) }
        ensures err { OnErr result (self.new ≡ self.old) }
        ensures keeps { KeepsTable self.old self.new }
        ensures back { IfErr result (λ r. r ≡ row) }
    {
        let Ok(given) = self.realm.apply(alloc, entry) else {
            return Err(row);
        };
        tell(&mut self.chronicle, &self.realm);
        let place = place_in(self.rows.as_slice(), conn);
        put(&mut self.rows, place, row);
        Ok(self.hand_out(rt, given, conn))
    }

    // Adds what an entry of the connection gave, closes its outbox where its session isn't live any more, and notes both. True
    // where an outbox was found full.
    fn hand_out<R: Wait>(&mut self, rt: &R, mut given: Vec<(Conn, Item)>, conn: Conn) -> bool
        requires ascending { Ascending self.old.rows.items }
        requires due { EachDue self.old.realm given.items self.old.rows.items }
        ensures rows { (mid : List (ARow _)) × EachGoes self.old.rows.items mid
            × EachDue self.old.realm [] mid
            × EachEnds conn (live self.old.realm conn) mid self.new.rows.items }
        ensures none { result ≡ false → NoneRose self.old.rows.items self.new.rows.items }
        ensures realm { self.new.realm ≡ self.old.realm }
        ensures chronicle { self.new.chronicle.chronicle ≡ self.old.chronicle.chronicle }
        ensures marks { self.new.has_marks ≡ self.old.has_marks || result }
        ensures ended { self.new.has_ended ≡ self.old.has_ended
            || not (live self.old.realm conn) }
    {
        let is_live = self.realm.is_live(conn);
        let is_full = deliver(
            rt,
            &mut self.rows,
            &mut self.guesses,
            &mut given,
            &self.realm,
            &mut self.chronicle,
            conn,
            is_live,
        );
        self.realm.give_back(given);
        self.has_marks = either(self.has_marks, is_full);
        self.has_ended = either(self.has_ended, !is_live);
        is_full
    }
}

// Puts the row at the place, for which there is room.
fn put<S: Shut>(rows: &mut Vec<Row<S>>, place: usize, row: Row<S>)
    requires place { place ≤ vec_len rows.old }
    requires room { vec_len rows.old < vec_capacity rows.old }
    ensures { rows.new.items ≡ insert rows.old.items place row }
{
    match rows.insert(place, row) {
        Ok(()) => {}
        Err(_) => unreachable!(),
    }
}
