//! Sessions that were found full are cut.
ghost use Rattle.std.specs.Prelude.{◌≡◌, true, false, List, ℕ, None, MatchOption, OnOk, OnErr};
ghost use Rattle.realm.specs.History.{◌▷◌};
ghost use Rattle.realm.specs.Sessions.{conn_of, live, may_come};
ghost use Rattle.realm_actor.specs.Rows.{Ascending, box_in};
ghost use Rattle.realm_actor.specs.ActorView.{working_on};
ghost use Rattle.realm_actor.specs.Words.{◌⊕◌};
ghost use Rattle.realm_actor.specs.Handle.{CutsInstead, TakesEntry};
ghost use Rattle.realm_actor.specs.Tables.{standing, EachMarked, EachWent, Ready};
ghost use Rattle.realm_actor.specs.Cuts.{Cuts, IsCutOf, IsFull, IsLeastFull, NoneFull};
ghost use Rattle.realm_actor.specs.Invariant.{IsSound, KeepsTable};
ghost use Rattle.realm.specs.declared.entry.Entry.{Entry as AnEntry};
ghost use Rattle.realm.specs.declared.entry.Entry.TheVariants.{Cut};

use crate::id_source::IdSource;
use crate::row::Row;
use crate::row_search::find;
use crate::table::Table;
use realm::{Entry, Fault};
use realm_inbox::Shut;
use std::alloc::Global;
use std::sync::Wait;
use wamp_ids::Conn;

// Whether the row's outbox was found full and is open.
fn is_full<S: Shut>(row: &Row<S>) -> bool
    ensures yes { result ≡ true → IsFull (box_in row.now) }
    ensures no { result ≡ false → IsFull (box_in row.now) → ⊥ }
{
    match &row.held {
        None => false,
        Some(held) => held.is_full && !held.outbox.is_closed(),
    }
}

// The least session that was found full and is live.
fn least_full<S: Shut>(rows: &[Row<S>]) -> Option<Conn>
    ensures { MatchOption result (NoneFull rows.now) (λ c. IsLeastFull rows.now c) }
{
    for row in rows {
        if is_full(row) {
            return Some(row.conn);
        }
    }
    None
}

// Shuts the transport of the connection's row, if it is held.
fn shut_transport<S: Shut>(rows: &[Row<S>], conn: Conn)
    requires { Ascending rows.now }
{
    if let Some(place) = find(rows, rows.len(), conn) {
        rows[place].shut();
    }
}

// Marks the connection's row as lost.
fn mark_row<S: Shut>(rows: &mut [Row<S>], conn: Conn)
    requires { Ascending rows.old }
    ensures { EachMarked conn rows.old rows.new }
{
    let Some(place) = find(rows, rows.len(), conn) else {
        return;
    };
    let row = &mut rows[place];
    row.tell_lost();
    row.is_lost = true;
    row.was_lost = true;
}

// The same of a Vec.
fn mark_in<S: Shut>(rows: &mut Vec<Row<S>>, conn: Conn)
    requires { Ascending rows.old.items }
    ensures { EachMarked conn rows.old.items rows.new.items }
{
    let rows = rows.as_mut_slice();
    mark_row(rows, conn);
}

impl<S: Shut> Table<S> {
    // Marks the connection's row as lost.
    fn mark_lost(&mut self, conn: Conn)
        requires { Ascending self.old.rows.items }
        ensures realm { self.new.realm ≡ self.old.realm }
        ensures rows { EachMarked conn self.old.rows.items self.new.rows.items }
        ensures keeps { KeepsTable self.old self.new }
    {
        self.has_marks = true;
        mark_in(&mut self.rows, conn);
    }

    // A Cut of the session, which has a cause, enters, and its items are added. It is silent only where memory is refused.
    fn cut<R: Wait>(&mut self, rt: &R, alloc: Global, conn: Conn, word: u64)
        requires ready { Ready (Cut conn None) self.old.realm self.old.rows.items }
        requires live { live self.old.realm conn ≡ true }
        ensures history { (e : AnEntry) × IsCutOf conn word e
            × (self.new.realm ≡ self.old.realm ▷ e) }
        ensures rows { EachWent self.old.rows.items self.new.rows.items }
        ensures sound { IsSound self.new }
        ensures keeps { KeepsTable self.old self.new }
    {
        let told = Entry::Cut {
            conn,
            word: Some(word),
        };
        if self.enter(rt, alloc, told, conn).is_err() {
            self.cut_silently(rt, alloc, conn);
        }
    }

    // A Cut without a word, which takes no memory.
    fn cut_silently<R: Wait>(&mut self, rt: &R, alloc: Global, conn: Conn)
        requires ready { Ready (Cut conn None) self.old.realm self.old.rows.items }
        requires live { live self.old.realm conn ≡ true }
        ensures history { self.new.realm ≡ self.old.realm ▷ Cut conn None }
        ensures rows { EachWent self.old.rows.items self.new.rows.items }
        ensures sound { IsSound self.new }
        ensures keeps { KeepsTable self.old self.new }
    {
        let silent = Entry::Cut { conn, word: None };
        match self.enter(rt, alloc, silent, conn) {
            Ok(_) => {}
            Err(_) => unreachable!(),
        }
    }

    /// Cuts each live session that was found full, the least first, until there is none: also those that are found full by
    /// what the Cuts give.
    pub fn cut_full<W: IdSource, R: Wait>(&mut self, rt: &R, alloc: Global, words: &mut W)
        requires { IsSound self.old }
        ensures cuts { (drawn : List ℕ) × Cuts (standing self.old) drawn (standing self.new)
            × (W.given words.new ≡ W.given words.old ⊕ drawn) }
        ensures none { NoneFull self.new.rows.items }
        ensures sound { IsSound self.new }
        ensures keeps { KeepsTable self.old self.new }
    {
        for _ in rt.forever() {
            let Some(conn) = least_full(self.rows.as_slice()) else {
                return;
            };
            let word = words.next_word();
            self.cut(rt, alloc, conn, word);
            shut_transport(self.rows.as_slice(), conn);
        }
        unreachable!()
    }

    /// The same, where it is known whether there may be one.
    pub fn cut_found<W: IdSource, R: Wait>(
        &mut self,
        rt: &R,
        alloc: Global,
        words: &mut W,
        is_full: bool,
    )
        requires sound { IsSound self.old }
        requires none { is_full ≡ false → NoneFull self.old.rows.items }
        ensures cuts { (drawn : List ℕ) × Cuts (standing self.old) drawn (standing self.new)
            × (W.given words.new ≡ W.given words.old ⊕ drawn) }
        ensures none { NoneFull self.new.rows.items }
        ensures sound { IsSound self.new }
        ensures keeps { KeepsTable self.old self.new }
    {
        if is_full {
            self.cut_full(rt, alloc, words);
        }
    }

    /// The entry enters, what it gives is added, and then who was found full is cut.
    pub fn accept<W: IdSource, R: Wait>(
        &mut self,
        rt: &R,
        alloc: Global,
        words: &mut W,
        entry: Entry,
        conn: Conn,
    ) -> Result<(), Fault>
        requires ready { Ready entry self.old.realm self.old.rows.items }
        requires none { NoneFull self.old.rows.items }
        requires comes { may_come self.old.realm entry ≡ true }
        requires own { conn_of entry ≡ conn }
        ensures ok { OnOk result (TakesEntry entry (working_on (W.given words.old) self.old)
            (working_on (W.given words.new) self.new)) }
        ensures sound { OnOk result (IsSound self.new) }
        ensures keeps { KeepsTable self.old self.new }
        ensures err { OnErr result (self.new ≡ self.old) }
        ensures words { OnErr result (words.new ≡ words.old) }
    {
        let is_full = self.enter(rt, alloc, entry, conn)?;
        self.cut_found(rt, alloc, words, is_full);
        Ok(())
    }

    /// The session is cut for want of memory, and then who was found full.
    pub fn lose<W: IdSource, R: Wait>(&mut self, rt: &R, alloc: Global, words: &mut W, conn: Conn)
        requires sound { IsSound self.old }
        requires live { live self.old.realm conn ≡ true }
        ensures lost { CutsInstead conn (working_on (W.given words.old) self.old)
            (working_on (W.given words.new) self.new) }
        ensures sound { IsSound self.new }
        ensures keeps { KeepsTable self.old self.new }
    {
        self.mark_lost(conn);
        let word = words.next_word();
        self.cut(rt, alloc, conn, word);
        shut_transport(self.rows.as_slice(), conn);
        self.cut_full(rt, alloc, words);
    }
}
