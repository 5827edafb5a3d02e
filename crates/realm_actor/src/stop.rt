//! A stop closes each live session.
ghost use Rattle.std.specs.Prelude.{◌≡◌, ◌&&◌, ◌<◌, List, ℕ, length};
ghost use Rattle.realm_actor.specs.ActorView.{working};
ghost use Rattle.realm_actor.specs.Words.{◌⊕◌};
ghost use Rattle.realm_actor.specs.Tables.{standing};
ghost use Rattle.realm_actor.specs.Cuts.{NoneFull};
ghost use Rattle.realm_actor.specs.Stop.{Closes, ClosesOne, Stops, is_nil};
ghost use Rattle.realm_actor.specs.Invariant.{IsRoomy, IsSound, KeepsRest, KeepsTable, Knows, Stands};

use crate::id_source::IdSource;
use crate::outcome::Outcome;
use crate::state::ActorState;
use crate::table::Table;
use realm::Entry;
use realm_inbox::Shut;
use std::alloc::Global;
use std::sync::Wait;

impl<S: Shut> Table<S> {
    // Closes the session of the row at the place, if it is live; for want of memory it is cut. False where it was cut.
    fn close_at<W: IdSource, R: Wait>(
        &mut self,
        rt: &R,
        alloc: Global,
        words: &mut W,
        place: usize,
    ) -> bool
        requires sound { IsSound self.old }
        requires none { NoneFull self.old.rows.items }
        requires inside { place < length self.old.rows.items }
        ensures closes { (drawn : List ℕ) × (lost : List ℕ)
            × ClosesOne place (standing self.old) drawn lost (standing self.new)
            × (W.given words.new ≡ W.given words.old ⊕ drawn)
            × (result ≡ is_nil lost) }
        ensures sound { IsSound self.new }
        ensures none { NoneFull self.new.rows.items }
        ensures keeps { KeepsTable self.old self.new }
    {
        let conn = self.rows[place].conn;
        if !self.realm.is_live(conn) {
            return true;
        }
        let word = words.next_word();
        match self.accept(rt, alloc, words, Entry::Closed { conn, word }, conn) {
            Ok(()) => true,
            Err(_) => {
                self.lose(rt, alloc, words, conn);
                false
            }
        }
    }

    // Closes each live session, ascending. False where one was cut for want of memory.
    fn close_all<W: IdSource, R: Wait>(&mut self, rt: &R, alloc: Global, words: &mut W) -> bool
        requires sound { IsSound self.old }
        requires none { NoneFull self.old.rows.items }
        ensures closes { (drawn : List ℕ) × (lost : List ℕ)
            × Closes (standing self.old) (length self.old.rows.items) drawn lost
            (standing self.new) × (W.given words.new ≡ W.given words.old ⊕ drawn)
            × (result ≡ is_nil lost) }
        ensures sound { IsSound self.new }
        ensures none { NoneFull self.new.rows.items }
        ensures keeps { KeepsTable self.old self.new }
    {
        let mut all_closed = true;
        for place in 0..self.rows.len() {
            let is_closed = self.close_at(rt, alloc, words, place);
            all_closed = both(all_closed, is_closed);
        }
        all_closed
    }
}

fn both(first: bool, second: bool) -> bool
    ensures { result ≡ first && second }
{
    first && second
}

impl<S: Shut, W: IdSource> ActorState<S, W> {
    /// Closes each live session, and names whom that found full, or cut for want of memory.
    pub(crate) fn stop<R: Wait>(&mut self, rt: &R, alloc: Global) -> Outcome
        requires stands { Stands self.old.table.realm self.old.table.rows.items }
        requires knows { Knows self.old.table }
        requires room { IsRoomy self.old }
        ensures stops { Stops result (working (W.given self.old.words) self.old)
            (working (W.given self.new.words) self.new) self.new.last_cut.items }
        ensures stands { Stands self.new.table.realm self.new.table.rows.items }
        ensures room { IsRoomy self.new }
        ensures keeps { KeepsRest self.old self.new }
    {
        self.last_cut.clear();
        let ActorState {
            table,
            words,
            last_cut,
            ..
        } = self;
        let all_closed = table.close_all(rt, alloc, words);
        table.name(last_cut);
        if all_closed {
            Outcome::Applied
        } else {
            Outcome::NoMemory
        }
    }
}
