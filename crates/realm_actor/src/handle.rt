//! A post is handled.
ghost use Rattle.std.specs.Prelude.{◌≡◌, Some, true};
ghost use Rattle.realm_actor.specs.declared.outcome.Outcome.TheVariants.{Dropped};
ghost use Rattle.realm_actor.specs.Cuts.{NoneFull};
ghost use Rattle.realm_actor.specs.Handle.{is_dropped, Acts, Does};
ghost use Rattle.realm_actor.specs.ActorView.{acting, working};
ghost use Rattle.realm_actor.specs.Run.{Handles};
ghost use Rattle.realm_actor.specs.Invariant.{IsRoomy, IsSound, KeepsRest, KeepsTable, Knows, Stands};
ghost use Rattle.realm_inbox.specs.Seats.{conn_of_letter, act_of_letter, BringsHome, IsHomed};

use crate::id_source::IdSource;
use crate::last_cut::name_all;
use crate::outcome::Outcome;
use crate::state::ActorState;
use crate::table::Table;
use realm_inbox::{Act, Letter, Post, Shut};
use std::alloc::Global;
use std::snapshot::Snapshot;
use std::sync::Wait;
use wamp_ids::Conn;

impl<S: Shut, W: IdSource> ActorState<S, W> {
    // An act of a connection enters the history, or it is dropped, or for want of memory the session is cut.
    fn act<R: Wait>(&mut self, rt: &R, alloc: Global, letter: Letter<S>) -> Outcome
        requires sound { IsSound self.old.table }
        requires none { NoneFull self.old.table.rows.items }
        requires home { BringsHome (Some self.old.table.chronicle.chronicle)
            (act_of_letter letter) }
        ensures outcome { Acts result (conn_of_letter letter) (act_of_letter letter)
            (working (W.given self.old.words) self.old)
            (working (W.given self.new.words) self.new) }
        ensures same { result ≡ Dropped → self.new ≡ self.old }
        ensures exact { is_dropped self.old.table.realm (conn_of_letter letter)
            (act_of_letter letter) ≡ true → result ≡ Dropped }
        ensures sound { IsSound self.new.table }
        ensures last_cut { self.new.last_cut.items ≡ self.old.last_cut.items }
        ensures room { IsRoomy self.old → IsRoomy self.new }
        ensures keeps { KeepsRest self.old self.new }
    {
        let (conn, act, weight) = letter.into_parts();
        match act {
            Act::Join(joining) => self.join(rt, alloc, conn, joining),
            other => {
                let outcome = self.enter(rt, alloc, conn, other);
                self.table.hand_back(&weight);
                outcome
            }
        }
    }

    // Handles an act of a connection, and names whom it found full, or cut for want of memory.
    fn handle_act<R: Wait>(&mut self, rt: &R, alloc: Global, letter: Letter<S>) -> Outcome
        requires home { BringsHome (Some self.old.table.chronicle.chronicle)
            (act_of_letter letter) }
        requires stands { Stands self.old.table.realm self.old.table.rows.items }
        requires knows { Knows self.old.table }
        requires room { IsRoomy self.old }
        ensures does { Does result letter (working (W.given self.old.words) self.old)
            (working (W.given self.new.words) self.new) self.new.last_cut.items }
        ensures exact { is_dropped self.old.table.realm (conn_of_letter letter)
            (act_of_letter letter) ≡ true → result ≡ Dropped }
        ensures stands { Stands self.new.table.realm self.new.table.rows.items }
        ensures room { IsRoomy self.new }
        ensures keeps { KeepsRest self.old self.new }
    {
        self.last_cut.clear();
        let outcome = self.act(rt, alloc, letter);
        let ActorState {
            table,
            last_cut,
            ..
        } = self;
        table.name(last_cut);
        outcome
    }

    /// Handles a post, and names whom it found full, or cut for want of memory.
    pub fn handle<R: Wait>(&mut self, rt: &R, alloc: Global, post: Post<S>) -> Outcome
        requires home { IsHomed (Some self.old.table.chronicle.chronicle) post }
        requires stands { Stands self.old.table.realm self.old.table.rows.items }
        requires knows { Knows self.old.table }
        requires room { IsRoomy self.old }
        ensures handles { Handles result post (acting (W.given self.old.words) self.old)
            (acting (W.given self.new.words) self.new) }
        ensures stands { Stands self.new.table.realm self.new.table.rows.items }
        ensures room { IsRoomy self.new }
        ensures keeps { KeepsTable self.old.table self.new.table }
    {
        match post {
            Post::Act(letter) => {
                self.handled.add(Snapshot::of(&letter));
                self.handle_act(rt, alloc, letter)
            }
            Post::Stop(_) => self.stop(rt, alloc),
        }
    }
}
