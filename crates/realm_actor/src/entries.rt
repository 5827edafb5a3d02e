//! What a connection does enters the history.
ghost use Rattle.std.specs.Prelude.{◌≡◌, ◌+◌, ◌<◌, ◌≤◌, OnOk, true, false, length, vec_capacity, vec_len};
ghost use Rattle.realm.specs.Sessions.{may_join};
ghost use Rattle.realm_inbox.specs.declared.act.Act.TheVariants.{Join as AJoin};
ghost use Rattle.realm_inbox.specs.Joins.{is_join};
ghost use Rattle.realm_actor.specs.declared.outcome.Outcome.TheVariants.{Dropped};
ghost use Rattle.realm_actor.specs.OutboxHistory.{IsHome};
ghost use Rattle.realm_actor.specs.Invariant.{IsRoomy, IsSound, KeepsRest};
ghost use Rattle.realm_actor.specs.ActorView.{working};
ghost use Rattle.realm_actor.specs.Cuts.{NoneFull};
ghost use Rattle.realm_actor.specs.Handle.{Acts, EntersAs, is_dropped};

use crate::id_source::IdSource;
use crate::outcome::Outcome;
use crate::row::Row;
use crate::state::ActorState;
use realm::{Entry, says_with_word};
use realm_inbox::{Act, Joining, Shut};
use std::alloc::{AllocError, Global};
use std::sync::Wait;
use wamp_ids::Conn;

// The entry of an act that is no Join. Where the act draws a word, it is the next one of the words.
fn entry_of<S: Shut, W: IdSource>(words: &mut W, conn: Conn, act: Act<S>) -> Entry
    requires { is_join act ≡ false }
    ensures { EntersAs conn act result (W.given words.old) (W.given words.new) }
{
    match act {
        Act::Join(_) => unreachable!(),
        Act::Said(said) => {
            if says_with_word(&said) {
                let word = words.next_word();
                Entry::Said { conn, word, said }
            } else {
                Entry::Said {
                    conn,
                    word: 0,
                    said,
                }
            }
        }
        Act::Ping(payload) => Entry::Ping { conn, payload },
        Act::Spoilt => {
            let word = words.next_word();
            Entry::Spoilt { conn, word }
        }
        Act::Gone => {
            let word = words.next_word();
            Entry::Gone { conn, word }
        }
    }
}

impl<S: Shut, W: IdSource> ActorState<S, W> {
    // What a connection does but join enters, if its session is live.
    pub(crate) fn enter<R: Wait>(
        &mut self,
        rt: &R,
        alloc: Global,
        conn: Conn,
        act: Act<S>,
    ) -> Outcome
        requires other { is_join act ≡ false }
        requires sound { IsSound self.old.table }
        requires none { NoneFull self.old.table.rows.items }
        ensures outcome { Acts result conn act (working (W.given self.old.words) self.old)
            (working (W.given self.new.words) self.new) }
        ensures same { result ≡ Dropped → self.new ≡ self.old }
        ensures exact { is_dropped self.old.table.realm conn act ≡ true → result ≡ Dropped }
        ensures last_cut { self.new.last_cut ≡ self.old.last_cut }
        ensures room { IsRoomy self.old → IsRoomy self.new }
        ensures sound { IsSound self.new.table }
        ensures keeps { KeepsRest self.old self.new }
    {
        if !self.table.realm.is_live(conn) {
            return Outcome::Dropped;
        }
        let entry = entry_of(&mut self.words, conn, act);
        self.take_in(rt, alloc, entry, conn)
    }

    // A connection joins, if it may.
    pub(crate) fn join<R: Wait>(
        &mut self,
        rt: &R,
        alloc: Global,
        conn: Conn,
        joining: Joining<S>,
    ) -> Outcome
        requires sound { IsSound self.old.table }
        requires none { NoneFull self.old.table.rows.items }
        requires own { joining.outbox.conn ≡ conn }
        requires home { IsHome self.old.table.chronicle.chronicle joining.outbox }
        ensures outcome { Acts result conn (AJoin joining)
            (working (W.given self.old.words) self.old)
            (working (W.given self.new.words) self.new) }
        ensures same { result ≡ Dropped → self.new ≡ self.old }
        ensures exact { may_join self.old.table.realm conn ≡ false → result ≡ Dropped }
        ensures last_cut { self.new.last_cut.items ≡ self.old.last_cut.items }
        ensures room { IsRoomy self.old → IsRoomy self.new }
        ensures sound { IsSound self.new.table }
        ensures keeps { KeepsRest self.old self.new }
    {
        let Joining {
            authid,
            outbox,
            transport,
        } = joining;
        if !self.table.realm.may_join(conn) {
            transport.shut();
            return Outcome::Dropped;
        }
        if self.make_room().is_err() {
            transport.shut();
            return Outcome::NoMemory;
        }
        let word = self.words.next_word();
        outbox.shows();
        let row = Row::new(conn, outbox, transport);
        let entry = Entry::Join { conn, word, authid };
        match self.table.admit(rt, alloc, entry, conn, row) {
            Ok(is_full) => {
                self.table.cut_found(rt, alloc, &mut self.words, is_full);
                Outcome::Applied
            }
            Err(row) => {
                row.shut();
                Outcome::NoMemory
            }
        }
    }

    // Makes room for one more row, and to name its connection.
    fn make_room(&mut self) -> Result<(), AllocError>
        ensures realm { self.new.table.realm ≡ self.old.table.realm }
        ensures rows { self.new.table.rows.items ≡ self.old.table.rows.items }
        ensures words { self.new.words ≡ self.old.words }
        ensures keeps { KeepsRest self.old self.new }
        ensures last_cut { self.new.last_cut.items ≡ self.old.last_cut.items }
        ensures row { OnOk result (vec_len self.new.table.rows < vec_capacity self.new.table.rows) }
        ensures room { OnOk result (length self.new.table.rows.items + 1 ≤ vec_capacity
            self.new.last_cut) }
        ensures capacity { vec_capacity self.old.last_cut ≤ vec_capacity self.new.last_cut }
    {
        self.table.rows.reserve(1)?;
        let rows = self.table.rows.len();
        match rows.checked_add(1) {
            Some(room) => self.last_cut.reserve(room),
            None => Err(AllocError),
        }
    }
}
