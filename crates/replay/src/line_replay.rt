//! A replay as it stands between two lines: the realm, and which numbers were named so far.
ghost use Rattle.std.specs.Prelude.{◌≡◌, ◌++◌, ℕ, true, cond, IfOk, OnOk};
ghost use Rattle.realm.specs.History.{◌▷◌};
ghost use Rattle.realm.specs.Sessions.{conn_of, live, may_come, may_join};
ghost use Rattle.realm.specs.Words.{draws_word};
ghost use Rattle.realm.specs.Grants.{pairs_of};
ghost use Rattle.replay.specs.Lines.{is_number};
ghost use Rattle.replay.specs.Transcript.{PrintsEntry, PrintsMore, after, history_with, is_named, later, opening, refused, starting};
ghost use Rattle.replay.specs.LineReplays.{PrintsOpening};

use crate::fault::Fault;
use crate::print::{print_all, print_end, print_item};
use crate::speech::Speech;
use broker_config::copy_grants;
use message_tree::Text;
use realm::{Entry, RealmConfig};
use realm_core::World;
use session::{First, Item, Said, abort_reason, first};
use std::alloc::{AllocError, Global};
use std::marker::Model;
use std::slice;
use wamp_ids::{Conn, Topic};

/// A replay of one realm: its history, and the numbers that were named so far.
#[derive(Drop)]
pub struct LineReplay {
    world: World,
    name: Topic,
    named: Vec<Conn>,
    words: u64,
}

impl Model for LineReplay {
    ghost use Rattle.std.specs.Prelude.{◌≡◌, true};
    ghost use Rattle.replay.specs.Lines.{is_number};
    ghost use Rattle.replay.specs.Transcript.{Replay, next_word};
    ghost use Rattle.replay.specs.Codes.{replay_code};

    ghost Value = { Replay };

    ghost coded = { replay_code };

    ghost use Rattle.replay.specs.LineReplays.{IsLineReplay};

    ghost view = { λ s. record {
      realm = s.name;
      named = s.named.items;
      history = s.world.history;
    } };

    ghost invariant = { λ s.
        IsLineReplay (record { realm = s.name; named = s.named.items; history = s.world.history })
        s.words };
}

/// How many words an entry draws.
fn draws(entry: &Entry) -> u64
    ensures { result ≡ cond (draws_word entry.now) 1 0 }
{
    if entry.draws_word() { 1 } else { 0 }
}

impl LineReplay {
    /// A replay of the realm of this name, with these grants, before its first line.
    pub fn new(
        alloc: Global,
        name: &Topic,
        grants: &[(String, String)],
    ) -> Result<LineReplay, AllocError>
        ensures { IfOk result (λ script. script ≡ starting (pairs_of grants.now) name.now) }
    {
        let config = RealmConfig {
            name: name.try_copy(alloc)?,
            grants: copy_grants(alloc, grants)?,
        };
        let Ok(world) = World::new(alloc, config, 1, 1) else {
            return Err(AllocError);
        };
        Ok(LineReplay {
            world,
            name: name.try_copy(alloc)?,
            named: Vec::new(alloc),
            words: 0,
        })
    }

    /// Whether a line named the number.
    fn is_named(&self, number: Conn) -> bool
        ensures { result ≡ is_named self.now number }
    {
        for named in &self.named {
            if *named == number {
                return true;
            }
        }
        false
    }

    /// Adds the entry to the history, and prints what it gives. `AllocError` also where an earlier
    /// refusal left items that nobody took.
    fn apply(
        &mut self,
        alloc: Global,
        number: Conn,
        entry: Entry,
        out: &mut Vec<u8>,
    ) -> Result<(), AllocError>
        requires conn { conn_of entry ≡ number }
        requires may_come { may_come self.old.history entry ≡ true }
        requires number { is_number number ≡ true }
        requires named { is_named self.old number ≡ true }
        ensures next { OnOk result (self.new ≡ record self.old
            { history = self.old.history ▷ entry }) }
        ensures printed { OnOk result (PrintsEntry self.old.history entry number out.old.items
            out.new.items) }
    {
        if !self.world.is_at_rest() {
            return Err(AllocError);
        }
        let drawn = draws(&entry);
        let Ok(()) = self.world.enter(alloc, entry) else {
            return Err(AllocError);
        };
        self.words = self.words.wrapping_add(drawn);
        let Ok(given) = self.world.take_all(alloc) else {
            return Err(AllocError);
        };
        print_all(alloc, out, &given)?;
        if !self.world.is_live(number) {
            print_end(out, number)?;
        }
        Ok(())
    }

    /// What a line of a live session is.
    fn later(&self, number: Conn, speech: Speech) -> Entry
        ensures entry { result ≡ later self.now.history number speech }
        ensures conn { conn_of result ≡ number }
        ensures no_join { may_come self.now.history result ≡ live self.now.history number }
    {
        match speech {
            Speech::Gone => Entry::Gone {
                conn: number,
                word: self.words,
            },
            Speech::Said(said) => Entry::Said {
                conn: number,
                word: self.words,
                said,
            },
            Speech::Noise => Entry::Spoilt {
                conn: number,
                word: self.words,
            },
        }
    }

    /// Refuses the first line of a number: it gets an ABORT, and has ended.
    fn refuse(
        alloc: Global,
        number: Conn,
        fault: session::Fault,
        out: &mut Vec<u8>,
    ) -> Result<(), AllocError>
        ensures printed { OnOk result (out.new.items ≡ out.old.items ++ refused number fault) }
    {
        if let Some(reason) = abort_reason(fault) {
            print_item(alloc, out, number, &Item::Abort(reason))?;
        }
        print_end(out, number)
    }

    /// The first line of a number: it opens a session, or is refused.
    fn open(
        &mut self,
        alloc: Global,
        number: Conn,
        speech: Speech,
        out: &mut Vec<u8>,
    ) -> Result<(), AllocError>
        requires number { is_number number ≡ true }
        requires named { is_named self.old number ≡ true }
        requires may_join { may_join self.old.history number ≡ true }
        ensures next { OnOk result (self.new ≡ record self.old
            { history = history_with self.old.history (opening self.old number speech) }) }
        ensures printed { OnOk result (PrintsOpening self.old number speech out.old.items
            out.new.items) }
    {
        match speech {
            Speech::Gone => print_end(out, number),
            Speech::Noise => LineReplay::refuse(alloc, number, session::Fault::Shape, out),
            Speech::Said(said) => self.open_session(alloc, number, said, out),
        }
    }

    /// The first message of a number.
    fn open_session(
        &mut self,
        alloc: Global,
        number: Conn,
        said: Said,
        out: &mut Vec<u8>,
    ) -> Result<(), AllocError>
        requires number { is_number number ≡ true }
        requires named { is_named self.old number ≡ true }
        requires may_join { may_join self.old.history number ≡ true }
        ensures next { OnOk result (self.new ≡ record self.old {
          history = history_with self.old.history (opening self.old number (Speech.Said said));
        }) }
        ensures printed { OnOk result (PrintsOpening self.old number (Speech.Said said)
            out.old.items out.new.items) }
    {
        match first(said, slice::from_ref(&self.name)) {
            Ok(First { authid, .. }) => {
                let entry = Entry::Join {
                    conn: number,
                    word: self.words,
                    authid: authid.map(Text::from_string),
                };
                self.apply(alloc, number, entry, out)
            }
            Err(fault) => LineReplay::refuse(alloc, number, fault, out),
        }
    }

    /// One line, whose number is one: what it gives is added to the output.
    ///
    /// # Errors
    /// [`AllocError`] where a growth was refused; nothing is said of the replay then.
    pub fn apply_line(
        &mut self,
        alloc: Global,
        number: Conn,
        speech: Speech,
        out: &mut Vec<u8>,
    ) -> Result<(), AllocError>
        requires { is_number number ≡ true }
        ensures next { OnOk result (self.new ≡ after self.old number speech) }
        ensures printed { OnOk result (PrintsMore self.old number speech out.old.items
            out.new.items) }
    {
        if !self.is_named(number) {
            self.named.push(number)?;
            return self.open(alloc, number, speech, out);
        }
        if self.world.is_live(number) {
            let entry = self.later(number, speech);
            return self.apply(alloc, number, entry, out);
        }
        Ok(())
    }
}
