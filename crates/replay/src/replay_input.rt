//! A replay as it stands between two pieces of its input: the line that isn't ended yet, and what is to be written.
ghost use Rattle.std.specs.Prelude.{◌≡◌, ◌≢◌, ◌++◌, ◌+◌, ◌<◌, ◌≤◌, ◌^◌, ℕ, [], ◌∷◌, drop, length, take, false, true, IfErr, IfNone, IfOk, IfSome, OnOk};
ghost use Rattle.rawsocket.specs.Devices.{Takes, TakesBeginning, WriteFails};
ghost use Rattle.rawsocket.specs.Steps.{Steps, told_by, write_meter};
ghost use Rattle.realm.specs.Grants.{pairs_of};
ghost use Rattle.replay.specs.Lines.{has_line_feed};
ghost use Rattle.replay.specs.Progress.{Completes, Goes, IsRefused, Stops, TellsMore};
ghost use Rattle.replay.specs.Outcome.{HasCause, write_told};
ghost use Rattle.replay.specs.Transcript.{starting};

use crate::fault::Fault;
use crate::line::{LONGEST, read_line};
use crate::line_replay::LineReplay;
use crate::speech::read_speech;
use rawsocket::devices::{Sink, Turns};
use std::alloc::{AllocError, Global};
use std::marker::Model;
use wamp_ids::Topic;

/// A replay in the midst of its input.
#[derive(Drop)]
pub struct ReplayInput {
    script: LineReplay,
    rest: Vec<u8>,
    count: u64,
    out: Vec<u8>,
}

impl Model for ReplayInput {
    ghost use Rattle.replay.specs.Progress.{ReplayInput as State};
    ghost use Rattle.replay.specs.Codes.{told_code};

    ghost Value = { State };

    ghost coded = { told_code };

    ghost view = { λ t. record {
      replay = t.script;
      rest = t.rest.items;
      count = t.count;
      out = t.out.items;
    } };
}

impl ReplayInput {
    /// Before the first octet.
    pub fn new(
        alloc: Global,
        realm: &Topic,
        grants: &[(String, String)],
    ) -> Result<ReplayInput, Fault>
        ensures { IfOk result (λ told.
            told ≡ record {
              replay = starting (pairs_of grants.now) realm.now;
              rest = [];
              count = 0;
              out = [];
            }) }
    {
        let script = LineReplay::new(alloc, realm, grants)?;
        Ok(ReplayInput {
            script,
            rest: Vec::new(alloc),
            count: 0,
            out: Vec::new(alloc),
        })
    }

    /// Tells the line that stands in `rest`.
    fn end_line(&mut self, alloc: Global) -> Result<(), Fault>
        requires { self.old.count + 1 < 2 ^ 64 }
        ensures told { OnOk result (TellsMore self.old.replay self.old.rest self.new.replay
            self.old.out self.new.out) }
        ensures rest { OnOk result (self.new.rest ≡ []) }
        ensures count { OnOk result (self.new.count ≡ self.old.count + 1) }
        ensures bad { (k : ℕ) → result ≡ Err (Fault.BadLine k) → IsRefused self.old k self.new }
        ensures cause { IfErr result (HasCause ⊥ ⊥ ⊥) }
    {
        let Some(line) = read_line(&self.rest) else {
            return Err(Fault::BadLine(self.count + 1));
        };
        let number = line.number;
        let speech = read_speech(alloc, line.text)?;
        self.script
            .apply_line(alloc, number, speech, &mut self.out)?;
        self.rest.clear();
        self.count += 1;
        Ok(())
    }

    /// Takes octets without LF.
    fn keep_octets(&mut self, octets: &[u8]) -> Result<(), AllocError>
        ensures held { OnOk result (self.new ≡ record self.old
            { rest = self.old.rest ++ octets.now }) }
    {
        self.rest.extend_from_slice(octets)
    }

    /// Takes the octets up to the next LF, and tells the line.
    fn take_line(&mut self, alloc: Global, octets: &[u8]) -> Result<(), Fault>
        requires count { self.old.count + 1 < 2 ^ 64 }
        requires clean { has_line_feed octets.now ≡ false }
        ensures told { OnOk result (Goes self.old (octets.now ++ 10 ∷ []) self.new) }
        ensures count { OnOk result (self.new.count ≡ self.old.count + 1) }
        ensures bad { (k : ℕ) → result ≡ Err (Fault.BadLine k)
            → Stops self.old (octets.now ++ 10 ∷ []) false k self.new }
        ensures cause { IfErr result (HasCause ⊥ ⊥ ⊥) }
    {
        self.keep_octets(octets)?;
        self.end_line(alloc)?;
        Ok(())
    }

    /// Takes the octets after the last LF.
    fn take_rest(&mut self, octets: &[u8]) -> Result<(), Fault>
        requires count { self.old.count + 1 < 2 ^ 64 }
        requires clean { has_line_feed octets.now ≡ false }
        ensures told { OnOk result (Goes self.old octets.now self.new) }
        ensures bad { (k : ℕ) → result ≡ Err (Fault.BadLine k)
            → Stops self.old octets.now false k self.new }
        ensures cause { IfErr result (HasCause ⊥ ⊥ ⊥) }
    {
        self.keep_octets(octets)?;
        if self.rest.len() > LONGEST {
            return Err(Fault::BadLine(self.count + 1));
        }
        Ok(())
    }

    /// Takes the next octets of the input, and tells each line that they end.
    pub fn feed(&mut self, alloc: Global, piece: &[u8]) -> Result<(), Fault>
        requires { self.old.count + length piece.now + 1 < 2 ^ 64 }
        ensures told { OnOk result (Goes self.old piece.now self.new) }
        ensures bad { (k : ℕ) → result ≡ Err (Fault.BadLine k)
            → Stops self.old piece.now false k self.new }
        ensures cause { IfErr result (HasCause ⊥ ⊥ ⊥) }
    {
        let mut left = piece;
        while let Some(at) = line_feed_in(left) {
            if let Err(fault) = self.take_line(alloc, &left[..at]) {
                return Err(fault);
            }
            left = &left[at + 1..];
        }
        self.take_rest(left)
    }

    /// The input has ended: tells the last line, where it has no LF.
    pub fn finish(&mut self, alloc: Global) -> Result<(), Fault>
        requires { self.old.count + 1 < 2 ^ 64 }
        ensures all { OnOk result (Completes self.old self.new) }
        ensures bad { (k : ℕ) → result ≡ Err (Fault.BadLine k) → Stops self.old [] true k self.new }
        ensures cause { IfErr result (HasCause ⊥ ⊥ ⊥) }
    {
        if self.rest.is_empty() {
            return Ok(());
        }
        self.end_line(alloc)?;
        Ok(())
    }

    /// Writes the output that is gathered, and passes it on.
    pub fn write_rest<O: Sink>(&mut self, sink: &mut O, writing: &mut Turns) -> Result<(), Fault>
        ensures written { OnOk result (Takes (O.seen sink.old) (O.seen sink.new) self.old.out) }
        ensures emptied { OnOk result (self.new ≡ record self.old { out = [] }) }
        ensures begun { TakesBeginning (O.seen sink.old) (O.seen sink.new) self.old.out }
        ensures writes { Steps (write_meter (O.seen sink.old) writing.old)
            (write_meter (O.seen sink.new) writing.new) (told_by write_told result) }
        ensures cause { IfErr result
            (HasCause ⊥ (WriteFails (O.seen sink.old) (O.seen sink.new)) (writing.new ≡ 0)) }
        ensures fault { (k : ℕ) → result ≢ Err (Fault.BadLine k) }
    {
        match rawsocket::send(sink, &self.out, writing) {
            Ok(()) => {
                self.out.clear();
                Ok(())
            }
            Err(rawsocket::Fault::WriteFault) => Err(Fault::WriteFault),
            Err(_) => Err(Fault::TooManyTurns),
        }
    }
}

/// Where the first LF is.
fn line_feed_in(octets: &[u8]) -> Option<usize>
    ensures none { IfNone result (has_line_feed octets.now ≡ false) }
    ensures within { IfSome result (λ at. at < length octets.now) }
    ensures clean { IfSome result (λ at. has_line_feed (take at octets.now) ≡ false) }
    ensures at { IfSome result (λ at.
        octets.now ≡ take at octets.now ++ 10 ∷ drop (at + 1) octets.now) }
{
    for i in 0..octets.len() {
        if octets[i] == b'\n' {
            return Some(i);
        }
    }
    None
}
