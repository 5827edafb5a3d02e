//! `replay`: reads the input to its end, and writes what each piece gives before it reads the next.
ghost use Rattle.std.specs.Prelude.{◌≡◌, ◌≢◌, ◌++◌, ◌+◌, ◌<◌, ◌≤◌, ◌⊎◌, ℕ, [], length, take, true, IfErr, IfOk, OnErr, OnOk};
ghost use Rattle.realm.specs.Grants.{pairs_of};
ghost use Rattle.replay.specs.Outcome.{BeginsReplay, FromRealm, HasCause, IsFresh, IsReplayed, StopsAt, read_told, streams_of, write_told};
ghost use Rattle.rawsocket.specs.Steps.{ReadSteps, Steps, WriteSteps, told_by, write_meter};
ghost use Rattle.session.specs.Opened.{AreUsedUp};
ghost use Rattle.rawsocket.specs.Devices.{ReadFails, WriteFails};

use crate::fault::Fault;
use crate::replay_input::ReplayInput;
use broker_config::Config;
use rawsocket::devices::{NoOctets, PIECE, Sink, Source, Turns, read_piece};
use std::alloc::Global;

/// Reads the input to its end, in pieces of the buffer, and writes what each piece gives.
fn replay_all<I: Source, O: Sink>(
    alloc: Global,
    source: &mut I,
    sink: &mut O,
    told: &mut ReplayInput,
    writing: &mut Turns,
    buffer: &mut [u8],
) -> Result<(), Fault>
    requires fresh { IsFresh told.old }
    requires wide { length buffer.old ≡ 65536 }
    ensures ended { OnOk result ((I.seen source.new).is_ended ≡ true) }
    ensures told { OnOk result (IsReplayed told.old.replay
        (streams_of (I.seen source.old) (I.seen source.new) (O.seen sink.old) (O.seen sink.new))
        told.new.out) }
    ensures bad { (k : ℕ) → result ≡ Err (Fault.BadLine k) → StopsAt told.old.replay
        (streams_of (I.seen source.old) (I.seen source.new) (O.seen sink.old) (O.seen sink.new))
        (I.seen source.new).is_ended told.new.out k }
    ensures begun { OnErr result (BeginsReplay told.old.replay
        (streams_of (I.seen source.old) (I.seen source.new) (O.seen sink.old) (O.seen sink.new))
        (I.seen source.new).is_ended) }
    ensures reads { ReadSteps (I.seen source.old) (I.seen source.new) (told_by read_told result) }
    ensures writes { Steps (write_meter (O.seen sink.old) writing.old)
        (write_meter (O.seen sink.new) writing.new) (told_by write_told result) }
    ensures cause { IfErr result (HasCause (ReadFails (I.seen source.old) (I.seen source.new))
        (WriteFails (O.seen sink.old) (O.seen sink.new))
        ((AreUsedUp (I.seen source.old).calls (I.seen source.new).calls) ⊎ (writing.new ≡ 0))) }
{
    let mut reading = Turns::new();
    'pieces: loop {
        let count = match read_piece(source, buffer, &mut reading) {
            Ok(count) => count,
            Err(NoOctets::Ended) => {
                if let Err(fault) = told.finish(alloc) {
                    return Err(fault);
                }
                return Ok(());
            }
            Err(NoOctets::Failed) => return Err(Fault::ReadFault),
            Err(NoOctets::TooManyTurns) => return Err(Fault::TooManyTurns),
        };
        if let Err(fault) = told.feed(alloc, &buffer[..count]) {
            return Err(fault);
        }
        if let Err(fault) = told.write_rest(sink, writing) {
            return Err(fault);
        }
    }
}

/// Tells the input to its end, or to its first bad line, and writes all that it gives. It is apart from `replay`, which owns what is
/// lent here: what is owned at each way out is what a check costs.
fn replay_to_end<I: Source, O: Sink>(
    alloc: Global,
    source: &mut I,
    sink: &mut O,
    told: &mut ReplayInput,
    buffer: &mut [u8],
) -> Result<(), Fault>
    requires fresh { IsFresh told.old }
    requires wide { length buffer.old ≡ 65536 }
    ensures ended { OnOk result ((I.seen source.new).is_ended ≡ true) }
    ensures told { OnOk result (IsReplayed told.old.replay
        (streams_of (I.seen source.old) (I.seen source.new) (O.seen sink.old) (O.seen sink.new))
        []) }
    ensures bad { (k : ℕ) → result ≡ Err (Fault.BadLine k) → StopsAt told.old.replay
        (streams_of (I.seen source.old) (I.seen source.new) (O.seen sink.old) (O.seen sink.new))
        (I.seen source.new).is_ended [] k }
    ensures begun { OnErr result (BeginsReplay told.old.replay
        (streams_of (I.seen source.old) (I.seen source.new) (O.seen sink.old) (O.seen sink.new))
        (I.seen source.new).is_ended) }
    ensures reads { ReadSteps (I.seen source.old) (I.seen source.new) (told_by read_told result) }
    ensures writes { WriteSteps (O.seen sink.old) (O.seen sink.new) (told_by write_told result) }
    ensures cause { IfErr result (HasCause (ReadFails (I.seen source.old) (I.seen source.new))
        (WriteFails (O.seen sink.old) (O.seen sink.new))
        ((AreUsedUp (I.seen source.old).calls (I.seen source.new).calls) ⊎
        (AreUsedUp (O.seen sink.old).calls (O.seen sink.new).calls))) }
{
    let mut writing = Turns::new();
    match replay_all(alloc, source, sink, told, &mut writing, buffer) {
        Ok(()) => {
            if let Err(fault) = told.write_rest(sink, &mut writing) {
                return Err(fault);
            }
            Ok(())
        }
        Err(Fault::BadLine(line)) => {
            if let Err(fault) = told.write_rest(sink, &mut writing) {
                return Err(fault);
            }
            Err(Fault::BadLine(line))
        }
        Err(fault) => Err(fault),
    }
}

/// Runs the first realm on the lines of the source, and writes their transcript.
///
/// # Errors
/// `BadLine` with the number of the first bad line; the transcript of the lines before it is
/// written then. `ReadFault`, `WriteFault`, `TooManyTurns` of the devices, and `NoMemory`; a
/// beginning of the transcript of the whole lines that were read is written then.
pub fn replay<I: Source, O: Sink>(
    alloc: Global,
    source: &mut I,
    sink: &mut O,
    config: &Config,
) -> Result<(), Fault>
    requires { 0 < length config.now.realms.items }
    ensures ended { OnOk result ((I.seen source.new).is_ended ≡ true) }
    ensures told { OnOk result (FromRealm config.now.realms.items (pairs_of config.now.grants.items)
        (λ start. IsReplayed start
        (streams_of (I.seen source.old) (I.seen source.new) (O.seen sink.old) (O.seen sink.new))
        [])) }
    ensures bad { (k : ℕ) → result ≡ Err (Fault.BadLine k) → FromRealm config.now.realms.items
        (pairs_of config.now.grants.items) (λ start. StopsAt start
        (streams_of (I.seen source.old) (I.seen source.new) (O.seen sink.old) (O.seen sink.new))
        (I.seen source.new).is_ended [] k) }
    ensures begun { OnErr result (FromRealm config.now.realms.items
        (pairs_of config.now.grants.items) (λ start. BeginsReplay start
        (streams_of (I.seen source.old) (I.seen source.new) (O.seen sink.old) (O.seen sink.new))
        (I.seen source.new).is_ended)) }
    ensures reads { ReadSteps (I.seen source.old) (I.seen source.new) (told_by read_told result) }
    ensures writes { WriteSteps (O.seen sink.old) (O.seen sink.new) (told_by write_told result) }
    ensures cause { IfErr result (HasCause (ReadFails (I.seen source.old) (I.seen source.new))
        (WriteFails (O.seen sink.old) (O.seen sink.new))
        ((AreUsedUp (I.seen source.old).calls (I.seen source.new).calls) ⊎
        (AreUsedUp (O.seen sink.old).calls (O.seen sink.new).calls))) }
{
    let Ok(mut told) = ReplayInput::new(alloc, &config.realms[0], &config.grants) else {
        return Err(Fault::NoMemory);
    };
    let Ok(mut buffer) = vec![in alloc; 0; PIECE] else {
        return Err(Fault::NoMemory);
    };
    replay_to_end(alloc, source, sink, &mut told, &mut buffer)
}
