//! Devices over the octets `abcdefgh`:
//!
//! - `reads DEVICE TURNS CALL`: reads by four octets at most, in so many turns, from a device whose
//!   call of this number fails; then once more, with turns enough. The devices are `memory`,
//!   `slowly`, which gives one octet at a time, and `reader`, the same over a reader.
//! - `writes DEVICE TURNS CALL`: writes all octets, and then those that weren't taken, to `memory` or
//!   `slowly`.
//! - `held-back`, `no-room`, `failing-flush`, in `sending.rt`: writers that do so.
//!
//! `never` is a call that isn't made.
use case_text::{number_of, part, spell};
use rawsocket::Fault;
use case_devices::{FailsAt, OneByOne};
use rawsocket::devices::{
    MemorySink, MemorySource, ReadSource, Sink, Source, Turns, read_turn, write_all,
};
use std::alloc::Global;
use std::io;

pub const ALL: &[u8] = b"abcdefgh";

/// The call of this number; the last of all for `never`.
fn call_of(word: &str) -> u64 {
    match word {
        "never" => u64::MAX,
        _ => number_of(word),
    }
}

/// The words of `DEVICE TURNS CALL`.
pub fn reads(alloc: Global, words: &str) -> io::Result<String> {
    let (device, words) = part(words);
    let (turns, words) = part(words);
    let (call, _) = part(words);
    let turns = number_of(turns);
    let call = call_of(call);
    match device {
        "reader" => {
            let source = OneByOne::new(ReadSource::new(ALL));
            twice(alloc, &mut FailsAt::new(source, call), turns)
        }
        "slowly" => {
            let source = MemorySource::new(ALL.to_vec(alloc)?);
            twice(alloc, &mut FailsAt::new(OneByOne::new(source), call), turns)
        }
        _ => {
            let source = MemorySource::new(ALL.to_vec(alloc)?);
            twice(alloc, &mut FailsAt::new(source, call), turns)
        }
    }
}

/// What is read in so many turns, and then in turns enough.
fn twice<S: Source>(alloc: Global, source: &mut S, turns: u64) -> io::Result<String> {
    let mut text = String::new(alloc);
    read_whole(&mut text, source, Turns::of(turns))?;
    text.push_str("; ")?;
    read_whole(&mut text, source, Turns::new())?;
    text.push('\n')?;
    Ok(text)
}

/// Adds what is read, and why it ends.
fn read_whole<S: Source>(text: &mut String, source: &mut S, mut turns: Turns) -> io::Result<()> {
    let mut buffer = [0u8; 4];
    for _ in 0..1000 {
        match read_turn(source, &mut buffer, &mut turns) {
            Ok(0) => return Ok(text.push_str(" ended")?),
            Ok(count) => spell(text, &buffer[..count])?,
            Err(fault) => return Ok(write!(text, " {fault}")?),
        }
    }
    Ok(text.push_str(" no end")?)
}

/// The words of `DEVICE TURNS CALL`.
pub fn writes(alloc: Global, words: &str) -> io::Result<String> {
    let (device, words) = part(words);
    let (turns, words) = part(words);
    let (call, _) = part(words);
    let turns = number_of(turns);
    let call = call_of(call);
    match device {
        "slowly" => writes_slowly(alloc, turns, call),
        _ => writes_to_memory(alloc, turns, call),
    }
}

fn writes_slowly(alloc: Global, turns: u64, call: u64) -> io::Result<String> {
    let mut sink = FailsAt::new(OneByOne::new(MemorySink::new(alloc)), call);
    let first = write_all(&mut sink, ALL, &mut Turns::of(turns));
    let taken = sink.device.device.octets().len().min(ALL.len());
    let second = write_all(&mut sink, &ALL[taken..], &mut Turns::new());
    let octets = sink.device.device.octets();
    let first = fault_of(first, taken as u64 == call);
    written(
        alloc,
        &octets[..taken],
        first,
        octets,
        fault_of(second, false),
    )
}

fn writes_to_memory(alloc: Global, turns: u64, call: u64) -> io::Result<String> {
    let mut sink = FailsAt::new(MemorySink::new(alloc), call);
    let first = write_all(&mut sink, ALL, &mut Turns::of(turns));
    let taken = sink.device.octets().len().min(ALL.len());
    let second = write_all(&mut sink, &ALL[taken..], &mut Turns::new());
    let octets = sink.device.octets();
    let first = fault_of(first, call == 0);
    written(
        alloc,
        &octets[..taken],
        first,
        octets,
        fault_of(second, false),
    )
}

/// How writing ended, and whether a call was to fail there: else memory fails for want of a growth.
fn fault_of(written: Result<(), Fault>, is_due: bool) -> Option<Fault> {
    match written {
        Ok(()) => None,
        Err(Fault::WriteFault) if !is_due => Some(Fault::NoMemory),
        Err(fault) => Some(fault),
    }
}

/// What was taken at first and at last, and how either ended.
fn written(
    alloc: Global,
    taken: &[u8],
    first: Option<Fault>,
    octets: &[u8],
    second: Option<Fault>,
) -> io::Result<String> {
    let mut text = String::new(alloc);
    ending(&mut text, taken, first)?;
    text.push_str("; ")?;
    ending(&mut text, octets, second)?;
    text.push('\n')?;
    Ok(text)
}

/// Adds octets, and why they end.
fn ending(text: &mut String, octets: &[u8], fault: Option<Fault>) -> io::Result<()> {
    spell(text, octets)?;
    match fault {
        None => Ok(text.push_str(" ended")?),
        Some(fault) => Ok(write!(text, " {fault}")?),
    }
}
