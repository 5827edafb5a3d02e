//! How often a call may read or write one stream, and what is read and written in turns.
ghost use Rattle.std.specs.Prelude.{◌≡◌, ◌<◌, ◌+◌, length, true, false};
ghost use Rattle.rawsocket.specs.Turns.{ReadsInTurn, ReadsPiece, WritesInTurns};

use crate::devices::device::{Sink, Source};
use crate::devices::no_octets::NoOctets;
use crate::fault::Fault;
use std::marker::Model;

/// How many octets are read at once.
pub const PIECE: usize = 65536;

/// How often a call may read or write one stream.
const MOST: u64 = 0x1_0000_0000;

/// The turns that are left, seen as their number.
#[derive(Drop)]
pub struct Turns {
    left: u64,
}

impl Model for Turns {
    ghost use Rattle.std.specs.Prelude.{ℕ};

    ghost Value = { ℕ };

    ghost view = { λ t. t.left };
}

impl Turns {
    /// So many turns, for a part of a call or a test.
    pub fn of(left: u64) -> Turns
        ensures { result ≡ left }
    {
        Turns { left }
    }

    /// All turns of one call on one stream: 2^32.
    pub fn new() -> Turns
        ensures { result ≡ 4294967296 }
    {
        Turns { left: MOST }
    }

    /// Takes one, if one is left.
    fn take(&mut self) -> bool
        ensures taken { result ≡ true → self.old ≡ self.new + 1 }
        ensures none { result ≡ false → (self.old ≡ 0) × (self.new ≡ 0) }
    {
        if self.left == 0 {
            return false;
        }
        self.left -= 1;
        true
    }
}

/// One read, if a turn is left: how many octets it gave. None, into a buffer that isn't empty, are
/// the stream's end.
///
/// # Errors
/// [`Fault::ReadFault`] where the device failed; [`Fault::TooManyTurns`] where no turn was left.
pub fn read_turn<S: Source>(
    source: &mut S,
    buffer: &mut [u8],
    turns: &mut Turns,
) -> Result<usize, Fault>
    ensures { ReadsInTurn (S.seen source.old) (S.seen source.new) turns.old turns.new buffer.new
        result }
{
    if !turns.take() {
        return Err(Fault::TooManyTurns);
    }
    source.read_some(buffer)
}

/// Reads the next octets, at least one, in one turn.
///
/// # Errors
/// [`NoOctets`]: the stream has ended, the device failed, or no turn was left.
pub fn read_piece<S: Source>(
    source: &mut S,
    buffer: &mut [u8],
    turns: &mut Turns,
) -> Result<usize, NoOctets>
    requires { 0 < length buffer.old }
    ensures { ReadsPiece (S.seen source.old) (S.seen source.new) turns.old turns.new buffer.new
        result }
{
    match read_turn(source, buffer, turns) {
        Ok(0) => Err(NoOctets::Ended),
        Ok(count) => Ok(count),
        Err(Fault::ReadFault) => Err(NoOctets::Failed),
        Err(_) => Err(NoOctets::TooManyTurns),
    }
}

/// Writes all octets, in as many turns as it takes.
///
/// # Errors
/// [`Fault::WriteFault`] where the device failed; [`Fault::TooManyTurns`] where no turn was left. A
/// beginning of the octets is written then.
pub fn write_all<S: Sink>(sink: &mut S, octets: &[u8], turns: &mut Turns) -> Result<(), Fault>
    ensures { WritesInTurns (S.seen sink.old) (S.seen sink.new) turns.old turns.new octets.now
        result }
{
    let mut rest = octets;
    while !rest.is_empty() {
        if !turns.take() {
            return Err(Fault::TooManyTurns);
        }
        let count = sink.write_some(rest)?;
        rest = &rest[count..];
    }
    Ok(())
}

/// Writes all octets, and passes them on.
///
/// # Errors
/// As [`write_all`]; a flush that failed is a [`Fault::WriteFault`] too, and all octets are written
/// then. Where a write failed, or no turn was left, nothing is flushed.
pub fn send<S: Sink>(sink: &mut S, octets: &[u8], turns: &mut Turns) -> Result<(), Fault>
    ensures { WritesInTurns (S.seen sink.old) (S.seen sink.new) turns.old turns.new octets.now
        result }
{
    match write_all(sink, octets, turns) {
        Ok(()) => sink.flush(),
        Err(fault) => Err(fault),
    }
}
