//! An input as one argument.
ghost use Rattle.std.specs.Prelude.{◌≡◌, ◌<◌, ◌≤◌, [], IfErr, IfOk, OnOk, length, true};
ghost use Rattle.rawsocket.specs.Steps.{ReadSteps, told_by};
ghost use Rattle.client_commands.specs.WholeInput.{Exceeds, IsWhole, ReadsWhole, whole_told};

use crate::command::Arguments;
use crate::line_input::LONGEST;
use message_tree::{Content, Tree};
use rawsocket::devices::{NoOctets, PIECE, Source, Turns, read_piece};
use std::alloc::Global;
use thiserror::Error;

/// Why an input can't be published as one argument.
#[derive(Clone, Copy, Debug, Drop, PartialEq, Eq, Error)]
pub enum InputFault {
    /// A growth of memory was refused.
    #[error("E1 no memory")]
    NoMemory,
    /// A read of it failed.
    #[error("E31 it can't be read")]
    ReadFault,
    /// It has more than 2^20 octets.
    #[error("E31 it has more than 1048576 octets")]
    TooLong,
    /// It was read 2^32 times.
    #[error("E25 too many turns")]
    TooManyTurns,
}

/// Reads all octets of an input, behind those that are there.
fn read_whole<J: Source>(
    input: &mut J,
    buffer: &mut [u8],
    octets: &mut Vec<u8>,
) -> Result<(), InputFault>
    requires wide { 0 < length buffer.old }
    requires fresh { octets.old.items ≡ [] }
    ensures whole { OnOk result (ReadsWhole (J.seen input.old).given (J.seen input.new).given
        octets.new.items) }
    ensures ended { OnOk result ((J.seen input.new).is_ended ≡ true) }
    ensures long { IfErr result (λ fault. fault ≡ InputFault.TooLong →
        Exceeds (J.seen input.old).given (J.seen input.new).given) }
    ensures reads { ReadSteps (J.seen input.old) (J.seen input.new) (told_by whole_told result) }
{
    let mut turns = Turns::new();
    'pieces: loop {
        let count = match read_piece(input, buffer, &mut turns) {
            Ok(count) => count,
            Err(NoOctets::Ended) => return Ok(()),
            Err(NoOctets::Failed) => return Err(InputFault::ReadFault),
            Err(NoOctets::TooManyTurns) => return Err(InputFault::TooManyTurns),
        };
        let Ok(()) = octets.extend_from_slice(&buffer[..count]) else {
            return Err(InputFault::NoMemory);
        };
        if octets.len() > LONGEST {
            return Err(InputFault::TooLong);
        }
    }
}

/// All octets of an input, as the arguments of one publication: a byte string, which is the only one. It is read to its end.
///
/// # Errors
/// [`InputFault`]: a read failed, the octets are more than 2^20, or memory was refused.
pub fn whole_input<J: Source>(alloc: Global, input: &mut J) -> Result<Arguments, InputFault>
    ensures whole { IfOk result (λ arguments.
        IsWhole (J.seen input.old).given (J.seen input.new).given arguments) }
    ensures ended { OnOk result ((J.seen input.new).is_ended ≡ true) }
    ensures long { IfErr result (λ fault. fault ≡ InputFault.TooLong →
        Exceeds (J.seen input.old).given (J.seen input.new).given) }
    ensures reads { ReadSteps (J.seen input.old) (J.seen input.new) (told_by whole_told result) }
{
    let Ok(mut buffer) = vec![in alloc; 0; PIECE] else {
        return Err(InputFault::NoMemory);
    };
    let mut octets = Vec::new(alloc);
    if let Err(fault) = read_whole(input, &mut buffer, &mut octets) {
        return Err(fault);
    }
    let Ok(values) = vec![in alloc; Tree::Bytes(octets)] else {
        return Err(InputFault::NoMemory);
    };
    Ok(Arguments::Words(Content::of(Tree::List(values))))
}
