//! Frames that are read where they lie in a piece.
ghost use Rattle.std.specs.Prelude.{◌≡◌, ◌⊎◌, [], IfOk};
ghost use Rattle.rawsocket.specs.Deframer.{IsShort};

use crate::frames::{tell_fault, tell_frame};
use rawsocket::{Deframer, Fault, Frame};
use std::alloc::Global;
use std::io;

/// Adds the frames that a piece completes, and the fault.
pub fn read_in_place(
    alloc: Global,
    deframer: &mut Deframer,
    text: &mut String,
    piece: &[u8],
) -> io::Result<()> {
    let (frame, rest) = match resumed(alloc, deframer, piece) {
        Ok(resumed) => resumed,
        Err(fault) => return Ok(writeln!(text, "{fault}")?),
    };
    if let Some(frame) = frame {
        tell_frame(text, frame.kind, &frame.payload)?;
    }
    let rest = tell_whole(deframer, text, rest)?;
    let mut held = deframer.hold(alloc, rest);
    if held.is_err() {
        held = deframer.hold(alloc, rest);
    }
    if let Err(fault) = held {
        return Ok(writeln!(text, "{fault}")?);
    }
    tell_fault(text, deframer.fault())
}

/// What a piece completes; once more where memory was refused, which changes nothing.
fn resumed<'p>(
    alloc: Global,
    deframer: &mut Deframer,
    piece: &'p [u8],
) -> Result<(Option<Frame>, &'p [u8]), Fault>
    ensures { IfOk result (λ r. (deframer.new.held ≡ []) ⊎ (r.1.now ≡ [])) }
{
    match deframer.resume(alloc, piece) {
        Err(Fault::NoMemory) => deframer.resume(alloc, piece),
        resumed => resumed,
    }
}

/// Adds the frames that lie whole in octets, and gives what stands behind them.
fn tell_whole<'p>(deframer: &Deframer, text: &mut String, octets: &'p [u8]) -> io::Result<&'p [u8]>
    ensures short { IfOk result (λ rest. IsShort deframer.now.most rest.now) }
    ensures none { IfOk result (λ rest. octets.now ≡ [] → rest.now ≡ []) }
{
    let mut rest = octets;
    while let Some((kind, payload, after)) = deframer.next_frame(rest) {
        tell_frame(text, kind, payload)?;
        rest = after;
    }
    Ok(rest)
}
