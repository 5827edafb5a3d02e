//! Canonical form, from octets to octets.
ghost use Rattle.std.specs.Prelude.{◌≡◌, ◌≢◌, [], IfOk, IfErr};
ghost use Rattle.msgpack_codec.specs.Grammar.{IsDeep};
ghost use Rattle.msgpack_codec.specs.Written.{IsPassed, IsNoValue};
ghost use Rattle.msgpack_canonical.specs.Canonical.{IsCanonicalized, IsValue};

use crate::beginnings::front_of;
use crate::writing::put_value;
use message_tree::Appender;
use msgpack_codec::{Carriage, Fault, Passed, Refusal, pass};
use std::alloc::{AllocError, Global};

/// What was done with a value.
#[derive(Clone, Copy, Debug, Drop)]
pub struct Canonicalized<'a> {
    /// The octets after the value.
    pub rest: &'a [u8],
    /// Whether the value is written. It isn't where it holds what isn't carried (behind a key that
    /// comes again, only its last value counts), or 2^32 or more octets or members of a text, byte
    /// string, list or dictionary; then some of it may have been written.
    pub is_written: bool,
}

/// Writes what was passed over, and says whether it is carried: as it stands where it is spelled as
/// `encode` writes it.
fn put_passed(
    alloc: Global,
    octets: &[u8],
    passed: Passed,
    room: u8,
    out: &mut Appender,
) -> Result<bool, AllocError>
    ensures ok { IsPassed room octets.now passed.entry.rest.now passed.entry.carriage
        passed.entry.is_shortest → IfOk result (λ b. IsCanonicalized room octets.now
        passed.entry.rest.now b out.old.since out.new.since) }
    ensures before { out.new.before ≡ out.old.before }
{
    if passed.is_shortest {
        out.put_all(front_of(octets, passed.rest))?;
        Ok(true)
    } else if passed.carriage == Carriage::Uncarried {
        Ok(false)
    } else {
        match put_value(alloc, octets, room, out)? {
            Some(put) => Ok(put.is_written),
            None => Ok(false),
        }
    }
}

/// Writes the value at the front of octets, which nests no more than `room` levels, at the end of
/// `out` in canonical form: the octets that [`encode`](msgpack_codec::encode) writes for the tree
/// that they spell (MessagePack specification, "Formats"). No tree is built.
///
/// What is canonical already is copied, and takes no memory but `out`'s. Otherwise a dictionary of up
/// to 16 entries is copied from where it stands, entry by entry in the order of the keys, where each
/// key has fewer than 32 octets of ASCII, each value has nothing inside, and both are spelled as
/// `encode` writes them; this takes 32 octets for each entry. The entries of another one are written
/// behind one another as they come, and then copied in the order of their keys, so that octets are
/// read twice, or four times in values with nothing inside, and copied once for each dictionary that
/// they stand in: at most `room` times. Beside `out` this takes the octets that are written of the
/// dictionaries in hand, with room for up to 256 at once, 8 octets for each key, and as many again
/// while they are put in order.
///
/// # Errors
/// As of [`pass`], the first fault from the left decides: [`Fault::TooDeep`] where a list or map stands
/// inside `room` others and each value before it is whole; [`Fault::Malformed`] where the octets
/// otherwise begin with no value; [`Fault::NoMemory`] where a growth was refused, or the entries of
/// a dictionary that isn't canonical have 2^32 octets or more, and then some of the value may have
/// been written. What stood in `out` at its start stays.
pub fn canonicalize<'a>(
    alloc: Global,
    octets: &'a [u8],
    room: u8,
    out: &mut Appender,
) -> Result<Canonicalized<'a>, Fault>
    ensures ok { IfOk result (λ c. IsCanonicalized room octets.entry.now c.rest.now c.is_written
        out.old.since out.new.since) }
    ensures before { out.new.before ≡ out.old.before }
    ensures too_deep { IfErr result (λ e. e ≡ Fault.TooDeep → IsDeep room octets.entry.now) }
    ensures malformed { IfErr result (λ e. e ≡ Fault.Malformed → IsNoValue room octets.entry.now) }
    ensures carried { IfErr result (λ e. e ≢ Fault.UncarriedLeaf) }
{
    match pass(octets, room) {
        Ok(passed) => {
            let is_written = put_passed(alloc, octets, passed, room, out)?;
            Ok(Canonicalized {
                rest: passed.rest,
                is_written,
            })
        }
        Err(Refusal::TooDeep) => Err(Fault::TooDeep),
        Err(Refusal::Malformed) => Err(Fault::Malformed),
    }
}

/// Writes the value that octets are as [`canonicalize`] does, and says whether it is written: for who
/// has passed over them already, so that they are looked at once less. They nest no more than `room`
/// levels. What can't be carried may have been written in part.
///
/// # Errors
/// [`AllocError`] where a growth was refused, or the entries of a dictionary have 2^32 octets or more;
/// some of the value may have been written. What stood in `out` at its start stays.
#[inline(always)]
pub fn canonicalize_value(
    alloc: Global,
    octets: &[u8],
    room: u8,
    out: &mut Appender,
) -> Result<bool, AllocError>
    requires { IsValue room octets.now }
    ensures ok { IfOk result (λ is_written. IsCanonicalized room octets.now [] is_written
        out.old.since out.new.since) }
    ensures before { out.new.before ≡ out.old.before }
{
    match put_value(alloc, octets, room, out)? {
        Some(done) => Ok(done.is_written),
        None => unreachable!(),
    }
}
