//! A short text as a JSON string, made on the stack.
ghost use Rattle.std.specs.Prelude.{◌≡◌, ◌+◌, ◌++◌, ◌≤◌, length, IfOk, OnErr, true, false};
ghost use Rattle.std.specs.Bool.{OnTrue};
ghost use Rattle.json.specs.Print.{quoted};
ghost use Rattle.json.specs.Written.{PlainBetween};

use message_tree::Appender;
use std::alloc::AllocError;
use std::simd::prelude::*;

/// So many octets are looked at together.
const PIECE: usize = 32;

/// A text of so many octets is short: two pieces.
const SHORT: usize = 64;

/// So many octets it has with its quotes.
const QUOTED: usize = 66;

/// Whether the octets of a piece stand for themselves in a JSON string: all but quotes, backslashes
/// and control octets do.
#[inline(always)]
fn is_piece_plain(octets: &[u8], at: usize) -> bool
    requires { at + 32 ≤ length octets.now }
    ensures { OnTrue result (PlainBetween octets.now at (at + 32)) }
{
    let piece = u8x32::from_slice(&octets[at..]);
    let quotes = piece.simd_eq(u8x32::splat(b'"'));
    let backslashes = piece.simd_eq(u8x32::splat(b'\\'));
    let controls = piece.simd_lt(u8x32::splat(b' '));
    (quotes | backslashes | controls).to_bitmask() == 0
}

/// Whether so many octets at the front stand for themselves, and those up to a piece's end.
#[inline(always)]
fn is_plain(octets: &[u8], len: usize) -> bool
    requires { (len ≤ 64) × (64 ≤ length octets.now) }
    ensures { OnTrue result (PlainBetween octets.now 0 len) }
{
    is_piece_plain(octets, 0) && (len <= PIECE || is_piece_plain(octets, PIECE))
}

/// Writes a text as a JSON string at the end, with no buffer on the heap, and says whether it did:
/// only where the text is short and needs no escape.
///
/// # Errors
/// [`AllocError`] where a growth was refused; nothing is written then.
pub(crate) fn put_short(octets: &[u8], out: &mut Appender) -> Result<bool, AllocError>
    ensures written { IfOk result (λ is_written. is_written ≡ true
        → out.new.since ≡ out.old.since ++ quoted octets.now) }
    ensures left { IfOk result (λ is_written. is_written ≡ false
        → out.new.since ≡ out.old.since) }
    ensures err { OnErr result (out.new.since ≡ out.old.since) }
    ensures before { out.new.before ≡ out.old.before }
{
    if octets.len() > SHORT {
        return Ok(false);
    }
    let end = octets.len() + 1;
    let mut string = [b' '; QUOTED];
    string[1..end].copy_from_slice(octets);
    if !is_plain(&string[1..], octets.len()) {
        return Ok(false);
    }
    string[0] = b'"';
    string[end] = b'"';
    out.put_all(&string[..end + 1])?;
    Ok(true)
}
