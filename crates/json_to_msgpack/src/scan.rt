//! Passing over octets of a JSON text.
ghost use Rattle.std.specs.Prelude.{◌≡◌, ◌+◌, ◌<◌, ◌≤◌, ◌∷◌, length, drop, true, MatchOption};
ghost use Rattle.std.specs.List.{prefix_len};
ghost use Rattle.std.specs.Char.{is_ascii_digit};
ghost use Rattle.json.specs.Word.{ends_word};
ghost use Rattle.json.specs.Lex.{class, between, lex};
ghost use Rattle.json.specs.Align.{is_blank};
ghost use Rattle.json.specs.Run.{is_plain};

use std::simd::prelude::*;

/// So many octets are looked at together.
const PIECE: usize = 16;

/// The octet at a place, where the text goes on so far.
#[inline(always)]
pub(crate) fn octet_at(octets: &[u8], at: usize) -> Option<u8>
    ensures { MatchOption result (length octets.now ≤ at)
        (λ c. (at < length octets.now) × (drop at octets.now ≡ c ∷ drop (at + 1) octets.now)) }
{
    if at < octets.len() {
        Some(octets[at])
    } else {
        None
    }
}

/// Whether an octet is white space (RFC 8259, section 2).
#[inline(always)]
fn is_space(octet: u8) -> bool
    ensures { result ≡ is_blank (class octet) }
{
    (octet == b' ') | (octet == b'\n') | (octet == b'\r') | (octet == b'\t')
}

/// Where the white space ends that may stand at a place.
#[inline(always)]
pub(crate) fn spaces_end(octets: &[u8], from: usize) -> usize
    requires { from ≤ length octets.now }
    ensures same { lex between (drop result octets.now) ≡ lex between (drop from octets.now) }
    ensures ends { from < result → ends_word (drop from octets.now) ≡ true }
    ensures bounds { (from ≤ result) × (result ≤ length octets.now) }
{
    let mut at = from;
    'spaces: while at < octets.len() && is_space(octets[at]) {
        at += 1;
    }
    at
}

/// Whether an octet of a string stands for itself: all but quotes, backslashes and control octets
/// do. What texts mostly have is looked at first.
#[inline(always)]
fn is_plain(octet: u8) -> bool
    ensures { result ≡ is_plain octet }
{
    if octet > b'\\' {
        true
    } else if octet > b'"' {
        octet != b'\\'
    } else {
        octet != b'"' && octet >= b' '
    }
}

/// How many octets of a piece stand for themselves before the first one that doesn't.
#[inline(always)]
fn plain_in(piece: u8x16) -> usize
    ensures { result ≡ prefix_len is_plain piece }
{
    let quotes = piece.simd_eq(u8x16::splat(b'"'));
    let backslashes = piece.simd_eq(u8x16::splat(b'\\'));
    let controls = piece.simd_lt(u8x16::splat(b' '));
    let stops = (quotes | backslashes | controls).to_bitmask();
    if stops == 0 {
        PIECE
    } else {
        stops.trailing_zeros() as usize
    }
}

/// As [`plain_end`], an octet at a time: of the last few.
#[inline(always)]
fn last_plain_end(octets: &[u8], from: usize) -> usize
    requires { from ≤ length octets.now }
    ensures value { result ≡ from + prefix_len is_plain (drop from octets.now) }
    ensures bound { result ≤ length octets.now }
{
    let mut at = from;
    'plain: while at < octets.len() && is_plain(octets[at]) {
        at += 1;
    }
    at
}

/// Where the octets of a string end that stand for themselves: at a quote, a backslash, a control
/// octet, or the end of the text.
#[inline(always)]
pub(crate) fn plain_end(octets: &[u8], from: usize) -> usize
    requires { from ≤ length octets.now }
    ensures value { result ≡ from + prefix_len is_plain (drop from octets.now) }
    ensures bound { result ≤ length octets.now }
{
    let mut at = from;
    'pieces: while octets.len() - at >= PIECE {
        let plain = plain_in(u8x16::from_slice(&octets[at..]));
        if plain < PIECE {
            return at + plain;
        }
        at += PIECE;
    }
    last_plain_end(octets, at)
}

/// Where the digits end that may stand at a place.
#[inline(always)]
pub(crate) fn digits_end(octets: &[u8], from: usize) -> usize
    requires { from ≤ length octets.now }
    ensures value { result ≡ from + prefix_len is_ascii_digit (drop from octets.now) }
    ensures bound { result ≤ length octets.now }
{
    let mut at = from;
    'digits: while at < octets.len() && octets[at].is_ascii_digit() {
        at += 1;
    }
    at
}
