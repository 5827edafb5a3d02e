//! Numbers, `true`, `false` and `null` (RFC 8259, sections 3 and 6).
ghost use Rattle.std.specs.Prelude.{◌≡◌, ◌≤◌, ◌<◌, ◌+◌, ◌∷◌, length, drop, Some, IfSome, IsTrue};
ghost use Rattle.json.specs.Lex.{other, class};
ghost use Rattle.json.specs.Word.{head, after_digits, after_minus, after_sign, after_whole, after_fraction, after_exponent, after_number};
ghost use Rattle.json_to_msgpack.specs.body.Lexing.{IsPart, IsWordAt, IsNaturalAt, token_of};

use crate::scan::{digits_end, octet_at};
use crate::token::JsonToken;

/// Where digits end, of which there is one at least.
#[inline(always)]
fn some_digits(octets: &[u8], from: usize) -> Option<usize>
    requires { from ≤ length octets.now }
    ensures { IfSome result
        (λ end. IsPart octets.now from (after_digits (drop from octets.now)) end) }
{
    let end = digits_end(octets, from);
    if end == from { None } else { Some(end) }
}

/// Where the whole part of a number ends: it begins with no 0, unless it is 0.
#[inline(always)]
fn whole_end(octets: &[u8], from: usize) -> Option<usize>
    requires { from ≤ length octets.now }
    ensures { IfSome result
        (λ end. IsPart octets.now from (after_whole (drop from octets.now)) end) }
{
    match octet_at(octets, from) {
        Some(b'0') => Some(from + 1),
        _ => some_digits(octets, from),
    }
}

/// Where the digits behind a point end, if there is one.
#[inline(always)]
fn fraction_end(octets: &[u8], from: usize) -> Option<usize>
    requires { from ≤ length octets.now }
    ensures { IfSome result
        (λ end. IsPart octets.now from (after_fraction (drop from octets.now)) end) }
{
    match octet_at(octets, from) {
        Some(b'.') => some_digits(octets, from + 1),
        _ => Some(from),
    }
}

/// Where the sign of an exponent ends, if there is one.
#[inline(always)]
fn sign_end(octets: &[u8], from: usize) -> usize
    requires { from ≤ length octets.now }
    ensures { IsPart octets.now from (Some (after_sign (drop from octets.now))) result }
{
    match octet_at(octets, from) {
        Some(b'-') => from + 1,
        Some(b'+') => from + 1,
        _ => from,
    }
}

/// Where digits end that may have a sign.
#[inline(always)]
fn signed_end(octets: &[u8], from: usize) -> Option<usize>
    requires { from ≤ length octets.now }
    ensures { IfSome result
        (λ end. IsPart octets.now from (after_digits (after_sign (drop from octets.now))) end) }
{
    some_digits(octets, sign_end(octets, from))
}

/// Where an exponent ends, if there is one.
#[inline(always)]
fn exponent_end(octets: &[u8], from: usize) -> Option<usize>
    requires { from ≤ length octets.now }
    ensures { IfSome result
        (λ end. IsPart octets.now from (after_exponent (drop from octets.now)) end) }
{
    match octet_at(octets, from) {
        Some(b'e') => signed_end(octets, from + 1),
        Some(b'E') => signed_end(octets, from + 1),
        _ => Some(from),
    }
}

/// Where the minus of a number ends, if there is one.
#[inline(always)]
fn minus_end(octets: &[u8], from: usize) -> usize
    requires { from ≤ length octets.now }
    ensures { IsPart octets.now from (Some (after_minus (drop from octets.now))) result }
{
    match octet_at(octets, from) {
        Some(b'-') => from + 1,
        _ => from,
    }
}

/// Where a number ends.
#[inline(always)]
fn number_end(octets: &[u8], from: usize) -> Option<usize>
    requires { from ≤ length octets.now }
    ensures { IfSome result
        (λ end. IsPart octets.now from (after_number (drop from octets.now)) end) }
{
    let point = whole_end(octets, minus_end(octets, from))?;
    let power = fraction_end(octets, point)?;
    exponent_end(octets, power)
}

/// The number that digits at a place are, and where they end: of those that begin with no 0 and are
/// not too many, as mostly. Whether they are a word tells what stands behind them.
#[inline(always)]
pub(crate) fn natural_at(octets: &[u8], from: usize) -> Option<(u64, usize)>
    ensures { IfSome result (λ found. IsNaturalAt octets.now from found.0 found.1) }
{
    let first = octet_at(octets, from)?;
    if first < b'1' || first > b'9' {
        return None;
    }
    let mut value = (first - b'0') as u64;
    let mut at = from + 1;
    'digits: while at < octets.len() && octets[at].is_ascii_digit() {
        if value > 99_999_999_999_999_999 {
            return None;
        }
        value = value * 10 + (octets[at] - b'0') as u64;
        at += 1;
    }
    Some((value, at))
}

/// The number at a place.
#[inline(always)]
fn number_at<'a>(text: &'a str, at: usize) -> Option<(JsonToken<'a>, usize)>
    requires { (at < length text.now) × (head (drop at text.now) < 102)
        × (class (head (drop at text.now)) ≡ other) }
    ensures { IfSome result (λ found. IsWordAt text.now at (token_of found.0) found.1) }
{
    let octets = text.as_bytes();
    let end = number_end(octets, at)?;
    Some((JsonToken::Number(&octets[at..end]), end))
}

/// Whether three octets follow the one at a place.
#[inline(always)]
fn has_behind(octets: &[u8], at: usize, b: u8, c: u8, d: u8) -> bool
    requires { at < length octets.now }
    ensures { IsTrue result → drop (at + 1) octets.now ≡ b ∷ c ∷ d ∷ drop (at + 4) octets.now }
{
    octets.len() - at >= 4 && octets[at + 1] == b && octets[at + 2] == c && octets[at + 3] == d
}

/// The word at a place, and where it ends, if what is behind it ends a word.
#[inline(always)]
pub(crate) fn word_at<'a>(text: &'a str, at: usize) -> Option<(JsonToken<'a>, usize)>
    requires { at < length text.now }
    ensures { IfSome result (λ found. IsWordAt text.now at (token_of found.0) found.1) }
{
    let octets = text.as_bytes();
    let rest = &octets[at..];
    match octets[at] {
        b't' if has_behind(octets, at, b'r', b'u', b'e') => Some((JsonToken::Flag(true), at + 4)),
        b'f' if rest.starts_with(b"false") => Some((JsonToken::Flag(false), at + 5)),
        b'n' if has_behind(octets, at, b'u', b'l', b'l') => Some((JsonToken::Null, at + 4)),
        b'-' => number_at(text, at),
        b'0'..=b'9' => number_at(text, at),
        _ => None,
    }
}
