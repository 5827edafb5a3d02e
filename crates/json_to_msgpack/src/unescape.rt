//! The content of a string that has escapes (RFC 8259, section 7).
ghost use Rattle.std.specs.Prelude.{◌≡◌, ◌≤◌, ◌<◌, ◌+◌, ◌-◌, ◌*◌, length, drop, Some, IfSome, IfOk};
ghost use Rattle.std.specs.Char.{digit_value};
ghost use Rattle.std.specs.Str.{IsUtf8};
ghost use Rattle.std.specs.String.{string_bytes};
ghost use Rattle.json.specs.Text.{short_escape, after_backslash, after_u, after_high};
ghost use Rattle.json.specs.Lex.{in_string, in_escape};
ghost use Rattle.json_to_msgpack.specs.body.Lexing.{IsUnit, IsEscape, IsStringAt};

use crate::refusal::TextRefusal;
use crate::scan::{octet_at, plain_end};
use std::alloc::Global;

/// The number that a digit is, up to 35 with letters of both cases, or 36.
fn digit(octet: u8) -> u32
    ensures { result ≡ digit_value octet }
{
    match octet {
        b'0'..=b'9' => (octet - b'0') as u32,
        b'A'..=b'Z' => (octet - b'A') as u32 + 10,
        b'a'..=b'z' => (octet - b'a') as u32 + 10,
        _ => 36,
    }
}

/// The code unit that four hexadecimal digits at a place spell.
fn unit_at(octets: &[u8], at: usize) -> Option<u32>
    requires { at ≤ length octets.now }
    ensures spelled { IfSome result
        (λ u. IsUnit (drop at octets.now) u (drop (at + 4) octets.now)) }
    ensures bounds { IfSome result (λ u. (u < 65536) × (at + 4 ≤ length octets.now)) }
{
    if octets.len() - at < 4 {
        return None;
    }
    let a = digit(octets[at]);
    let b = digit(octets[at + 1]);
    let c = digit(octets[at + 2]);
    let d = digit(octets[at + 3]);
    if a >= 16 || b >= 16 || c >= 16 || d >= 16 {
        return None;
    }
    Some(((a * 16 + b) * 16 + c) * 16 + d)
}

/// The second half of a surrogate pair, behind the first: the character, and where the text goes
/// on.
fn low_half(octets: &[u8], at: usize, high: u32) -> Option<(char, usize)>
    requires { (at ≤ length octets.now) × (0xd800 ≤ high) × (high < 0xdc00) }
    ensures read { IfSome result
        (λ r. IsEscape (after_high high) in_string (drop at octets.now) r.0 (drop r.1 octets.now)) }
    ensures bounds { IfSome result (λ r. (at < r.1) × (r.1 ≤ length octets.now)) }
{
    if octets.len() - at < 2 || octets[at] != b'\\' || octets[at + 1] != b'u' {
        return None;
    }
    let low = unit_at(octets, at + 2)?;
    if low < 0xdc00 || low >= 0xe000 {
        return None;
    }
    let c = char::from_u32(0x10000 + (high - 0xd800) * 1024 + (low - 0xdc00))?;
    Some((c, at + 6))
}

/// What follows `\u`.
fn unicode(octets: &[u8], at: usize) -> Option<(char, usize)>
    requires { at ≤ length octets.now }
    ensures read { IfSome result
        (λ r. IsEscape after_u in_string (drop at octets.now) r.0 (drop r.1 octets.now)) }
    ensures bounds { IfSome result (λ r. (at < r.1) × (r.1 ≤ length octets.now)) }
{
    let unit = unit_at(octets, at)?;
    if 0xd800 <= unit && unit < 0xdc00 {
        return low_half(octets, at + 4, unit);
    }
    let c = char::from_u32(unit)?;
    Some((c, at + 4))
}

/// The character that a letter stands for behind a backslash.
#[tactic(auto, unfolding(json::specs::Text::short_escape))]
fn short(octet: u8) -> Option<u8>
    ensures { IfSome result
        (λ c. (short_escape octet ≡ Some c) × (octet < 117) × (c < 128)) }
{
    match octet {
        b'"' => Some(b'"'),
        b'\\' => Some(b'\\'),
        b'/' => Some(b'/'),
        b'b' => Some(8),
        b'f' => Some(12),
        b'n' => Some(b'\n'),
        b'r' => Some(b'\r'),
        b't' => Some(b'\t'),
        _ => None,
    }
}

/// What follows a backslash: the character that it stands for, and where the text goes on.
fn escape(octets: &[u8], at: usize) -> Option<(char, usize)>
    requires { at ≤ length octets.now }
    ensures read { IfSome result (λ r. IsEscape after_backslash in_escape (drop at octets.now) r.0
        (drop r.1 octets.now)) }
    ensures bounds { IfSome result (λ r. (at < r.1) × (r.1 ≤ length octets.now)) }
{
    let octet = octet_at(octets, at)?;
    if octet == b'u' {
        return unicode(octets, at + 1);
    }
    let c = short(octet)?;
    Some((c as char, at + 1))
}

/// A string from its first octet on, without its escapes, and where the text goes on behind it.
#[inline(never)]
pub(crate) fn unescape(
    alloc: Global,
    text: &str,
    from: usize,
) -> Result<(String, usize), TextRefusal>
    requires { (from ≤ length text.now) × IsUtf8 (drop from text.now) }
    ensures { IfOk result (λ r. IsStringAt text.now from (string_bytes r.0) r.1) }
{
    let octets = text.as_bytes();
    let mut unescaped = String::new(alloc);
    let mut at = from;
    'pieces: loop {
        let stop = plain_end(octets, at);
        let Some(end) = octet_at(octets, stop) else {
            return Err(TextRefusal::Unclear);
        };
        if end != b'"' && end != b'\\' {
            return Err(TextRefusal::Unclear);
        }
        unescaped.push_str(&text[at..stop])?;
        if end == b'"' {
            return Ok((unescaped, stop + 1));
        }
        let Some((c, next)) = escape(octets, stop + 1) else {
            return Err(TextRefusal::Unclear);
        };
        unescaped.push(c)?;
        at = next;
    }
}
