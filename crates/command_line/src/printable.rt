//! Text of unknown origin, as a line that a terminal can be given.
ghost use Rattle.std.specs.Prelude.{◌≡◌, ◌++◌, ◌<◌, ◌≤◌, IfOk, OnOk, length, take};
ghost use Rattle.command_line.specs.Reasons.{dots, hex_digit, shown, shown_line, shown_octet};

use std::alloc::{AllocError, Global};

/// How many octets of a text are shown.
const MOST: usize = 1000;

/// The digit of a number below 16.
fn hex_digit(number: u8) -> u8
    requires { number < 16 }
    ensures { result ≡ hex_digit number }
{
    if number < 10 {
        b'0' + number
    } else {
        b'a' + (number - 10)
    }
}

/// Adds an octet as it is shown.
fn push_shown(line: &mut Vec<u8>, octet: u8) -> Result<(), AllocError>
    ensures added { OnOk result (line.new.items ≡ line.old.items ++ shown_octet octet) }
{
    if 32 <= octet && octet <= 126 {
        line.push(octet)?;
        return Ok(());
    }
    let spelt = [b'\\', b'x', hex_digit(octet / 16), hex_digit(octet % 16)];
    line.extend_from_slice(&spelt)
}

/// The first octets, so many at most.
fn first(octets: &[u8], most: usize) -> &[u8]
    ensures { result.now ≡ take most octets.now }
{
    if octets.len() <= most {
        return octets;
    }
    &octets[..most]
}

/// What stands behind them.
fn dots(octets: &[u8]) -> &'static str
    ensures { result.now ≡ dots octets.now }
{
    if octets.len() <= MOST { "" } else { ".." }
}

/// A text as one line with its LF: what isn't printable ASCII is spelt by its octets, `\x1b`, and of more than 1,000 octets the first
/// 1,000 are shown, and then `..`.
///
/// # Errors
/// [`AllocError`] where a growth was refused.
pub fn shown_line(alloc: Global, text: &str) -> Result<Vec<u8>, AllocError>
    ensures line { IfOk result (λ line. line.items ≡ shown_line text.now) }
    ensures bounded { IfOk result (λ line. length line.items ≤ 4003) }
{
    line_of(alloc, text.as_bytes())
}

/// These octets as one line.
#[tactic(auto, unfolding(crate::specs::Reasons::first))]
fn line_of(alloc: Global, octets: &[u8]) -> Result<Vec<u8>, AllocError>
    ensures line { IfOk result (λ line. line.items ≡ shown_line octets.now) }
{
    let mut line = Vec::new(alloc);
    push_all(&mut line, first(octets, MOST))?;
    line.extend_from_slice(dots(octets).as_bytes())?;
    line.push(b'\n')?;
    Ok(line)
}

/// Adds octets as they are shown.
pub fn push_all(line: &mut Vec<u8>, octets: &[u8]) -> Result<(), AllocError>
    ensures added { OnOk result (line.new.items ≡ line.old.items ++ shown octets.now) }
{
    for octet in octets {
        push_shown(line, *octet)?;
    }
    Ok(())
}
