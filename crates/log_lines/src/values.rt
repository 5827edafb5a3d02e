//! The parts of a line.
ghost use Rattle.std.specs.Prelude.{◌≡◌, ◌<◌, ◌++◌, true, OnOk, codes, decimal, ◌∷◌, []};
ghost use Rattle.log_lines.specs.Values.{are_plain, beginning, hex_digit, quoted, spelt, shown};

use std::alloc::{AllocError, Global};

/// Adds a text as it stands.
pub fn put(line: &mut Vec<u8>, text: &str) -> Result<(), AllocError>
    ensures { OnOk result (line.new.items ≡ line.old.items ++ text.now) }
{
    line.extend_from_slice(text.as_bytes())
}

/// Adds a number.
pub fn put_number(alloc: Global, line: &mut Vec<u8>, number: u64) -> Result<(), AllocError>
    ensures { OnOk result (line.new.items ≡ line.old.items ++ decimal number) }
{
    let digits = format!(in alloc; "{number}")?;
    put(line, digits.as_str())
}

/// The digit of a number below 16.
fn hex_digit(number: u8) -> u8
    requires { number < 16 }
    ensures { result ≡ hex_digit number }
{
    if number < 10 {
        b'0' + number
    } else {
        b'a' + (number - 10)
    }
}

/// Adds an octet of a quoted text.
fn put_octet(line: &mut Vec<u8>, octet: u8) -> Result<(), AllocError>
    ensures { OnOk result (line.new.items ≡ line.old.items ++ spelt octet) }
{
    if 32 <= octet && octet <= 126 && octet != b'"' && octet != b'\\' {
        line.push(octet)?;
        return Ok(());
    }
    let spelt = [
        b'\\',
        b'x',
        hex_digit(octet / 16 % 16),
        hex_digit(octet % 16),
    ];
    line.extend_from_slice(&spelt)
}

/// Adds the octets of a quoted text.
fn put_octets(line: &mut Vec<u8>, octets: &[u8]) -> Result<(), AllocError>
    ensures { OnOk result (line.new.items ≡ line.old.items ++ shown octets.now) }
{
    for octet in octets {
        put_octet(line, *octet)?;
    }
    Ok(())
}

/// Adds a text in quotes: between them stands printable ASCII, and no quote.
#[tactic(auto, using(crate::proofs::Plain::shown_plain))]
pub fn put_quoted(line: &mut Vec<u8>, text: &str) -> Result<(), AllocError>
    ensures plain { are_plain (shown text.now) ≡ true }
    ensures added { OnOk result (line.new.items ≡ line.old.items ++ quoted text.now) }
{
    put(line, "\"")?;
    put_octets(line, text.as_bytes())?;
    put(line, "\"")
}

/// How many octets of a client's text a line has.
const MOST_TOLD: usize = 128;

/// Adds the beginning of a text in quotes: 128 octets of it, or all if it has no more.
pub fn put_beginning(line: &mut Vec<u8>, text: &str) -> Result<(), AllocError>
    ensures { OnOk result (line.new.items ≡ line.old.items ++ quoted (beginning text.now)) }
{
    let octets = text.as_bytes();
    put(line, "\"")?;
    put_octets(line, &octets[..octets.len().min(MOST_TOLD)])?;
    put(line, "\"")
}

/// Ends a line by when it was told.
///
/// # Errors
/// [`AllocError`] where a growth of memory was refused.
pub fn end_line(line: &mut Vec<u8>, at: &str) -> Result<(), AllocError>
    ensures { OnOk result (line.new.items ≡ line.old.items ++ (codes " at=" ++ at.now ++ 10 ∷ [])) }
{
    put(line, " at=")?;
    put(line, at)?;
    put(line, "\n")
}
