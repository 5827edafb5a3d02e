//! Controls that JSON leaves as they are.
ghost use Rattle.std.specs.Prelude.{◌≡◌, ◌<◌, ◌++◌, ◌∷◌, ℕ, List, IfOk, OnOk, false};
ghost use Rattle.std.specs.Char.{digit_char};
ghost use Rattle.client_commands.specs.Controls.{escape_of, shown, shown_from};

use memchr::memchr2;
use std::alloc::{AllocError, Global};

/// DEL.
const DELETE: u8 = 127;

/// The first octet of U+0080 to U+00BF in UTF-8.
const LEAD: u8 = 194;

/// The text, with an escape of JSON for DEL and each of U+0080 to U+009F.
///
/// # Errors
/// [`AllocError`] where a growth was refused.
pub(crate) fn shown(alloc: Global, text: Vec<u8>) -> Result<Vec<u8>, AllocError>
    ensures { IfOk result (λ v. v.items ≡ shown text.items) }
{
    if !may_have_controls(&text) {
        return Ok(text);
    }
    escaped(alloc, &text)
}

/// Whether an octet stands there with which such a control begins.
fn may_have_controls(text: &[u8]) -> bool
    ensures { result ≡ false → shown text.now ≡ text.now }
{
    match memchr2(DELETE, LEAD, text) {
        None => false,
        Some(_) => true,
    }
}

fn escaped(alloc: Global, text: &[u8]) -> Result<Vec<u8>, AllocError>
    ensures { IfOk result (λ v. v.items ≡ shown text.now) }
{
    let mut out = Vec::with_capacity(alloc, text.len())?;
    let mut is_behind = false;
    'octets: for octet in text {
        is_behind = add(&mut out, is_behind, *octet)?;
    }
    if is_behind {
        out.push(LEAD)?;
    }
    Ok(out)
}

/// Adds an octet, perhaps behind an octet 194 that isn't added yet. Tells whether this is one, and isn't added yet.
fn add(out: &mut Vec<u8>, is_behind: bool, octet: u8) -> Result<bool, AllocError>
    ensures { IfOk result (λ waits. (rest : List ℕ)
        → out.old.items ++ shown_from is_behind (octet ∷ rest)
        ≡ out.new.items ++ shown_from waits rest) }
{
    if is_behind {
        if octet < 160 {
            add_escape(out, octet)?;
        } else {
            out.extend_from_slice(&[LEAD, octet])?;
        }
        return Ok(false);
    }
    match octet {
        LEAD => return Ok(true),
        DELETE => add_escape(out, octet)?,
        _ => out.push(octet)?,
    }
    Ok(false)
}

/// Adds the escape of a character below 256.
fn add_escape(out: &mut Vec<u8>, octet: u8) -> Result<(), AllocError>
    ensures { OnOk result (out.new.items ≡ out.old.items ++ escape_of octet) }
{
    let digits = [digit(octet / 16), digit(octet % 16)];
    out.extend_from_slice(b"\\u00")?;
    out.extend_from_slice(&digits)
}

/// A digit to the base of 16.
fn digit(number: u8) -> u8
    requires { number < 16 }
    ensures { result ≡ digit_char number }
{
    if number < 10 {
        b'0' + number
    } else {
        b'a' + (number - 10)
    }
}
