//! Values with nothing inside.
ghost use Rattle.std.specs.Prelude.{◌≡◌, ◌<◌, ◌^◌, ◌++◌, ℕ, List, IfOk, true};
ghost use Rattle.message_tree.specs.Data.{whole, text, bytes};
ghost use Rattle.msgpack_codec.specs.Short.{short};
ghost use Rattle.msgpack_codec.specs.body.Tokens.{data_of};
ghost use Rattle.msgpack_canonical.specs.body.Entries.{parted};
ghost use Rattle.msgpack_canonical.specs.body.Fitting.{fits as fits_of};

use crate::heads::put_bytes_head;
use message_tree::{Appender, Tree};
use msgpack_codec::{Fault, Token, encode_into, encode_text_into};
use std::alloc::AllocError;

/// A whole number, where it is in the range of both serializations.
fn put_whole(number: i128, out: &mut Appender) -> Result<bool, AllocError>
    ensures fits { IfOk result (λ b. b ≡ fits_of (whole number)) }
    ensures written { IfOk result (λ b. b ≡ true
        → out.new.since ≡ out.old.since ++ short (whole number)) }
    ensures before { out.new.before ≡ out.old.before }
{
    if number < i64::MIN as i128 || number > u64::MAX as i128 {
        return Ok(false);
    }
    match encode_into(&Tree::Whole(number), out) {
        Ok(()) => Ok(true),
        Err(_) => Err(AllocError),
    }
}

/// A text, where it has fewer than 2^32 octets.
pub(crate) fn put_text(of: &str, out: &mut Appender) -> Result<bool, AllocError>
    ensures fits { IfOk result (λ b. b ≡ fits_of (text of.now)) }
    ensures read { IfOk result (λ b. b ≡ true → (rest : List ℕ)
        → parted (short (text of.now) ++ rest) ≡ (of.now, rest)) }
    ensures written { IfOk result (λ b. b ≡ true
        → out.new.since ≡ out.old.since ++ short (text of.now)) }
    ensures before { out.new.before ≡ out.old.before }
{
    match encode_text_into(of, out) {
        Ok(()) => Ok(true),
        Err(Fault::UncarriedLeaf) => Ok(false),
        Err(_) => Err(AllocError),
    }
}

/// A byte string, where it has fewer than 2^32 octets.
fn put_bytes(of: &[u8], out: &mut Appender) -> Result<bool, AllocError>
    ensures fits { IfOk result (λ b. b ≡ fits_of (bytes of.now)) }
    ensures written { IfOk result (λ b. b ≡ true
        → out.new.since ≡ out.old.since ++ short (bytes of.now)) }
    ensures before { out.new.before ≡ out.old.before }
{
    if of.len() >= 0x1_0000_0000 {
        return Ok(false);
    }
    put_bytes_head(out, of.len() as u32)?;
    out.put_all(of)?;
    Ok(true)
}

/// Writes a value with nothing inside, and says whether it is carried and has fewer than 2^32
/// octets. Heads of lists and dictionaries aren't values.
pub(crate) fn put_leaf(token: Token, out: &mut Appender) -> Result<bool, AllocError>
    ensures fits { IfOk result (λ b. b ≡ fits_of (data_of token.entry)) }
    ensures written { IfOk result (λ b. b ≡ true
        → out.new.since ≡ out.old.since ++ short (data_of token.entry)) }
    ensures before { out.new.before ≡ out.old.before }
{
    match token {
        Token::Null => {
            out.put(0xc0)?;
            Ok(true)
        }
        Token::Flag(true) => {
            out.put(0xc3)?;
            Ok(true)
        }
        Token::Flag(false) => {
            out.put(0xc2)?;
            Ok(true)
        }
        Token::Whole(number) => put_whole(number, out),
        Token::Text(text) => put_text(text, out),
        Token::Bytes(octets) => put_bytes(octets, out),
        Token::List(_) | Token::Dict(_) | Token::Uncarried => Ok(false),
    }
}
