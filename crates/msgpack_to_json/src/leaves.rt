//! Values with nothing inside, as JSON.
ghost use Rattle.std.specs.Prelude.{◌≡◌, ◌++◌, OnOk, IfErr, Err, MatchOption, true, false};
ghost use Rattle.message_tree.specs.Data.{is_carried, fits_codecs, whole as whole_data, bytes as bytes_data, text as text_data};
ghost use Rattle.json_codec.specs.Encoder.{json_text};
ghost use Rattle.msgpack_codec.specs.Values.{is_text};
ghost use Rattle.msgpack_codec.specs.body.Tokens.{data_of, IsLeafToken};

use crate::fault::Fault;
use message_tree::{Appender, Tree};
use msgpack_codec::Token;
use std::alloc::{AllocError, Global};

/// Writes a whole number.
fn write_whole(alloc: Global, number: i128, out: &mut Appender) -> Result<(), Fault>
    ensures ok { OnOk result (out.new.since ≡ out.old.since ++ json_text (whole_data number)) }
    ensures fault { result ≡ Err Fault.Malformed → fits_codecs number ≡ false }
    ensures before { out.new.before ≡ out.old.before }
{
    if number < i64::MIN as i128 || number > u64::MAX as i128 {
        return Err(Fault::Malformed);
    }
    if number >= 0 {
        json_codec::encode_number_into(number as u64, out)?;
    } else {
        json_codec::encode_into(alloc, &Tree::Whole(number), out)?;
    }
    Ok(())
}

/// Writes a byte string.
fn write_bytes(alloc: Global, bytes: &[u8], out: &mut Appender) -> Result<(), AllocError>
    ensures ok { OnOk result (out.new.since ≡ out.old.since ++ json_text (bytes_data bytes.now)) }
    ensures before { out.new.before ≡ out.old.before }
{
    let mut copy = Vec::with_capacity(alloc, bytes.len())?;
    copy.extend_from_slice(bytes)?;
    json_codec::encode_into(alloc, &Tree::Bytes(copy), out)
}

/// Writes the JSON text of a value with nothing inside.
///
/// # Errors
/// [`Fault::NoMemory`] where a growth was refused, [`Fault::Malformed`] where the value isn't carried or has something
/// inside.
pub(crate) fn write_leaf(alloc: Global, token: Token<'_>, out: &mut Appender) -> Result<(), Fault>
    ensures ok { OnOk result (out.new.since ≡ out.old.since ++ json_text (data_of token.entry)) }
    ensures leaf { OnOk result (IsLeafToken token.entry) }
    ensures fault { result ≡ Err Fault.Malformed → is_carried (data_of token.entry) ≡ false }
    ensures before { out.new.before ≡ out.old.before }
{
    match token {
        Token::Null => Ok(out.put_all(b"null")?),
        Token::Flag(true) => Ok(out.put_all(b"true")?),
        Token::Flag(false) => Ok(out.put_all(b"false")?),
        Token::Whole(number) => write_whole(alloc, number, out),
        Token::Text(text) => Ok(json_codec::encode_text_into(alloc, text, out)?),
        Token::Bytes(bytes) => Ok(write_bytes(alloc, bytes, out)?),
        Token::List(_) => Err(Fault::Malformed),
        Token::Dict(_) => Err(Fault::Malformed),
        Token::Uncarried => Err(Fault::Malformed),
    }
}

/// The text that a token is.
pub(crate) fn text_of(token: Token<'_>) -> Option<&str>
    ensures { MatchOption result (is_text (data_of token.entry) ≡ false)
        (λ text. (data_of token.entry ≡ text_data text.now) × IsLeafToken token.entry) }
{
    match token {
        Token::Text(text) => Some(text),
        Token::Null => None,
        Token::Flag(_) => None,
        Token::Whole(_) => None,
        Token::Bytes(_) => None,
        Token::List(_) => None,
        Token::Dict(_) => None,
        Token::Uncarried => None,
    }
}
