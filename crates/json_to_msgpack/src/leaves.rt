//! Values with nothing inside, and keys.
ghost use Rattle.std.specs.Prelude.{◌≡◌, ◌==◌, ◌<◌, ◌∷◌, length, pos, slice_index, OnOk, IfOk, IsTrue, true, false, Some, IfSome};
ghost use Rattle.message_tree.specs.Data.{fits_codecs, null, flag, whole, uncarried, text as text_data, bytes as bytes_data};
ghost use Rattle.std.specs.Float.{binary64, float_is_finite};
ghost use Rattle.fast_float.specs.Text.{minus, nearest};
ghost use Rattle.json.specs.Token as grammar;
ghost use Rattle.serde_json.specs.Data.{unsigned};
ghost use Rattle.serde_json.specs.Read.{number_of, number_from, float_of};
ghost use Rattle.json_codec.specs.Decoder.{string_tree};
ghost use Rattle.json_to_msgpack.specs.body.Lexing.{token_of};
ghost use Rattle.json_to_msgpack.specs.body.Values.{IsLeafAdded, IsTokenPut, IsLeafTaken, IsNumberPut, IsKeyAdded};
ghost use Rattle.json_to_msgpack.specs.body.Keys.{key_octets};

use crate::deep_keys::Key;
use crate::lexer::Lexer;
use crate::refusal::TextRefusal;
use crate::token::JsonToken;
use crate::writing::{put, put_all, put_bytes_head, put_from_zero, put_text_head, put_whole_short};
use base64::DecodeAllocError;
use base64::engine::general_purpose::STANDARD;
use fast_float::Numeral;
use std::alloc::Global;

/// The float 0: what isn't whole is uncarried, whatever its value.
const FLOAT: [u8; 5] = [0xca, 0, 0, 0, 0];

/// MessagePack counts octets in four octets at most.
const LIMIT: usize = 0x1_0000_0000;

/// A text, as it stands.
#[inline(always)]
fn put_text(text: &str, out: &mut Vec<u8>) -> Result<(), TextRefusal>
    ensures { OnOk result (IsLeafAdded (text_data text.now) out.old.items out.new.items) }
{
    if text.len() >= LIMIT {
        return Err(TextRefusal::Unclear);
    }
    put_text_head(text.len(), out)?;
    put_all(text.as_bytes(), out)
}

/// A byte string.
fn put_bytes(bytes: &[u8], out: &mut Vec<u8>) -> Result<(), TextRefusal>
    ensures { OnOk result (IsLeafAdded (bytes_data bytes.now) out.old.items out.new.items) }
{
    if bytes.len() >= LIMIT {
        return Err(TextRefusal::Unclear);
    }
    put_bytes_head(bytes.len(), out)?;
    put_all(bytes, out)
}

/// A whole number from 0.
#[inline(always)]
pub(crate) fn put_natural(number: u64, out: &mut Vec<u8>) -> Result<(), TextRefusal>
    ensures { OnOk result (IsLeafAdded (whole (pos number)) out.old.items out.new.items) }
{
    put_from_zero(number, out)
}

/// A whole number.
#[inline(always)]
fn put_whole(number: i128, out: &mut Vec<u8>) -> Result<(), TextRefusal>
    requires { fits_codecs number ≡ true }
    ensures { OnOk result (IsLeafAdded (whole number) out.old.items out.new.items) }
{
    put_whole_short(number, out)
}

fn put_null(out: &mut Vec<u8>) -> Result<(), TextRefusal>
    ensures { OnOk result (IsLeafAdded null out.old.items out.new.items) }
{
    put(0xc0, out)
}

fn put_flag(value: bool, out: &mut Vec<u8>) -> Result<(), TextRefusal>
    ensures { OnOk result (IsLeafAdded (flag value) out.old.items out.new.items) }
{
    if value {
        put(0xc3, out)
    } else {
        put(0xc2, out)
    }
}

/// A string: a byte string where it is the mark and then base64, otherwise a text.
#[inline(always)]
pub(crate) fn put_string(alloc: Global, text: &str, out: &mut Vec<u8>) -> Result<(), TextRefusal>
    ensures { OnOk result (IsLeafAdded (string_tree text.now) out.old.items out.new.items) }
{
    if let Some((0, rest)) = text.as_bytes().split_first() {
        return put_marked(alloc, text, rest, out);
    }
    put_text(text, out)
}

/// A string that begins with the mark, and what is behind this.
#[inline(never)]
fn put_marked(alloc: Global, text: &str, rest: &[u8], out: &mut Vec<u8>) -> Result<(), TextRefusal>
    requires { text.now ≡ 0 ∷ rest.now }
    ensures { OnOk result (IsLeafAdded (string_tree text.now) out.old.items out.new.items) }
{
    match STANDARD.decode(alloc, rest) {
        Ok(bytes) => put_bytes(&bytes, out),
        Err(DecodeAllocError::OutOfMemory) => Err(TextRefusal::NoMemory),
        Err(DecodeAllocError::DecodeError(_)) => put_text(text, out),
    }
}

/// A number that isn't whole, and whether it isn't too large for a float.
fn put_float(negative: bool, numeral: &Numeral, out: &mut Vec<u8>) -> Result<bool, TextRefusal>
    ensures { IfOk result
        (λ fits. IsNumberPut fits (float_of negative numeral.now) out.old.items out.new.items) }
{
    if !numeral.to_float::<f64>(negative).is_finite() {
        return Ok(false);
    }
    put_all(&FLOAT, out)?;
    Ok(true)
}

/// A number with no sign.
fn put_unsigned(numeral: &Numeral, out: &mut Vec<u8>) -> Result<bool, TextRefusal>
    ensures { IfOk result
        (λ fits. IsNumberPut fits (number_from false numeral.now) out.old.items out.new.items) }
{
    match numeral.to_u64() {
        Some(number) => {
            put_whole(i128::from(number), out)?;
            Ok(true)
        }
        None => put_float(false, numeral, out),
    }
}

/// A number behind a minus: -0 is a float.
fn put_negative(numeral: &Numeral, out: &mut Vec<u8>) -> Result<bool, TextRefusal>
    ensures { IfOk result
        (λ fits. IsNumberPut fits (number_from true numeral.now) out.old.items out.new.items) }
{
    match numeral.to_i64(true) {
        Some(number) if number < 0 => {
            put_whole(i128::from(number), out)?;
            Ok(true)
        }
        _ => put_float(true, numeral, out),
    }
}

/// Whether a number begins with a minus.
fn has_minus(number: &[u8]) -> bool
    ensures value { result ≡ (slice_index number.now 0 == minus) }
    ensures some { IsTrue result → 0 < length number.now }
{
    number.first() == Some(&b'-')
}

/// The number that digits are, where there is nothing else and not too many, as mostly.
#[inline(always)]
fn few_digits(number: &[u8]) -> Option<u64>
    ensures { IfSome result (λ n. number_of number.now ≡ Some (unsigned n)) }
{
    if number.is_empty() {
        return None;
    }
    let mut value: u64 = 0;
    'digits: for octet in number {
        if *octet < b'0' || *octet > b'9' || value > 99_999_999_999_999_999 {
            return None;
        }
        value = value * 10 + (*octet - b'0') as u64;
    }
    Some(value)
}

/// A number, by its text, and whether it isn't too large.
#[inline(always)]
fn put_number(number: &[u8], out: &mut Vec<u8>) -> Result<bool, TextRefusal>
    ensures { IfOk result
        (λ fits. IsNumberPut fits (number_of number.now) out.old.items out.new.items) }
{
    match few_digits(number) {
        Some(natural) => {
            put_natural(natural, out)?;
            Ok(true)
        }
        None => put_any_number(number, out),
    }
}

/// The same of any number.
#[inline(never)]
#[tactic(auto, unfolding(serde_json::specs::Read::number_of))]
fn put_any_number(number: &[u8], out: &mut Vec<u8>) -> Result<bool, TextRefusal>
    ensures { IfOk result
        (λ fits. IsNumberPut fits (number_of number.now) out.old.items out.new.items) }
{
    if has_minus(number) {
        put_negative(&Numeral::scan(&number[1..]), out)
    } else {
        put_unsigned(&Numeral::scan(number), out)
    }
}

/// The value that a token is, and whether it isn't a number too large.
#[inline(always)]
fn put_leaf(alloc: Global, token: JsonToken, out: &mut Vec<u8>) -> Result<bool, TextRefusal>
    ensures { IfOk result
        (λ fits. IsTokenPut fits (token_of token.entry) out.old.items out.new.items) }
{
    match token {
        JsonToken::Null => put_null(out)?,
        JsonToken::Flag(value) => put_flag(value, out)?,
        JsonToken::Number(number) => return put_number(number, out),
        JsonToken::String(text) => put_string(alloc, text.as_str(), out)?,
    }
    Ok(true)
}

/// A value with nothing inside, whatever it is, and whether it isn't a number too large.
#[inline(never)]
pub(crate) fn put_other(
    alloc: Global,
    lexer: &mut Lexer<'_>,
    out: &mut Vec<u8>,
) -> Result<bool, TextRefusal>
    ensures { IfOk result
        (λ fits. IsLeafTaken fits lexer.old lexer.new out.old.items out.new.items) }
{
    match lexer.take_token(alloc) {
        Ok(token) => put_leaf(alloc, token, out),
        Err(refusal) => Err(refusal),
    }
}

/// The key that is next, and its colon.
#[inline(always)]
pub(crate) fn put_key<'a>(
    alloc: Global,
    lexer: &mut Lexer<'a>,
    out: &mut Vec<u8>,
) -> Result<Key<'a>, TextRefusal>
    ensures { IfOk result
        (λ key. IsKeyAdded (key_octets key) lexer.old lexer.new out.old.items out.new.items) }
{
    if let Some(key) = lexer.take_plain_key() {
        put_text(key, out)?;
        return Ok(Key::Plain(key));
    }
    put_other_key(alloc, lexer, out)
}

/// The same of any key.
#[inline(never)]
fn put_other_key<'a>(
    alloc: Global,
    lexer: &mut Lexer<'a>,
    out: &mut Vec<u8>,
) -> Result<Key<'a>, TextRefusal>
    ensures { IfOk result
        (λ key. IsKeyAdded (key_octets key) lexer.old lexer.new out.old.items out.new.items) }
{
    let key = lexer.take_key(alloc)?;
    put_text(key.as_str(), out)?;
    Ok(Key::Unescaped(key))
}
