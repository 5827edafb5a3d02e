//! What stands at the front of octets, with no memory.
ghost use Rattle.std.specs.Prelude.{◌≡◌, IfOk, IfErr, OnErr, Ok, Err, pos};
ghost use Rattle.msgpack_codec.specs.Tokens.{IsToken, IsNoToken};
ghost use Rattle.msgpack_codec.specs.body.Decoder.{leaf_at};
ghost use Rattle.msgpack_codec.specs.body.Tokens.{data_of, IsLeafToken};
ghost use Rattle.msgpack_codec.specs.Values.{text_from};

use crate::decoder::{number_in_two, number_of, octets_of, signed, size_of, sized};
use crate::fault::Fault;
use crate::format::{Form, form_of};
use crate::utf8::text_in;
use thiserror::Error;

/// The octets begin with no whole token.
#[derive(Clone, Copy, Debug, Drop, PartialEq, Eq, Error)]
#[error("E5 Malformed")]
pub struct Malformed;

/// A value with nothing inside, or how many members follow the head of a list or dictionary.
#[derive(Clone, Copy, Debug, Drop)]
pub enum Token<'a> {
    /// nil.
    Null,
    /// false or true.
    Flag(bool),
    /// A whole number, from -2^63 to 2^64 - 1.
    Whole(i128),
    /// A str that is UTF-8.
    Text(&'a str),
    /// A bin.
    Bytes(&'a [u8]),
    /// The head of an array: so many values follow.
    List(u64),
    /// The head of a map: so many keys follow, each with its value behind it.
    Dict(u64),
    /// What no tree carries: a float, a value of an extension type, a str that isn't UTF-8.
    Uncarried,
}

/// A str: uncarried where it isn't UTF-8.
fn text(octets: &[u8]) -> Token<'_>
    ensures data { data_of result ≡ text_from octets.now }
    ensures leaf { IsLeafToken result }
{
    match text_in(octets) {
        Ok(text) => Token::Text(text),
        Err(_) => Token::Uncarried,
    }
}

/// A value with nothing inside, after its first octet.
#[tactic(auto, unfolding(crate::specs::body::Decoder::leaf_at))]
fn leaf(form: Form, octets: &[u8]) -> Result<(Token<'_>, &[u8]), Fault>
    ensures ok { IfOk result (λ x. leaf_at form octets.now ≡ Ok (data_of x.0, x.1.now)) }
    ensures leaf { IfOk result (λ x. IsLeafToken x.0) }
    ensures err { IfErr result (λ e. leaf_at form octets.now ≡ Err e) }
{
    match form {
        Form::Null => Ok((Token::Null, octets)),
        Form::Flag(flag) => Ok((Token::Flag(flag), octets)),
        Form::Whole(number) => Ok((Token::Whole(i128::from(number)), octets)),
        Form::Unsigned(width) => {
            let (number, rest) = number_of(octets, width)?;
            Ok((Token::Whole(i128::from(number)), rest))
        }
        Form::Signed(width) => {
            let (number, rest) = number_of(octets, width)?;
            Ok((Token::Whole(signed(number, width)), rest))
        }
        Form::Text(size) => {
            let (found, rest) = sized(octets, size)?;
            Ok((text(found), rest))
        }
        Form::Bytes(size) => {
            let (found, rest) = sized(octets, size)?;
            Ok((Token::Bytes(found), rest))
        }
        Form::List(_) | Form::Dict(_) => Err(Fault::TooDeep),
        Form::Foreign(size) => {
            let (count, rest) = size_of(octets, size)?;
            let (_kind, rest) = octets_of(rest, 1)?;
            let (_found, rest) = octets_of(rest, count)?;
            Ok((Token::Uncarried, rest))
        }
        Form::Float(width) => {
            let (_number, rest) = number_of(octets, width)?;
            Ok((Token::Uncarried, rest))
        }
        Form::Never => Err(Fault::Malformed),
    }
}

/// The token at the front, whatever it is.
#[inline(never)]
fn any_token(octets: &[u8]) -> Result<(Token<'_>, &[u8]), Malformed>
    ensures ok { IfOk result (λ x. IsToken x.0 octets.now x.1.now) }
    ensures err { OnErr result (IsNoToken octets.now) }
{
    let Some((first, rest)) = octets.split_first() else {
        return Err(Malformed);
    };
    match form_of(*first) {
        Form::List(size) => match size_of(rest, size) {
            Ok((count, rest)) => Ok((Token::List(count), rest)),
            Err(_) => Err(Malformed),
        },
        Form::Dict(size) => match size_of(rest, size) {
            Ok((count, rest)) => Ok((Token::Dict(count), rest)),
            Err(_) => Err(Malformed),
        },
        form => match leaf(form, rest) {
            Ok((token, rest)) => Ok((token, rest)),
            Err(_) => Err(Malformed),
        },
    }
}

/// A number of one octet or two.
#[inline(always)]
fn whole<'a>(number: u16) -> Token<'a>
    ensures { result ≡ Token.Whole (pos number) }
{
    Token::Whole(i128::from(number))
}

/// The token at the front of octets, by any spelling of MessagePack's table (MessagePack
/// specification, "Formats"), and the octets after it: those of the first member, behind the head
/// of a list or dictionary. It takes no memory.
///
/// # Errors
/// [`Malformed`] where the octets begin with no whole token.
#[inline(always)]
pub fn first_token(octets: &[u8]) -> Result<(Token<'_>, &[u8]), Malformed>
    ensures ok { IfOk result (λ x. IsToken x.0 octets.now x.1.now) }
    ensures err { OnErr result (IsNoToken octets.now) }
{
    let Some((first, rest)) = octets.split_first() else {
        return any_token(octets);
    };
    // Mostly what is in one octet is asked for, or a number in two behind it.
    if *first < 0x80 {
        return Ok((whole(u16::from(*first)), rest));
    }
    if *first < 0x90 {
        return Ok((Token::Dict(u64::from(*first - 0x80)), rest));
    }
    if *first < 0xa0 {
        return Ok((Token::List(u64::from(*first - 0x90)), rest));
    }
    if *first == 0xcd {
        if let Some((number, rest)) = number_in_two(rest) {
            return Ok((whole(number), rest));
        }
    }
    any_token(octets)
}
