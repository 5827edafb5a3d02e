//! One value.
ghost use Rattle.std.specs.Prelude.{◌≡◌, ◌≤◌, IfOk, IfErr, ℕ, List, Ok, true};
ghost use Rattle.message_tree.specs.Data.{Data};
ghost use Rattle.message_tree.specs.View.{view};
ghost use Rattle.msgpack_codec.specs.Grammar.{IsDeep, IsNoMessage, Spells};
ghost use Rattle.msgpack_codec.specs.Written.{IsShortest};
ghost use Rattle.msgpack_codec.specs.body.Tokens.{data_of as token_data};
ghost use Rattle.msgpack_cursor.specs.Seen.{BeginsAs, data_of};
ghost use Rattle.msgpack_cursor.specs.Standing.{dict_in};
ghost use Rattle.msgpack_cursor.specs.body.Fronts.{IsBegun, IsReadable};

use crate::dictionary::{Dictionary, are_keys_texts};
use crate::elements::Elements;
use crate::seen::{Beginning, Seen};
use message_tree::Tree;
use msgpack_codec::{Fault, Refusal, Token, decode, first_token, pass};
use std::alloc::{AllocError, Global};
use std::marker::Model;

/// The most levels that lists and dictionaries nest in a message.
const ROOM: u8 = 100;

/// A value, in the octets that spell it. Contracts see the data that they spell.
#[derive(Drop)]
pub struct Value<'a> {
    pub(crate) octets: &'a [u8],
    pub(crate) room: u8,
    pub(crate) is_shortest: bool,
}

/// How a value stands in a message.
#[derive(Clone, Copy, Debug, Drop)]
pub struct Spelling<'a> {
    /// The octets that spell the value.
    pub octets: &'a [u8],
    /// How many levels they may nest: at most 100.
    pub room: u8,
    /// Whether they are what [`encode`](msgpack_codec::encode) writes for it. Then it is carried.
    pub is_shortest: bool,
}

impl<'a> Model for Value<'a> {
    ghost use Rattle.message_tree.specs.Data.{Data};
    ghost use Rattle.message_tree.specs.Code.{data_code};
    ghost use Rattle.std.specs.Prelude.{◌≤◌};
    ghost use Rattle.msgpack_cursor.specs.Standing.{value_in, IsLeast, IsValue};

    ghost Value = { Data };

    ghost coded = { data_code };

    ghost view = { λ v. value_in v.room v.octets.now };

    ghost invariant = { λ v. IsValue v.room v.octets.now × (v.room ≤ 100)
        × IsLeast v.is_shortest v.room v.octets.now };
}

impl<'a> Value<'a> {
    /// The octets that spell it.
    #[inline(always)]
    pub fn spelling(&self) -> Spelling<'a>
        ensures spelled { Spells result.room result.octets.now self.now }
        ensures room { result.room ≤ 100 }
        ensures shortest { result.is_shortest ≡ true → IsShortest result.octets.now self.now }
    {
        Spelling {
            octets: self.octets,
            room: self.room,
            is_shortest: self.is_shortest,
        }
    }

    /// Its tree.
    ///
    /// # Errors
    /// [`AllocError`] where a growth was refused.
    pub fn tree(&self, alloc: Global) -> Result<Tree, AllocError>
        ensures { IfOk result (λ t. view t ≡ self.now) }
    {
        match decode(alloc, self.octets) {
            Ok(message) => Ok(message.into_tree()),
            Err(Fault::NoMemory) => Err(AllocError),
            Err(Fault::TooDeep) => unreachable!(),
            Err(Fault::Malformed) => unreachable!(),
            Err(Fault::UncarriedLeaf) => unreachable!(),
        }
    }

    /// What it begins as. No octet behind the first ones is looked at.
    #[inline(always)]
    pub fn beginning(&self) -> Beginning
        ensures { BeginsAs result self.now }
    {
        let Ok((token, _rest)) = first_token(self.octets) else {
            unreachable!()
        };
        beginning_of(&token)
    }

    /// What it is. Of a map each key is looked at, to see whether it is a dictionary.
    pub fn seen(&self) -> Seen<'a>
        ensures { data_of result ≡ self.now }
    {
        let Ok((token, rest)) = first_token(self.octets) else {
            unreachable!()
        };
        match token {
            Token::List(left) => Seen::List(Elements {
                octets: rest,
                left,
                room: self.room.saturating_sub(1),
            }),
            Token::Dict(count) => map(rest, count, self.room.saturating_sub(1)),
            _ => leaf(token),
        }
    }
}

/// What a token begins.
#[inline(always)]
fn beginning_of(token: &Token) -> Beginning
    ensures { IsBegun result token.now }
{
    match token {
        Token::Null => Beginning::Null,
        Token::Flag(_) | Token::Whole(_) | Token::Text(_) | Token::Bytes(_) => Beginning::Leaf,
        Token::List(_) => Beginning::List,
        Token::Dict(_) => Beginning::Map,
        Token::Uncarried => Beginning::Uncarried,
    }
}

/// A value with nothing inside.
fn leaf(token: Token<'_>) -> Seen<'_>
    ensures { data_of result ≡ token_data token.entry }
{
    match token {
        Token::Null => Seen::Null,
        Token::Flag(flag) => Seen::Flag(flag),
        Token::Whole(number) => Seen::Whole(number),
        Token::Text(text) => Seen::Text(text),
        Token::Bytes(octets) => Seen::Bytes(octets),
        Token::List(_) | Token::Dict(_) | Token::Uncarried => Seen::Uncarried,
    }
}

/// So many keys, each with its value behind it: a dictionary, where each key is a text.
fn map(octets: &[u8], count: u64, room: u8) -> Seen<'_>
    requires readable { IsReadable room count octets.now }
    requires room { room ≤ 100 }
    ensures { (d : Data) (rest : List ℕ) → dict_in room count octets.now ≡ Ok (d, rest)
        → data_of result ≡ d }
{
    if are_keys_texts(octets, count, room) {
        Seen::Dict(Dictionary {
            octets,
            count,
            room,
        })
    } else {
        Seen::Uncarried
    }
}

/// A message: the one value that the octets are.
///
/// # Errors
/// As of [`msgpack_codec::decode`]: [`Refusal::TooDeep`] where a list or map stands inside 100 others and each value before it is
/// whole; [`Refusal::Malformed`] where the octets otherwise are no value, or more than one.
pub fn message(octets: &[u8]) -> Result<Value<'_>, Refusal>
    ensures ok { IfOk result (λ v. Spells 100 octets.now v) }
    ensures too_deep { IfErr result (λ e. e ≡ Refusal.TooDeep → IsDeep 100 octets.now) }
    ensures malformed { IfErr result (λ e. e ≡ Refusal.Malformed → IsNoMessage octets.now) }
{
    let passed = match pass(octets, ROOM) {
        Ok(passed) => passed,
        Err(refusal) => return Err(refusal),
    };
    if !passed.rest.is_empty() {
        return Err(Refusal::Malformed);
    }
    Ok(Value {
        octets,
        room: ROOM,
        is_shortest: passed.is_shortest,
    })
}
