//! The value at the front of octets.
ghost use Rattle.std.specs.Prelude.{◌≡◌, ◌≤◌, ◌++◌, ℕ, ℤ, List, IfSome, IfNone, Ok};
ghost use Rattle.message_tree.specs.Data.{whole};
ghost use Rattle.msgpack_codec.specs.body.Decoder.{value_at};
ghost use Rattle.msgpack_canonical.specs.body.Fitting.{IsUnread};

use crate::value::Value;
use msgpack_codec::{Token, first_token, pass};

/// The octets up to the rest of them.
#[inline(always)]
fn before<'a>(octets: &'a [u8], rest: &[u8]) -> &'a [u8]
    ensures { (front : List ℕ) → octets.entry.now ≡ front ++ rest.now → result.now ≡ front }
{
    octets.split_at(octets.len().saturating_sub(rest.len())).0
}

/// The value at the front of octets, which nests no more than `room` levels, and the octets after it; `None` where there is none.
///
/// `room` is 100 at most.
#[inline(always)]
pub fn first_value(octets: &[u8], room: u8) -> Option<(Value<'_>, &[u8])>
    requires { room ≤ 100 }
    ensures some { IfSome result (λ x. value_at room octets.now ≡ Ok (x.0, x.1.now)) }
    ensures none { IfNone result (IsUnread (value_at room octets.now)) }
{
    match pass(octets, room) {
        Ok(passed) => {
            let value = Value {
                octets: before(octets, passed.rest),
                room,
                is_shortest: passed.is_shortest,
            };
            Some((value, passed.rest))
        }
        Err(_) => None,
    }
}

/// The whole number at the front, and the octets after it; `None` where another value stands there, or none.
#[inline(always)]
pub(crate) fn whole_at(octets: &[u8]) -> Option<(i128, &[u8])>
    ensures some { IfSome result (λ x. (room : ℕ)
        → value_at room octets.now ≡ Ok (whole x.0, x.1.now)) }
    ensures none { IfNone result ((room : ℕ) (z : ℤ) (rest : List ℕ)
        → value_at room octets.now ≡ Ok (whole z, rest) → ⊥) }
{
    let Ok((token, rest)) = first_token(octets) else {
        return None;
    };
    match token {
        Token::Whole(number) => Some((number, rest)),
        _ => None,
    }
}
