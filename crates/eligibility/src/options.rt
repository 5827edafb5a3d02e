//! Reading one option by its kind. An option whose value is null counts as absent.
ghost use Rattle.std.specs.Prelude.{◌≡◌, IfOk, OnErr, IfErr, Some, None};
ghost use Rattle.eligibility.specs.Options.{flag_or, list_or_none, number_of, text_of};

use crate::fault::Fault;
use crate::numbers::{Numbers, large_count};
use crate::texts::Texts;
use msgpack_cursor::{Seen, Value};
use std::alloc::Global;

/// A flag, or `absent` where none is given.
pub(crate) fn flag_of(option: &Option<Value<'_>>, absent: bool) -> Result<bool, Fault>
    ensures ok { IfOk result (λ b. flag_or absent option.now ≡ Some b) }
    ensures bad { OnErr result (flag_or absent option.now ≡ None) }
    ensures fault { IfErr result (λ fault. fault ≡ Fault.Shape) }
{
    let Some(value) = option else {
        return Ok(absent);
    };
    match value.seen() {
        Seen::Null => Ok(absent),
        Seen::Flag(flag) => Ok(flag),
        _ => Err(Fault::Shape),
    }
}

/// How many large numbers a value lists.
fn room_of(value: &Value<'_>) -> usize {
    match value.seen() {
        Seen::List(items) => large_count(items),
        _ => 0,
    }
}

/// The numbers that an option lists, where it does.
pub(crate) fn numbers_of(
    alloc: Global,
    option: &Option<Value<'_>>,
) -> Result<Option<Numbers>, Fault>
    ensures ok { IfOk result (λ r. list_or_none number_of option.now ≡ Some r) }
    ensures bad { result ≡ Err Fault.Shape → list_or_none number_of option.now ≡ None }
{
    let Some(value) = option else {
        return Ok(None);
    };
    match value.seen() {
        Seen::Null => Ok(None),
        Seen::List(items) => {
            let room = room_of(value);
            let numbers = Numbers::of(alloc, value.spelling().octets, items, room)?;
            Ok(Some(numbers))
        }
        _ => Err(Fault::Shape),
    }
}

/// The texts that an option lists, where it does.
pub(crate) fn texts_of(alloc: Global, option: &Option<Value<'_>>) -> Result<Option<Texts>, Fault>
    ensures ok { IfOk result (λ r. list_or_none text_of option.now ≡ Some r) }
    ensures bad { result ≡ Err Fault.Shape → list_or_none text_of option.now ≡ None }
{
    let Some(value) = option else {
        return Ok(None);
    };
    match value.seen() {
        Seen::Null => Ok(None),
        Seen::List(_) => {
            let texts = Texts::of(alloc, value.spelling().octets)?;
            Ok(Some(texts))
        }
        _ => Err(Fault::Shape),
    }
}
