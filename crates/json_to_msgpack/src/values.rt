//! Values with what is inside, from the tokens of JSON.
ghost use Rattle.std.specs.Prelude.{◌≡◌, ◌<◌, ◌≤◌, ◌+◌, ◌⊎◌, ℕ, List, length, true, false, ◌&&◌, MatchOption, IfOk, OnOk};
ghost use Rattle.std.specs.Bool.{MatchBool};
ghost use Rattle.json_to_msgpack.specs.body.Fits.{is_read, is_within};
ghost use Rattle.json_to_msgpack.specs.body.Keys.{has_key};
ghost use Rattle.json_to_msgpack.specs.body.Values.{IsValuePut, IsListPut, IsDictPut};

use crate::deep_keys::DeepKeys;
use crate::fit::Fit;
use crate::leaves::{put_key, put_natural, put_other, put_string};
use crate::lexer::Lexer;
use crate::refusal::TextRefusal;
use crate::writing::{close_dict, close_list, put, put_null_at};
use bumpalo::Bump;
use std::alloc::Global;

/// What a text may nest beyond a message: where so many levels are left, there is no room for a list or dictionary.
const MORE_LEVELS: u8 = 27;

/// One more member: MessagePack counts them in four octets.
#[inline(always)]
fn one_more(count: u32) -> Result<u32, TextRefusal>
    ensures { IfOk result (λ n. n ≡ count + 1) }
{
    count.checked_add(1).ok_or(TextRefusal::Unclear)
}

/// The value that the next tokens are, nested no deeper than there are levels. What messages mostly
/// have is looked at first; no token is made of it.
#[cycle(values)]
#[inline(always)]
pub(crate) fn put_value<'a>(
    alloc: Global,
    arena: &'a Bump,
    lexer: &mut Lexer<'a>,
    level: u8,
    out: &mut Vec<u8>,
) -> Result<Fit, TextRefusal>
    ensures ok { IfOk result
        (λ fit. IsValuePut fit level lexer.old lexer.new out.old.items out.new.items) }
    ensures shorter { OnOk result (length lexer.new < length lexer.old) }
{
    if let Some(text) = lexer.take_plain() {
        put_string(alloc, text, out)?;
        return Ok(Fit::Within);
    }
    if let Some(natural) = lexer.take_natural() {
        put_natural(natural, out)?;
        return Ok(Fit::Within);
    }
    if lexer.take_begin_array() {
        if level == 0 {
            return Err(TextRefusal::Unclear);
        }
        return put_list(alloc, arena, lexer, level - 1, out);
    }
    if lexer.take_begin_object() {
        if level == 0 {
            return Err(TextRefusal::Unclear);
        }
        return put_dict(alloc, arena, lexer, level - 1, out);
    }
    if put_other(alloc, lexer, out)? {
        return Ok(Fit::Within);
    }
    Ok(Fit::Unreadable)
}

/// Whether a list is within the room still, behind a member more; `None` where that is unreadable.
#[inline(always)]
fn still_within(within: bool, fit: Fit) -> Option<bool>
    ensures { MatchOption result (is_read fit ≡ false)
        (λ still. (is_read fit ≡ true) × (still ≡ (within && is_within fit))) }
{
    match fit {
        Fit::Within => Some(within),
        Fit::TooDeep => Some(false),
        Fit::Unreadable => None,
    }
}

/// A list behind its opening bracket. Its head is written once its members are.
#[cycle(values)]
#[inline(never)]
fn put_list<'a>(
    alloc: Global,
    arena: &'a Bump,
    lexer: &mut Lexer<'a>,
    level: u8,
    out: &mut Vec<u8>,
) -> Result<Fit, TextRefusal>
    ensures ok { IfOk result
        (λ fit. IsListPut fit level lexer.old lexer.new out.old.items out.new.items) }
    ensures shorter { OnOk result (length lexer.new < length lexer.old) }
{
    let head = out.len();
    put(0, out)?;
    let mut count = 0;
    let mut within = level >= MORE_LEVELS;
    'items: while !lexer.take_end_array() {
        let fit = put_value(alloc, arena, lexer, level, out)?;
        let Some(still) = still_within(within, fit) else {
            return Ok(Fit::Unreadable);
        };
        within = still;
        count = one_more(count)?;
    }
    if within {
        close_list(alloc, head, count, out)?;
        return Ok(Fit::Within);
    }
    put_null_at(head, out);
    Ok(Fit::TooDeep)
}

/// Whether there is room for a dictionary, and none of its values is too deep.
#[inline(always)]
fn is_whole(level: u8, deep: &DeepKeys<'_>) -> bool
    ensures { MatchBool result
        ((27 ≤ level) × ((q : List ℕ) → has_key deep.now q ≡ false))
        ((level < 27) ⊎ ((q : List ℕ) × (has_key deep.now q ≡ true))) }
{
    level >= MORE_LEVELS && deep.is_empty()
}

/// A dictionary behind its opening bracket, repeated keys as they come: the last of them counts.
#[cycle(values)]
#[inline(never)]
fn put_dict<'a>(
    alloc: Global,
    arena: &'a Bump,
    lexer: &mut Lexer<'a>,
    level: u8,
    out: &mut Vec<u8>,
) -> Result<Fit, TextRefusal>
    ensures ok { IfOk result
        (λ fit. IsDictPut fit level lexer.old lexer.new out.old.items out.new.items) }
    ensures shorter { OnOk result (length lexer.new < length lexer.old) }
{
    let head = out.len();
    put(0, out)?;
    let mut count = 0;
    let mut deep = DeepKeys::new(alloc);
    'members: while !lexer.take_end_object() {
        let key = put_key(alloc, lexer, out)?;
        let fit = put_value(alloc, arena, lexer, level, out)?;
        if !fit.is_read() {
            return Ok(fit);
        }
        deep.note(arena, key, fit.is_within())?;
        count = one_more(count)?;
    }
    if is_whole(level, &deep) {
        close_dict(alloc, head, count, out)?;
        return Ok(Fit::Within);
    }
    put_null_at(head, out);
    Ok(Fit::TooDeep)
}
