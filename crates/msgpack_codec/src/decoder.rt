//! Octets to messages.
ghost use Rattle.std.specs.Prelude.{◌≡◌, ◌≢◌, ◌<◌, ◌≤◌, ◌+◌, ◌^◌, max, vec_len, vec_capacity, length, IfOk, IfErr, IfSome, OnOk, Ok, Err, true, ◌&&◌, if◌then◌else◌};
ghost use Rattle.msgpack_codec.specs.body.Decoder.{number_at, octets_at, size_at, sized_at, leaf_at, nest_at, value_at, items_at, dict_at, message_at};
ghost use Rattle.msgpack_codec.specs.Values.{signed_from, text_from, is_text, keep_entry};
ghost use Rattle.message_tree.specs.Data.{no_items, no_entries, uncarried, dict as of_dict};
ghost use Rattle.message_tree.specs.Data.{depth};
ghost use Rattle.msgpack_codec.specs.Grammar.{Spells, IsDeep, IsNoMessage};
ghost use Rattle.message_tree.specs.Meaning.{meaning};
ghost use Rattle.message_tree.specs.View.{view, items_view, dict_view};

use crate::fault::Fault;
use crate::format::{Form, Size, Width, form_of};
use crate::utf8::text_in;
use message_tree::{Dict, Message, Tree};
use std::alloc::{AllocError, Global};

/// So many octets at the front, and those after them.
pub(crate) fn octets_of(octets: &[u8], count: u64) -> Result<(&[u8], &[u8]), Fault>
    ensures ok { IfOk result (λ x. octets_at count octets.now ≡ Ok (x.0.now, x.1.now)) }
    ensures err { IfErr result (λ e. octets_at count octets.now ≡ Err e) }
{
    if (octets.len() as u64) < count {
        return Err(Fault::Malformed);
    }
    Ok(octets.split_at(count as usize))
}

/// The number at the front, the highest octet first.
pub(crate) fn number_of(octets: &[u8], width: Width) -> Result<(u64, &[u8]), Fault>
    ensures ok { IfOk result (λ x. number_at width octets.now ≡ Ok (x.0, x.1.now)) }
    ensures err { IfErr result (λ e. number_at width octets.now ≡ Err e) }
{
    match width {
        Width::One => {
            let (front, rest) = octets_of(octets, 1)?;
            Ok((u64::from(u8::from_be_bytes([front[0]])), rest))
        }
        Width::Two => {
            let (front, rest) = octets_of(octets, 2)?;
            Ok((u64::from(u16::from_be_bytes([front[0], front[1]])), rest))
        }
        Width::Four => {
            let (front, rest) = octets_of(octets, 4)?;
            let number = u32::from_be_bytes([front[0], front[1], front[2], front[3]]);
            Ok((u64::from(number), rest))
        }
        Width::Eight => {
            let (front, rest) = octets_of(octets, 8)?;
            let number = u64::from_be_bytes([
                front[0], front[1], front[2], front[3], front[4], front[5], front[6], front[7],
            ]);
            Ok((number, rest))
        }
    }
}

/// The number in the two octets at the front, as most that take more than one are.
#[inline(always)]
pub(crate) fn number_in_two(octets: &[u8]) -> Option<(u16, &[u8])>
    ensures { IfSome result (λ x. number_at Width.Two octets.now ≡ Ok (x.0, x.1.now)) }
{
    if octets.len() < 2 {
        return None;
    }
    let (front, rest) = octets.split_at(2);
    Some((u16::from_be_bytes([front[0], front[1]]), rest))
}

/// The same of four octets.
#[inline(always)]
pub(crate) fn number_in_four(octets: &[u8]) -> Option<(u32, &[u8])>
    ensures number { IfSome result (λ x. number_at Width.Four octets.now ≡ Ok (x.0, x.1.now)) }
    ensures bound { IfSome result (λ x. x.0 < 2 ^ 32) }
{
    if octets.len() < 4 {
        return None;
    }
    let (front, rest) = octets.split_at(4);
    Some((
        u32::from_be_bytes([front[0], front[1], front[2], front[3]]),
        rest,
    ))
}

/// A length, which may stand at the front.
#[tactic(auto, unfolding(crate::specs::body::Decoder::size_at))]
pub(crate) fn size_of(octets: &[u8], size: Size) -> Result<(u64, &[u8]), Fault>
    ensures ok { IfOk result (λ x. size_at size octets.now ≡ Ok (x.0, x.1.now)) }
    ensures err { IfErr result (λ e. size_at size octets.now ≡ Err e) }
{
    match size {
        Size::Here(count) => Ok((u64::from(count), octets)),
        Size::Next(width) => number_of(octets, width),
    }
}

/// As many octets as the length before them says.
#[tactic(auto, unfolding(crate::specs::body::Decoder::sized_at))]
pub(crate) fn sized(octets: &[u8], size: Size) -> Result<(&[u8], &[u8]), Fault>
    ensures ok { IfOk result (λ x. sized_at size octets.now ≡ Ok (x.0.now, x.1.now)) }
    ensures err { IfErr result (λ e. sized_at size octets.now ≡ Err e) }
{
    let (count, rest) = size_of(octets, size)?;
    octets_of(rest, count)
}

/// Two's complement.
pub(crate) fn signed(number: u64, width: Width) -> i128
    ensures { result ≡ signed_from width number }
{
    let number = number as i128;
    let half = match width {
        Width::One => 0x80,
        Width::Two => 0x8000,
        Width::Four => 0x8000_0000,
        Width::Eight => 0x8000_0000_0000_0000,
    };
    if number < half {
        number
    } else {
        number - 2 * half
    }
}

/// A str that isn't UTF-8 is read past.
fn text(alloc: Global, octets: &[u8]) -> Result<Tree, AllocError>
    ensures ok { IfOk result (λ t. view t ≡ text_from octets.now) }
{
    match text_in(octets) {
        Ok(text) => Ok(Tree::Text(String::from_str(alloc, text)?)),
        Err(_) => Ok(Tree::Uncarried),
    }
}

/// A value with nothing inside, after its first octet.
#[tactic(auto, unfolding(crate::specs::body::Decoder::leaf_at))]
fn leaf(alloc: Global, form: Form, octets: &[u8]) -> Result<(Tree, &[u8]), Fault>
    ensures ok { IfOk result (λ x. leaf_at form octets.now ≡ Ok (view x.0, x.1.now)) }
    ensures err { IfErr result (λ e. e ≢ Fault.NoMemory → leaf_at form octets.now ≡ Err e) }
{
    match form {
        Form::Null => Ok((Tree::Null, octets)),
        Form::Flag(flag) => Ok((Tree::Flag(flag), octets)),
        Form::Whole(number) => Ok((Tree::Whole(i128::from(number)), octets)),
        Form::Unsigned(width) => {
            let (number, rest) = number_of(octets, width)?;
            Ok((Tree::Whole(i128::from(number)), rest))
        }
        Form::Signed(width) => {
            let (number, rest) = number_of(octets, width)?;
            Ok((Tree::Whole(signed(number, width)), rest))
        }
        Form::Text(size) => {
            let (found, rest) = sized(octets, size)?;
            Ok((text(alloc, found)?, rest))
        }
        Form::Bytes(size) => {
            let (found, rest) = sized(octets, size)?;
            Ok((Tree::Bytes(Vec::from_slice(alloc, found)?), rest))
        }
        Form::List(_) | Form::Dict(_) => Err(Fault::TooDeep),
        Form::Foreign(size) => {
            let (count, rest) = size_of(octets, size)?;
            let (_kind, rest) = octets_of(rest, 1)?;
            let (_found, rest) = octets_of(rest, count)?;
            Ok((Tree::Uncarried, rest))
        }
        Form::Float(width) => {
            let (_number, rest) = number_of(octets, width)?;
            Ok((Tree::Uncarried, rest))
        }
        Form::Never => Err(Fault::Malformed),
    }
}

/// The value at the front, which nests no more than `room` levels.
#[cycle(value)]
#[tactic(auto, unfolding(crate::specs::body::Decoder::value_at))]
fn value(alloc: Global, octets: &[u8], room: u8) -> Result<(Tree, &[u8]), Fault>
    ensures ok { IfOk result (λ x. value_at room octets.now ≡ Ok (view x.0, x.1.now)) }
    ensures err { IfErr result (λ e. e ≢ Fault.NoMemory → value_at room octets.now ≡ Err e) }
{
    let Some((first, rest)) = octets.split_first() else {
        return Err(Fault::Malformed);
    };
    let form = form_of(*first);
    if room == 0 {
        leaf(alloc, form, rest)
    } else {
        nest(alloc, form, rest, room - 1)
    }
}

/// A value after its first octet, with what is inside.
#[cycle(value)]
#[tactic(auto, unfolding(crate::specs::body::Decoder::nest_at))]
fn nest(alloc: Global, form: Form, octets: &[u8], room: u8) -> Result<(Tree, &[u8]), Fault>
    ensures ok { IfOk result (λ x. nest_at (value_at room) form octets.now
        ≡ Ok (view x.0, x.1.now)) }
    ensures err { IfErr result (λ e. e ≢ Fault.NoMemory
        → nest_at (value_at room) form octets.now ≡ Err e) }
{
    match form {
        Form::List(size) => {
            let (count, rest) = size_of(octets, size)?;
            let (found, rest) = items(alloc, rest, count, room)?;
            Ok((Tree::List(found), rest))
        }
        Form::Dict(size) => {
            let (count, rest) = size_of(octets, size)?;
            dict(alloc, rest, count, room)
        }
        _ => leaf(alloc, form, octets),
    }
}

/// Makes room for one more, where there is none: for eight at first and then for twice as many as
/// before, but for no more than the list still says to have, nor for more than this one and one at
/// each octet that is left.
fn make_room(found: &mut Vec<Tree>, count: u64, left: usize) -> Result<(), AllocError>
    ensures items { found.new.items ≡ found.old.items }
    ensures room { OnOk result (vec_len found.new < vec_capacity found.new) }
    ensures few { vec_capacity found.new
        ≤ max (vec_capacity found.old) (vec_len found.old + left + 1) }
{
    let len = found.len();
    if found.capacity() == len {
        let behind = (count as usize).saturating_sub(len).saturating_sub(1);
        let more = len.max(7).min(behind).min(left);
        found.reserve_exact(more.saturating_add(1))?;
    }
    Ok(())
}

/// So many values.
#[cycle(value)]
fn items(alloc: Global, octets: &[u8], count: u64, room: u8) -> Result<(Vec<Tree>, &[u8]), Fault>
    ensures ok { IfOk result (λ x. items_at (value_at room) count no_items octets.now
        ≡ Ok (items_view x.0.items, x.1.now)) }
    ensures err { IfErr result (λ e. e ≢ Fault.NoMemory
        → items_at (value_at room) count no_items octets.now ≡ Err e) }
{
    let mut found = Vec::new(alloc);
    let mut rest = octets;
    for _ in 0..count {
        let (item, after) = value(alloc, rest, room)?;
        make_room(&mut found, count, after.len())?;
        found.push_reserved(item);
        rest = after;
    }
    Ok((found, rest))
}

/// So many keys, each with its value behind it.
#[cycle(value)]
fn dict(alloc: Global, octets: &[u8], count: u64, room: u8) -> Result<(Tree, &[u8]), Fault>
    ensures ok { IfOk result (λ x. dict_at (value_at room) count no_entries true octets.now
        ≡ Ok (view x.0, x.1.now)) }
    ensures err { IfErr result (λ e. e ≢ Fault.NoMemory
        → dict_at (value_at room) count no_entries true octets.now ≡ Err e) }
{
    let mut found = Dict::new(alloc);
    let mut texts = true;
    let mut rest = octets;
    for _ in 0..count {
        let (key, after) = value(alloc, rest, room)?;
        let (item, after) = value(alloc, after, room)?;
        texts = keep(alloc, &mut found, texts, key, item)?;
        rest = after;
    }
    Ok((whole(found, texts), rest))
}

/// What a map is whose keys all were texts, or not.
fn whole(found: Dict, texts: bool) -> Tree
    ensures { view result ≡ (if texts then of_dict (dict_view found) else uncarried) }
{
    if texts {
        Tree::Dict(found)
    } else {
        Tree::Uncarried
    }
}

/// Sets a key that is a text, and says whether all so far were.
fn keep(
    alloc: Global,
    found: &mut Dict,
    texts: bool,
    key: Tree,
    item: Tree,
) -> Result<bool, AllocError>
    ensures text { IfOk result (λ b. b ≡ texts && is_text (view key)) }
    ensures entries { OnOk result
        (dict_view found.new ≡ keep_entry (view key) (view item) (dict_view found.old)) }
{
    match key {
        Tree::Text(name) => {
            found.set(alloc, name, item)?;
            Ok(texts)
        }
        _ => Ok(false),
    }
}

/// Exactly one value.
#[tactic(auto, unfolding(crate::specs::body::Decoder::message_at))]
fn tree(alloc: Global, octets: &[u8]) -> Result<Tree, Fault>
    ensures ok { IfOk result (λ t. message_at octets.now ≡ Ok (view t)) }
    ensures err { IfErr result (λ e. e ≢ Fault.NoMemory → message_at octets.now ≡ Err e) }
    ensures bounded { IfOk result (λ t. depth (view t) ≤ 100) }
{
    let (tree, rest) = value(alloc, octets, 100)?;
    if !rest.is_empty() {
        return Err(Fault::Malformed);
    }
    Ok(tree)
}

/// The message that the octets spell, all of them, by any spelling of MessagePack's table
/// (MessagePack specification, "Formats"). What no tree carries is read past into `Uncarried`; of a
/// repeated key the last value stands. It reserves no more than the octets that are left can fill.
///
/// # Errors
/// The first fault from the left decides: [`Fault::TooDeep`] where a list or map stands inside 100
/// others and each value before it is whole; [`Fault::Malformed`] where the octets are otherwise not
/// exactly one value; [`Fault::NoMemory`] where a growth was refused.
pub fn decode(alloc: Global, octets: &[u8]) -> Result<Message, Fault>
    ensures ok { IfOk result (λ m. Spells 100 octets.now (meaning m)) }
    ensures too_deep { IfErr result (λ e. e ≡ Fault.TooDeep → IsDeep 100 octets.now) }
    ensures malformed { IfErr result (λ e. e ≡ Fault.Malformed → IsNoMessage octets.now) }
    ensures carried { IfErr result (λ e. e ≢ Fault.UncarriedLeaf) }
{
    let tree = tree(alloc, octets)?;
    match Message::of(tree) {
        Ok(message) => Ok(message),
        Err(_) => unreachable!(),
    }
}
