//! Passing over a value, with no memory.
ghost use Rattle.std.specs.Prelude.{◌≡◌, ◌≢◌, ◌&&◌, ◌∷◌, ◌++◌, List, ℕ, IfOk, IfErr, Ok, Err, None, Some, Bool, true, option_map, if◌then◌else◌};
ghost use Rattle.message_tree.specs.Data.{Data, Entries, no_entries, uncarried, dict, whole as of_whole, bytes as of_bytes, flag as of_flag};
ghost use Rattle.msgpack_codec.specs.Values.{is_text, text_from};
ghost use Rattle.msgpack_codec.specs.Format.{form_of as of_octet};
ghost use Rattle.msgpack_codec.specs.Grammar.{IsDeep};
ghost use Rattle.msgpack_codec.specs.Short.{short};
ghost use Rattle.msgpack_codec.specs.Written.{IsPassed, IsNoValue, add_entry, carriage_of};
ghost use Rattle.msgpack_codec.specs.body.Writable.{is_writable};
ghost use Rattle.msgpack_codec.specs.body.Decoder.{leaf_at};
ghost use Rattle.msgpack_codec.specs.body.Passing.{IsSeen, TellsLeaf, IsJudged, IsFullyJudged, AreItemsJudged, ArePairsJudged, AreKnown, is_next, text_of, written_at, written_nest_at, list_at, pairs_at};

use crate::carriage::{Carriage, doubted, worse};
use crate::decoder::{number_of, octets_of, signed, size_of, sized};
use crate::fault::Fault;
use crate::format::{Form, form_of};
use crate::keys::key_order;
use crate::short_leaves::short_leaf;
use crate::short_texts::short_text;
use crate::shortest::{
    before, is_bytes_head, is_dict_head, is_list_head, is_one, is_text_head, is_whole,
};
use crate::utf8::text_in;
use std::cmp::Ordering;
use thiserror::Error;

/// Why nothing is passed over.
#[derive(Clone, Copy, Debug, Drop, PartialEq, Eq, Error)]
pub enum Refusal {
    /// The octets nest lists and maps more than there is room.
    #[error("E4 TooDeep")]
    TooDeep,
    /// The octets begin with no whole MessagePack value.
    #[error("E5 Malformed")]
    Malformed,
}

/// What is known of a value that was passed over.
#[derive(Clone, Copy, Debug, Drop)]
pub struct Passed<'a> {
    /// The octets after the value.
    pub rest: &'a [u8],
    /// Whether the value is carried.
    pub carriage: Carriage,
    /// Whether the value is spelled as [`encode`](crate::encode) writes it: the shortest spelling of
    /// each value, keys ascending by their bytes, each once, and nothing uncarried.
    pub is_shortest: bool,
}

/// A value, with its octets where it is a text: it may be a key.
#[derive(Clone, Copy, Drop)]
struct SeenValue<'a> {
    rest: &'a [u8],
    carriage: Carriage,
    text: Option<&'a [u8]>,
    is_shortest: bool,
}

/// A str that octets spell, the head among them: uncarried where it isn't UTF-8.
fn text<'a>(front: &[u8], octets: &'a [u8], rest: &'a [u8]) -> SeenValue<'a>
    ensures rest { result.rest.now ≡ rest.entry.now }
    ensures carriage { result.carriage ≡ carriage_of (text_from octets.entry.now) }
    ensures text { option_map (λ s. s.now) result.text ≡ text_of (text_from octets.entry.now) }
    ensures shortest { (head : List ℕ) → front.now ≡ head ++ octets.entry.now
        → TellsLeaf result.is_shortest (is_writable (text_from octets.entry.now))
        front.now (short (text_from octets.entry.now)) }
{
    match text_in(octets) {
        Ok(_) => SeenValue {
            rest,
            carriage: Carriage::Carried,
            text: Some(octets),
            is_shortest: is_text_head(before(front, octets), octets.len() as u64),
        },
        Err(_) => no_text(rest, Carriage::Uncarried, false),
    }
}

/// Whether octets, the head among them, are the least that spell a bin.
fn is_least_bytes(front: &[u8], octets: &[u8]) -> bool
    ensures { (head : List ℕ) → front.now ≡ head ++ octets.now
        → TellsLeaf result (is_writable (of_bytes octets.now))
        front.now (short (of_bytes octets.now)) }
{
    is_bytes_head(before(front, octets), octets.len() as u64)
}

/// Whether an octet is the one that spells a flag.
fn is_flag(front: &[u8], flag: bool) -> bool
    ensures { TellsLeaf result true front.now (short (of_flag flag)) }
{
    if flag {
        is_one(front, 0xc3)
    } else {
        is_one(front, 0xc2)
    }
}

/// A value that is no text.
#[inline(always)]
fn no_text(rest: &[u8], carriage: Carriage, is_shortest: bool) -> SeenValue<'_>
    ensures rest { result.rest.now ≡ rest.entry.now }
    ensures carriage { result.carriage ≡ carriage }
    ensures text { option_map (λ s. s.now) result.text ≡ None }
    ensures shortest { result.is_shortest ≡ is_shortest }
{
    SeenValue {
        rest,
        carriage,
        text: None,
        is_shortest,
    }
}

/// A whole number.
fn whole(number: i128) -> Carriage
    ensures { result ≡ carriage_of (of_whole number) }
{
    if number >= i64::MIN as i128 && number <= u64::MAX as i128 {
        Carriage::Carried
    } else {
        Carriage::Uncarried
    }
}

/// A whole number that octets spell before the rest.
fn number_seen<'a>(all: &[u8], rest: &'a [u8], number: i128) -> SeenValue<'a>
    ensures rest { result.rest.now ≡ rest.entry.now }
    ensures carriage { result.carriage ≡ carriage_of (of_whole number) }
    ensures text { option_map (λ s. s.now) result.text ≡ None }
    ensures shortest { (front : List ℕ) → all.now ≡ front ++ rest.entry.now
        → TellsLeaf result.is_shortest (is_writable (of_whole number))
        front (short (of_whole number)) }
{
    no_text(rest, whole(number), is_whole(before(all, rest), number))
}

/// A short text.
#[inline(always)]
fn short_text_seen<'a>(text: &'a str, rest: &'a [u8]) -> SeenValue<'a>
    ensures rest { result.rest.now ≡ rest.entry.now }
    ensures carriage { result.carriage ≡ Carriage.Carried }
    ensures text { option_map (λ t. t.now) result.text ≡ Some text.entry.now }
    ensures shortest { result.is_shortest ≡ true }
{
    SeenValue {
        rest,
        carriage: Carriage::Carried,
        text: Some(text.as_bytes()),
        is_shortest: true,
    }
}

/// A value with nothing inside, after its first octet, and from that octet on.
#[tactic(auto, unfolding(crate::specs::body::Decoder::leaf_at))]
fn leaf<'a>(form: Form, all: &'a [u8], octets: &'a [u8]) -> Result<SeenValue<'a>, Fault>
    ensures ok { IfOk result (λ s. IsSeen (leaf_at form octets.entry.now)
        s.rest.now s.carriage (option_map (λ t. t.now) s.text)) }
    ensures err { IfErr result (λ e. leaf_at form octets.entry.now ≡ Err e) }
    ensures shortest { IfOk result (λ s. (c : ℕ) → all.entry.now ≡ c ∷ octets.entry.now
        → IsJudged (leaf_at form octets.entry.now) all.entry.now s.rest.now s.is_shortest) }
{
    match form {
        Form::Null => Ok(no_text(octets, Carriage::Carried, is_one(before(all, octets), 0xc0))),
        Form::Flag(flag) => {
            let is_shortest = is_flag(before(all, octets), flag);
            Ok(no_text(octets, Carriage::Carried, is_shortest))
        }
        Form::Whole(number) => Ok(number_seen(all, octets, i128::from(number))),
        Form::Unsigned(width) => {
            let (number, rest) = number_of(octets, width)?;
            Ok(number_seen(all, rest, i128::from(number)))
        }
        Form::Signed(width) => {
            let (number, rest) = number_of(octets, width)?;
            Ok(number_seen(all, rest, signed(number, width)))
        }
        Form::Text(size) => {
            let (found, rest) = sized(octets, size)?;
            Ok(text(before(all, rest), found, rest))
        }
        Form::Bytes(size) => {
            let (found, rest) = sized(octets, size)?;
            let is_shortest = is_least_bytes(before(all, rest), found);
            Ok(no_text(rest, Carriage::Carried, is_shortest))
        }
        Form::List(_) | Form::Dict(_) => Err(Fault::TooDeep),
        Form::Foreign(size) => {
            let (count, rest) = size_of(octets, size)?;
            let (_kind, rest) = octets_of(rest, 1)?;
            let (_found, rest) = octets_of(rest, count)?;
            Ok(no_text(rest, Carriage::Uncarried, false))
        }
        Form::Float(width) => {
            let (_number, rest) = number_of(octets, width)?;
            Ok(no_text(rest, Carriage::Uncarried, false))
        }
        Form::Never => Err(Fault::Malformed),
    }
}

/// The value at the front, which nests no more than `room` levels.
#[cycle(passing)]
#[tactic(auto, unfolding(crate::specs::body::Passing::written_at))]
fn value(octets: &[u8], room: u8) -> Result<SeenValue<'_>, Fault>
    ensures ok { IfOk result (λ s. IsSeen (written_at room octets.now)
        s.rest.now s.carriage (option_map (λ t. t.now) s.text)) }
    ensures err { IfErr result (λ e. written_at room octets.now ≡ Err e) }
    ensures shortest { IfOk result (λ s. IsFullyJudged (written_at room octets.now)
        octets.now s.rest.now s.is_shortest) }
{
    let Some((first, rest)) = octets.split_first() else {
        return Err(Fault::Malformed);
    };
    let form = form_of(*first);
    if room == 0 {
        leaf(form, octets, rest)
    } else {
        nest(form, octets, rest, room - 1)
    }
}

/// A value whose head was passed over before it.
fn behind(is_least: bool, seen: SeenValue) -> SeenValue
    ensures rest { result.rest.now ≡ seen.entry.rest.now }
    ensures carriage { result.carriage ≡ seen.entry.carriage }
    ensures text { option_map (λ t. t.now) result.text
        ≡ option_map (λ t. t.now) seen.entry.text }
    ensures shortest { result.is_shortest ≡ (is_least && seen.entry.is_shortest) }
{
    SeenValue {
        rest: seen.rest,
        carriage: seen.carriage,
        text: seen.text,
        is_shortest: is_least && seen.is_shortest,
    }
}

/// A value after its first octet, with what is inside, and from that octet on.
#[cycle(passing)]
#[tactic(auto, unfolding(crate::specs::body::Passing::written_nest_at))]
fn nest<'a>(form: Form, all: &'a [u8], octets: &'a [u8], room: u8) -> Result<SeenValue<'a>, Fault>
    ensures ok { IfOk result (λ s. IsSeen
        (written_nest_at (written_at room) form octets.entry.now)
        s.rest.now s.carriage (option_map (λ t. t.now) s.text)) }
    ensures err { IfErr result (λ e.
        written_nest_at (written_at room) form octets.entry.now ≡ Err e) }
    ensures shortest { IfOk result (λ s. (c : ℕ) → form ≡ of_octet c
        → all.entry.now ≡ c ∷ octets.entry.now
        → IsFullyJudged (written_nest_at (written_at room) form octets.entry.now)
        all.entry.now s.rest.now s.is_shortest) }
{
    match form {
        Form::List(size) => {
            let (count, rest) = size_of(octets, size)?;
            let is_least = is_list_head(before(all, rest), count);
            let found = items(rest, count, room)?;
            Ok(behind(is_least, found))
        }
        Form::Dict(size) => {
            let (count, rest) = size_of(octets, size)?;
            let is_least = is_dict_head(before(all, rest), count);
            let found = pairs(rest, count, room)?;
            Ok(behind(is_least, found))
        }
        _ => leaf(form, all, octets),
    }
}

/// A member at the front, as a value that nests no more than `room` levels. Most are short texts.
#[cycle(passing)]
#[inline(always)]
fn member(octets: &[u8], room: u8) -> Result<SeenValue<'_>, Fault>
    ensures ok { IfOk result (λ s. IsSeen (written_at room octets.now)
        s.rest.now s.carriage (option_map (λ t. t.now) s.text)) }
    ensures err { IfErr result (λ e. written_at room octets.now ≡ Err e) }
    ensures shortest { IfOk result (λ s. IsFullyJudged (written_at room octets.now)
        octets.now s.rest.now s.is_shortest) }
{
    if let Some((text, rest)) = short_text(octets) {
        return Ok(short_text_seen(text, rest));
    }
    if let Some(rest) = short_leaf(octets) {
        return Ok(no_text(rest, Carriage::Carried, true));
    }
    value(octets, room)
}

#[inline(always)]
fn both(one: bool, other: bool) -> bool
    ensures { result ≡ (one && other) }
{
    one && other
}

/// So many values, behind the head of a list.
#[cycle(passing)]
fn items(octets: &[u8], count: u64, room: u8) -> Result<SeenValue<'_>, Fault>
    ensures ok { IfOk result (λ s. IsSeen (list_at (written_at room) count octets.now)
        s.rest.now s.carriage (option_map (λ t. t.now) s.text)) }
    ensures err { IfErr result (λ e. list_at (written_at room) count octets.now ≡ Err e) }
    ensures shortest { IfOk result (λ s. (d : Data) (body : List ℕ)
        → list_at (written_at room) count octets.now ≡ Ok (d, s.rest.now)
        → octets.now ≡ body ++ s.rest.now → AreItemsJudged count body s.is_shortest d) }
{
    let mut carriage = Carriage::Carried;
    let mut is_shortest = true;
    let mut rest = octets;
    for _ in 0..count {
        let item = member(rest, room)?;
        carriage = worse(carriage, item.carriage);
        is_shortest = both(is_shortest, item.is_shortest);
        rest = item.rest;
    }
    Ok(no_text(rest, carriage, is_shortest))
}

/// What is known of the pairs of a map so far.
#[derive(Clone, Copy, Drop)]
struct Known<'a> {
    are_texts: bool,
    ascend: bool,
    last: Option<&'a [u8]>,
    carriage: Carriage,
}

/// Whether a key stands behind the last one.
#[inline(always)]
fn is_behind(last: Option<&[u8]>, key: &[u8]) -> bool
    ensures { result ≡ is_next (option_map (λ l. l.now) last.entry) key.now }
{
    match last {
        None => true,
        Some(last) => key_order(last, key) == Ordering::Less,
    }
}

/// What is known with one more pair.
#[inline(always)]
fn with<'a>(known: Known<'a>, key: SeenValue<'a>, carriage: Carriage) -> Known<'a>
    ensures { (found : Entries) (texts : Bool) (k v : Data)
        → AreKnown known.entry.are_texts known.entry.ascend
        (option_map (λ t. t.now) known.entry.last) known.entry.carriage found texts
        → option_map (λ t. t.now) key.entry.text ≡ text_of k → carriage ≡ carriage_of v
        → AreKnown result.are_texts result.ascend (option_map (λ t. t.now) result.last)
        result.carriage (add_entry k v found) (texts && is_text k) }
{
    match key.text {
        None => Known {
            are_texts: false,
            ascend: known.ascend,
            last: known.last,
            carriage: known.carriage,
        },
        Some(name) => Known {
            are_texts: known.are_texts,
            ascend: known.ascend && is_behind(known.last, name),
            last: Some(name),
            carriage: worse(known.carriage, carriage),
        },
    }
}

/// What is known of a map with all its pairs.
fn map_carriage(known: Known) -> Carriage
    ensures { (found : Entries) (texts : Bool)
        → AreKnown known.entry.are_texts known.entry.ascend
        (option_map (λ t. t.now) known.entry.last) known.entry.carriage found texts
        → result ≡ carriage_of (if texts then dict found else uncarried) }
{
    if !known.are_texts {
        Carriage::Uncarried
    } else if known.ascend {
        known.carriage
    } else {
        doubted(known.carriage)
    }
}

/// So many keys, each with its value behind it, behind the head of a map.
#[cycle(passing)]
fn pairs(octets: &[u8], count: u64, room: u8) -> Result<SeenValue<'_>, Fault>
    ensures ok { IfOk result (λ s. IsSeen
        (pairs_at (written_at room) count no_entries true octets.now)
        s.rest.now s.carriage (option_map (λ t. t.now) s.text)) }
    ensures err { IfErr result (λ e.
        pairs_at (written_at room) count no_entries true octets.now ≡ Err e) }
    ensures shortest { IfOk result (λ s. (d : Data) (body : List ℕ)
        → pairs_at (written_at room) count no_entries true octets.now ≡ Ok (d, s.rest.now)
        → octets.now ≡ body ++ s.rest.now → ArePairsJudged count body s.is_shortest d) }
{
    let mut known = Known {
        are_texts: true,
        ascend: true,
        last: None,
        carriage: Carriage::Carried,
    };
    let mut is_shortest = true;
    let mut rest = octets;
    for _ in 0..count {
        let key = member(rest, room)?;
        let item = member(key.rest, room)?;
        known = with(known, key, item.carriage);
        is_shortest = both(is_shortest, both(key.is_shortest, item.is_shortest));
        rest = item.rest;
    }
    let is_shortest = both(known.are_texts, both(known.ascend, is_shortest));
    Ok(no_text(rest, map_carriage(known), is_shortest))
}

/// Without memory only two faults come.
fn refused(fault: Fault) -> Refusal
    ensures too_deep { result ≡ Refusal.TooDeep → fault ≡ Fault.TooDeep }
    ensures malformed { result ≡ Refusal.Malformed → fault ≢ Fault.TooDeep }
{
    match fault {
        Fault::TooDeep => Refusal::TooDeep,
        Fault::Malformed | Fault::NoMemory | Fault::UncarriedLeaf => Refusal::Malformed,
    }
}

/// Passes over the value at the front, which nests no more than `room` levels, by any spelling of
/// MessagePack's table (MessagePack specification, "Formats"), and says what is known of it and
/// where the octets after it begin. It takes no memory, and time by the octets alone.
///
/// # Errors
/// The first fault from the left decides: [`Refusal::TooDeep`] where a list or map stands inside
/// `room` others and each value before it is whole; [`Refusal::Malformed`] where the octets
/// otherwise begin with no value.
#[inline(always)]
pub fn pass(octets: &[u8], room: u8) -> Result<Passed<'_>, Refusal>
    ensures ok { IfOk result (λ p. IsPassed room octets.now p.rest.now p.carriage p.is_shortest) }
    ensures too_deep { IfErr result (λ e. e ≡ Refusal.TooDeep → IsDeep room octets.now) }
    ensures malformed { IfErr result (λ e. e ≡ Refusal.Malformed → IsNoValue room octets.now) }
{
    match value(octets, room) {
        Ok(seen) => Ok(Passed {
            rest: seen.rest,
            carriage: seen.carriage,
            is_shortest: seen.is_shortest,
        }),
        Err(fault) => Err(refused(fault)),
    }
}
