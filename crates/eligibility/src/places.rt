//! Where the texts of a list stand in its octets.
ghost use Rattle.std.specs.Prelude.{◌≡◌, ◌++◌, ℕ, List, length, map, IfOk, Ok, Some, None};
ghost use Rattle.std.specs.Ordering.{nat_cmp, eq_by_cmp};
ghost use Rattle.std.specs.Cmp.Lexicographic.{slice_cmp};
ghost use Rattle.message_tree.specs.Data.{Items, list, text};
ghost use Rattle.msgpack_codec.specs.Grammar.{Spells};
ghost use Rattle.msgpack_cursor.specs.Standing.{items_in, AreThere};
ghost use Rattle.eligibility.specs.Options.{each_of, text_of};
ghost use Rattle.eligibility.specs.body.Standing.{text_at, place_cmp, stands, IsBehind, IsOrdered};

use crate::fault::Fault;
use msgpack_canonical::first_text;
use msgpack_codec::{Token, first_token};
use std::alloc::{AllocError, Global};
use std::cmp::Ordering;

/// The text at a place; empty where none stands there.
fn text_at(octets: &[u8], place: u32) -> &[u8]
    ensures { result.now ≡ text_at octets.now place }
{
    let start = (place as usize).min(octets.len());
    match first_text(octets.split_at(start).1) {
        Some((text, _)) => text.as_bytes(),
        None => &[],
    }
}

/// How the text at a place compares with another.
fn compare_with(octets: &[u8], place: u32, text: &[u8]) -> Ordering
    ensures { result ≡ slice_cmp nat_cmp (text_at octets.now place) text.now }
{
    text_at(octets, place).cmp(&text)
}

/// How the texts at two places compare.
fn compare(octets: &[u8], one: u32, other: u32) -> Ordering
    ensures { result ≡ place_cmp octets.now one other }
{
    compare_with(octets, one, text_at(octets, other))
}

/// Whether one text stands at two places.
fn is_same(octets: &[u8], one: u32, other: u32) -> bool
    ensures { result ≡ eq_by_cmp (place_cmp octets.now) one other }
{
    compare(octets, one, other).is_eq()
}

/// Puts places in the order of the texts that stand there, one place of each text, and gives back
/// the memory of the others.
pub(crate) fn put_in_order(places: &mut Vec<u32>, octets: &[u8])
    ensures same { (text : List ℕ) → stands octets.now places.new.items text
        ≡ stands octets.now places.old.items text }
    ensures ordered { IsOrdered octets.now places.new.items }
{
    places.sort_unstable_by(|one, other| compare(octets, *one, *other));
    places.dedup_by(|one, other| is_same(octets, *one, *other));
    places.shrink_to_fit();
}

/// Whether the text stands at one of these places, which stand in the order of their texts.
pub(crate) fn find_text(octets: &[u8], places: &[u32], text: &[u8]) -> bool
    requires { IsOrdered octets.now places.now }
    ensures { result ≡ stands octets.now places.now text.now }
{
    places
        .binary_search_by(|place| compare_with(octets, *place, text))
        .is_ok()
}

/// Where the rest of octets begins. There is no memory for a place behind 2^32 octets.
fn place_of(octets: &[u8], rest: &[u8]) -> Result<u32, AllocError>
    ensures { IfOk result (λ place. (front : List ℕ) → octets.now ≡ front ++ rest.now
        → place ≡ length front) }
{
    let start = octets.len().saturating_sub(rest.len());
    if start > u32::MAX as usize {
        return Err(AllocError);
    }
    Ok(start as u32)
}

/// Where the texts of the list begin that the octets are, in the order in which they are listed.
pub(crate) fn places_in(alloc: Global, octets: &[u8]) -> Result<Vec<u32>, Fault>
    ensures ok { IfOk result (λ places. (items : Items) → Spells 100 octets.now (list items)
        → each_of text_of items ≡ Some (map (text_at octets.now) places.items)) }
    ensures bad { result ≡ Err Fault.Shape → (items : Items)
        → Spells 100 octets.now (list items) → each_of text_of items ≡ None }
{
    let Ok((token, members)) = first_token(octets) else {
        return Err(Fault::Shape);
    };
    match token {
        Token::List(count) => places_from(alloc, octets, members, count),
        _ => Err(Fault::Shape),
    }
}

/// Where so many texts begin, of which the first is the first member.
fn places_from(alloc: Global, octets: &[u8], members: &[u8], count: u64) -> Result<Vec<u32>, Fault>
    requires { IsBehind octets.now members.now }
    ensures ok { IfOk result (λ places. AreThere 99 count members.now
        → each_of text_of (items_in 99 count members.now)
        ≡ Some (map (text_at octets.now) places.items)) }
    ensures bad { result ≡ Err Fault.Shape → AreThere 99 count members.now
        → each_of text_of (items_in 99 count members.now) ≡ None }
{
    let mut places = Vec::with_capacity(alloc, (count as usize).min(members.len()))?;
    let mut rest = members;
    for _ in 0..count {
        let Some((_text, next)) = first_text(rest) else {
            return Err(Fault::Shape);
        };
        places.push(place_of(octets, rest)?)?;
        rest = next;
    }
    Ok(places)
}
