//! The entries of a dictionary, as they were written behind one another.
ghost use Rattle.std.specs.Prelude.{◌≡◌, ◌<◌, ◌≤◌, ◌^◌, ◌&&◌, ◌++◌, nat_lt, IfOk, OnOk, Ok, true, false, All, length, map, reverse, set};
ghost use Rattle.std.specs.List.{insert};
ghost use Rattle.std.specs.Ordering.{eq_by_cmp};
ghost use Rattle.msgpack_codec.specs.Short.{dict_head};
ghost use Rattle.msgpack_canonical.specs.body.Entries.{IsPlaced, IsStanding, all_kept, cut, cuts, entry_in, place_cmp};
ghost use Rattle.msgpack_canonical.specs.body.Sorting.{in_order, placed};

use crate::heads::put_dict_head;
use crate::texts::first_text;
use message_tree::Appender;
use msgpack_codec::key_order;
use std::alloc::{AllocError, Global};
use std::cmp::Ordering;

/// So many places are few: they are put in order by looking at each of those before.
pub(crate) const FEW: usize = 16;

/// Where an entry stands in what was written: its key, and its value behind it where that is carried.
#[derive(Clone, Copy, Debug, Drop)]
pub(crate) struct EntryPlace {
    start: u32,
    end: u32,
}

/// The place from `start` to `end`. There is no memory for one that ends behind 2^32 octets.
fn place_of(start: usize, end: usize) -> Result<EntryPlace, AllocError>
    ensures start { IfOk result (λ p. p.start ≡ start) }
    ensures end { IfOk result (λ p. p.end ≡ end) }
    ensures ordered { OnOk result (start ≤ end) }
{
    if start > end || end > u32::MAX as usize {
        return Err(AllocError);
    }
    Ok(EntryPlace {
        start: start as u32,
        end: end as u32,
    })
}

/// One more entry, from `start` to `end`.
pub(crate) fn add_place(
    places: &mut Vec<EntryPlace>,
    start: usize,
    end: usize,
) -> Result<(), AllocError>
    ensures { OnOk result (IsPlaced start end places.old.items places.new.items) }
{
    let place = place_of(start, end)?;
    match places.push(place) {
        Ok(()) => Ok(()),
        Err(_) => Err(AllocError),
    }
}

/// The octets of an entry.
pub(crate) fn octets_at(written: &[u8], place: EntryPlace) -> &[u8]
    ensures { result.now ≡ cut written.now place }
{
    let start = (place.start as usize).min(written.len());
    let (_, behind) = written.split_at(start);
    let len = (place.end.saturating_sub(place.start) as usize).min(behind.len());
    behind.split_at(len).0
}

/// The key of an entry, and the octets of its value.
pub(crate) fn entry_at(written: &[u8], place: EntryPlace) -> (&[u8], &[u8])
    ensures key { result.0.now ≡ (entry_in written.now place).0 }
    ensures value { result.1.now ≡ (entry_in written.now place).1 }
{
    match first_text(octets_at(written, place)) {
        Some((key, value)) => (key.as_bytes(), value),
        None => (&[], &[]),
    }
}

/// The key of an entry.
fn key_at(written: &[u8], place: EntryPlace) -> &[u8]
    ensures { result.now ≡ (entry_in written.now place).0 }
{
    entry_at(written, place).0
}

/// How the keys of two entries compare, by their bytes.
fn compare(written: &[u8], one: EntryPlace, other: EntryPlace) -> Ordering
    ensures { result ≡ place_cmp written.now one other }
{
    key_order(key_at(written, one), key_at(written, other))
}

/// Whether two entries have one key.
fn is_same(written: &[u8], one: EntryPlace, other: EntryPlace) -> bool
    ensures { result ≡ eq_by_cmp (place_cmp written.now) one other }
{
    compare(written, one, other).is_eq()
}

/// Where a place belongs by its key among others, and whether one with this key stands there.
fn find(written: &[u8], sorted: &[EntryPlace], place: EntryPlace) -> (usize, bool)
    ensures within { result.0 ≤ length sorted.now }
    ensures there { result.1 ≡ true → (result.0 < length sorted.now)
        × (placed (place_cmp written.now) place sorted.now ≡ set sorted.now result.0 place) }
    ensures other { result.1 ≡ false
        → placed (place_cmp written.now) place sorted.now ≡ insert sorted.now result.0 place }
{
    let key = key_at(written, place);
    for at in 0..sorted.len() {
        match key_order(key, key_at(written, sorted[at])) {
            Ordering::Less => return (at, false),
            Ordering::Equal => return (at, true),
            Ordering::Greater => {}
        }
    }
    (sorted.len(), false)
}

/// Puts a place among others, in the stead of one with its key.
fn put_place(
    sorted: &mut Vec<EntryPlace>,
    written: &[u8],
    place: EntryPlace,
) -> Result<(), AllocError>
    ensures { OnOk result (sorted.new.items
        ≡ placed (place_cmp written.now) place sorted.old.items) }
{
    let (at, is_there) = find(written, sorted, place);
    if is_there {
        sorted[at] = place;
        return Ok(());
    }
    match sorted.insert(at, place) {
        Ok(()) => Ok(()),
        Err(_) => Err(AllocError),
    }
}

/// The places in the order of their keys, each put among those before: for few.
fn few_in_order(
    alloc: Global,
    places: &[EntryPlace],
    written: &[u8],
) -> Result<Vec<EntryPlace>, AllocError>
    ensures { IfOk result (λ sorted. sorted.items
        ≡ in_order (place_cmp written.now) (reverse places.now)) }
{
    let mut sorted = Vec::with_capacity(alloc, places.len())?;
    for place in places {
        put_place(&mut sorted, written, *place)?;
    }
    Ok(sorted)
}

/// Puts the places of entries, which stand in the order in which their keys came, in the order of
/// their keys: of each key the last place alone.
pub(crate) fn put_in_order(
    alloc: Global,
    places: &mut Vec<EntryPlace>,
    written: &[u8],
) -> Result<(), AllocError>
    ensures order { OnOk result (places.new.items
        ≡ in_order (place_cmp written.now) (reverse places.old.items)) }
    ensures stand { OnOk result (All (IsStanding written.now) (reverse places.old.items)
        → All (IsStanding written.now) places.new.items) }
{
    if places.len() <= FEW {
        *places = few_in_order(alloc, places, written)?;
        return Ok(());
    }
    places.reverse();
    places.sort_by(|one, other| compare(written, *one, *other))?;
    places.dedup_by(|one, other| is_same(written, *one, *other));
    Ok(())
}

/// Writes the entries at these places, behind the head of their dictionary, and says whether each has a
/// value that is written, and they are fewer than 2^32.
pub(crate) fn put_entries(
    written: &[u8],
    places: &[EntryPlace],
    out: &mut Appender,
) -> Result<bool, AllocError>
    ensures fits { IfOk result (λ b. b ≡ (nat_lt (length places.now) (2 ^ 32)
        && all_kept (map (entry_in written.now) places.now))) }
    ensures written { IfOk result (λ b. b ≡ true → out.new.since
        ≡ out.old.since ++ (dict_head (length places.now) ++ cuts written.now places.now)) }
    ensures before { out.new.before ≡ out.old.before }
{
    if places.len() >= 0x1_0000_0000 {
        return Ok(false);
    }
    put_dict_head(out, places.len() as u32)?;
    for place in places {
        let (_, value) = entry_at(written, *place);
        if value.is_empty() {
            return Ok(false);
        }
        out.put_all(octets_at(written, *place))?;
    }
    Ok(true)
}
