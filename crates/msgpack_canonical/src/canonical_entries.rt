//! Entries that stand in their least spelling, with nothing inside of their values.
ghost use Rattle.std.specs.Prelude.{◌≡◌, ◌<◌, ◌≤◌, ◌^◌, ◌++◌, ℕ, List, IfOk, IfSome, IfNone, OnOk, length, nat_lt, set, true, false};
ghost use Rattle.std.specs.List.{insert};
ghost use Rattle.message_tree.specs.Data.{no_entries};
ghost use Rattle.msgpack_codec.specs.Short.{dict_head};
ghost use Rattle.msgpack_codec.specs.body.Decoder.{value_at, dict_at};
ghost use Rattle.msgpack_canonical.specs.body.Fitting.{IsPut};
ghost use Rattle.msgpack_canonical.specs.body.Entries.{BeginsCanonical, IsEntryPut};
ghost use Rattle.msgpack_canonical.specs.body.CanonicalEntries.{AreCanonicalRead, IsCanonicalEntry, all_octets, key_cmp};
ghost use Rattle.msgpack_canonical.specs.body.Sorting.{placed};

use crate::beginnings::front_of;
use crate::entries::FEW;
use crate::heads::put_dict_head;
use message_tree::Appender;
use msgpack_codec::{key_order, pass, short_leaf, short_text};
use std::alloc::{AllocError, Global};
use std::cmp::Ordering;

/// An entry where it stands: its key, and the octets of both.
#[derive(Clone, Copy, Drop)]
pub(crate) struct CanonicalEntry<'a> {
    key: &'a [u8],
    pub(crate) octets: &'a [u8],
}

/// The octets after the value at the front, where nothing is inside of it and it is spelled as `encode` writes it.
#[inline(always)]
fn behind_canonical(octets: &[u8]) -> Option<&[u8]>
    ensures { IfSome result (λ rest. BeginsCanonical octets.now rest.now) }
{
    if let Some((_text, rest)) = short_text(octets) {
        return Some(rest);
    }
    if let Some(rest) = short_leaf(octets) {
        return Some(rest);
    }
    let Ok(passed) = pass(octets, 0) else {
        return None;
    };
    if passed.is_shortest {
        Some(passed.rest)
    } else {
        None
    }
}

/// The entry at the front, and the octets after it, where the key is a short text, nothing is inside of the value, and both are
/// spelled as `encode` writes them.
#[inline(always)]
pub(crate) fn canonical_entry(octets: &[u8]) -> Option<(CanonicalEntry<'_>, &[u8])>
    ensures put { IfSome result (λ x. (room : ℕ) (old : List ℕ)
        → IsEntryPut (value_at room) octets.now x.1.now true old (old ++ x.0.octets.now)) }
    ensures seen { IfSome result
        (λ x. IsCanonicalEntry octets.now x.0.key.now x.0.octets.now x.1.now) }
{
    let Some((key, value)) = short_text(octets) else {
        return None;
    };
    let Some(rest) = behind_canonical(value) else {
        return None;
    };
    let entry = CanonicalEntry {
        key: key.as_bytes(),
        octets: front_of(octets, rest),
    };
    Some((entry, rest))
}

/// Where an entry belongs by its key among others, and whether one with this key stands there.
#[inline(always)]
fn find(entries: &[CanonicalEntry], one: CanonicalEntry) -> (usize, bool)
    ensures within { result.0 ≤ length entries.now }
    ensures there { result.1 ≡ true → (result.0 < length entries.now)
        × (placed key_cmp one.entry entries.now ≡ set entries.now result.0 one.entry) }
    ensures other { result.1 ≡ false
        → placed key_cmp one.entry entries.now ≡ insert entries.now result.0 one.entry }
{
    for at in 0..entries.len() {
        match key_order(one.key, entries[at].key) {
            Ordering::Less => return (at, false),
            Ordering::Equal => return (at, true),
            Ordering::Greater => {}
        }
    }
    (entries.len(), false)
}

/// Puts an entry among others, in the stead of one with its key.
#[inline(always)]
fn put_among<'a>(
    entries: &mut Vec<CanonicalEntry<'a>>,
    one: CanonicalEntry<'a>,
) -> Result<(), AllocError>
    ensures { OnOk result (entries.new.items ≡ placed key_cmp one.entry entries.old.items) }
{
    let (at, is_there) = find(entries, one);
    if is_there {
        entries[at] = one;
        return Ok(());
    }
    match entries.insert(at, one) {
        Ok(()) => Ok(()),
        Err(_) => Err(AllocError),
    }
}

/// So many such entries in the order of their keys, of each key the last one, and the octets after them; `None` where they are more
/// than few, or one is otherwise.
fn canonical_entries<'a>(
    alloc: Global,
    octets: &'a [u8],
    count: u64,
) -> Result<Option<(Vec<CanonicalEntry<'a>>, &'a [u8])>, AllocError>
    ensures { IfOk result (λ o. IfSome o
        (λ x. AreCanonicalRead count octets.entry.now x.0.items x.1.now)) }
{
    if count > FEW as u64 {
        return Ok(None);
    }
    let mut entries = Vec::with_capacity(alloc, count as usize)?;
    let mut rest = octets;
    for _ in 0..count {
        let Some((entry, behind)) = canonical_entry(rest) else {
            return Ok(None);
        };
        put_among(&mut entries, entry)?;
        rest = behind;
    }
    Ok(Some((entries, rest)))
}

/// Writes entries behind the head of their dictionary, and says whether they are fewer than 2^32.
fn put_all(entries: &[CanonicalEntry], out: &mut Appender) -> Result<bool, AllocError>
    ensures fits { IfOk result (λ b. b ≡ nat_lt (length entries.now) (2 ^ 32)) }
    ensures written { IfOk result (λ b. b ≡ true → out.new.since
        ≡ out.old.since ++ (dict_head (length entries.now) ++ all_octets entries.now)) }
    ensures before { out.new.before ≡ out.old.before }
{
    if entries.len() >= 0x1_0000_0000 {
        return Ok(false);
    }
    put_dict_head(out, entries.len() as u32)?;
    for entry in entries {
        out.put_all(entry.octets)?;
    }
    Ok(true)
}

/// Writes so many entries as a dictionary where they are few and each is such a one, copied from where they stand, and gives the
/// octets after them, and whether it is written: as of a value. Otherwise nothing is written.
pub(crate) fn put_canonical_dict<'a>(
    alloc: Global,
    octets: &'a [u8],
    count: u64,
    room: u8,
    out: &mut Appender,
) -> Result<Option<(&'a [u8], bool)>, AllocError>
    ensures some { IfOk result (λ o. IfSome o (λ x. IsPut
        (dict_at (value_at room) count no_entries true octets.entry.now)
        x.0.now x.1 out.old.since out.new.since)) }
    ensures none { IfOk result (λ o. IfNone o (out.new.since ≡ out.old.since)) }
    ensures before { out.new.before ≡ out.old.before }
{
    let Some((entries, rest)) = canonical_entries(alloc, octets, count)? else {
        return Ok(None);
    };
    let is_written = put_all(&entries, out)?;
    Ok(Some((rest, is_written)))
}
