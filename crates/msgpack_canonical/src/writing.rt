//! Values in canonical form.
ghost use Rattle.std.specs.Prelude.{◌≡◌, ◌&&◌, ◌++◌, ℕ, List, IfOk, IfSome, IfNone, Ok, true, false};
ghost use Rattle.message_tree.specs.Data.{Data, no_entries};
ghost use Rattle.msgpack_codec.specs.Values.{is_text};
ghost use Rattle.msgpack_codec.specs.body.Decoder.{value_at, dict_at};
ghost use Rattle.msgpack_codec.specs.body.Passing.{list_at};
ghost use Rattle.msgpack_canonical.specs.body.Fitting.{IsPut, IsUnread};
ghost use Rattle.msgpack_canonical.specs.body.Entries.{AreRead, IsEntryPut, IsNoEntry};

use crate::canonical_entries::{canonical_entry, put_canonical_dict};
use crate::entries::{EntryPlace, FEW, add_place, put_entries, put_in_order};
use crate::heads::put_fitting_list_head;
use crate::kinds::{TokenKind, kind_of};
use crate::leaves::{put_leaf, put_text};
use crate::texts::first_text;
use message_tree::Appender;
use msgpack_codec::{first_token, pass};
use std::alloc::{AllocError, Global};

/// Room for so many octets of entries is taken at once.
const FEW_OCTETS: usize = 256;

/// What was done with a value.
#[derive(Clone, Copy, Drop)]
pub(crate) struct Put<'a> {
    /// The octets after the value.
    pub(crate) rest: &'a [u8],
    /// Whether it is written: it is carried, and short enough. Otherwise some of it may be written.
    pub(crate) is_written: bool,
}

fn both(one: bool, other: bool) -> bool
    ensures { result ≡ (one && other) }
{
    one && other
}

/// Writes the value at the front, which nests no more than `room` levels; `None` where there is no
/// such value.
#[cycle(writing)]
pub(crate) fn put_value<'a>(
    alloc: Global,
    octets: &'a [u8],
    room: u8,
    out: &mut Appender,
) -> Result<Option<Put<'a>>, AllocError>
    ensures some { IfOk result (λ o. IfSome o (λ p. IsPut (value_at room octets.entry.now)
        p.rest.now p.is_written out.old.since out.new.since)) }
    ensures none { IfOk result (λ o. IfNone o (IsUnread (value_at room octets.entry.now))) }
    ensures before { out.new.before ≡ out.old.before }
{
    let Ok((token, rest)) = first_token(octets) else {
        return Ok(None);
    };
    match kind_of(&token) {
        TokenKind::List(count) => {
            if room == 0 {
                return Ok(None);
            }
            put_list(alloc, rest, count, room - 1, out)
        }
        TokenKind::Dict(count) => {
            if room == 0 {
                return Ok(None);
            }
            put_dict(alloc, rest, count, room - 1, out)
        }
        TokenKind::Leaf => {
            let is_written = put_leaf(token, out)?;
            Ok(Some(Put { rest, is_written }))
        }
    }
}

/// So many values, behind the head of a list.
#[cycle(writing)]
fn put_list<'a>(
    alloc: Global,
    octets: &'a [u8],
    count: u64,
    room: u8,
    out: &mut Appender,
) -> Result<Option<Put<'a>>, AllocError>
    ensures some { IfOk result (λ o. IfSome o (λ p. IsPut
        (list_at (value_at room) count octets.entry.now)
        p.rest.now p.is_written out.old.since out.new.since)) }
    ensures none { IfOk result (λ o. IfNone o
        (IsUnread (list_at (value_at room) count octets.entry.now))) }
    ensures before { out.new.before ≡ out.old.before }
{
    let mut is_written = put_fitting_list_head(out, count)?;
    let mut rest = octets;
    for _ in 0..count {
        let Some(put) = put_value(alloc, rest, room, out)? else {
            return Ok(None);
        };
        is_written = both(is_written, put.is_written);
        rest = put.rest;
    }
    Ok(Some(Put { rest, is_written }))
}

/// The octets after the value at the front; `None` where none stands there.
fn behind(octets: &[u8], room: u8) -> Option<&[u8]>
    ensures some { IfSome result (λ rest. (d : Data)
        × (value_at room octets.now ≡ Ok (d, rest.now))) }
    ensures none { IfNone result (IsUnread (value_at room octets.now)) }
{
    match pass(octets, room) {
        Ok(passed) => Some(passed.rest),
        Err(_) => None,
    }
}

/// A key and its value, written behind others.
#[derive(Drop)]
struct WrittenEntry<'a> {
    /// The others, and the key, and its value where that is written.
    written: Vec<u8>,
    /// The octets after the value.
    rest: &'a [u8],
    /// Whether the key is a text. Otherwise neither is written.
    is_text: bool,
}

/// A key and its value, where the key is no text.
fn pass_entry(octets: &[u8], room: u8, written: Vec<u8>) -> Option<WrittenEntry<'_>>
    ensures some { IfSome result (λ e. ((k : Data) (rest : List ℕ)
        → value_at room octets.now ≡ Ok (k, rest) → is_text k ≡ false)
        → IsEntryPut (value_at room) octets.now e.rest.now e.is_text
        written.items e.written.items) }
    ensures none { IfNone result (IsNoEntry (value_at room) octets.now) }
{
    let Some(value) = behind(octets, room) else {
        return None;
    };
    let Some(rest) = behind(value, room) else {
        return None;
    };
    Some(WrittenEntry {
        written,
        rest,
        is_text: false,
    })
}

/// The key and the value at the front. Mostly they are copied as they stand.
#[cycle(writing)]
fn put_entry<'a>(
    alloc: Global,
    octets: &'a [u8],
    room: u8,
    written: Vec<u8>,
) -> Result<Option<WrittenEntry<'a>>, AllocError>
    ensures some { IfOk result (λ o. IfSome o (λ e. IsEntryPut (value_at room) octets.entry.now
        e.rest.now e.is_text written.items e.written.items)) }
    ensures none { IfOk result (λ o. IfNone o (IsNoEntry (value_at room) octets.entry.now)) }
{
    if let Some((entry, rest)) = canonical_entry(octets) {
        let mut written = written;
        written.extend_from_slice(entry.octets)?;
        return Ok(Some(WrittenEntry {
            written,
            rest,
            is_text: true,
        }));
    }
    let Some((key, value)) = first_text(octets) else {
        return Ok(pass_entry(octets, room, written));
    };
    let mut out = Appender::new(written);
    if !put_text(key, &mut out)? {
        return Err(AllocError);
    }
    let mut out = Appender::new(out.into_vec());
    let Some(put) = put_value(alloc, value, room, &mut out)? else {
        return Ok(None);
    };
    let written = if put.is_written {
        out.into_vec()
    } else {
        out.into_before()
    };
    Ok(Some(WrittenEntry {
        written,
        rest: put.rest,
        is_text: true,
    }))
}

/// The entries of a dictionary, written in the order in which they came.
#[derive(Drop)]
struct Entries<'a> {
    written: Vec<u8>,
    places: Vec<EntryPlace>,
    /// Whether each key is a text. Otherwise the dictionary isn't carried.
    are_texts: bool,
    /// The octets after the dictionary.
    rest: &'a [u8],
}

/// So many keys, each with its value behind it; `None` where one is missing.
#[cycle(writing)]
fn entries_of<'a>(
    alloc: Global,
    octets: &'a [u8],
    count: u64,
    room: u8,
) -> Result<Option<Entries<'a>>, AllocError>
    ensures some { IfOk result (λ o. IfSome o (λ e. AreRead
        (dict_at (value_at room) count no_entries true octets.entry.now)
        e.are_texts e.written.items e.places.items e.rest.now)) }
    ensures none { IfOk result (λ o. IfNone o
        (IsUnread (dict_at (value_at room) count no_entries true octets.entry.now))) }
{
    let mut written = Vec::with_capacity(alloc, octets.len().min(FEW_OCTETS))?;
    let mut places = Vec::with_capacity(alloc, (count as usize).min(FEW))?;
    let mut are_texts = true;
    let mut rest = octets;
    for _ in 0..count {
        let start = written.len();
        let Some(entry) = put_entry(alloc, rest, room, written)? else {
            return Ok(None);
        };
        written = entry.written;
        if entry.is_text {
            add_place(&mut places, start, written.len())?;
        }
        are_texts = both(are_texts, entry.is_text);
        rest = entry.rest;
    }
    Ok(Some(Entries {
        written,
        places,
        are_texts,
        rest,
    }))
}

/// So many keys, each with its value behind it, behind the head of a dictionary. Most are few, with little inside.
#[cycle(writing)]
fn put_dict<'a>(
    alloc: Global,
    octets: &'a [u8],
    count: u64,
    room: u8,
    out: &mut Appender,
) -> Result<Option<Put<'a>>, AllocError>
    ensures some { IfOk result (λ o. IfSome o (λ p. IsPut
        (dict_at (value_at room) count no_entries true octets.entry.now)
        p.rest.now p.is_written out.old.since out.new.since)) }
    ensures none { IfOk result (λ o. IfNone o
        (IsUnread (dict_at (value_at room) count no_entries true octets.entry.now))) }
    ensures before { out.new.before ≡ out.old.before }
{
    match put_canonical_dict(alloc, octets, count, room, out)? {
        Some((rest, is_written)) => Ok(Some(Put { rest, is_written })),
        None => put_any_dict(alloc, octets, count, room, out),
    }
}

/// The same, whatever they are.
#[cycle(writing)]
fn put_any_dict<'a>(
    alloc: Global,
    octets: &'a [u8],
    count: u64,
    room: u8,
    out: &mut Appender,
) -> Result<Option<Put<'a>>, AllocError>
    ensures some { IfOk result (λ o. IfSome o (λ p. IsPut
        (dict_at (value_at room) count no_entries true octets.entry.now)
        p.rest.now p.is_written out.old.since out.new.since)) }
    ensures none { IfOk result (λ o. IfNone o
        (IsUnread (dict_at (value_at room) count no_entries true octets.entry.now))) }
    ensures before { out.new.before ≡ out.old.before }
{
    let Some(entries) = entries_of(alloc, octets, count, room)? else {
        return Ok(None);
    };
    let Entries {
        written,
        mut places,
        are_texts,
        rest,
    } = entries;
    put_in_order(alloc, &mut places, &written)?;
    let is_written = if are_texts {
        put_entries(&written, &places, out)?
    } else {
        false
    };
    Ok(Some(Put { rest, is_written }))
}
