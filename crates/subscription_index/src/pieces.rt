//! A wildcard of many components, as a search reads it: in pieces, so that no octet has to be looked at to find where a component
//! ends, and a branch that nobody can guess is taken once for several components.
ghost use Rattle.std.specs.Prelude.{◌≡◌, ◌+◌, ◌++◌, ◌∷◌, [], ℕ, List, true, false, not, ◌==◌, ◌&&◌, ◌≤◌, ◌<◌, length, IfOk, OnOk};
ghost use Rattle.wamp_ids.specs.Uri.{components};
ghost use Rattle.std.specs.List.{list_all};
ghost use Rattle.subscription_index.specs.body.Pieces.{IsDraft, IsMade, IsSpelled, is_word};

use std::alloc::{AllocError, Global};
use wamp_ids::{Id, dot_in};

/// So many octets of components that aren't empty, each with a dot behind it, and behind them components that are empty. The next
/// piece begins so many components further on. More than 8 octets say that there is one component, of any length.
#[derive(Clone, Copy)]
pub(crate) struct Piece {
    pub(crate) octets: u8,
    pub(crate) step: u8,
}

const NOTHING: Piece = Piece { octets: 0, step: 0 };

/// So many octets are compared at once.
pub(crate) const SHORT: usize = 8;

/// One component, of any length.
const ALONE: u8 = u8::MAX;

/// What stands behind octets, so that a word can be read at each of them.
pub(crate) const PADDING: [u8; 8] = [0; 8];

/// A wildcard's number, how many dots it has, and its pieces, beside the octets of the components that aren't empty, each with a
/// dot behind it.
#[derive(Drop)]
pub(crate) struct Deep {
    pub(crate) number: Id,
    pub(crate) dots: usize,
    pub(crate) pieces: Vec<Piece>,
    pub(crate) named: Vec<u8>,
}

/// A wildcard so far: its pieces, the last one apart, and whether that one has no empty component.
#[derive(Drop)]
struct Draft {
    pieces: Vec<Piece>,
    named: Vec<u8>,
    last: Piece,
    is_open: bool,
}

/// Puts the last piece behind the others where there is no room in it, and begins a new one.
fn make_room(draft: &mut Draft, has_room: bool) -> Result<(), AllocError>
    ensures draft { OnOk result ((parts : List (List ℕ)) → IsDraft draft.old parts → IsDraft draft.new parts) }
    ensures kept { OnOk result (has_room ≡ true → draft.new ≡ draft.old) }
    ensures begun { OnOk result (has_room ≡ false → (draft.new.last.octets ≡ 0) × (draft.new.last.step ≡ 0) × (draft.new.is_open ≡ true)) }
{
    if has_room {
        return Ok(());
    }
    draft.pieces.push(draft.last)?;
    draft.last = NOTHING;
    draft.is_open = true;
    Ok(())
}

/// One empty component more, where the last piece has room.
fn add_empty(draft: &mut Draft)
    requires { draft.now.last.step < 255 }
    ensures { (parts : List (List ℕ)) → IsDraft draft.old parts → IsDraft draft.new (parts ++ [] ∷ []) }
{
    draft.last.step += 1;
    draft.is_open = false;
}

/// How many octets a piece tells of with a component of this length more.
fn octets_with(octets: u8, length: usize) -> u8
    ensures short { octets + length < 8 → result ≡ octets + length + 1 }
    ensures alone { 8 ≤ octets + length → result ≡ 255 }
{
    if length < SHORT.saturating_sub(octets as usize) {
        octets + length as u8 + 1
    } else {
        ALONE
    }
}

/// Whether a component of this length may stand in the last piece.
fn has_room(draft: &Draft, length: usize) -> bool
    ensures { result ≡ true → (draft.now.is_open ≡ true) × (draft.now.last.octets + length < 8) × (draft.now.last.step < 255) }
{
    draft.is_open
        && draft.last.step < u8::MAX
        && length < SHORT.saturating_sub(draft.last.octets as usize)
}

/// One component more that isn't empty, where the last piece has room, or is none yet.
fn add_word(draft: &mut Draft, part: &[u8]) -> Result<(), AllocError>
    requires word { is_word part.now ≡ true }
    requires open { draft.now.is_open ≡ true }
    requires step { draft.now.last.step < 255 }
    requires room { 8 ≤ draft.now.last.octets + length part.now → draft.now.last.step ≡ 0 }
    ensures { OnOk result ((parts : List (List ℕ)) → IsDraft draft.old parts
        → IsDraft draft.new (parts ++ part.now ∷ [])) }
{
    draft.named.extend_from_slice(part)?;
    draft.named.push(b'.')?;
    draft.last = Piece {
        octets: octets_with(draft.last.octets, part.len()),
        step: draft.last.step + 1,
    };
    Ok(())
}

/// One component more.
fn add_part(draft: &mut Draft, part: &[u8]) -> Result<(), AllocError>
    requires { list_all (λ c. not (c == 46)) part.now ≡ true }
    ensures { OnOk result ((parts : List (List ℕ)) → IsDraft draft.old parts
        → IsDraft draft.new (parts ++ part.now ∷ [])) }
{
    match part {
        [] => {
            let has_room = draft.last.step < u8::MAX;
            make_room(draft, has_room)?;
            add_empty(draft);
            Ok(())
        }
        _ => {
            let has_room = has_room(draft, part.len());
            make_room(draft, has_room)?;
            add_word(draft, part)
        }
    }
}

/// No component yet, and room for the octets of a text of this length.
fn no_part(alloc: Global, length: usize) -> Result<Draft, AllocError>
    ensures { IfOk result (λ draft. IsDraft draft []) }
{
    Ok(Draft {
        pieces: Vec::new(alloc),
        named: Vec::with_capacity(alloc, length.saturating_add(1 + PADDING.len()))?,
        last: NOTHING,
        is_open: true,
    })
}

/// The wildcard of this text.
pub(crate) fn deep_of(alloc: Global, text: &[u8], number: Id) -> Result<Deep, AllocError>
    ensures number { IfOk result (λ deep. deep.number ≡ number) }
    ensures made { IfOk result (λ deep. IsMade deep text.now) }
{
    wamp_ids::laws::components_joined();
    let mut draft = no_part(alloc, text.len())?;
    let mut dots = 0;
    let mut rest = text;
    while let Some(i) = dot_in(rest) {
        add_part(&mut draft, &rest[..i])?;
        dots += 1;
        rest = &rest[i + 1..];
    }
    add_part(&mut draft, rest)?;
    made(draft, number, dots)
}

/// What was drafted, with no room left.
fn made(draft: Draft, number: Id, dots: usize) -> Result<Deep, AllocError>
    ensures number { IfOk result (λ deep. (deep.number ≡ number) × (deep.dots ≡ dots)) }
    ensures made { IfOk result (λ deep. (parts : List (List ℕ)) → IsDraft draft parts
        → IsSpelled deep.pieces.items deep.named.items parts) }
{
    let mut pieces = draft.pieces;
    let mut named = draft.named;
    pieces.push(draft.last)?;
    named.extend_from_slice(&PADDING)?;
    pieces.shrink_to(0);
    named.shrink_to(0);
    Ok(Deep {
        number,
        dots,
        pieces,
        named,
    })
}
