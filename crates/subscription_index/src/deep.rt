//! Wildcards of many components: a table for all of them, and a search that goes over their pieces.
ghost use Rattle.std.specs.Prelude.{◌≡◌, ◌≤◌, ◌<◌, ◌+◌, ◌-◌, ◌^◌, get_or, ◌++◌, ◌∷◌, [], ℕ, List, true, cond, length, Some, None, IfOk, OnOk, OnErr};
ghost use Rattle.std.specs.Str.{bytes_eq};
ghost use Rattle.wamp_ids.specs.Uri.{components};
ghost use Rattle.wamp_ids.specs.Pattern.{fits};
ghost use Rattle.subscription_index.specs.body.Found.{Adds};
ghost use Rattle.subscription_index.specs.body.Pieces.{IsMade, deep_number, ended, padding, starts_of};

use crate::pieces::{Deep, PADDING, Piece, SHORT, deep_of};
use crate::words::begin_alike;
use std::alloc::{AllocError, Global};
use std::collections::BTreeMap;
use std::marker::Model;
use wamp_ids::{Id, dot_in, fits};

/// Wildcards of more than 8 components, by text. They stand in one table, since they may be of any number of shapes: only topics of
/// as many components look at it.
#[derive(Drop)]
pub(crate) struct Deeps {
    table: BTreeMap<Vec<u8>, Deep>,
}

impl Model for Deeps {
    ghost use Rattle.subscription_index.specs.body.Pieces.{AreMade, DeepNumbers, numbers_of};

    ghost Value = { DeepNumbers };

    ghost view = { λ d. numbers_of d.table.entries };

    ghost invariant = { λ d. AreMade d.table.entries };
}

impl Deeps {
    /// No wildcard is held.
    pub(crate) fn new(alloc: Global) -> Deeps
        ensures { (q : List ℕ) → deep_number result q ≡ None }
    {
        Deeps {
            table: BTreeMap::new(alloc),
        }
    }

    /// Whether none is held.
    pub(crate) fn is_empty(&self) -> bool
        ensures { result ≡ true → (q : List ℕ) → deep_number self.now q ≡ None }
    {
        self.table.is_empty()
    }

    /// The number of the text.
    pub(crate) fn find(&self, text: &[u8]) -> Option<Id>
        ensures { result ≡ deep_number self.now text.now }
    {
        match self.table.get(text) {
            None => None,
            Some(deep) => Some(deep.number),
        }
    }

    /// Gives the text this number.
    pub(crate) fn put(&mut self, alloc: Global, text: &[u8], number: Id) -> Result<(), AllocError>
        ensures ok { OnOk result ((q : List ℕ) → deep_number self.new q
            ≡ cond (bytes_eq text.now q) (Some number) (deep_number self.old q)) }
        ensures err { OnErr result ((q : List ℕ) → deep_number self.new q ≡ deep_number self.old q) }
    {
        let deep = deep_of(alloc, text, number)?;
        let key = Vec::from_slice(alloc, text)?;
        self.table.insert(key, deep)?;
        Ok(())
    }

    /// Takes the text's number away, where it has one.
    pub(crate) fn take(&mut self, text: &[u8])
        ensures { (q : List ℕ) → deep_number self.new q ≡ cond (bytes_eq text.now q)
            None (deep_number self.old q) }
    {
        self.table.remove(text);
    }

    /// Adds the numbers of the wildcards that fit the topic.
    pub(crate) fn add_fitting(
        &self,
        alloc: Global,
        topic: &[u8],
        numbers: &mut Vec<Id>,
    ) -> Result<(), AllocError>
        ensures { OnOk result (Adds (deep_number self.now)
            (λ q. fits (components q) (components topic.now)) numbers.old.items numbers.new.items) }
    {
        let starts = starts_of(alloc, topic)?;
        let dotted = ended(alloc, topic)?;
        let _ = self.table.len();
        for (text, deep) in &self.table {
            add_if_fits(text, deep, topic, &dotted, &starts, numbers)?;
        }
        Ok(())
    }
}

/// Places of octets are held as `u32`, since a search goes over those of the whole topic for each wildcard.
const MOST_PLACES: usize = u32::MAX as usize;

/// Where each component of a topic begins, and where the last one's dot would end; nothing where these are no places.
fn starts_of(alloc: Global, topic: &[u8]) -> Result<Vec<u32>, AllocError>
    ensures { IfOk result (λ starts. 1 ≤ length starts.items → starts.items ≡ starts_of 0 (components topic.now)) }
{
    let mut starts = Vec::new(alloc);
    if topic.len() >= MOST_PLACES {
        return Ok(starts);
    }
    let mut at = 0;
    let mut rest = topic;
    while let Some(i) = dot_in(rest) {
        starts.push(at as u32)?;
        at += i + 1;
        rest = &rest[i + 1..];
    }
    starts.push(at as u32)?;
    starts.push((at + rest.len() + 1) as u32)?;
    Ok(starts)
}

/// A topic with a dot behind it, and room to read a word at each octet.
fn ended(alloc: Global, topic: &[u8]) -> Result<Vec<u8>, AllocError>
    ensures { IfOk result (λ octets. octets.items ≡ ended (components topic.now) ++ padding) }
{
    wamp_ids::laws::components_joined();
    let mut octets = Vec::with_capacity(alloc, topic.len().saturating_add(1 + PADDING.len()))?;
    octets.extend_from_slice(topic)?;
    octets.push(b'.')?;
    octets.extend_from_slice(&PADDING)?;
    Ok(octets)
}

/// One of the places at which components begin.
fn start_at(starts: &[u32], place: usize) -> usize
    requires { place < length starts.now }
    ensures start { result ≡ get_or starts.now place 0 }
    ensures countable { length starts.now < 2 ^ 64 }
{
    starts[place] as usize
}

/// How many octets of the topic are compared with a piece that begins at this component.
fn count_at(starts: &[u32], piece: Piece, place: usize) -> usize
    requires { 8 < piece.octets → place + 1 < length starts.now }
    ensures short { piece.octets ≤ 8 → result ≡ piece.octets }
    ensures alone { 8 < piece.octets → result ≡ get_or starts.now (place + 1) 0 - get_or starts.now place 0 }
{
    let octets = piece.octets as usize;
    if octets <= SHORT {
        return octets;
    }
    start_at(starts, place + 1).saturating_sub(start_at(starts, place))
}

/// Whether the wildcard of this text fits the topic.
fn fits_pieces(text: &[u8], deep: &Deep, topic: &[u8], dotted: &[u8], starts: &[u32]) -> bool
    requires made { IsMade deep.now text.now }
    requires dotted { dotted.now ≡ ended (components topic.now) ++ padding }
    requires starts { starts.now ≡ starts_of 0 (components topic.now) }
    ensures { result ≡ fits (components text.now) (components topic.now) }
{
    wamp_ids::laws::components_joined();
    if starts.len().saturating_sub(2) != deep.dots {
        return false;
    }
    let named = deep.named.as_slice();
    let mut at = 0;
    let mut place = 0;
    for index in 0..deep.pieces.len() {
        let piece = deep.pieces[index];
        let count = count_at(starts, piece, place);
        let from = start_at(starts, place);
        if !begin_alike(&named[at..], &dotted[from..], count) {
            return false;
        }
        at += count;
        place += piece.step as usize;
    }
    true
}

/// The same, component by component where the topic is so long that there are no places.
fn fits_deep(text: &[u8], deep: &Deep, topic: &[u8], dotted: &[u8], starts: &[u32]) -> bool
    requires made { IsMade deep.now text.now }
    requires dotted { dotted.now ≡ ended (components topic.now) ++ padding }
    requires starts { 1 ≤ length starts.now → starts.now ≡ starts_of 0 (components topic.now) }
    ensures { result ≡ fits (components text.now) (components topic.now) }
{
    if starts.is_empty() {
        return fits(text, topic);
    }
    fits_pieces(text, deep, topic, dotted, starts)
}

/// Adds the number where the wildcard fits.
fn add_if_fits(
    text: &[u8],
    deep: &Deep,
    topic: &[u8],
    dotted: &[u8],
    starts: &[u32],
    numbers: &mut Vec<Id>,
) -> Result<(), AllocError>
    requires made { IsMade deep.now text.now }
    requires dotted { dotted.now ≡ ended (components topic.now) ++ padding }
    requires starts { 1 ≤ length starts.now → starts.now ≡ starts_of 0 (components topic.now) }
    ensures { OnOk result (numbers.new.items ≡
        cond (fits (components text.now) (components topic.now))
        (numbers.old.items ++ deep.now.number ∷ []) numbers.old.items) }
{
    if fits_deep(text, deep, topic, dotted, starts) {
        numbers.push(deep.number)?;
    }
    Ok(())
}
