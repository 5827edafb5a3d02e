//! A list of session ids, in a form in which one look-up takes few steps.
ghost use Rattle.std.specs.Prelude.{◌≡◌, ◌==◌, length, IfOk, OnErr, IfErr, Some, None};
ghost use Rattle.message_tree.specs.Data.{Items, list, whole, fits_codecs};
ghost use Rattle.msgpack_codec.specs.Grammar.{Spells};
ghost use Rattle.eligibility.specs.Options.{each_of, number_of};
ghost use Rattle.eligibility.specs.Lists.{has_number};
ghost use Rattle.eligibility.specs.body.IdSet.{holds};
ghost use Rattle.eligibility.specs.body.Standing.{AreHeld, is_bare};

use crate::fault::Fault;
use crate::id_set::{self, IdSet, LARGE};
use msgpack_codec::{Token, first_token};
use msgpack_cursor::{Elements, Seen, Value};
use std::alloc::{AllocError, Global};
use std::marker::Model;
use std::snapshot::Snapshot;
use wamp_ids::Id;

/// A list of session ids. Contracts see the numbers as they were given, by a snapshot of the octets
/// that spell them, which takes no memory; what is kept is the set of the ids, and whether no
/// number was given at all, since one that is no id isn't in the set.
#[derive(Drop)]
pub(crate) struct Numbers {
    ids: IdSet,
    is_empty: bool,
    given: Snapshot<Vec<u8>>,
}

impl Model for Numbers {
    ghost use Rattle.std.specs.Prelude.{◌≡◌, ◌<◌, ◌^◌, ◌==◌, ℕ, ℤ, List, length};
    ghost use Rattle.std.specs.Ordering.{nat_cmp};
    ghost use Rattle.std.specs.List.Sorted.{IsStrictlySortedBy};
    ghost use Rattle.eligibility.specs.Options.{number_of};
    ghost use Rattle.eligibility.specs.Lists.{has_number};
    ghost use Rattle.eligibility.specs.body.IdSet.{holds};
    ghost use Rattle.eligibility.specs.body.Standing.{listed_in};

    ghost Value = { List ℤ };

    ghost view = { λ n. listed_in number_of n.given.value.items };

    ghost invariant = { λ n. IsStrictlySortedBy nat_cmp n.ids.large.items
        × ((q : ℕ) → q < 2 ^ 64
        → has_number q (listed_in number_of n.given.value.items) ≡ holds n.ids q)
        × (n.is_empty ≡ (length (listed_in number_of n.given.value.items) == 0)) };
}

impl Numbers {
    /// The list of these items, of which so many are large, and which stands in these octets.
    pub fn of(
        alloc: Global,
        octets: &[u8],
        items: Elements<'_>,
        room: usize,
    ) -> Result<Numbers, Fault>
        requires { Spells 100 octets.now (list items) }
        ensures ok { IfOk result (λ n. each_of number_of items.entry ≡ Some n) }
        ensures bad { result ≡ Err Fault.Shape → each_of number_of items.entry ≡ None }
    {
        let given = snapshot_of(alloc, octets)?;
        let mut ids = ids_of(alloc, items, room)?;
        id_set::put_in_order(&mut ids);
        let is_empty = is_bare(octets);
        Ok(Numbers {
            ids,
            is_empty,
            given,
        })
    }

    /// Whether there are none.
    pub fn is_empty(&self) -> bool
        ensures { result ≡ (length self.now == 0) }
    {
        self.is_empty
    }

    /// Whether this session is among them.
    pub fn has(&self, id: Id) -> bool
        ensures { result ≡ has_number id self.now }
    {
        id_set::has(&self.ids, id.value())
    }
}

fn snapshot_of(alloc: Global, octets: &[u8]) -> Result<Snapshot<Vec<u8>>, AllocError>
    ensures { IfOk result (λ given. given.value.items ≡ octets.now) }
{
    let copy = Vec::from_slice(alloc, octets)?;
    Ok(Snapshot::of(&copy))
}

/// Whether the list that the octets are has no members.
fn is_bare(octets: &[u8]) -> bool
    ensures { (items : Items) → Spells 100 octets.now (list items) → result ≡ is_bare items }
{
    let Ok((token, _members)) = first_token(octets) else {
        return false;
    };
    match token {
        Token::List(count) => count == 0,
        _ => false,
    }
}

/// How many of the items are large numbers.
pub(crate) fn large_count(items: Elements<'_>) -> usize {
    let mut items = items;
    let mut count = 0usize;
    while let Some(item) = items.next() {
        if is_large(&item) {
            count = count.saturating_add(1);
        }
    }
    count
}

fn is_large(item: &Value<'_>) -> bool {
    matches!(item.seen(), Seen::Whole(number) if number >= LARGE)
}

fn ids_of(alloc: Global, items: Elements<'_>, room: usize) -> Result<IdSet, Fault>
    ensures ok { IfOk result (λ ids. AreHeld (holds ids) (each_of number_of items.entry)) }
    ensures bad { result ≡ Err Fault.Shape → each_of number_of items.entry ≡ None }
{
    let mut items = items;
    let mut ids = id_set::with_room(alloc, room)?;
    while let Some(item) = items.next() {
        id_set::add(&mut ids, number_of(&item)?)?;
    }
    Ok(ids)
}

fn number_of(item: &Value<'_>) -> Result<i128, Fault>
    ensures ok { IfOk result (λ z. number_of item.now ≡ Some z) }
    ensures bad { OnErr result (number_of item.now ≡ None) }
    ensures fault { IfErr result (λ fault. fault ≡ Fault.Shape) }
{
    match item.seen() {
        Seen::Whole(number) if fits_codecs(number) => Ok(number),
        _ => Err(Fault::Shape),
    }
}

/// Whether a serialization carries the number as a whole number.
fn fits_codecs(number: i128) -> bool
    ensures { result ≡ fits_codecs number }
{
    -(1 << 63) <= number && number < 1 << 64
}
