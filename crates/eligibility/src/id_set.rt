//! A set of session ids, in a form in which one look-up takes few steps.
ghost use Rattle.std.specs.Prelude.{◌≡◌, ◌||◌, ◌<◌, ◌^◌, ℕ, false, IfOk, OnOk};
ghost use Rattle.std.specs.Ordering.{nat_cmp};
ghost use Rattle.std.specs.List.Sorted.{IsStrictlySortedBy};
ghost use Rattle.eligibility.specs.Lists.{is_number};
ghost use Rattle.eligibility.specs.body.IdSet.{holds};

use std::alloc::{AllocError, Global};
use std::collections::BTreeSet;

/// The least number of which each spelling takes two octets or more.
pub(crate) const LARGE: i128 = 128;

/// A set of ids. Of the small ones there are few, however long a list is: so each is kept once from
/// the first on. A large one takes two octets or more of a message, and is kept again until all are
/// put in order.
#[derive(Drop)]
pub(crate) struct IdSet {
    small: BTreeSet<u64>,
    pub(crate) large: Vec<u64>,
}

/// No ids, with room for so many large ones.
pub(crate) fn with_room(alloc: Global, room: usize) -> Result<IdSet, AllocError>
    ensures { IfOk result (λ ids. (q : ℕ) → holds ids q ≡ false) }
{
    let large = Vec::with_capacity(alloc, room)?;
    Ok(IdSet {
        small: BTreeSet::new(alloc),
        large,
    })
}

/// Adds a number. One that is no id is passed over.
pub(crate) fn add(ids: &mut IdSet, number: i128) -> Result<(), AllocError>
    ensures { OnOk result ((q : ℕ) → q < 2 ^ 64
        → holds ids.new q ≡ is_number q number || holds ids.old q) }
{
    if number < 0 || number > u64::MAX as i128 {
        return Ok(());
    }
    if number < LARGE {
        ids.small.insert(number as u64)?;
        return Ok(());
    }
    match ids.large.push(number as u64) {
        Ok(()) => Ok(()),
        Err(_) => Err(AllocError),
    }
}

/// Puts the large ones in order, each once, and gives back the memory of those that came again.
pub(crate) fn put_in_order(ids: &mut IdSet)
    ensures same { (q : ℕ) → holds ids.new q ≡ holds ids.old q }
    ensures ordered { IsStrictlySortedBy nat_cmp ids.new.large.items }
{
    ids.large.sort_unstable();
    ids.large.dedup();
    ids.large.shrink_to_fit();
}

/// Whether the id is among them, where the large ones stand in order.
pub(crate) fn has(ids: &IdSet, id: u64) -> bool
    requires { IsStrictlySortedBy nat_cmp ids.now.large.items }
    ensures { result ≡ holds ids.now id }
{
    ids.small.contains(&id) || ids.large.binary_search(&id).is_ok()
}
