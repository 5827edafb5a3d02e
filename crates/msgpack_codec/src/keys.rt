//! The order of keys.
ghost use Rattle.std.specs.Prelude.{◌≡◌};
ghost use Rattle.std.specs.Cmp.Lexicographic.{slice_cmp};
ghost use Rattle.std.specs.Ordering.{nat_cmp};

use std::cmp::Ordering;

/// How two keys compare, by their bytes. Most differ in the first one, which is told much faster than by the slices.
#[inline(always)]
pub fn key_order(key: &[u8], other: &[u8]) -> Ordering
    ensures { result ≡ slice_cmp nat_cmp key.now other.now }
{
    let Some((first, _)) = key.split_first() else {
        return key.cmp(&other);
    };
    let Some((second, _)) = other.split_first() else {
        return key.cmp(&other);
    };
    if *first < *second {
        return Ordering::Less;
    }
    if *first > *second {
        return Ordering::Greater;
    }
    key.cmp(&other)
}
