//! Octets before others.
ghost use Rattle.std.specs.Prelude.{◌≡◌, ◌++◌, ℕ, List};

/// The octets up to the rest of them.
pub(crate) fn front_of<'a>(octets: &'a [u8], rest: &[u8]) -> &'a [u8]
    ensures { (front : List ℕ) → octets.entry.now ≡ front ++ rest.now → result.now ≡ front }
{
    octets.split_at(octets.len().saturating_sub(rest.len())).0
}
