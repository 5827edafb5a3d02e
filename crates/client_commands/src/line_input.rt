//! The lines of an input that comes in pieces.
ghost use Rattle.std.specs.Prelude.{◌≡◌, ◌<◌, ◌≤◌, ◌+◌, ◌++◌, ◌∷◌, IfNone, IfSome, drop, false, length, take};
ghost use Rattle.client_commands.specs.Lines.{has_line_feed};

/// How many octets a line may have.
pub(crate) const LONGEST: usize = 1048576;

/// How far an input is published.
#[derive(Drop)]
pub(crate) struct Progress {
    /// The octets of the line that isn't ended yet.
    pub(crate) rest: Vec<u8>,
    /// How many lines were published.
    pub(crate) count: u64,
    /// How many of them are acknowledged, where that is asked for.
    pub(crate) answered: u64,
    ghost few: { count ≤ 9007199254740992 },
    ghost due: { answered ≤ count },
}

/// Where the first LF is.
pub(crate) fn line_feed_in(octets: &[u8]) -> Option<usize>
    ensures none { IfNone result (has_line_feed octets.now ≡ false) }
    ensures within { IfSome result (λ at. at < length octets.now) }
    ensures clean { IfSome result (λ at. has_line_feed (take at octets.now) ≡ false) }
    ensures at { IfSome result (λ at.
        octets.now ≡ take at octets.now ++ 10 ∷ drop (at + 1) octets.now) }
{
    for i in 0..octets.len() {
        if octets[i] == b'\n' {
            return Some(i);
        }
    }
    None
}
