//! How much a realm and its actor hold, for who looks on.
use realm::Tally;

/// How much a realm and its actor hold. Nothing is promised of it.
#[derive(Clone, Copy, Debug, Drop, PartialEq, Eq)]
pub struct Load {
    /// What the realm holds, and gave so far.
    pub realm: Tally,
    /// How many items wait in the longest outbox, as far as what was taken is counted.
    pub longest_outbox: u64,
    /// How many posts wait in the inbox.
    pub posts_waiting: u64,
}
