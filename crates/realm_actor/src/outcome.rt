//! What became of a post.

/// What became of a post.
#[derive(Clone, Copy, Debug, PartialEq, Eq)]
pub enum Outcome {
    /// It entered the history.
    Applied,
    /// Its connection isn't live, or may not join. Nothing changed, but that the act counts as handled.
    Dropped,
    /// Memory was refused (E1): the session was cut, if it was live.
    NoMemory,
}
