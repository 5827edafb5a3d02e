//! Why a read gives no octets.

/// Why no octets came.
#[derive(Clone, Copy, Debug, Drop, PartialEq, Eq)]
pub enum NoOctets {
    /// The stream has ended.
    Ended,
    /// The device failed.
    Failed,
    /// No turn was left to read it.
    TooManyTurns,
}
