//! Why a connection gets no seat.
use thiserror::Error;

/// Why no seat was taken.
#[derive(Clone, Copy, Debug, Drop, PartialEq, Eq, Error)]
pub enum SeatFault {
    /// E10: no seat is free.
    #[error("E10 TooManyConnections")]
    TooManyConnections,
}
