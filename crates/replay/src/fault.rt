//! Why a replay ends.
use std::alloc::{AllocError, AllocFailed};
use thiserror::Error;

/// Why a replay ended before its input did.
#[derive(Clone, Copy, Debug, Drop, PartialEq, Eq, Error)]
pub enum Fault {
    /// E1: a growth of memory was refused.
    #[error("E1 no memory")]
    NoMemory,
    /// E16: a read failed.
    #[error("E16 read fault")]
    ReadFault,
    /// E17: a write failed.
    #[error("E17 write fault")]
    WriteFault,
    /// E20: a line that is none of a replay. Lines are counted from 1.
    #[error("E20 bad line {0}")]
    BadLine(u64),
    /// E25: 2^32 reads or writes on one stream in one call.
    #[error("E25 too many turns")]
    TooManyTurns,
}

impl From<AllocError> for Fault {
    ghost use Rattle.std.specs.Prelude.{◌≡◌};
    ghost use Rattle.replay.specs.declared.fault.Fault.TheVariants.{NoMemory};

    ghost from_gives = { λ _ fault. fault ≡ NoMemory };

    fn from(_refused: AllocError) -> Fault {
        Fault::NoMemory
    }
}

impl<T: Drop> From<AllocFailed<T>> for Fault {
    ghost use Rattle.std.specs.Prelude.{◌≡◌};
    ghost use Rattle.replay.specs.declared.fault.Fault.TheVariants.{NoMemory};

    ghost from_gives = { λ _ fault. fault ≡ NoMemory };

    fn from(_refused: AllocFailed<T>) -> Fault {
        Fault::NoMemory
    }
}
