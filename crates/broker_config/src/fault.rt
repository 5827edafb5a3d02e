//! Why serving ended.
use std::alloc::AllocError;
use thiserror::Error;

/// Why a broker ended.
#[derive(Clone, Copy, Debug, Drop, PartialEq, Eq, Error)]
pub enum Fault {
    /// E1: a growth of memory, a thread or a seed for random words was refused at the start.
    #[error("E1 no memory")]
    NoMemory,
    /// E26: accepting failed 100 times in a row.
    #[error("E26 listen fault")]
    ListenFault,
}

impl From<AllocError> for Fault {
    ghost use Rattle.std.specs.Prelude.{◌≡◌};
    ghost use Rattle.broker_config.specs.declared.fault.Fault.TheVariants.{NoMemory};

    ghost from_gives = { λ _ fault. fault ≡ NoMemory };

    fn from(_refused: AllocError) -> Fault {
        Fault::NoMemory
    }
}
