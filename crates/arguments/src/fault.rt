//! Why a call is refused.
use std::alloc::AllocError;
use thiserror::Error;

/// Why arguments aren't read or written.
#[derive(Clone, Copy, Debug, Drop, PartialEq, Eq, Error)]
pub enum Fault {
    /// E1: a growth of memory was refused.
    #[error("E1 no memory")]
    NoMemory,
    /// E13: Arguments is no list, or ArgumentsKw no dictionary.
    #[error("E13 Shape")]
    Shape,
    /// E18: MessagePack has no spelling for them.
    #[error("E18 TooLongForClient")]
    TooLong,
}

impl From<AllocError> for Fault {
    ghost use Rattle.std.specs.Prelude.{◌≡◌};
    ghost use Rattle.arguments.specs.declared.fault.Fault.TheVariants.{NoMemory};

    ghost from_gives = { λ _ fault. fault ≡ NoMemory };

    fn from(_refused: AllocError) -> Fault {
        Fault::NoMemory
    }
}
