//! Why nothing is written.
use std::alloc::AllocError;
use thiserror::Error;

/// Why a value isn't written.
#[derive(Clone, Copy, Debug, Drop, PartialEq, Eq, Error)]
pub enum Fault {
    /// A growth was refused.
    #[error("E1 no memory")]
    NoMemory,
    /// The octets begin with no value that is carried and nests as many levels at most as a message does.
    #[error("E5 Malformed")]
    Malformed,
}

impl From<AllocError> for Fault {
    ghost use Rattle.std.specs.Prelude.{◌≡◌};
    ghost use Rattle.msgpack_to_json.specs.declared.fault.Fault.TheVariants.{NoMemory};

    ghost from_gives = { λ _ fault. fault ≡ NoMemory };

    fn from(_refused: AllocError) -> Fault {
        Fault::NoMemory
    }
}
