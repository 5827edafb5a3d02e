//! Why nothing is said, or nothing is heard.
use std::alloc::{AllocError, AllocFailed};
use thiserror::Error;

/// Why a call of this crate was refused.
#[derive(Clone, Copy, Debug, Drop, PartialEq, Eq, Error)]
pub enum Fault {
    /// A growth of memory was refused.
    #[error("E1 no memory")]
    NoMemory,
    /// What is to be said nests more than 100 levels as a message.
    #[error("E4 TooDeep")]
    TooDeep,
    /// The message is none that a broker sends to a client that publishes and subscribes.
    #[error("no message of a broker")]
    NoBrokerMessage,
}

impl From<AllocError> for Fault {
    ghost use Rattle.std.specs.Prelude.{◌≡◌};
    ghost use Rattle.client_messages.specs.declared.fault.Fault.TheVariants.{NoMemory};

    ghost from_gives = { λ _ fault. fault ≡ NoMemory };

    fn from(_refused: AllocError) -> Fault {
        Fault::NoMemory
    }
}

impl<T: Drop> From<AllocFailed<T>> for Fault {
    ghost use Rattle.std.specs.Prelude.{◌≡◌};
    ghost use Rattle.client_messages.specs.declared.fault.Fault.TheVariants.{NoMemory};

    ghost from_gives = { λ _ fault. fault ≡ NoMemory };

    fn from(_refused: AllocFailed<T>) -> Fault {
        Fault::NoMemory
    }
}

impl From<arguments::Fault> for Fault {
    ghost use Rattle.client_messages.specs.Faults.{arguments_fault};
    ghost use Rattle.std.specs.Prelude.{◌≡◌};

    ghost from_gives = { λ of fault. fault ≡ arguments_fault of };

    fn from(fault: arguments::Fault) -> Fault {
        match fault {
            arguments::Fault::NoMemory => Fault::NoMemory,
            arguments::Fault::Shape | arguments::Fault::TooLong => Fault::NoBrokerMessage,
        }
    }
}
