//! Why the program ends: the numbered faults that a user sees.
use std::alloc::{AllocError, AllocFailed};
use thiserror::Error;

/// Why a call of this crate was refused.
#[derive(Clone, Copy, Debug, Drop, PartialEq, Eq, Error)]
pub enum Fault {
    /// E1: a growth of memory was refused.
    #[error("E1 no memory")]
    NoMemory,
    /// E16: a read failed.
    #[error("E16 read fault")]
    ReadFault,
    /// E17: a write failed.
    #[error("E17 write fault")]
    WriteFault,
    /// E19: a command line that isn't accepted.
    #[error("E19 usage")]
    Usage,
    /// E20: a line of a replay that is none. Lines are counted from 1.
    #[error("E20 bad line {0}")]
    BadLine(u64),
    /// E25: 2^32 reads or writes on one stream in one call.
    #[error("E25 too many turns")]
    TooManyTurns,
    /// E26: nobody can be listened to, or 100 connections in a row couldn't be accepted.
    #[error("E26 listen fault")]
    ListenFault,
    /// E27: nobody answers where a broker is to be.
    #[error("E27 connect fault")]
    ConnectFault,
    /// E28: the broker refuses the session, a subscription or a publication.
    #[error("E28 refused by the broker")]
    Refused,
    /// E29: the connection to the broker failed or was ended, or what came is nothing that a broker says.
    #[error("E29 connection fault")]
    ConnectionFault,
    /// E30: the broker didn't answer within the time that it has.
    #[error("E30 no answer in time")]
    LateAnswer,
    /// E31: a file that is to be published can't be opened or read, or is longer than a message may be.
    #[error("E31 file fault")]
    FileFault,
}

impl From<AllocError> for Fault {
    ghost use Rattle.std.specs.Prelude.{◌≡◌};
    ghost use Rattle.command_line.specs.declared.fault.Fault.TheVariants.{NoMemory};

    ghost from_gives = { λ _ fault. fault ≡ NoMemory };

    fn from(_refused: AllocError) -> Fault {
        Fault::NoMemory
    }
}

impl<T: Drop> From<AllocFailed<T>> for Fault {
    ghost use Rattle.std.specs.Prelude.{◌≡◌};
    ghost use Rattle.command_line.specs.declared.fault.Fault.TheVariants.{NoMemory};

    ghost from_gives = { λ _ fault. fault ≡ NoMemory };

    fn from(_refused: AllocFailed<T>) -> Fault {
        Fault::NoMemory
    }
}

impl From<replay::Fault> for Fault {
    ghost use Rattle.std.specs.Prelude.{◌≡◌};
    ghost use Rattle.command_line.specs.Commands.{fault_of_replay};

    ghost from_gives = { λ of fault. fault ≡ fault_of_replay of };

    fn from(fault: replay::Fault) -> Fault {
        match fault {
            replay::Fault::NoMemory => Fault::NoMemory,
            replay::Fault::ReadFault => Fault::ReadFault,
            replay::Fault::WriteFault => Fault::WriteFault,
            replay::Fault::BadLine(line) => Fault::BadLine(line),
            replay::Fault::TooManyTurns => Fault::TooManyTurns,
        }
    }
}

impl From<client_commands::Fault> for Fault {
    ghost use Rattle.std.specs.Prelude.{◌≡◌};
    ghost use Rattle.command_line.specs.Commands.{fault_of_client};

    ghost from_gives = { λ of fault. fault ≡ fault_of_client of };

    fn from(fault: client_commands::Fault) -> Fault {
        match fault {
            client_commands::Fault::NoMemory => Fault::NoMemory,
            client_commands::Fault::ReadFault => Fault::ReadFault,
            client_commands::Fault::WriteFault => Fault::WriteFault,
            client_commands::Fault::Usage => Fault::Usage,
            client_commands::Fault::BadLine(line) => Fault::BadLine(line),
            client_commands::Fault::TooManyTurns => Fault::TooManyTurns,
            client_commands::Fault::Refused(_) => Fault::Refused,
            client_commands::Fault::Connection(_) => Fault::ConnectionFault,
            client_commands::Fault::Unexpected => Fault::ConnectionFault,
            client_commands::Fault::ForeignEvent => Fault::ConnectionFault,
            client_commands::Fault::Closed(_) => Fault::ConnectionFault,
            client_commands::Fault::Unreachable => Fault::ConnectFault,
        }
    }
}

impl From<client_commands::InputFault> for Fault {
    ghost use Rattle.std.specs.Prelude.{◌≡◌};
    ghost use Rattle.command_line.specs.Commands.{fault_of_input};

    ghost from_gives = { λ of fault. fault ≡ fault_of_input of };

    fn from(fault: client_commands::InputFault) -> Fault {
        match fault {
            client_commands::InputFault::NoMemory => Fault::NoMemory,
            client_commands::InputFault::ReadFault => Fault::FileFault,
            client_commands::InputFault::TooLong => Fault::FileFault,
            client_commands::InputFault::TooManyTurns => Fault::TooManyTurns,
        }
    }
}

impl From<broker_config::Fault> for Fault {
    ghost use Rattle.std.specs.Prelude.{◌≡◌};
    ghost use Rattle.command_line.specs.Commands.{fault_of};

    ghost from_gives = { λ of fault. fault ≡ fault_of of };

    fn from(fault: broker_config::Fault) -> Fault {
        match fault {
            broker_config::Fault::NoMemory => Fault::NoMemory,
            broker_config::Fault::ListenFault => Fault::ListenFault,
        }
    }
}
