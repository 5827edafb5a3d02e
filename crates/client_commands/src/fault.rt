//! Why a command ends before its time.
ghost use Rattle.std.specs.Prelude.{◌≡◌};
ghost use Rattle.client_commands.specs.Faults.{is_lost, is_passing};

use client_session::{NoSession, Unheard};
use message_tree::Text;
use std::alloc::{AllocError, AllocFailed};
use thiserror::Error;

/// The code by which a broker refuses a handshake that has as many connections as it takes.
const NO_SEAT: u8 = 4;

/// Why a command of this crate fails.
#[derive(Debug, Drop, Error)]
pub enum Fault {
    /// A growth of memory was refused.
    #[error("E1 no memory")]
    NoMemory,
    /// A read of the standard input failed.
    #[error("E16 read fault")]
    ReadFault,
    /// A write of the standard output failed.
    #[error("E17 write fault")]
    WriteFault,
    /// What is to be published are no arguments of a message: words that are no list or keys that are no dictionary, what nests
    /// more than 98 levels, a number that isn't whole.
    #[error("E19 usage")]
    Usage,
    /// A line of the input, counted from 1, is longer than 2^20 octets, no UTF-8, or its value is no argument of a message.
    #[error("E20 bad line {0}")]
    BadLine(u64),
    /// The standard input was read, or the standard output written, 2^32 times.
    #[error("E25 too many turns")]
    TooManyTurns,
    /// The broker refuses the session or a request by this URI, in an ABORT or an ERROR.
    #[error("E28 the broker refuses: {}", .0.as_str())]
    Refused(Text),
    /// The connection to the broker failed, or what came is no message of a broker.
    #[error("E29 the connection failed: {0}")]
    Connection(client_session::Fault),
    /// A message came that the broker had no cause to send.
    #[error("E29 the connection failed: a message that nothing asked for")]
    Unexpected,
    /// An EVENT came of a subscription that the session was never given.
    #[error("E29 the connection failed: an event of no subscription")]
    ForeignEvent,
    /// The broker closed the session, for this reason, a URI.
    #[error("E29 the broker closed the session: {}", .0.as_str())]
    Closed(Text),
    /// No connection to the broker could be made.
    #[error("E27 the broker can't be reached")]
    Unreachable,
}

impl Fault {
    /// Whether another connection may do better: there was none, it broke, the broker closed the session or had no seat left.
    pub fn is_passing(&self) -> bool
        ensures { result ≡ is_passing self.now }
    {
        match self {
            Fault::Unreachable => true,
            Fault::Connection(fault) => is_lost(*fault),
            Fault::Closed(_) => true,
            _ => false,
        }
    }
}

/// Whether a link broke, or the broker had no seat left.
fn is_lost(fault: client_session::Fault) -> bool
    ensures { result ≡ is_lost fault }
{
    match fault {
        client_session::Fault::Ended => true,
        client_session::Fault::ReadFault => true,
        client_session::Fault::WriteFault => true,
        client_session::Fault::Refused(code) => code == NO_SEAT,
        _ => false,
    }
}

impl From<AllocError> for Fault {
    ghost use Rattle.std.specs.Prelude.{◌≡◌};
    ghost use Rattle.client_commands.specs.declared.fault.Fault.TheVariants.{NoMemory};

    ghost from_gives = { λ _ fault. fault ≡ NoMemory };

    fn from(_refused: AllocError) -> Fault {
        Fault::NoMemory
    }
}

impl<T: Drop> From<AllocFailed<T>> for Fault {
    ghost use Rattle.std.specs.Prelude.{◌≡◌};
    ghost use Rattle.client_commands.specs.declared.fault.Fault.TheVariants.{NoMemory};

    ghost from_gives = { λ _ fault. fault ≡ NoMemory };

    fn from(_refused: AllocFailed<T>) -> Fault {
        Fault::NoMemory
    }
}

impl From<client_session::Fault> for Fault {
    ghost use Rattle.client_commands.specs.Faults.{of_link};
    ghost use Rattle.std.specs.Prelude.{◌≡◌};

    ghost from_gives = { λ of fault. fault ≡ of_link of };

    fn from(of: client_session::Fault) -> Fault {
        match of {
            client_session::Fault::NoMemory => Fault::NoMemory,
            _ => Fault::Connection(of),
        }
    }
}

impl From<NoSession> for Fault {
    ghost use Rattle.client_commands.specs.Faults.{of_opening};
    ghost use Rattle.std.specs.Prelude.{◌≡◌};

    ghost from_gives = { λ of fault. fault ≡ of_opening of };

    fn from(of: NoSession) -> Fault {
        match of {
            NoSession::Aborted(reason) => Fault::Refused(reason),
            NoSession::Unexpected => Fault::Unexpected,
            NoSession::Failed(fault) => Fault::from(fault),
        }
    }
}

impl From<Unheard> for Fault {
    ghost use Rattle.client_commands.specs.Faults.{of_hearing};
    ghost use Rattle.std.specs.Prelude.{◌≡◌};

    ghost from_gives = { λ of fault. fault ≡ of_hearing of };

    fn from(of: Unheard) -> Fault {
        match of {
            Unheard::ForeignEvent => Fault::ForeignEvent,
            Unheard::Failed(fault) => Fault::from(fault),
        }
    }
}
