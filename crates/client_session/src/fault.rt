//! Why a session of a client fails.
use rawsocket::devices::NoOctets;
use std::alloc::{AllocError, AllocFailed};
use thiserror::Error;

/// Why a call of this crate was refused.
#[derive(Clone, Copy, Debug, Drop, PartialEq, Eq, Error)]
pub enum Fault {
    /// A growth of memory was refused.
    #[error("E1 no memory")]
    NoMemory,
    /// The broker refuses the handshake, for this reason (WAMP, "RawSocket Transport"): 1 it doesn't
    /// speak the serializer, 2 it doesn't take the length, 3 a reserved octet isn't 0, 4 it has as many
    /// connections as it takes.
    #[error("the broker refuses the handshake: error {}, {}", .0, meaning(*.0))]
    Refused(u8),
    /// What answers the handshake is no RawSocket broker that speaks the serializer.
    #[error("no RawSocket broker answers")]
    NoBroker,
    /// A frame of the broker is longer than the client takes.
    #[error("E11 FrameTooLong")]
    FrameTooLong,
    /// A frame's first octet is none of the three types.
    #[error("E12 FrameType")]
    FrameType,
    /// A message of the broker nests more than 100 levels.
    #[error("E4 TooDeep")]
    TooDeep,
    /// The octets of a frame are no message.
    #[error("E5 Malformed")]
    Malformed,
    /// A message is none that a broker sends to a client that publishes and subscribes.
    #[error("no message of a broker")]
    NoBrokerMessage,
    /// What is to be said nests too deep, or the serialization has no spelling for it.
    #[error("no spelling for what is to be said")]
    Unsayable,
    /// A message, or the answer to a PING, has more octets than the broker takes.
    #[error("longer than the broker takes")]
    TooLongForBroker,
    /// The stream ended.
    #[error("the broker ended the connection")]
    Ended,
    /// A read failed.
    #[error("E16 read fault")]
    ReadFault,
    /// A write failed.
    #[error("E17 write fault")]
    WriteFault,
    /// A call read the stream 2^32 times.
    #[error("E25 too many reads")]
    TooManyReads,
    /// A call wrote the stream 2^32 times.
    #[error("E25 too many writes")]
    TooManyWrites,
}

/// What the code of a refusal means, in WAMP's own words.
fn meaning(code: u8) -> &'static str {
    match code {
        1 => "serializer unsupported",
        2 => "maximum message length unacceptable",
        3 => "use of reserved bits",
        4 => "maximum connection count reached",
        _ => "of no known meaning",
    }
}

impl From<AllocError> for Fault {
    ghost use Rattle.std.specs.Prelude.{◌≡◌};
    ghost use Rattle.client_session.specs.declared.fault.Fault.TheVariants.{NoMemory};

    ghost from_gives = { λ _ fault. fault ≡ NoMemory };

    fn from(_refused: AllocError) -> Fault {
        Fault::NoMemory
    }
}

impl<T: Drop> From<AllocFailed<T>> for Fault {
    ghost use Rattle.std.specs.Prelude.{◌≡◌};
    ghost use Rattle.client_session.specs.declared.fault.Fault.TheVariants.{NoMemory};

    ghost from_gives = { λ _ fault. fault ≡ NoMemory };

    fn from(_refused: AllocFailed<T>) -> Fault {
        Fault::NoMemory
    }
}

impl From<NoOctets> for Fault {
    ghost use Rattle.client_session.specs.Faults.{piece_fault};
    ghost use Rattle.std.specs.Prelude.{◌≡◌};

    ghost from_gives = { λ of fault. fault ≡ piece_fault of };

    fn from(none: NoOctets) -> Fault {
        match none {
            NoOctets::Ended => Fault::Ended,
            NoOctets::Failed => Fault::ReadFault,
            NoOctets::TooManyTurns => Fault::TooManyReads,
        }
    }
}
