//! Octets to the broker.
ghost use Rattle.std.specs.Prelude.{◌≡◌, ◌≢◌, ◌++◌, OnOk, IfErr};
ghost use Rattle.rawsocket.specs.Devices.{Takes, TakesBeginning};
ghost use Rattle.rawsocket.specs.Steps.{Steps, told_by, write_meter};
ghost use Rattle.client_session.specs.Faults.{write_told};
ghost use Rattle.client_session.specs.Hearing.{IsSendingFault};

use crate::fault::Fault;
use rawsocket::devices::{Sink, Turns};

/// Writes octets, and passes them on.
pub(crate) fn send<O: Sink>(sink: &mut O, octets: &[u8], turns: &mut Turns) -> Result<(), Fault>
    ensures written { OnOk result (Takes (O.seen sink.old) (O.seen sink.new) octets.now) }
    ensures begun { TakesBeginning (O.seen sink.old) (O.seen sink.new) octets.now }
    ensures fault { IfErr result IsSendingFault }
    ensures writes { Steps (write_meter (O.seen sink.old) turns.old)
        (write_meter (O.seen sink.new) turns.new) (told_by write_told result) }
{
    match rawsocket::send(sink, octets, turns) {
        Ok(()) => Ok(()),
        Err(rawsocket::Fault::WriteFault) => Err(Fault::WriteFault),
        Err(_) => Err(Fault::TooManyWrites),
    }
}
