//! The broker while nothing is there to be published.
ghost use Rattle.std.specs.Prelude.{◌≡◌, IfErr, OnOk};
ghost use Rattle.rawsocket.specs.Steps.{told_by};
ghost use Rattle.client_session.specs.Hearing.{HearsNoneYet};
ghost use Rattle.client_commands.specs.Acts.{standing_of, terms_of};
ghost use Rattle.client_commands.specs.Stops.{Stops};
ghost use Rattle.client_commands.specs.Faults.{IsOfBroker, ReadFailuresTold, TellsEnd, WriteFailuresTold, sink_told, source_told};

use crate::fault::Fault;
use crate::hearing::{fault_of, listen};
use crate::timing::{Arrival, Timing};
use client_session::ClientSession;
use rawsocket::devices::{Sink, Source};
use std::alloc::Global;

/// Attends to the broker until something comes from the input: its PINGs are answered. A message ends the command, since nothing
/// waits for one.
pub(crate) fn attend<I: Source, O: Sink, T: Timing>(
    alloc: Global,
    session: &mut ClientSession,
    source: &mut I,
    sink: &mut O,
    timing: &mut T,
) -> Result<(), Fault>
    ensures attended { OnOk result (HearsNoneYet (terms_of session.old)
        (standing_of session.old (I.seen source.old) (O.seen sink.old))
        (standing_of session.new (I.seen source.new) (O.seen sink.new))) }
    ensures stops { IfErr result (Stops (terms_of session.old)
        (standing_of session.old (I.seen source.old) (O.seen sink.old))
        (standing_of session.new (I.seen source.new) (O.seen sink.new))) }
    ensures gone { IfErr result (TellsEnd (I.seen source.new).is_ended) }
    ensures terms { terms_of session.new ≡ terms_of session.old }
    ensures aside { IfErr result IsOfBroker }
    ensures reads { ReadFailuresTold (I.seen source.old) (I.seen source.new)
        (told_by source_told result) }
    ensures writes { WriteFailuresTold (O.seen sink.old) (O.seen sink.new)
        (told_by sink_told result) }
{
    'arrivals: for _ in 0..u64::MAX {
        let is_held = !session.link().is_quiet();
        match timing.waits(is_held) {
            Arrival::Input => return Ok(()),
            Arrival::Broker => {}
        }
        match listen(alloc, session, source, sink) {
            Ok(None) => {}
            Ok(Some(heard)) => return Err(fault_of(heard)),
            Err(fault) => return Err(fault),
        }
    }
    // No number is left to count a further look by.
    Err(Fault::NoMemory)
}
