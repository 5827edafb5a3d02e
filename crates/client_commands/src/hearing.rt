//! What is said and heard in a session, with the faults of a command.
ghost use Rattle.std.specs.Prelude.{◌≡◌, ◌++◌, ℕ, List, IfErr, IfOk, OnOk, Ok};
ghost use Rattle.rawsocket.specs.Devices.{Takes, TakesBeginning};
ghost use Rattle.rawsocket.specs.Steps.{Fine, ReadSteps, WriteSteps, told_by};
ghost use Rattle.session.specs.Opened.{exchange, exchanged};
ghost use Rattle.client_session.specs.Hearing.{HearsNext, ListensNext, terms};
ghost use Rattle.client_session.specs.Saying.{saying};
ghost use Rattle.client_commands.specs.Acts.{Continues, standing_of, terms_of};
ghost use Rattle.client_commands.specs.Stops.{ByLink, IsUnsaid, Stops};
ghost use Rattle.client_commands.specs.Faults.{IsNoEnd, IsOfBroker, IsOfHere, IsOfNoMessage, ReadFailuresTold, TellsEnd, WriteFailuresTold, of_message, sink_told, source_told};

use crate::fault::Fault;
use client_session::{ClientMessage, ClientSession, Heard, Link};
use rawsocket::devices::{Sink, Source};
use std::alloc::Global;

/// Says something.
pub(crate) fn say<O: Sink>(
    alloc: Global,
    link: &Link,
    sink: &mut O,
    said: ClientMessage,
) -> Result<(), Fault>
    ensures said { OnOk result
        (Takes (O.seen sink.old) (O.seen sink.new) (saying link.now.serializer said)) }
    ensures begun { TakesBeginning (O.seen sink.old) (O.seen sink.new)
        (saying link.now.serializer said) }
    ensures unread { told_by source_told result ≡ Fine }
    ensures unsaid { IfErr result (λ fault. (given : List ℕ) → ByLink (IsUnsaid
        (terms link.now.serializer link.now.limit) said (exchange given (O.seen sink.old).taken)
        (exchange given (O.seen sink.new).taken)) fault) }
    ensures unended { IfErr result IsNoEnd }
    ensures aside { IfErr result IsOfBroker }
    ensures writes { WriteSteps (O.seen sink.old) (O.seen sink.new) (told_by sink_told result) }
{
    match link.say(alloc, sink, said) {
        Ok(()) => Ok(()),
        Err(fault) => Err(Fault::from(fault)),
    }
}

/// Hears the next message.
pub(crate) fn hear<I: Source, O: Sink>(
    alloc: Global,
    session: &mut ClientSession,
    source: &mut I,
    sink: &mut O,
) -> Result<Heard, Fault>
    ensures next { IfOk result (λ heard. HearsNext (terms_of session.old)
        (standing_of session.old (I.seen source.old) (O.seen sink.old))
        (standing_of session.new (I.seen source.new) (O.seen sink.new)) (Ok heard)) }
    ensures stops { IfErr result (Stops (terms_of session.old)
        (standing_of session.old (I.seen source.old) (O.seen sink.old))
        (standing_of session.new (I.seen source.new) (O.seen sink.new))) }
    ensures goes_on { Continues (exchanged (I.seen source.old) (O.seen sink.old))
        (exchanged (I.seen source.new) (O.seen sink.new)) }
    ensures unblamed { IfErr result IsOfNoMessage }
    ensures gone { IfErr result (TellsEnd (I.seen source.new).is_ended) }
    ensures aside { IfErr result IsOfBroker }
    ensures terms { terms_of session.new ≡ terms_of session.old }
    ensures reads { ReadSteps (I.seen source.old) (I.seen source.new) (told_by source_told result) }
    ensures writes { WriteSteps (O.seen sink.old) (O.seen sink.new) (told_by sink_told result) }
{
    match session.hear(alloc, source, sink) {
        Ok(heard) => Ok(heard),
        Err(unheard) => Err(Fault::from(unheard)),
    }
}

/// Hears what the broker says by one look: the next message, or none, where none is here yet.
pub(crate) fn listen<I: Source, O: Sink>(
    alloc: Global,
    session: &mut ClientSession,
    source: &mut I,
    sink: &mut O,
) -> Result<Option<Heard>, Fault>
    ensures next { IfOk result (λ heard. ListensNext (terms_of session.old)
        (standing_of session.old (I.seen source.old) (O.seen sink.old))
        (standing_of session.new (I.seen source.new) (O.seen sink.new)) (Ok heard)) }
    ensures stops { IfErr result (Stops (terms_of session.old)
        (standing_of session.old (I.seen source.old) (O.seen sink.old))
        (standing_of session.new (I.seen source.new) (O.seen sink.new))) }
    ensures gone { IfErr result (TellsEnd (I.seen source.new).is_ended) }
    ensures aside { IfErr result IsOfBroker }
    ensures terms { terms_of session.new ≡ terms_of session.old }
    ensures reads { ReadFailuresTold (I.seen source.old) (I.seen source.new)
        (told_by source_told result) }
    ensures writes { WriteFailuresTold (O.seen sink.old) (O.seen sink.new)
        (told_by sink_told result) }
{
    match session.listen(alloc, source, sink) {
        Ok(heard) => Ok(heard),
        Err(unheard) => Err(Fault::from(unheard)),
    }
}

/// Why a message that nothing waits for ends a command.
pub(crate) fn fault_of(heard: Heard) -> Fault
    ensures why { result ≡ of_message heard }
    ensures of_broker { IsOfBroker result }
    ensures of_here { IsOfHere result }
{
    match heard {
        Heard::Abort { reason } => Fault::Refused(reason),
        Heard::Error { reason, .. } => Fault::Refused(reason),
        Heard::Goodbye { reason } => Fault::Closed(reason),
        _ => Fault::Unexpected,
    }
}
