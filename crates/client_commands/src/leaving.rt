//! The way out of a session.
ghost use Rattle.std.specs.Prelude.{◌≡◌, ◌++◌, ℕ, List, IfErr, OnOk};
ghost use Rattle.rawsocket.specs.Devices.{Reading, TakesBeginning};
ghost use Rattle.rawsocket.specs.Steps.{Fine, told_by};
ghost use Rattle.session.specs.Opened.{exchange, exchanged};
ghost use Rattle.client_session.specs.Saying.{saying};
ghost use Rattle.client_commands.specs.Acts.{Continues, Leaves, may_come, standing_of, terms_of};
ghost use Rattle.client_commands.specs.Stops.{FailsToLeave, IsAnswered};
ghost use Rattle.client_commands.specs.Faults.{IsNoEnd, IsOfBroker, ReadFailuresTold, RunsOut, TellsEnd, WriteFailuresTold, sink_told, source_told};

use crate::fault::Fault;
use crate::hearing::{fault_of, hear, say};
use client_session::{ClientMessage, ClientSession, Heard};
use message_tree::Text;
use rawsocket::devices::{Sink, Source};
use std::alloc::Global;

/// Whether a message may still come before the broker's GOODBYE: an event, or a subscription that is given.
fn may_come(heard: &Heard) -> bool
    ensures { result ≡ may_come heard.now }
{
    match heard {
        Heard::Event { .. } => true,
        Heard::Subscribed { .. } => true,
        _ => false,
    }
}

/// Says GOODBYE, and hears until the broker says it. Events that come before it are passed over.
///
/// # Errors
/// [`Fault::Refused`] by an ERROR or an ABORT that comes before it, and as [`crate::subscribe`] fails.
pub(crate) fn leave<I: Source, O: Sink>(
    alloc: Global,
    session: &mut ClientSession,
    source: &mut I,
    sink: &mut O,
) -> Result<(), Fault>
    ensures left { OnOk result (Leaves (terms_of session.old)
        (standing_of session.old (I.seen source.old) (O.seen sink.old))
        (standing_of session.new (I.seen source.new) (O.seen sink.new))) }
    ensures goes_on { Continues (exchanged (I.seen source.old) (O.seen sink.old))
        (exchanged (I.seen source.new) (O.seen sink.new)) }
    ensures fails { IfErr result (FailsToLeave (terms_of session.old)
        (standing_of session.old (I.seen source.old) (O.seen sink.old))
        (exchanged (I.seen source.new) (O.seen sink.new))) }
    ensures gone { IfErr result (TellsEnd (I.seen source.new).is_ended) }
    ensures turns { IfErr result (RunsOut (I.seen source.new) (O.seen sink.new)) }
    ensures aside { IfErr result IsOfBroker }
    ensures reads { ReadFailuresTold (I.seen source.old) (I.seen source.new)
        (told_by source_told result) }
    ensures writes { WriteFailuresTold (O.seen sink.old) (O.seen sink.new)
        (told_by sink_told result) }
{
    if let Err(fault) = say(alloc, session.link(), sink, ClientMessage::Goodbye) {
        return Err(fault);
    }
    'messages: for _ in 0..u64::MAX {
        let heard = match hear(alloc, session, source, sink) {
            Ok(heard) => heard,
            Err(fault) => return Err(fault),
        };
        match heard {
            Heard::Goodbye { .. } => return Ok(()),
            other => {
                if !may_come(&other) {
                    return Err(fault_of(other));
                }
            }
        }
    }
    // No number is left to count a further message by.
    Err(Fault::NoMemory)
}

/// Answers the broker that closed the session for this reason, and gives the fault by which a command ends.
pub(crate) fn answer_goodbye<O: Sink>(
    alloc: Global,
    session: &ClientSession,
    sink: &mut O,
    reason: Text,
) -> Fault
    ensures answered { (given : List ℕ) → IsAnswered (terms_of session.now) reason
        (exchange given (O.seen sink.old).taken) (exchange given (O.seen sink.new).taken) result }
    ensures begun { TakesBeginning (O.seen sink.old) (O.seen sink.new)
        (saying session.now.line.serializer ClientMessage.GoodbyeAndOut) }
    ensures turns { (source : Reading) → RunsOut source (O.seen sink.new) result }
    ensures unended { IsNoEnd result }
    ensures unread { source_told result ≡ Fine }
    ensures aside { IsOfBroker result }
    ensures writes { WriteFailuresTold (O.seen sink.old) (O.seen sink.new)
        (sink_told result) }
{
    match say(alloc, session.link(), sink, ClientMessage::GoodbyeAndOut) {
        Ok(()) => Fault::Closed(reason),
        Err(fault) => fault,
    }
}
