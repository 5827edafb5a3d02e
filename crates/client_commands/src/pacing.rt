//! Publications of a window: each acknowledgement is heard before too many are due.
ghost use Rattle.std.specs.Prelude.{◌≡◌, ◌≢◌, ◌<◌, ◌≤◌, ◌+◌, ◌∷◌, ℕ, [], IfOk, IfErr, OnOk, false, length, true};
ghost use Rattle.rawsocket.specs.Steps.{told_by};
ghost use Rattle.client_messages.specs.declared.heard.Heard.TheVariants.{Published as PublishedHeard};
ghost use Rattle.client_commands.specs.Acts.{standing_of, terms_of};
ghost use Rattle.client_commands.specs.Ends.{EndsAtLine, GetsNoAnswer, IsBadLine, IsUnanswered};
ghost use Rattle.client_commands.specs.Pacing.{IsAcknowledged, IsOfLine, IsPaced, WherePaced, publication};
ghost use Rattle.client_commands.specs.Faults.{IsOfBroker, IsOfHere, ReadFailuresTold, TellsEnd, WriteFailuresTold, is_blamed, sink_told, source_told};

use crate::command::PublishCommand;
use crate::fault::Fault;
use crate::hearing::{fault_of, hear, say};
use crate::line_input::{LONGEST, Progress};
use crate::message_args::args_of_line;
use crate::timing::Timing;
use client_session::{Args, ClientMessage, ClientSession, Heard};
use rawsocket::devices::{Sink, Source};
use std::alloc::{AllocError, Global};
use wamp_ids::Id;

/// How many publications may be unanswered: enough to keep a broker at work, and few beside what an outbox holds.
const WINDOW: u64 = 16;

/// Hears that a request is published.
pub(crate) fn hear_answer<I: Source, O: Sink>(
    alloc: Global,
    session: &mut ClientSession,
    source: &mut I,
    sink: &mut O,
    request: u64,
) -> Result<(), Fault>
    ensures published { OnOk result (IsAcknowledged (terms_of session.old) request
        (standing_of session.old (I.seen source.old) (O.seen sink.old))
        (standing_of session.new (I.seen source.new) (O.seen sink.new))) }
    ensures another { IfErr result (λ fault. is_blamed fault ≡ true → GetsNoAnswer
        (terms_of session.old) request
        (standing_of session.old (I.seen source.old) (O.seen sink.old))
        (standing_of session.new (I.seen source.new) (O.seen sink.new)) fault) }
    ensures gone { IfErr result (TellsEnd (I.seen source.new).is_ended) }
    ensures terms { terms_of session.new ≡ terms_of session.old }
    ensures aside { IfErr result IsOfBroker }
    ensures reads { ReadFailuresTold (I.seen source.old) (I.seen source.new)
        (told_by source_told result) }
    ensures writes { WriteFailuresTold (O.seen sink.old) (O.seen sink.new)
        (told_by sink_told result) }
{
    let heard = match hear(alloc, session, source, sink) {
        Ok(heard) => heard,
        Err(fault) => return Err(fault),
    };
    if is_published(&heard, request) {
        return Ok(());
    }
    Err(fault_of(heard))
}

/// Whether this is the PUBLISHED of a request.
fn is_published(heard: &Heard, asked: u64) -> bool
    ensures published { result ≡ true → (publication : ℕ)
        × (heard.now ≡ PublishedHeard asked publication) }
    ensures other { result ≡ false → (publication : ℕ)
        → heard.now ≢ PublishedHeard asked publication }
{
    match heard {
        Heard::Published { request, .. } => request.value() == asked,
        _ => false,
    }
}

/// Hears the acknowledgements that are due, where they are asked for and more than so many are, and rests behind them.
pub(crate) fn hear_answers<I: Source, O: Sink, T: Timing>(
    alloc: Global,
    command: &PublishCommand,
    session: &mut ClientSession,
    source: &mut I,
    sink: &mut O,
    progress: &mut Progress,
    timing: &mut T,
    most: u64,
) -> Result<(), Fault>
    requires { most < 16 }
    ensures published { OnOk result (WherePaced command.now (terms_of session.old)
        (standing_of session.old (I.seen source.old) (O.seen sink.old)) progress.old
        (λ before lines. IsPaced command.now (terms_of session.old) before
        (standing_of session.new (I.seen source.new) (O.seen sink.new)) lines
        progress.new.answered)) }
    ensures few { OnOk result (command.now.wishes.acknowledge ≡ true →
        progress.new.count ≤ progress.new.answered + most) }
    ensures ends { IfErr result (λ fault. is_blamed fault ≡ true →
        WherePaced command.now (terms_of session.old)
        (standing_of session.old (I.seen source.old) (O.seen sink.old)) progress.old
        (λ before lines. IsUnanswered command.now (terms_of session.old) before
        (standing_of session.new (I.seen source.new) (O.seen sink.new)) lines
        fault)) }
    ensures rest { progress.new.rest.items ≡ progress.old.rest.items }
    ensures count { progress.new.count ≡ progress.old.count }
    ensures gone { IfErr result (TellsEnd (I.seen source.new).is_ended) }
    ensures terms { terms_of session.new ≡ terms_of session.old }
    ensures aside { IfErr result IsOfBroker }
    ensures reads { ReadFailuresTold (I.seen source.old) (I.seen source.new)
        (told_by source_told result) }
    ensures writes { WriteFailuresTold (O.seen sink.old) (O.seen sink.new)
        (told_by sink_told result) }
{
    if !command.wishes.acknowledge || progress.count <= progress.answered + most {
        return Ok(());
    }
    timing.awaits();
    'answers: while progress.answered < progress.count {
        let request = progress.answered + 1;
        if let Err(fault) = hear_answer(alloc, session, source, sink, request) {
            return Err(fault);
        }
        progress.answered = request;
    }
    timing.rest();
    Ok(())
}

/// The PUBLISH of arguments.
pub(crate) fn publication(
    alloc: Global,
    command: &PublishCommand,
    request: Id,
    args: Args,
) -> Result<ClientMessage, AllocError>
    ensures { IfOk result (λ said. said ≡ publication command.now request args) }
{
    let options = command.wishes.options(alloc)?;
    let topic = command.topic.try_copy(alloc)?;
    Ok(ClientMessage::Publish {
        request,
        options,
        topic,
        args,
    })
}

/// The PUBLISH of a line, as the request of this number.
///
/// # Errors
/// [`Fault::BadLine`] where there is none, [`Fault::NoMemory`].
fn line_publication(
    alloc: Global,
    command: &PublishCommand,
    line: &[u8],
    number: u64,
) -> Result<ClientMessage, Fault>
    requires { 1 ≤ number }
    ensures said { IfOk result (IsOfLine command.now number line.now) }
    ensures fits { OnOk result (number ≤ 9007199254740992) }
    ensures bad { IfErr result (λ fault. is_blamed fault ≡ true
        → (fault ≡ Fault.BadLine number) × IsBadLine command.now.kwargs number line.now) }
    ensures here { IfErr result IsOfHere }
    ensures aside { IfErr result IsOfBroker }
{
    if line.len() > LONGEST {
        return Err(Fault::BadLine(number));
    }
    let Ok(request) = Id::new(number) else {
        return Err(Fault::BadLine(number));
    };
    let args = match args_of_line(alloc, line, number, &command.kwargs) {
        Ok(args) => args,
        Err(fault) => return Err(fault),
    };
    match publication(alloc, command, request, args) {
        Ok(said) => Ok(said),
        Err(_) => Err(Fault::NoMemory),
    }
}

/// Publishes the line that stands in `rest`, once there is room for it in the window. Where it can't be published, what is due
/// is heard first.
pub(crate) fn publish_line<I: Source, O: Sink, T: Timing>(
    alloc: Global,
    command: &PublishCommand,
    session: &mut ClientSession,
    source: &mut I,
    sink: &mut O,
    progress: &mut Progress,
    timing: &mut T,
) -> Result<(), Fault>
    ensures published { OnOk result (WherePaced command.now (terms_of session.old)
        (standing_of session.old (I.seen source.old) (O.seen sink.old)) progress.old
        (λ before lines. IsPaced command.now (terms_of session.old) before
        (standing_of session.new (I.seen source.new) (O.seen sink.new))
        (progress.old.rest.items ∷ lines) progress.new.answered)) }
    ensures rest { OnOk result (progress.new.rest.items ≡ []) }
    ensures count { OnOk result (progress.new.count ≡ progress.old.count + 1) }
    ensures ends { IfErr result (λ fault. is_blamed fault ≡ true →
        WherePaced command.now (terms_of session.old)
        (standing_of session.old (I.seen source.old) (O.seen sink.old)) progress.old
        (λ before lines. EndsAtLine command.now (terms_of session.old) before
        (standing_of session.new (I.seen source.new) (O.seen sink.new)) lines
        progress.old.rest.items fault)) }
    ensures gone { IfErr result (TellsEnd (I.seen source.new).is_ended) }
    ensures terms { terms_of session.new ≡ terms_of session.old }
    ensures aside { IfErr result IsOfBroker }
    ensures reads { ReadFailuresTold (I.seen source.old) (I.seen source.new)
        (told_by source_told result) }
    ensures writes { WriteFailuresTold (O.seen sink.old) (O.seen sink.new)
        (told_by sink_told result) }
{
    let number = progress.count + 1;
    let said = match line_publication(alloc, command, &progress.rest, number) {
        Ok(said) => said,
        Err(fault) => {
            if let Err(other) = hear_answers(
                alloc, command, session, source, sink, progress, timing, 0,
            ) {
                return Err(other);
            }
            return Err(fault);
        }
    };
    let most = WINDOW - 1;
    if let Err(fault) = hear_answers(
        alloc, command, session, source, sink, progress, timing, most,
    ) {
        return Err(fault);
    }
    if let Err(fault) = say(alloc, session.link(), sink, said) {
        return Err(fault);
    }
    progress.rest.clear();
    progress.count = number;
    Ok(())
}
