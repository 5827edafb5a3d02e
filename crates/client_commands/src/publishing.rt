//! `publish`.
ghost use Rattle.std.specs.Prelude.{◌≡◌, ◌⊎◌, ◌<◌, ◌++◌, ℕ, List, [], IfErr, OnOk, Some, false, length, true};
ghost use Rattle.rawsocket.specs.Steps.{ReadSteps, failures_told, told_by};
ghost use Rattle.session.specs.Opened.{exchanged};
ghost use Rattle.client_commands.specs.Acts.{standing_of, terms_of};
ghost use Rattle.client_commands.specs.Ends.{EndsInAll, EndsInInput, EndsInLines, EndsInWords, EndsPublishing, IsUnacknowledged, IsUnpublished};
ghost use Rattle.client_commands.specs.Pacing.{AllAnswered, IsPublished};
ghost use Rattle.client_commands.specs.Published.{IsPublishedOf, IsReadToEnd, Publishes, PublishesAll, PublishesInput, WherePublished};
ghost use Rattle.client_commands.specs.Stops.{FailsToJoin};
ghost use Rattle.client_commands.specs.Faults.{IsOfBroker, ReadFailuresTold, RunsOut, TellsEnd, WriteFailuresTold, input_told, is_blamed, output_told, sink_told, source_told};

use crate::attending::attend;
use crate::command::{Arguments, PublishCommand};
use crate::fault::Fault;
use crate::hearing::say;
use crate::joining::join;
use crate::leaving::{answer_goodbye, leave};
use crate::line_input::{LONGEST, Progress, line_feed_in};
use crate::message_args::args_of;
use crate::pacing::{hear_answer, hear_answers, publication, publish_line};
use crate::timing::Timing;
use client_session::{Args, ClientSession};
use message_tree::Content;
use rawsocket::devices::{NoOctets, PIECE, Sink, Source, Turns, read_piece};
use std::alloc::Global;
use wamp_ids::Id;

/// Publishes each line that these octets end, hears what is due, and keeps the octets behind the last LF.
fn publish_piece<I: Source, O: Sink, T: Timing>(
    alloc: Global,
    command: &PublishCommand,
    session: &mut ClientSession,
    source: &mut I,
    sink: &mut O,
    progress: &mut Progress,
    timing: &mut T,
    piece: &[u8],
) -> Result<(), Fault>
    ensures published { OnOk result (WherePublished command.now (terms_of session.old)
        (standing_of session.old (I.seen source.old) (O.seen sink.old)) progress.old
        (λ before input. IsPublishedOf command.now (terms_of session.old) before
        (standing_of session.new (I.seen source.new) (O.seen sink.new))
        (input ++ piece.now) progress.new.rest.items progress.new.count progress.new.answered)) }
    ensures all { OnOk result (AllAnswered command.now.wishes.acknowledge progress.new.count
        progress.new.answered) }
    ensures ends { IfErr result (λ fault. is_blamed fault ≡ true →
        WherePublished command.now (terms_of session.old)
        (standing_of session.old (I.seen source.old) (O.seen sink.old)) progress.old
        (λ before input. EndsInLines command.now (terms_of session.old) before
        (standing_of session.new (I.seen source.new) (O.seen sink.new))
        (input ++ piece.now) false fault)) }
    ensures gone { IfErr result (TellsEnd (I.seen source.new).is_ended) }
    ensures terms { terms_of session.new ≡ terms_of session.old }
    ensures aside { IfErr result IsOfBroker }
    ensures reads { ReadFailuresTold (I.seen source.old) (I.seen source.new)
        (told_by source_told result) }
    ensures writes { WriteFailuresTold (O.seen sink.old) (O.seen sink.new)
        (told_by sink_told result) }
{
    let mut left = piece;
    'lines: while let Some(at) = line_feed_in(left) {
        let Ok(()) = progress.rest.extend_from_slice(&left[..at]) else {
            return Err(Fault::NoMemory);
        };
        if let Err(fault) = publish_line(alloc, command, session, source, sink, progress, timing) {
            return Err(fault);
        }
        left = &left[at + 1..];
    }
    if let Err(fault) = hear_answers(alloc, command, session, source, sink, progress, timing, 0) {
        return Err(fault);
    }
    let Ok(()) = progress.rest.extend_from_slice(left) else {
        return Err(Fault::NoMemory);
    };
    if progress.rest.len() > LONGEST {
        return Err(Fault::BadLine(progress.count + 1));
    }
    Ok(())
}

/// Publishes what stands in `rest` as the last line, if it is one: the input ended. It hears what is due.
fn publish_last<I: Source, O: Sink, T: Timing>(
    alloc: Global,
    command: &PublishCommand,
    session: &mut ClientSession,
    source: &mut I,
    sink: &mut O,
    progress: &mut Progress,
    timing: &mut T,
) -> Result<(), Fault>
    requires all { AllAnswered command.now.wishes.acknowledge progress.old.count
        progress.old.answered }
    ensures published { OnOk result ((given_before given : List ℕ) →
        WherePublished command.now (terms_of session.old)
        (standing_of session.old (I.seen source.old) (O.seen sink.old)) progress.old
        (λ before input. given ≡ given_before ++ input → PublishesInput command.now
        (terms_of session.old) before
        (standing_of session.new (I.seen source.new) (O.seen sink.new)) given_before
        given)) }
    ensures ends { IfErr result (λ fault. is_blamed fault ≡ true →
        WherePublished command.now (terms_of session.old)
        (standing_of session.old (I.seen source.old) (O.seen sink.old)) progress.old
        (λ before input. EndsInLines command.now (terms_of session.old) before
        (standing_of session.new (I.seen source.new) (O.seen sink.new)) input true fault)) }
    ensures gone { IfErr result (TellsEnd (I.seen source.new).is_ended) }
    ensures terms { terms_of session.new ≡ terms_of session.old }
    ensures aside { IfErr result IsOfBroker }
    ensures reads { ReadFailuresTold (I.seen source.old) (I.seen source.new)
        (told_by source_told result) }
    ensures writes { WriteFailuresTold (O.seen sink.old) (O.seen sink.new)
        (told_by sink_told result) }
{
    if progress.rest.is_empty() {
        return Ok(());
    }
    if let Err(fault) = publish_line(alloc, command, session, source, sink, progress, timing) {
        return Err(fault);
    }
    hear_answers(alloc, command, session, source, sink, progress, timing, 0)
}

/// Publishes each line of an input, which is read in pieces of the buffer; the last line may have no LF.
fn publish_pieces<I: Source, O: Sink, J: Source, T: Timing>(
    alloc: Global,
    command: &PublishCommand,
    session: &mut ClientSession,
    source: &mut I,
    sink: &mut O,
    input: &mut J,
    progress: &mut Progress,
    timing: &mut T,
    buffer: &mut [u8],
) -> Result<(), Fault>
    requires fresh { progress.old.rest.items ≡ [] }
    requires none { progress.old.count ≡ 0 }
    requires unasked { progress.old.answered ≡ 0 }
    requires wide { 0 < length buffer.old }
    ensures published { OnOk result (PublishesInput command.now (terms_of session.old)
        (standing_of session.old (I.seen source.old) (O.seen sink.old))
        (standing_of session.new (I.seen source.new) (O.seen sink.new))
        (J.seen input.old).given (J.seen input.new).given) }
    ensures ended { OnOk result ((J.seen input.new).is_ended ≡ true) }
    ensures ends { IfErr result (λ fault. is_blamed fault ≡ true → EndsInInput command.now
        (terms_of session.old)
        (standing_of session.old (I.seen source.old) (O.seen sink.old))
        (standing_of session.new (I.seen source.new) (O.seen sink.new))
        (J.seen input.old).given (J.seen input.new).given (J.seen input.new).is_ended fault) }
    ensures gone { IfErr result (TellsEnd (I.seen source.new).is_ended) }
    ensures terms { terms_of session.new ≡ terms_of session.old }
    ensures reads { ReadFailuresTold (I.seen source.old) (I.seen source.new)
        (told_by source_told result) }
    ensures writes { WriteFailuresTold (O.seen sink.old) (O.seen sink.new)
        (told_by sink_told result) }
    ensures lines { ReadSteps (J.seen input.old) (J.seen input.new) (told_by input_told result) }
    ensures unprinted { failures_told (told_by output_told result) ≡ 0 }
{
    let mut turns = Turns::new();
    'pieces: loop {
        if let Err(fault) = attend(alloc, session, source, sink, timing) {
            return Err(fault);
        }
        let count = match read_piece(input, buffer, &mut turns) {
            Ok(count) => count,
            Err(NoOctets::Ended) => {
                if let Err(fault) = publish_last(
                    alloc, command, session, source, sink, progress, timing,
                ) {
                    return Err(fault);
                }
                return Ok(());
            }
            Err(NoOctets::Failed) => return Err(Fault::ReadFault),
            Err(NoOctets::TooManyTurns) => return Err(Fault::TooManyTurns),
        };
        let piece = &buffer[..count];
        if let Err(fault) = publish_piece(
            alloc, command, session, source, sink, progress, timing, piece,
        ) {
            return Err(fault);
        }
    }
}

/// Publishes each line of an input. It is apart from `publish_pieces`, which is lent what is owned here: what is owned at each way out
/// is what a check costs.
fn publish_lines<I: Source, O: Sink, J: Source, T: Timing>(
    alloc: Global,
    command: &PublishCommand,
    session: &mut ClientSession,
    source: &mut I,
    sink: &mut O,
    input: &mut J,
    timing: &mut T,
) -> Result<(), Fault>
    ensures published { OnOk result (PublishesInput command.now (terms_of session.old)
        (standing_of session.old (I.seen source.old) (O.seen sink.old))
        (standing_of session.new (I.seen source.new) (O.seen sink.new))
        (J.seen input.old).given (J.seen input.new).given) }
    ensures ended { OnOk result ((J.seen input.new).is_ended ≡ true) }
    ensures ends { IfErr result (λ fault. is_blamed fault ≡ true → EndsInInput command.now
        (terms_of session.old)
        (standing_of session.old (I.seen source.old) (O.seen sink.old))
        (standing_of session.new (I.seen source.new) (O.seen sink.new))
        (J.seen input.old).given (J.seen input.new).given (J.seen input.new).is_ended fault) }
    ensures gone { IfErr result (TellsEnd (I.seen source.new).is_ended) }
    ensures terms { terms_of session.new ≡ terms_of session.old }
    ensures reads { ReadFailuresTold (I.seen source.old) (I.seen source.new)
        (told_by source_told result) }
    ensures writes { WriteFailuresTold (O.seen sink.old) (O.seen sink.new)
        (told_by sink_told result) }
    ensures lines { ReadSteps (J.seen input.old) (J.seen input.new) (told_by input_told result) }
    ensures unprinted { failures_told (told_by output_told result) ≡ 0 }
{
    let Ok(mut buffer) = vec![in alloc; 0; PIECE] else {
        return Err(Fault::NoMemory);
    };
    let mut progress = Progress {
        rest: Vec::new(alloc),
        count: 0,
        answered: 0,
    };
    publish_pieces(
        alloc,
        command,
        session,
        source,
        sink,
        input,
        &mut progress,
        timing,
        &mut buffer,
    )
}

/// Publishes arguments as this request, and waits for PUBLISHED where that is wished.
fn publish_as<I: Source, O: Sink>(
    alloc: Global,
    command: &PublishCommand,
    session: &mut ClientSession,
    source: &mut I,
    sink: &mut O,
    request: Id,
    args: Args,
) -> Result<(), Fault>
    ensures published { OnOk result (IsPublished command.now (terms_of session.old) request args
        (standing_of session.old (I.seen source.old) (O.seen sink.old))
        (standing_of session.new (I.seen source.new) (O.seen sink.new))) }
    ensures ends { IfErr result (λ fault. is_blamed fault ≡ true →
        IsUnpublished command.now (terms_of session.old) request args
        (standing_of session.old (I.seen source.old) (O.seen sink.old))
        (standing_of session.new (I.seen source.new) (O.seen sink.new)) fault
        ⊎ IsUnacknowledged command.now (terms_of session.old) request args
        (standing_of session.old (I.seen source.old) (O.seen sink.old))
        (standing_of session.new (I.seen source.new) (O.seen sink.new)) fault) }
    ensures gone { IfErr result (TellsEnd (I.seen source.new).is_ended) }
    ensures terms { terms_of session.new ≡ terms_of session.old }
    ensures aside { IfErr result IsOfBroker }
    ensures reads { ReadFailuresTold (I.seen source.old) (I.seen source.new)
        (told_by source_told result) }
    ensures writes { WriteFailuresTold (O.seen sink.old) (O.seen sink.new)
        (told_by sink_told result) }
{
    let Ok(said) = publication(alloc, command, request, args) else {
        return Err(Fault::NoMemory);
    };
    if let Err(fault) = say(alloc, session.link(), sink, said) {
        return Err(fault);
    }
    if command.wishes.acknowledge {
        return hear_answer(alloc, session, source, sink, request.value());
    }
    Ok(())
}

/// Publishes words as the first request.
fn publish_words<I: Source, O: Sink>(
    alloc: Global,
    command: &PublishCommand,
    session: &mut ClientSession,
    source: &mut I,
    sink: &mut O,
    words: &Content,
) -> Result<(), Fault>
    ensures published { OnOk result (IsPublished command.now (terms_of session.old) 1
        (record { args = Some words.now; kwargs = command.now.kwargs })
        (standing_of session.old (I.seen source.old) (O.seen sink.old))
        (standing_of session.new (I.seen source.new) (O.seen sink.new))) }
    ensures ends { IfErr result (λ fault. is_blamed fault ≡ true →
        EndsInWords command.now (terms_of session.old) words.now
        (standing_of session.old (I.seen source.old) (O.seen sink.old))
        (standing_of session.new (I.seen source.new) (O.seen sink.new)) fault) }
    ensures gone { IfErr result (TellsEnd (I.seen source.new).is_ended) }
    ensures terms { terms_of session.new ≡ terms_of session.old }
    ensures aside { IfErr result IsOfBroker }
    ensures reads { ReadFailuresTold (I.seen source.old) (I.seen source.new)
        (told_by source_told result) }
    ensures writes { WriteFailuresTold (O.seen sink.old) (O.seen sink.new)
        (told_by sink_told result) }
{
    let Ok(request) = Id::new(1) else {
        unreachable!();
    };
    let Ok(words) = words.try_copy(alloc) else {
        return Err(Fault::NoMemory);
    };
    let args = match args_of(alloc, words, &command.kwargs) {
        Ok(args) => args,
        Err(fault) => return Err(fault),
    };
    publish_as(alloc, command, session, source, sink, request, args)
}

/// Publishes what a command is told: its words once, or each line of the input.
fn publish_all<I: Source, O: Sink, J: Source, T: Timing>(
    alloc: Global,
    command: &PublishCommand,
    session: &mut ClientSession,
    source: &mut I,
    sink: &mut O,
    input: &mut J,
    timing: &mut T,
) -> Result<(), Fault>
    ensures published { OnOk result (PublishesAll command.now (terms_of session.old)
        (standing_of session.old (I.seen source.old) (O.seen sink.old))
        (standing_of session.new (I.seen source.new) (O.seen sink.new))
        (J.seen input.old).given (J.seen input.new).given) }
    ensures ended { OnOk result (IsReadToEnd command.now.arguments (J.seen input.new).is_ended) }
    ensures ends { IfErr result (λ fault. is_blamed fault ≡ true →
        EndsInAll command.now (terms_of session.old)
        (standing_of session.old (I.seen source.old) (O.seen sink.old))
        (standing_of session.new (I.seen source.new) (O.seen sink.new))
        (J.seen input.old).given (J.seen input.new).given (J.seen input.new).is_ended fault) }
    ensures gone { IfErr result (TellsEnd (I.seen source.new).is_ended) }
    ensures terms { terms_of session.new ≡ terms_of session.old }
    ensures reads { ReadFailuresTold (I.seen source.old) (I.seen source.new)
        (told_by source_told result) }
    ensures writes { WriteFailuresTold (O.seen sink.old) (O.seen sink.new)
        (told_by sink_told result) }
    ensures lines { ReadSteps (J.seen input.old) (J.seen input.new) (told_by input_told result) }
    ensures unprinted { failures_told (told_by output_told result) ≡ 0 }
{
    match &command.arguments {
        Arguments::Words(words) => publish_words(alloc, command, session, source, sink, words),
        Arguments::Lines => publish_lines(alloc, command, session, source, sink, input, timing),
    }
}

/// Joins the realm, publishes, and leaves.
///
/// Words are published once. Of lines each is published as it comes, as requests 1, 2, ..; the input isn't read for words.
/// Where acknowledgements are asked for, at most 16 publications are unanswered at any time, and none before more of the input is
/// read, nor behind the last one; they are to come in the order of the publications. Behind so many `timing` rests. Before more of the
/// input is read `timing` waits for it; the broker's PINGs are answered meanwhile, and any message of it ends the command, since
/// nothing waits for one. A broker answers GOODBYE behind all that was published, so where this ends well it has taken all.
///
/// # Errors
/// [`Fault::Refused`] where the broker refuses the session or a publication, [`Fault::Closed`] where it closes the session,
/// [`Fault::Unexpected`], [`Fault::ForeignEvent`], [`Fault::Connection`]; [`Fault::Usage`] and [`Fault::BadLine`] for what no
/// message carries; [`Fault::ReadFault`] and [`Fault::TooManyTurns`] of the input; [`Fault::NoMemory`]. What was published before
/// stays published. The streams are to be closed.
pub fn publish<I: Source, O: Sink, J: Source, T: Timing>(
    alloc: Global,
    command: &PublishCommand,
    source: &mut I,
    sink: &mut O,
    input: &mut J,
    timing: &mut T,
) -> Result<(), Fault>
    ensures publishes { OnOk result (Publishes command.now
        (exchanged (I.seen source.old) (O.seen sink.old))
        (exchanged (I.seen source.new) (O.seen sink.new)) (J.seen input.old).given
        (J.seen input.new).given) }
    ensures ended { OnOk result (IsReadToEnd command.now.arguments (J.seen input.new).is_ended) }
    ensures ends { IfErr result (λ fault. is_blamed fault ≡ true → (FailsToJoin
        command.now.contact.serializer command.now.contact.realm command.now.contact.authid
        (exchanged (I.seen source.old) (O.seen sink.old))
        (exchanged (I.seen source.new) (O.seen sink.new)) fault
        × RunsOut (I.seen source.new) (O.seen sink.new) fault) ⊎ EndsPublishing command.now
        (exchanged (I.seen source.old) (O.seen sink.old))
        (exchanged (I.seen source.new) (O.seen sink.new)) (J.seen input.old).given
        (J.seen input.new).given (J.seen input.new).is_ended fault) }
    ensures gone { IfErr result (TellsEnd (I.seen source.new).is_ended) }
    ensures reads { ReadFailuresTold (I.seen source.old) (I.seen source.new)
        (told_by source_told result) }
    ensures writes { WriteFailuresTold (O.seen sink.old) (O.seen sink.new)
        (told_by sink_told result) }
    ensures lines { ReadSteps (J.seen input.old) (J.seen input.new) (told_by input_told result) }
    ensures unprinted { failures_told (told_by output_told result) ≡ 0 }
{
    let mut session = match join(alloc, &command.contact, source, sink) {
        Ok(session) => session,
        Err(fault) => return Err(fault),
    };
    let fault = match publish_all(alloc, command, &mut session, source, sink, input, timing) {
        Ok(()) => return leave(alloc, &mut session, source, sink),
        Err(fault) => fault,
    };
    match fault {
        Fault::BadLine(line) => match leave(alloc, &mut session, source, sink) {
            Ok(()) => Err(Fault::BadLine(line)),
            Err(other) => Err(other),
        },
        Fault::Closed(reason) => Err(answer_goodbye(alloc, &session, sink, reason)),
        other => Err(other),
    }
}
