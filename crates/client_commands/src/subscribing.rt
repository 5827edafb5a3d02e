//! `subscribe`.
ghost use Rattle.std.specs.Prelude.{◌≡◌, ◌≢◌, ◌++◌, ◌⊎◌, ℕ, List, IfOk, IfErr, OnErr, OnOk, Some, length, true};
ghost use Rattle.rawsocket.specs.Devices.{Reading, Takes, TakesBeginning};
ghost use Rattle.rawsocket.specs.Steps.{Fine, Steps, WriteSteps, told_by, write_meter};
ghost use Rattle.session.specs.Opened.{exchange, exchanged};
ghost use Rattle.client_messages.specs.declared.client_message.ClientMessage.TheVariants.{Subscribe as SubscribeSaid};
ghost use Rattle.client_messages.specs.Wishes.{subscribe_options};
ghost use Rattle.client_messages.specs.declared.heard.Heard.TheVariants.{Subscribed as SubscribedHeard};
ghost use Rattle.client_session.specs.Hearing.{terms};
ghost use Rattle.client_commands.specs.Acts.{Follows, IsSilent, Prints, PrintsAfterAsking, Subscribes, asked, granted_with, is_event, line_for, may_come, note_for, standing_of, terms_of};
ghost use Rattle.client_commands.specs.Stops.{EndsSubscribing, GivesFault, IsUnasked, StopsFollowing, TellsAllUntil};
ghost use Rattle.client_commands.specs.Notes.{IsNoted, noting};
ghost use Rattle.client_commands.specs.Faults.{IsNoEnd, IsOfBroker, IsOfHere, ReadFailuresTold, RunsOut, TellsEnd, WriteFailuresTold, output_told, sink_told, source_told};

use crate::command::{LineForm, SubscribeCommand};
use crate::event_lines::event_line;
use crate::fault::Fault;
use crate::hearing::{fault_of, hear, say};
use crate::joining::join;
use crate::leaving::{answer_goodbye, leave};
use crate::listener::Listener;
use crate::noting::{note_of, tell};
use crate::subscriptions::{Granted, grant, topic_told};
use crate::timing::Timing;
use client_messages::SubscribeWishes;
use client_session::{ClientMessage, ClientSession, Heard, Link};
use message_tree::Text;
use rawsocket::devices::{Sink, Source, Turns, send};
use std::alloc::{AllocError, Global};
use wamp_ids::Id;

/// The SUBSCRIBE of a topic.
fn request_for(
    alloc: Global,
    wishes: SubscribeWishes,
    request: Id,
    topic: &Text,
) -> Result<ClientMessage, AllocError>
    ensures { IfOk result (λ said.
        said ≡ SubscribeSaid request (subscribe_options wishes) topic.now) }
{
    let options = wishes.options(alloc)?;
    let topic = topic.try_copy(alloc)?;
    Ok(ClientMessage::Subscribe {
        request,
        options,
        topic,
    })
}

/// Says the SUBSCRIBE of each topic, as requests 1, 2, ..
///
/// # Errors
/// [`Fault::Usage`] where there are more topics than 2^53, as [`say`] fails, and [`Fault::NoMemory`].
fn ask<O: Sink>(
    alloc: Global,
    command: &SubscribeCommand,
    link: &Link,
    sink: &mut O,
) -> Result<(), Fault>
    ensures asked { OnOk result (Takes (O.seen sink.old) (O.seen sink.new) (asked
        link.now.serializer command.now.wishes command.now.topics.items
        (length command.now.topics.items))) }
    ensures unasked { IfErr result (λ fault. (given : List ℕ) → IsUnasked
        (terms link.now.serializer link.now.limit) command.now.wishes command.now.topics.items
        (exchange given (O.seen sink.old).taken) (exchange given (O.seen sink.new).taken)
        fault) }
    ensures unended { IfErr result IsNoEnd }
    ensures turns { IfErr result (λ fault. (source : Reading)
        → RunsOut source (O.seen sink.new) fault) }
    ensures unread { told_by source_told result ≡ Fine }
    ensures aside { told_by output_told result ≡ Fine }
    ensures writes { WriteFailuresTold (O.seen sink.old) (O.seen sink.new)
        (told_by sink_told result) }
{
    'topics: for place in 0..command.topics.len() {
        let Ok(request) = Id::new(place as u64 + 1) else {
            return Err(Fault::Usage);
        };
        let topic = &command.topics[place];
        let Ok(said) = request_for(alloc, command.wishes, request, topic) else {
            return Err(Fault::NoMemory);
        };
        if let Err(fault) = say(alloc, link, sink, said) {
            return Err(fault);
        }
    }
    Ok(())
}

/// Prints a line, and passes it on.
fn print<P: Sink>(output: &mut P, line: &[u8], turns: &mut Turns) -> Result<(), Fault>
    ensures printed { OnOk result (Takes (P.seen output.old) (P.seen output.new) line.now) }
    ensures begun { TakesBeginning (P.seen output.old) (P.seen output.new) line.now }
    ensures output { IfErr result (λ fault. output_told fault ≢ Fine) }
    ensures untold { IfErr result IsOfHere }
    ensures writes { Steps (write_meter (P.seen output.old) turns.old)
        (write_meter (P.seen output.new) turns.new) (told_by output_told result) }
{
    match send(output, line, turns) {
        Ok(()) => Ok(()),
        Err(rawsocket::Fault::WriteFault) => Err(Fault::WriteFault),
        Err(_) => Err(Fault::TooManyTurns),
    }
}

/// Takes a subscription that is given, and tells of it.
///
/// # Errors
/// [`Fault::Unexpected`] where a request is answered that isn't open, [`Fault::NoMemory`].
fn take_grant<N: Sink>(
    alloc: Global,
    topics: &Vec<Text>,
    granted: &mut Vec<Granted>,
    request: Id,
    subscription: Id,
    notes: &mut N,
) -> Result<(), Fault>
    ensures noted { OnOk result (granted.new.items
        ≡ granted_with granted.old.items (SubscribedHeard request subscription)) }
    ensures told { OnOk result (IsNoted
        (note_for topics.now.items (SubscribedHeard request subscription))
        (noting (N.seen notes.old))
        (noting (N.seen notes.new))) }
    ensures untold { OnErr result (noting (N.seen notes.new) ≡
        noting (N.seen notes.old)) }
    ensures blamed { IfErr result (GivesFault (SubscribedHeard request subscription)) }
    ensures here { IfErr result IsOfHere }
    ensures aside { IfErr result IsOfBroker }
{
    let topic = match grant(topics, granted, request, subscription) {
        Ok(topic) => topic,
        Err(fault) => return Err(fault),
    };
    let Ok(note) = note_of(alloc, topic) else {
        return Err(Fault::NoMemory);
    };
    tell(notes, &note);
    Ok(())
}

/// Takes what was heard: of a subscription it is told, and the line of an event is printed. Tells whether it is an event.
///
/// # Errors
/// [`Fault::WriteFault`] and [`Fault::TooManyTurns`] of the output, a beginning of the line is printed then; [`Fault::Unexpected`]
/// where a request is answered that isn't open, or something else is said; [`Fault::Refused`] and [`Fault::Closed`] by an ABORT, an
/// ERROR and a GOODBYE; [`Fault::ForeignEvent`], [`Fault::NoMemory`].
fn take<P: Sink, N: Sink>(
    alloc: Global,
    form: LineForm,
    topics: &Vec<Text>,
    granted: &mut Vec<Granted>,
    heard: Heard,
    output: &mut P,
    turns: &mut Turns,
    notes: &mut N,
) -> Result<bool, Fault>
    ensures noted { OnOk result (granted.new.items ≡ granted_with granted.old.items heard) }
    ensures told { OnOk result (IsNoted (note_for topics.now.items heard)
        (noting (N.seen notes.old))
        (noting (N.seen notes.new))) }
    ensures silent { OnErr result (noting (N.seen notes.new) ≡
        noting (N.seen notes.old)) }
    ensures printed { OnOk result (Takes (P.seen output.old) (P.seen output.new)
        (line_for form topics.now.items granted.old.items heard)) }
    ensures event { IfOk result (λ told. told ≡ is_event heard) }
    ensures harmless { OnOk result (may_come heard ≡ true) }
    ensures begun { TakesBeginning (P.seen output.old) (P.seen output.new)
        (line_for form topics.now.items granted.old.items heard) }
    ensures blamed { IfErr result (λ fault. output_told fault ≡ Fine → GivesFault heard fault) }
    ensures unprinted { IfErr result (λ fault. output_told fault ≡ Fine
        → (P.seen output.new).taken ≡ (P.seen output.old).taken) }
    ensures untold { IfErr result IsOfHere }
    ensures writes { Steps (write_meter (P.seen output.old) turns.old)
        (write_meter (P.seen output.new) turns.new) (told_by output_told result) }
{
    match heard {
        Heard::Subscribed {
            request,
            subscription,
        } => match take_grant(alloc, topics, granted, request, subscription, notes) {
            Ok(()) => Ok(false),
            Err(fault) => Err(fault),
        },
        Heard::Event {
            subscription,
            publication,
            details,
            args,
        } => {
            let Some(topic) = topic_told(topics, granted, subscription, &details.topic) else {
                return Err(Fault::ForeignEvent);
            };
            let Ok(line) = event_line(alloc, form, topic.as_str(), publication, &details, &args)
            else {
                return Err(Fault::NoMemory);
            };
            match print(output, &line, turns) {
                Ok(()) => Ok(true),
                Err(fault) => Err(fault),
            }
        }
        other => Err(fault_of(other)),
    }
}

/// Hears and prints, until no event is left to be printed.
///
/// # Errors
/// As [`hear`] and [`take`] fail.
fn follow<I: Source, O: Sink, P: Sink, N: Sink, T: Timing>(
    alloc: Global,
    command: &SubscribeCommand,
    listener: &mut Listener,
    session: &mut ClientSession,
    source: &mut I,
    sink: &mut O,
    output: &mut P,
    notes: &mut N,
    timing: &mut T,
) -> Result<(), Fault>
    ensures follows { OnOk result (Follows command.now.form command.now.topics.items
        listener.old.left (terms_of session.old)
        (standing_of session.old (I.seen source.old) (O.seen sink.old))
        (standing_of session.new (I.seen source.new) (O.seen sink.new))
        (P.seen output.old).taken (P.seen output.new).taken
        (noting (N.seen notes.old))
        (noting (N.seen notes.new))) }
    ensures done { OnOk result (listener.new.left ≡ Some 0) }
    ensures terms { terms_of session.new ≡ terms_of session.old }
    ensures prints { Prints command.now.form command.now.topics.items (terms_of session.old)
        (standing_of session.old (I.seen source.old) (O.seen sink.old))
        (exchanged (I.seen source.new) (O.seen sink.new)) (P.seen output.old).taken
        (P.seen output.new).taken (noting (N.seen notes.old))
        (noting (N.seen notes.new)) listener.old.left listener.new }
    ensures stops { IfErr result (λ fault. TellsAllUntil command.now.form
        command.now.topics.items (terms_of session.old)
        (standing_of session.old (I.seen source.old) (O.seen sink.old)) (P.seen output.old).taken
        (noting (N.seen notes.old)) (noting (N.seen notes.new)) listener.old.left
        listener.new.left (StopsFollowing command.now.form command.now.topics.items
        (terms_of session.old) (P.seen output.new).taken
        (exchanged (I.seen source.new) (O.seen sink.new)) fault)) }
    ensures gone { IfErr result (TellsEnd (I.seen source.new).is_ended) }
    ensures turns { IfErr result (RunsOut (I.seen source.new) (O.seen sink.new)) }
    ensures reads { ReadFailuresTold (I.seen source.old) (I.seen source.new)
        (told_by source_told result) }
    ensures writes { WriteFailuresTold (O.seen sink.old) (O.seen sink.new)
        (told_by sink_told result) }
    ensures lines { WriteSteps (P.seen output.old) (P.seen output.new)
        (told_by output_told result) }
{
    let mut granted = Vec::new(alloc);
    let mut turns = Turns::new();
    'messages: for _ in 0..u64::MAX {
        listener.settle(&command.topics, &granted, timing);
        if listener.is_done() {
            return Ok(());
        }
        let heard = match hear(alloc, session, source, sink) {
            Ok(heard) => heard,
            Err(fault) => return Err(fault),
        };
        let event = match take(
            alloc,
            command.form,
            &command.topics,
            &mut granted,
            heard,
            output,
            &mut turns,
            notes,
        ) {
            Ok(event) => event,
            Err(fault) => return Err(fault),
        };
        listener.count_off(event);
    }
    listener.settle(&command.topics, &granted, timing);
    // No number is left to count a further message by.
    Err(Fault::NoMemory)
}

/// Joins the realm, subscribes to the topics, and prints a line for each event as it comes, as [`crate::event_line`] spells it, until
/// no event is left to be printed; then it leaves. Where that isn't limited it goes on until something else ends it.
///
/// All SUBSCRIBEs are said before the first answer is heard, and events may come before the last one is answered. The topic of a line is the
/// one that the event names, else the one that was subscribed to.
///
/// It tells `timing` that the answers to its SUBSCRIBEs are due, that what comes behind them may take for ever, and that the answer
/// to its GOODBYE is due.
///
/// `listener` says how many events are to be printed, and is told how far it came, also where it fails.
///
/// To `notes` it tells each topic as the broker gives its subscription: `subscribed to TOPIC`. Where a note fails that is passed over.
///
/// # Errors
/// [`Fault::Refused`] where the broker refuses the session or a subscription, [`Fault::Closed`] where it closes the session,
/// [`Fault::Unexpected`], [`Fault::ForeignEvent`], [`Fault::Connection`]; [`Fault::WriteFault`] and [`Fault::TooManyTurns`] of the
/// output; [`Fault::Usage`] where there are more than 2^53 topics; [`Fault::NoMemory`]. What was printed stays. The streams are to
/// be closed.
pub fn subscribe<I: Source, O: Sink, P: Sink, N: Sink, T: Timing>(
    alloc: Global,
    command: &SubscribeCommand,
    listener: &mut Listener,
    source: &mut I,
    sink: &mut O,
    output: &mut P,
    notes: &mut N,
    timing: &mut T,
) -> Result<(), Fault>
    ensures subscribes { OnOk result (Subscribes command.now.contact.serializer
        command.now.contact.realm command.now.contact.authid command.now.wishes command.now.form
        command.now.topics.items listener.old.left
        (exchanged (I.seen source.old) (O.seen sink.old))
        (exchanged (I.seen source.new) (O.seen sink.new)) (P.seen output.old).taken
        (P.seen output.new).taken (noting (N.seen notes.old))
        (noting (N.seen notes.new))) }
    ensures prints { IsSilent (P.seen output.old).taken (P.seen output.new).taken
        (noting (N.seen notes.old)) (noting (N.seen notes.new)) listener.old.left listener.new
        ⊎ PrintsAfterAsking command.now.contact.serializer command.now.contact.realm
        command.now.contact.authid command.now.wishes command.now.form command.now.topics.items
        (exchanged (I.seen source.old) (O.seen sink.old))
        (exchanged (I.seen source.new) (O.seen sink.new)) (P.seen output.old).taken
        (P.seen output.new).taken (noting (N.seen notes.old)) (noting (N.seen notes.new))
        listener.old.left listener.new }
    ensures done { OnOk result (listener.new.left ≡ Some 0) }
    ensures ends { IfErr result (EndsSubscribing command.now
        (exchanged (I.seen source.old) (O.seen sink.old))
        (exchanged (I.seen source.new) (O.seen sink.new)) (P.seen output.old).taken
        (P.seen output.new).taken (noting (N.seen notes.old)) (noting (N.seen notes.new))
        listener.old.left listener.new.left) }
    ensures gone { IfErr result (TellsEnd (I.seen source.new).is_ended) }
    ensures turns { IfErr result (RunsOut (I.seen source.new) (O.seen sink.new)) }
    ensures reads { ReadFailuresTold (I.seen source.old) (I.seen source.new)
        (told_by source_told result) }
    ensures writes { WriteFailuresTold (O.seen sink.old) (O.seen sink.new)
        (told_by sink_told result) }
    ensures lines { WriteSteps (P.seen output.old) (P.seen output.new)
        (told_by output_told result) }
{
    listener.is_subscribed = false;
    let mut session = match join(alloc, &command.contact, source, sink) {
        Ok(session) => session,
        Err(fault) => return Err(fault),
    };
    if let Err(fault) = ask(alloc, command, session.link(), sink) {
        return Err(fault);
    }
    timing.expects(true);
    let fault = match follow(
        alloc,
        command,
        listener,
        &mut session,
        source,
        sink,
        output,
        notes,
        timing,
    ) {
        Ok(()) => {
            timing.expects(true);
            return leave(alloc, &mut session, source, sink);
        }
        Err(fault) => fault,
    };
    match fault {
        Fault::Closed(reason) => Err(answer_goodbye(alloc, &session, sink, reason)),
        other => Err(other),
    }
}
