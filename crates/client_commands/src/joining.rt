//! The way into a session.
ghost use Rattle.std.specs.Prelude.{◌≡◌, IfErr, IfOk};
ghost use Rattle.rawsocket.specs.Steps.{told_by};
ghost use Rattle.session.specs.Opened.{exchanged};
ghost use Rattle.client_messages.specs.declared.client_message.ClientMessage.TheVariants.{Hello as HelloSaid};
ghost use Rattle.client_commands.specs.Acts.{Joins};
ghost use Rattle.client_commands.specs.Stops.{FailsToJoin};
ghost use Rattle.client_commands.specs.Faults.{IsOfBroker, ReadFailuresTold, RunsOut, TellsEnd, WriteFailuresTold, sink_told, source_told};

use crate::command::Contact;
use crate::fault::Fault;
use crate::hearing::say;
use client_session::{ClientMessage, ClientSession, Link};
use message_tree::Text;
use rawsocket::devices::{Sink, Source};
use std::alloc::{AllocError, Global};

/// The HELLO of a contact.
fn hello(alloc: Global, contact: &Contact) -> Result<ClientMessage, AllocError>
    ensures { IfOk result (λ said. said ≡ HelloSaid contact.now.realm contact.now.authid) }
{
    let realm = contact.realm.try_copy(alloc)?;
    let authid = copy_if_any(alloc, &contact.authid)?;
    Ok(ClientMessage::Hello { realm, authid })
}

fn copy_if_any(alloc: Global, text: &Option<Text>) -> Result<Option<Text>, AllocError>
    ensures { IfOk result (λ copy. copy ≡ text.now) }
{
    match text {
        None => Ok(None),
        Some(text) => Ok(Some(text.try_copy(alloc)?)),
    }
}

/// Joins the realm: the handshake, HELLO and WELCOME.
///
/// # Errors
/// [`Fault::Refused`] by what an ABORT says, [`Fault::Unexpected`] where neither WELCOME nor ABORT comes,
/// [`Fault::Connection`] and [`Fault::NoMemory`].
pub(crate) fn join<I: Source, O: Sink>(
    alloc: Global,
    contact: &Contact,
    source: &mut I,
    sink: &mut O,
) -> Result<ClientSession, Fault>
    ensures joined { IfOk result (λ session. Joins contact.now.serializer contact.now.realm
        contact.now.authid (exchanged (I.seen source.old) (O.seen sink.old))
        (exchanged (I.seen source.new) (O.seen sink.new)) session) }
    ensures fails { IfErr result (FailsToJoin contact.now.serializer contact.now.realm
        contact.now.authid (exchanged (I.seen source.old) (O.seen sink.old))
        (exchanged (I.seen source.new) (O.seen sink.new))) }
    ensures gone { IfErr result (TellsEnd (I.seen source.new).is_ended) }
    ensures turns { IfErr result (RunsOut (I.seen source.new) (O.seen sink.new)) }
    ensures aside { IfErr result IsOfBroker }
    ensures reads { ReadFailuresTold (I.seen source.old) (I.seen source.new)
        (told_by source_told result) }
    ensures writes { WriteFailuresTold (O.seen sink.old) (O.seen sink.new)
        (told_by sink_told result) }
{
    let Ok(said) = hello(alloc, contact) else {
        return Err(Fault::NoMemory);
    };
    let link = match Link::connect(alloc, source, sink, contact.serializer) {
        Ok(link) => link,
        Err(fault) => return Err(Fault::from(fault)),
    };
    if let Err(fault) = say(alloc, &link, sink, said) {
        return Err(fault);
    }
    match ClientSession::open(alloc, link, source, sink) {
        Ok(session) => Ok(session),
        Err(refusal) => Err(Fault::from(refusal)),
    }
}
