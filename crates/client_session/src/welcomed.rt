//! A session that a broker welcomed.
ghost use Rattle.std.specs.Prelude.{◌≡◌, ◌≢◌, ◌+◌, ◌↔◌, [], Contains, IfOk, IfErr, IsTrue, OnOk, Ok, Err, true};
ghost use Rattle.rawsocket.specs.Steps.{ReadSteps, WriteSteps, told_by};
ghost use Rattle.client_session.specs.Faults.{read_told, write_told};
ghost use Rattle.client_session.specs.Hearing.{HearsNext, LookSteps, heard_at, terms};
ghost use Rattle.client_session.specs.Sessions.{HearsInSession, ListensInSession, IsGreeting, IsJudged, IsUnwelcome, opening_read_told, opening_write_told, session_read_told, session_write_told};

use crate::fault::Fault;
use crate::link::Link;
use client_messages::Heard;
use message_tree::Text;
use rawsocket::devices::{Sink, Source};
use std::alloc::Global;
use std::marker::Model;
use wamp_ids::Id;

/// Why no session is open.
#[derive(Drop)]
pub enum NoSession {
    /// The broker says ABORT, for this reason, a URI.
    Aborted(Text),
    /// It says something other than WELCOME and ABORT.
    Unexpected,
    /// The link failed.
    Failed(Fault),
}

/// Why nothing is heard in a session.
#[derive(Clone, Copy, Debug, Drop, PartialEq, Eq)]
pub enum Unheard {
    /// An EVENT came of a subscription that the session was never given. The broker broke the protocol,
    /// or the client confused two sessions, so it is a fault and isn't passed over.
    ForeignEvent,
    /// The link failed.
    Failed(Fault),
}

/// A session that a broker welcomed: its link, its id, and each subscription that it was given so far.
/// One that was left meanwhile is among them, since its events may still be on their way.
#[derive(Drop)]
pub struct ClientSession {
    link: Link,
    id: Id,
    subscriptions: Vec<Id>,
}

impl Model for ClientSession {
    ghost use Rattle.client_session.specs.Sessions.{Welcomed};

    ghost Value = { Welcomed };

    ghost view = { λ s. record { line = s.link; id = s.id; subscriptions = s.subscriptions.items } };
}

/// The id by which a broker welcomes a session.
fn id_of(heard: Heard) -> Result<Id, NoSession>
    ensures { IsGreeting heard result }
{
    match heard {
        Heard::Welcome { session } => Ok(session),
        Heard::Abort { reason } => Err(NoSession::Aborted(reason)),
        _ => Err(NoSession::Unexpected),
    }
}

/// Whether a session was given a subscription.
fn is_given(subscriptions: &Vec<Id>, subscription: Id) -> bool
    ensures { IsTrue result ↔ Contains subscriptions.now.items subscription }
{
    subscriptions
        .iter()
        .any(|given| given.value() == subscription.value())
}

/// Judges what was heard: a subscription is noted, and an event has to be of one that was given.
fn judge(subscriptions: &mut Vec<Id>, heard: Heard) -> Result<Heard, Unheard>
    ensures { IsJudged subscriptions.old.items subscriptions.new.items heard result }
{
    match &heard {
        Heard::Subscribed { subscription, .. } => {
            if subscriptions.push(*subscription).is_err() {
                return Err(Unheard::Failed(Fault::NoMemory));
            }
        }
        Heard::Event { subscription, .. } => {
            if !is_given(subscriptions, *subscription) {
                return Err(Unheard::ForeignEvent);
            }
        }
        _ => {}
    }
    Ok(heard)
}

impl ClientSession {
    /// The session that the broker welcomes on a link on which HELLO was said.
    ///
    /// # Errors
    /// [`NoSession`], by what is heard. The stream is to be closed then.
    pub fn open<I: Source, O: Sink>(
        alloc: Global,
        link: Link,
        source: &mut I,
        sink: &mut O,
    ) -> Result<ClientSession, NoSession>
        ensures welcomed { IfOk result (λ s. HearsNext (terms link.serializer link.limit)
            (heard_at link (I.seen source.old) (O.seen sink.old))
            (heard_at s.line (I.seen source.new) (O.seen sink.new))
            (Ok (Heard.Welcome s.id))) }
        ensures serializer { IfOk result (λ s. s.line.serializer ≡ link.serializer) }
        ensures limit { IfOk result (λ s. s.line.limit ≡ link.limit) }
        ensures new { IfOk result (λ s. s.subscriptions ≡ []) }
        ensures refused { IfErr result (IsUnwelcome (terms link.serializer link.limit)
            (heard_at link (I.seen source.old) (O.seen sink.old))
            (I.seen source.new).given (O.seen sink.new).taken) }
        ensures ended { result ≡ Err (NoSession.Failed Fault.Ended) → (I.seen source.new).is_ended ≡
            true }
        ensures reads { ReadSteps (I.seen source.old) (I.seen source.new)
            (told_by opening_read_told result) }
        ensures writes { WriteSteps (O.seen sink.old) (O.seen sink.new)
            (told_by opening_write_told result) }
    {
        let mut link = link;
        match link.hear(alloc, source, sink) {
            Ok(heard) => match id_of(heard) {
                Ok(id) => Ok(ClientSession {
                    link,
                    id,
                    subscriptions: Vec::new(alloc),
                }),
                Err(refusal) => Err(refusal),
            },
            Err(fault) => Err(NoSession::Failed(fault)),
        }
    }

    /// The id that the broker gave the session.
    pub fn id(&self) -> Id
        ensures { result ≡ self.now.id }
    {
        self.id
    }

    /// The link, to say something by.
    pub fn link(&self) -> &Link
        ensures { result.now ≡ self.now.line }
    {
        &self.link
    }

    /// Hears what the broker says by one look, as [`Link::listen`].
    ///
    /// # Errors
    /// As [`ClientSession::hear`].
    pub fn listen<I: Source, O: Sink>(
        &mut self,
        alloc: Global,
        source: &mut I,
        sink: &mut O,
    ) -> Result<Option<Heard>, Unheard>
        ensures next { ListensInSession (terms self.old.line.serializer self.old.line.limit)
            (heard_at self.old.line (I.seen source.old) (O.seen sink.old))
            (heard_at self.new.line (I.seen source.new) (O.seen sink.new))
            self.old.subscriptions self.new.subscriptions result }
        ensures unread { self.old.line.waiting ≢ [] → I.seen source.new ≡ I.seen source.old }
        ensures once { OnOk result (self.old.line.waiting ≡ [] →
            (I.seen source.new).calls ≡ (I.seen source.old).calls + 1) }
        ensures id { self.new.id ≡ self.old.id }
        ensures serializer { self.new.line.serializer ≡ self.old.line.serializer }
        ensures limit { self.new.line.limit ≡ self.old.line.limit }
        ensures ended { result ≡ Err (Unheard.Failed Fault.Ended) → (I.seen source.new).is_ended ≡
            true }
        ensures reads { LookSteps (I.seen source.old) (I.seen source.new)
            (told_by session_read_told result) }
        ensures writes { WriteSteps (O.seen sink.old) (O.seen sink.new)
            (told_by session_write_told result) }
    {
        match self.link.listen(alloc, source, sink) {
            Ok(Some(heard)) => match judge(&mut self.subscriptions, heard) {
                Ok(heard) => Ok(Some(heard)),
                Err(unheard) => Err(unheard),
            },
            Ok(None) => Ok(None),
            Err(of) => Err(Unheard::Failed(of)),
        }
    }

    /// Hears the next message of the session, as [`Link::hear`].
    ///
    /// # Errors
    /// [`Unheard::ForeignEvent`], and what [`Link::hear`] fails by. For want of memory a subscription that
    /// was given may be lost.
    pub fn hear<I: Source, O: Sink>(
        &mut self,
        alloc: Global,
        source: &mut I,
        sink: &mut O,
    ) -> Result<Heard, Unheard>
        ensures next { HearsInSession (terms self.old.line.serializer self.old.line.limit)
            (heard_at self.old.line (I.seen source.old) (O.seen sink.old))
            (heard_at self.new.line (I.seen source.new) (O.seen sink.new))
            self.old.subscriptions self.new.subscriptions result }
        ensures id { self.new.id ≡ self.old.id }
        ensures serializer { self.new.line.serializer ≡ self.old.line.serializer }
        ensures limit { self.new.line.limit ≡ self.old.line.limit }
        ensures ended { result ≡ Err (Unheard.Failed Fault.Ended) → (I.seen source.new).is_ended ≡
            true }
        ensures reads { ReadSteps (I.seen source.old) (I.seen source.new)
            (told_by session_read_told result) }
        ensures writes { WriteSteps (O.seen sink.old) (O.seen sink.new)
            (told_by session_write_told result) }
    {
        match self.link.hear(alloc, source, sink) {
            Ok(heard) => judge(&mut self.subscriptions, heard),
            Err(fault) => Err(Unheard::Failed(fault)),
        }
    }
}
