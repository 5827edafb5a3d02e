//! From a broker's message to what it says.
ghost use Rattle.std.specs.Prelude.{◌≡◌, ◌≤◌, IfOk, IfErr, OnErr, None, Some, true, false};
ghost use Rattle.message_tree.specs.Data.{find_entry, depth as depth_of};
ghost use Rattle.message_tree.specs.View.{view};
ghost use Rattle.message_tree.specs.Meaning.{meaning};
ghost use Rattle.eligibility.specs.Options.{flag_or};
ghost use Rattle.wamp_messages.specs.Arguments.{is_args, is_kwargs};
ghost use Rattle.session.specs.FromClient.{args_of, arguments_of, kwargs_of, text_or_none};
ghost use Rattle.client_messages.specs.Faults.{IsHearingFault};
ghost use Rattle.client_messages.specs.FromBroker.{heard_of, heard_in, heard_by, welcome, ending, error, answer, unsubscribed, event, event_details_of, id_or_none};
ghost use Rattle.client_messages.specs.declared.heard.Heard.TheVariants as heard;

use crate::elements::{UnreadElements, id_among};
use crate::fault::Fault;
use crate::heard::{EventDetails, Heard};
use message_tree::{Content, Dict, Message, Options, Text, Tree};
use session::Args;
use std::alloc::Global;
use wamp_ids::Id;

/// What a broker's message says (WAMP, "Messages"). The message is spent. Details that aren't known
/// are passed over, and so is what stands behind the URI of an ABORT, a GOODBYE or an ERROR.
///
/// # Errors
/// [`Fault::NoBrokerMessage`] where it has the shape of no message that a broker sends to a client
/// that publishes and subscribes, [`Fault::NoMemory`] where a growth was refused.
#[tactic(auto, unfolding(crate::specs::FromBroker::heard_of))]
pub fn read_heard(alloc: Global, message: Message) -> Result<Heard, Fault>
    ensures ok { IfOk result (λ heard. heard_of (meaning message) ≡ Some heard) }
    ensures bad { result ≡ Err Fault.NoBrokerMessage → heard_of (meaning message) ≡ None }
    ensures faults { IfErr result IsHearingFault }
{
    match message.into_tree() {
        Tree::List(trees) => read_elements(alloc, UnreadElements::of(trees)),
        _ => Err(Fault::NoBrokerMessage),
    }
}

fn read_elements(alloc: Global, mut elements: UnreadElements) -> Result<Heard, Fault>
    ensures ok { IfOk result (λ heard. heard_in elements ≡ Some heard) }
    ensures bad { result ≡ Err Fault.NoBrokerMessage → heard_in elements ≡ None }
    ensures faults { IfErr result IsHearingFault }
{
    let kind = elements.number()?;
    read_kind(alloc, kind, elements)
}

fn read_kind(alloc: Global, kind: i128, elements: UnreadElements) -> Result<Heard, Fault>
    ensures ok { IfOk result (λ heard. heard_by kind elements ≡ Some heard) }
    ensures bad { result ≡ Err Fault.NoBrokerMessage → heard_by kind elements ≡ None }
    ensures faults { IfErr result IsHearingFault }
{
    match kind {
        2 => welcome(elements),
        3 => abort(elements),
        6 => goodbye(elements),
        8 => error(elements),
        17 => published(elements),
        33 => subscribed(elements),
        35 => unsubscribed(elements),
        36 => event(alloc, elements),
        _ => Err(Fault::NoBrokerMessage),
    }
}

#[tactic(auto, unfolding(crate::specs::FromBroker::welcome))]
fn welcome(mut elements: UnreadElements) -> Result<Heard, Fault>
    ensures ok { IfOk result (λ heard. welcome elements ≡ Some heard) }
    ensures bad { result ≡ Err Fault.NoBrokerMessage → welcome elements ≡ None }
    ensures faults { IfErr result IsHearingFault }
{
    let session = elements.id()?;
    let _details = elements.dict()?;
    elements.end()?;
    Ok(Heard::Welcome { session })
}

#[tactic(auto, unfolding(crate::specs::FromBroker::ending))]
fn abort(mut elements: UnreadElements) -> Result<Heard, Fault>
    ensures ok { IfOk result (λ told. ending heard.Abort elements ≡ Some told) }
    ensures bad { result ≡ Err Fault.NoBrokerMessage → ending heard.Abort elements ≡ None }
    ensures faults { IfErr result IsHearingFault }
{
    let _details = elements.dict()?;
    let reason = elements.text()?;
    Ok(Heard::Abort { reason })
}

#[tactic(auto, unfolding(crate::specs::FromBroker::ending))]
fn goodbye(mut elements: UnreadElements) -> Result<Heard, Fault>
    ensures ok { IfOk result (λ told. ending heard.Goodbye elements ≡ Some told) }
    ensures bad { result ≡ Err Fault.NoBrokerMessage → ending heard.Goodbye elements ≡ None }
    ensures faults { IfErr result IsHearingFault }
{
    let _details = elements.dict()?;
    let reason = elements.text()?;
    Ok(Heard::Goodbye { reason })
}

#[tactic(auto, unfolding(crate::specs::FromBroker::error))]
fn error(mut elements: UnreadElements) -> Result<Heard, Fault>
    ensures ok { IfOk result (λ heard. error elements ≡ Some heard) }
    ensures bad { result ≡ Err Fault.NoBrokerMessage → error elements ≡ None }
    ensures faults { IfErr result IsHearingFault }
{
    let kind = elements.request()?;
    let request = elements.id()?;
    let _details = elements.dict()?;
    let reason = elements.text()?;
    Ok(Heard::Error {
        kind,
        request,
        reason,
    })
}

#[tactic(auto, unfolding(crate::specs::FromBroker::answer))]
fn published(mut elements: UnreadElements) -> Result<Heard, Fault>
    ensures ok { IfOk result (λ told. answer heard.Published elements ≡ Some told) }
    ensures bad { result ≡ Err Fault.NoBrokerMessage → answer heard.Published elements ≡ None }
    ensures faults { IfErr result IsHearingFault }
{
    let request = elements.id()?;
    let publication = elements.id()?;
    elements.end()?;
    Ok(Heard::Published {
        request,
        publication,
    })
}

#[tactic(auto, unfolding(crate::specs::FromBroker::answer))]
fn subscribed(mut elements: UnreadElements) -> Result<Heard, Fault>
    ensures ok { IfOk result (λ told. answer heard.Subscribed elements ≡ Some told) }
    ensures bad { result ≡ Err Fault.NoBrokerMessage → answer heard.Subscribed elements ≡ None }
    ensures faults { IfErr result IsHearingFault }
{
    let request = elements.id()?;
    let subscription = elements.id()?;
    elements.end()?;
    Ok(Heard::Subscribed {
        request,
        subscription,
    })
}

#[tactic(auto, unfolding(crate::specs::FromBroker::unsubscribed))]
fn unsubscribed(mut elements: UnreadElements) -> Result<Heard, Fault>
    ensures ok { IfOk result (λ heard. unsubscribed elements ≡ Some heard) }
    ensures bad { result ≡ Err Fault.NoBrokerMessage → unsubscribed elements ≡ None }
    ensures faults { IfErr result IsHearingFault }
{
    let request = elements.id()?;
    elements.end()?;
    Ok(Heard::Unsubscribed { request })
}

#[tactic(auto, unfolding(crate::specs::FromBroker::event))]
fn event(alloc: Global, mut elements: UnreadElements) -> Result<Heard, Fault>
    ensures ok { IfOk result (λ heard. event elements ≡ Some heard) }
    ensures bad { result ≡ Err Fault.NoBrokerMessage → event elements ≡ None }
    ensures faults { IfErr result IsHearingFault }
{
    let subscription = elements.id()?;
    let publication = elements.id()?;
    let details = elements.dict()?;
    let details = event_details(alloc, &details)?;
    let args = arguments(alloc, elements)?;
    Ok(Heard::Event {
        subscription,
        publication,
        details,
        args,
    })
}

#[tactic(auto, unfolding(crate::specs::FromBroker::event_details_of))]
fn event_details(alloc: Global, of: &Options) -> Result<EventDetails, Fault>
    ensures ok { IfOk result (λ details. event_details_of of.now ≡ Some details) }
    ensures bad { result ≡ Err Fault.NoBrokerMessage → event_details_of of.now ≡ None }
    ensures faults { IfErr result IsHearingFault }
{
    let topic = text_at(alloc, of, "topic")?;
    let retained = flag_at(of, "retained")?;
    let publisher = id_at(of, "publisher")?;
    let publisher_authid = text_at(alloc, of, "publisher_authid")?;
    let publisher_authrole = text_at(alloc, of, "publisher_authrole")?;
    Ok(EventDetails {
        topic,
        retained,
        publisher,
        publisher_authid,
        publisher_authrole,
    })
}

fn text_at(alloc: Global, of: &Options, key: &str) -> Result<Option<Text>, Fault>
    ensures ok { IfOk result (λ t. text_or_none (find_entry key.now of.now) ≡ Some t) }
    ensures bad { result ≡ Err Fault.NoBrokerMessage
        → text_or_none (find_entry key.now of.now) ≡ None }
    ensures faults { IfErr result IsHearingFault }
{
    match of.get(key) {
        None => Ok(None),
        Some(Tree::Null) => Ok(None),
        Some(Tree::Text(text)) => Ok(Some(Text::of(alloc, text.as_str())?)),
        Some(_) => Err(Fault::NoBrokerMessage),
    }
}

fn flag_at(of: &Options, key: &str) -> Result<bool, Fault>
    ensures ok { IfOk result (λ b. flag_or false (find_entry key.now of.now) ≡ Some b) }
    ensures bad { OnErr result (flag_or false (find_entry key.now of.now) ≡ None) }
    ensures fault { IfErr result (λ fault. fault ≡ Fault.NoBrokerMessage) }
{
    match of.get(key) {
        None => Ok(false),
        Some(Tree::Null) => Ok(false),
        Some(Tree::Flag(flag)) => Ok(*flag),
        Some(_) => Err(Fault::NoBrokerMessage),
    }
}

fn id_at(of: &Options, key: &str) -> Result<Option<Id>, Fault>
    ensures ok { IfOk result (λ id. id_or_none (find_entry key.now of.now) ≡ Some id) }
    ensures bad { OnErr result (id_or_none (find_entry key.now of.now) ≡ None) }
    ensures fault { IfErr result (λ fault. fault ≡ Fault.NoBrokerMessage) }
{
    match of.get(key) {
        None => Ok(None),
        Some(Tree::Null) => Ok(None),
        Some(Tree::Whole(number)) => Ok(Some(id_among(*number)?)),
        Some(_) => Err(Fault::NoBrokerMessage),
    }
}

fn arguments(alloc: Global, mut elements: UnreadElements) -> Result<Args, Fault>
    ensures ok { IfOk result (λ a. arguments_of elements ≡ Some a) }
    ensures bad { result ≡ Err Fault.NoBrokerMessage → arguments_of elements ≡ None }
    ensures faults { IfErr result IsHearingFault }
{
    let Some(first) = elements.next() else {
        return Ok(Args::none());
    };
    let Some(second) = elements.next() else {
        let args = args_of(alloc, first)?;
        return Ok(Args::positional(alloc, args)?);
    };
    elements.end()?;
    let args = args_of(alloc, first)?;
    let kwargs = kwargs_of(alloc, second)?;
    Ok(Args::both(alloc, args, kwargs)?)
}

fn args_of(alloc: Global, tree: Tree) -> Result<Content, Fault>
    requires { depth_of (view tree) ≤ 99 }
    ensures ok { IfOk result (λ c. args_of (view tree) ≡ Some c) }
    ensures bounded { IfOk result (λ c. depth_of c ≤ 99) }
    ensures kind { IfOk result (λ c. is_args c ≡ true) }
    ensures bad { OnErr result (args_of (view tree) ≡ None) }
    ensures fault { IfErr result (λ fault. fault ≡ Fault.NoBrokerMessage) }
{
    match tree {
        Tree::Null => Ok(Content::of(Tree::List(Vec::new(alloc)))),
        Tree::List(items) => Ok(Content::of(Tree::List(items))),
        Tree::Uncarried => Ok(Content::of(Tree::Uncarried)),
        _ => Err(Fault::NoBrokerMessage),
    }
}

fn kwargs_of(alloc: Global, tree: Tree) -> Result<Content, Fault>
    requires { depth_of (view tree) ≤ 99 }
    ensures ok { IfOk result (λ c. kwargs_of (view tree) ≡ Some c) }
    ensures bounded { IfOk result (λ c. depth_of c ≤ 99) }
    ensures kind { IfOk result (λ c. is_kwargs c ≡ true) }
    ensures bad { OnErr result (kwargs_of (view tree) ≡ None) }
    ensures fault { IfErr result (λ fault. fault ≡ Fault.NoBrokerMessage) }
{
    match tree {
        Tree::Null => Ok(Content::of(Tree::Dict(Dict::new(alloc)))),
        Tree::Dict(dict) => Ok(Content::of(Tree::Dict(dict))),
        Tree::Uncarried => Ok(Content::of(Tree::Uncarried)),
        _ => Err(Fault::NoBrokerMessage),
    }
}
