//! Events, read where they stand in octets.
//!
//! A subscriber hears little else. What isn't read here, [`read_heard`](crate::read_heard) reads from its tree.
ghost use Rattle.std.specs.Prelude.{◌≡◌, IfOk, IfErr, OnOk, OnErr, Err, None, Some, true, false};
ghost use Rattle.message_tree.specs.Data.{Entries, Items, no_entries};
ghost use Rattle.rawsocket.specs.declared.handshake.Serializer.TheVariants.{Json, MsgPack};
ghost use Rattle.eligibility.specs.Options.{flag_or};
ghost use Rattle.session.specs.FromClient.{arguments_of, dict_of, first, id_of, text_or_none};
ghost use Rattle.client_messages.specs.Faults.{IsHearingFault};
ghost use Rattle.client_messages.specs.FromBroker.{event, event_details_of, id_or_none};
ghost use Rattle.client_messages.specs.Says.{IsNoEvent, Says};

use crate::elements::id_among;
use crate::fault::Fault;
use crate::heard::{EventDetails, Heard};
use json_to_msgpack::{Transliteration, to_msgpack};
use message_tree::Text;
use msgpack_cursor::{Dictionary, Seen, Unread, Value};
use rawsocket::Serializer;
use session::Args;
use std::alloc::Global;
use wamp_ids::Id;

/// The type of an EVENT.
const EVENT: i128 = 36;

/// What the payload of an EVENT says. No tree is made of it: JSON is written as MessagePack first,
/// and MessagePack is read where it stands.
///
/// # Errors
/// [`Fault::NoMemory`] where a growth was refused. [`Fault::NoBrokerMessage`] where the payload is no
/// EVENT; in JSON also where it isn't known to be one.
pub fn read_event(alloc: Global, serializer: Serializer, payload: &[u8]) -> Result<Heard, Fault>
    ensures says { IfOk result (λ heard. Says serializer payload.now heard) }
    ensures bad { result ≡ Err Fault.NoBrokerMessage → serializer ≡ MsgPack
        → IsNoEvent payload.now }
    ensures faults { IfErr result IsHearingFault }
{
    match serializer {
        Serializer::Json => read_json(alloc, payload),
        Serializer::MsgPack => read_octets(alloc, payload),
    }
}

fn read_json(alloc: Global, json: &[u8]) -> Result<Heard, Fault>
    ensures says { IfOk result (λ heard. Says Json json.now heard) }
    ensures faults { IfErr result IsHearingFault }
{
    match to_msgpack(alloc, json) {
        Ok(Transliteration::Octets(octets)) => read_octets(alloc, &octets),
        Ok(_) => Err(Fault::NoBrokerMessage),
        Err(_) => Err(Fault::NoMemory),
    }
}

#[tactic(auto, unfolding(crate::specs::FromBroker::heard_of))]
fn read_octets(alloc: Global, octets: &[u8]) -> Result<Heard, Fault>
    ensures says { IfOk result (λ heard. Says MsgPack octets.now heard) }
    ensures bad { result ≡ Err Fault.NoBrokerMessage → IsNoEvent octets.now }
    ensures faults { IfErr result IsHearingFault }
{
    let Some(mut unread) = Unread::of(octets) else {
        return Err(Fault::NoBrokerMessage);
    };
    match unread.whole() {
        Some(EVENT) => event(alloc, unread),
        _ => Err(Fault::NoBrokerMessage),
    }
}

/// The elements behind the type.
#[tactic(auto, unfolding(crate::specs::FromBroker::event))]
fn event(alloc: Global, mut unread: Unread<'_>) -> Result<Heard, Fault>
    ensures ok { IfOk result (λ heard. event unread.entry.items ≡ Some heard) }
    ensures whole { OnOk result (unread.entry.is_whole ≡ true) }
    ensures bad { result ≡ Err Fault.NoBrokerMessage → unread.entry.is_whole ≡ true
        → event unread.entry.items ≡ None }
    ensures faults { IfErr result IsHearingFault }
{
    let subscription = id(&mut unread)?;
    let publication = id(&mut unread)?;
    let details = details(alloc, &mut unread)?;
    let args = arguments(alloc, unread)?;
    Ok(Heard::Event {
        subscription,
        publication,
        details,
        args,
    })
}

/// The next element, an id.
fn id(unread: &mut Unread<'_>) -> Result<Id, Fault>
    ensures ok { IfOk result (λ id. first id_of unread.old.items ≡ Some (id, unread.new.items)) }
    ensures whole { OnOk result (unread.new.is_whole ≡ unread.old.is_whole) }
    ensures bad { OnErr result (unread.old.is_whole ≡ true
        → first id_of unread.old.items ≡ None) }
    ensures fault { IfErr result (λ fault. fault ≡ Fault.NoBrokerMessage) }
{
    match unread.whole() {
        Some(number) => id_among(number),
        None => Err(Fault::NoBrokerMessage),
    }
}

/// What the next element, a dictionary, tells of an event.
fn details(alloc: Global, unread: &mut Unread<'_>) -> Result<EventDetails, Fault>
    ensures ok { IfOk result (λ details. (es : Entries)
        × (first dict_of unread.old.items ≡ Some (es, unread.new.items))
        × (event_details_of es ≡ Some details)) }
    ensures whole { OnOk result (unread.new.is_whole ≡ unread.old.is_whole) }
    ensures bad { result ≡ Err Fault.NoBrokerMessage → unread.old.is_whole ≡ true
        → (es : Entries) (rest : Items) → first dict_of unread.old.items ≡ Some (es, rest)
        → event_details_of es ≡ None }
    ensures faults { IfErr result IsHearingFault }
{
    if unread.pass_empty_dict() {
        return Ok(no_details());
    }
    match unread.value() {
        Some(value) => details_in(alloc, &value),
        None => Err(Fault::NoBrokerMessage),
    }
}

/// What an empty dictionary tells.
#[tactic(auto, unfolding(crate::specs::FromBroker::event_details_of))]
fn no_details() -> EventDetails
    ensures { event_details_of no_entries ≡ Some result }
{
    EventDetails {
        topic: None,
        retained: false,
        publisher: None,
        publisher_authid: None,
        publisher_authrole: None,
    }
}

fn details_in(alloc: Global, value: &Value<'_>) -> Result<EventDetails, Fault>
    ensures ok { IfOk result (λ details. (es : Entries) × (dict_of value.now ≡ Some es)
        × (event_details_of es ≡ Some details)) }
    ensures bad { result ≡ Err Fault.NoBrokerMessage → (es : Entries)
        → dict_of value.now ≡ Some es → event_details_of es ≡ None }
    ensures faults { IfErr result IsHearingFault }
{
    match value.seen() {
        Seen::Dict(details) => event_details(alloc, &details),
        _ => Err(Fault::NoBrokerMessage),
    }
}

#[tactic(auto, unfolding(crate::specs::FromBroker::event_details_of))]
fn event_details(alloc: Global, of: &Dictionary<'_>) -> Result<EventDetails, Fault>
    ensures ok { IfOk result (λ details. event_details_of of.now ≡ Some details) }
    ensures bad { result ≡ Err Fault.NoBrokerMessage → event_details_of of.now ≡ None }
    ensures faults { IfErr result IsHearingFault }
{
    let topic = text_or_none(alloc, of.get("topic"))?;
    let retained = flag_or_false(of.get("retained"))?;
    let publisher = id_or_none(of.get("publisher"))?;
    let publisher_authid = text_or_none(alloc, of.get("publisher_authid"))?;
    let publisher_authrole = text_or_none(alloc, of.get("publisher_authrole"))?;
    Ok(EventDetails {
        topic,
        retained,
        publisher,
        publisher_authid,
        publisher_authrole,
    })
}

fn text_or_none(alloc: Global, value: Option<Value<'_>>) -> Result<Option<Text>, Fault>
    ensures ok { IfOk result (λ t. text_or_none value.entry ≡ Some t) }
    ensures bad { result ≡ Err Fault.NoBrokerMessage → text_or_none value.entry ≡ None }
    ensures faults { IfErr result IsHearingFault }
{
    let Some(value) = value else {
        return Ok(None);
    };
    match value.seen() {
        Seen::Null => Ok(None),
        Seen::Text(text) => Ok(Some(Text::of(alloc, text)?)),
        _ => Err(Fault::NoBrokerMessage),
    }
}

fn flag_or_false(value: Option<Value<'_>>) -> Result<bool, Fault>
    ensures ok { IfOk result (λ b. flag_or false value.entry ≡ Some b) }
    ensures bad { OnErr result (flag_or false value.entry ≡ None) }
    ensures fault { IfErr result (λ fault. fault ≡ Fault.NoBrokerMessage) }
{
    let Some(value) = value else {
        return Ok(false);
    };
    match value.seen() {
        Seen::Null => Ok(false),
        Seen::Flag(flag) => Ok(flag),
        _ => Err(Fault::NoBrokerMessage),
    }
}

fn id_or_none(value: Option<Value<'_>>) -> Result<Option<Id>, Fault>
    ensures ok { IfOk result (λ id. id_or_none value.entry ≡ Some id) }
    ensures bad { OnErr result (id_or_none value.entry ≡ None) }
    ensures fault { IfErr result (λ fault. fault ≡ Fault.NoBrokerMessage) }
{
    let Some(value) = value else {
        return Ok(None);
    };
    match value.seen() {
        Seen::Null => Ok(None),
        Seen::Whole(number) => Ok(Some(id_among(number)?)),
        _ => Err(Fault::NoBrokerMessage),
    }
}

/// Arguments and ArgumentsKw, as far as they are there; nothing may stand behind them.
fn arguments(alloc: Global, mut unread: Unread<'_>) -> Result<Args, Fault>
    ensures ok { IfOk result (λ a. arguments_of unread.entry.items ≡ Some a) }
    ensures whole { OnOk result (unread.entry.is_whole ≡ true) }
    ensures bad { result ≡ Err Fault.NoBrokerMessage → unread.entry.is_whole ≡ true
        → arguments_of unread.entry.items ≡ None }
    ensures faults { IfErr result IsHearingFault }
{
    if unread.is_end() {
        return Ok(Args::none());
    }
    let Some(args) = unread.value() else {
        return Err(Fault::NoBrokerMessage);
    };
    if unread.is_end() {
        return Ok(Args::read_args(alloc, &args)?);
    }
    let Some(kwargs) = unread.value() else {
        return Err(Fault::NoBrokerMessage);
    };
    if !unread.is_end() {
        return Err(Fault::NoBrokerMessage);
    }
    Ok(Args::read_both(alloc, &args, &kwargs)?)
}
