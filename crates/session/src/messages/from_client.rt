//! From a message to what its client says.
ghost use Rattle.std.specs.Prelude.{◌≡◌, ◌≢◌, IfOk, IfErr, OnOk, None, Some, true};
ghost use Rattle.message_tree.specs.Meaning.{meaning};
ghost use Rattle.eligibility.specs.Lists.{is_number};
ghost use Rattle.session.specs.FromClient.{IsReadFault, said_of, said_in, said_by, hello, ending, publish, subscribe, unsubscribe};
ghost use Rattle.session.specs.Says.{Says, SaysNothing};
ghost use Rattle.session.specs.body.Octets.{IsFaultOf};
ghost use Rattle.wamp_messages.specs.declared.said.Said.{Said};

use crate::fault::Fault;
use crate::messages::elements::MessageElements;
use crate::messages::octet_elements::OctetElements;
use crate::messages::tree_elements::TreeElements;
use crate::wire::serializer::decode;
use json_to_msgpack::{Transliteration, to_msgpack};
use message_tree::{Message, Tree};
use msgpack_codec::Refusal;
use msgpack_cursor::{Unread, message as message_in};
use rawsocket::Serializer;
use std::alloc::Global;
use wamp_messages::{Publish, Said};

/// What a client's message says (WAMP, "Messages"). The message is spent.
///
/// # Errors
/// [`Fault::Shape`] where it has the shape of no message that a client of a broker sends,
/// [`Fault::NoMemory`] where a growth was refused.
#[tactic(auto, unfolding(crate::specs::FromClient::said_of))]
pub fn read_said(alloc: Global, message: Message) -> Result<Said, Fault>
    ensures ok { IfOk result (λ said. said_of (meaning message) ≡ Some said) }
    ensures bad { result ≡ Err Fault.Shape → said_of (meaning message) ≡ None }
    ensures faults { IfErr result IsReadFault }
{
    match message.into_tree() {
        Tree::List(trees) => read_elements(alloc, TreeElements::of(trees)),
        _ => Err(Fault::Shape),
    }
}

/// What a payload says: [`read_said`] of what [`decode`] makes of it. No tree is made: JSON is
/// written as MessagePack first. Only of JSON with 2^32 octets or members in one value, which no
/// frame has room for, a tree is made.
///
/// # Errors
/// As of [`decode`] and [`read_said`].
pub fn read_payload(alloc: Global, serializer: Serializer, payload: &[u8]) -> Result<Said, Fault>
    ensures ok { IfOk result (λ said. Says serializer payload.now said) }
    ensures bad { IfErr result (λ f. f ≢ Fault.NoMemory → SaysNothing serializer payload.now f) }
{
    match serializer {
        Serializer::Json => read_json(alloc, payload),
        Serializer::MsgPack => read_octets(alloc, payload),
    }
}

/// What a message in JSON says.
fn read_json(alloc: Global, json: &[u8]) -> Result<Said, Fault>
    ensures ok { IfOk result (λ said. Says Serializer.Json json.now said) }
    ensures bad { IfErr result (λ f. f ≢ Fault.NoMemory → SaysNothing Serializer.Json json.now f) }
{
    match to_msgpack(alloc, json) {
        Ok(Transliteration::Octets(octets)) => read_octets(alloc, &octets),
        Ok(Transliteration::NoJson) => Err(Fault::Malformed),
        Ok(Transliteration::TooDeep) => Err(Fault::TooDeep),
        Ok(Transliteration::Undecided) => read_said(alloc, decode(alloc, Serializer::Json, json)?),
        Err(_) => Err(Fault::NoMemory),
    }
}

/// What the octets of a message say. They are passed over once, unless there is something wrong.
#[tactic(auto, unfolding(crate::specs::FromClient::said_of))]
fn read_octets(alloc: Global, payload: &[u8]) -> Result<Said, Fault>
    ensures ok { IfOk result (λ said. Says Serializer.MsgPack payload.now said) }
    ensures bad { IfErr result (λ f. f ≢ Fault.NoMemory
        → SaysNothing Serializer.MsgPack payload.now f) }
{
    let Some(unread) = Unread::of(payload) else {
        return Err(fault_of(payload));
    };
    match read_elements(alloc, OctetElements::of(unread)) {
        Ok(said) => Ok(said),
        Err(Fault::Shape) => Err(fault_of(payload)),
        Err(fault) => Err(fault),
    }
}

/// What is wrong with octets that say nothing: they are no message, or it has a wrong shape.
fn fault_of(payload: &[u8]) -> Fault
    ensures { IsFaultOf payload.now result }
{
    match message_in(payload) {
        Ok(_) => Fault::Shape,
        Err(Refusal::TooDeep) => Fault::TooDeep,
        Err(Refusal::Malformed) => Fault::Malformed,
    }
}

fn is_number(number: u64, kind: i128) -> bool
    ensures { result ≡ is_number number kind }
{
    kind >= 0 && kind as u128 == number as u128
}

fn read_elements<E: MessageElements>(alloc: Global, mut elements: E) -> Result<Said, Fault>
    ensures ok { IfOk result (λ said. said_in (E.items elements) ≡ Some said) }
    ensures whole { OnOk result (E.is_whole elements ≡ true) }
    ensures bad { result ≡ Err Fault.Shape → E.is_whole elements ≡ true
        → said_in (E.items elements) ≡ None }
    ensures faults { IfErr result IsReadFault }
{
    let kind = elements.number()?;
    read_kind(alloc, kind, elements)
}

fn read_kind<E: MessageElements>(alloc: Global, kind: i128, elements: E) -> Result<Said, Fault>
    ensures ok { IfOk result (λ said. said_by kind (E.items elements) ≡ Some said) }
    ensures whole { OnOk result (E.is_whole elements ≡ true) }
    ensures bad { result ≡ Err Fault.Shape → E.is_whole elements ≡ true
        → said_by kind (E.items elements) ≡ None }
    ensures faults { IfErr result IsReadFault }
{
    if is_number(1, kind) {
        hello(alloc, elements)
    } else if is_number(3, kind) {
        ending(Said::Abort, elements)
    } else if is_number(6, kind) {
        ending(Said::Goodbye, elements)
    } else if is_number(16, kind) {
        publish(alloc, elements)
    } else if is_number(32, kind) {
        subscribe(alloc, elements)
    } else if is_number(34, kind) {
        unsubscribe(elements)
    } else {
        Err(Fault::Shape)
    }
}

#[tactic(auto, unfolding(crate::specs::FromClient::hello))]
fn hello<E: MessageElements>(alloc: Global, mut elements: E) -> Result<Said, Fault>
    ensures ok { IfOk result (λ said. hello (E.items elements) ≡ Some said) }
    ensures whole { OnOk result (E.is_whole elements ≡ true) }
    ensures bad { result ≡ Err Fault.Shape → E.is_whole elements ≡ true
        → hello (E.items elements) ≡ None }
    ensures faults { IfErr result IsReadFault }
{
    let realm = elements.text(alloc)?;
    let authid = elements.authid(alloc)?;
    elements.end()?;
    Ok(Said::Hello { realm, authid })
}

#[tactic(auto, unfolding(crate::specs::FromClient::ending))]
fn ending<E: MessageElements>(said: Said, mut elements: E) -> Result<Said, Fault>
    ensures ok { IfOk result (λ s. ending said (E.items elements) ≡ Some s) }
    ensures whole { OnOk result (E.is_whole elements ≡ true) }
    ensures bad { result ≡ Err Fault.Shape → E.is_whole elements ≡ true
        → ending said (E.items elements) ≡ None }
    ensures faults { IfErr result IsReadFault }
{
    elements.pass_dict()?;
    elements.pass_text()?;
    elements.pass_rest()?;
    Ok(said)
}

#[tactic(auto, unfolding(crate::specs::FromClient::publish))]
fn publish<E: MessageElements>(alloc: Global, mut elements: E) -> Result<Said, Fault>
    ensures ok { IfOk result (λ said. publish (E.items elements) ≡ Some said) }
    ensures whole { OnOk result (E.is_whole elements ≡ true) }
    ensures bad { result ≡ Err Fault.Shape → E.is_whole elements ≡ true
        → publish (E.items elements) ≡ None }
    ensures faults { IfErr result IsReadFault }
{
    let request = elements.id()?;
    let options = elements.publish_options(alloc)?;
    let topic = elements.text(alloc)?;
    let args = elements.arguments(alloc)?;
    Ok(Said::Publish(Publish {
        request,
        options,
        topic,
        args,
    }))
}

#[tactic(auto, unfolding(crate::specs::FromClient::subscribe))]
fn subscribe<E: MessageElements>(alloc: Global, mut elements: E) -> Result<Said, Fault>
    ensures ok { IfOk result (λ said. subscribe (E.items elements) ≡ Some said) }
    ensures whole { OnOk result (E.is_whole elements ≡ true) }
    ensures bad { result ≡ Err Fault.Shape → E.is_whole elements ≡ true
        → subscribe (E.items elements) ≡ None }
    ensures faults { IfErr result IsReadFault }
{
    let request = elements.id()?;
    let options = elements.subscribe_options()?;
    let topic = elements.text(alloc)?;
    elements.end()?;
    Ok(Said::Subscribe {
        request,
        options,
        topic,
    })
}

#[tactic(auto, unfolding(crate::specs::FromClient::unsubscribe))]
fn unsubscribe<E: MessageElements>(mut elements: E) -> Result<Said, Fault>
    ensures ok { IfOk result (λ said. unsubscribe (E.items elements) ≡ Some said) }
    ensures whole { OnOk result (E.is_whole elements ≡ true) }
    ensures bad { result ≡ Err Fault.Shape → E.is_whole elements ≡ true
        → unsubscribe (E.items elements) ≡ None }
    ensures faults { IfErr result IsReadFault }
{
    let request = elements.id()?;
    let subscription = elements.id()?;
    elements.end()?;
    Ok(Said::Unsubscribe {
        request,
        subscription,
    })
}
