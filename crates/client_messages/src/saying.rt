//! From what a client says to the message that says it.
ghost use Rattle.std.specs.Prelude.{◌≡◌, ◌≢◌, ◌≤◌, ◌<◌, IfOk, IfErr, None, Some, true};
ghost use Rattle.message_tree.specs.Data.{text, list, items_depth, entries_depth};
ghost use Rattle.message_tree.specs.View.{view, items_view, dict_view};
ghost use Rattle.message_tree.specs.Meaning.{meaning};
ghost use Rattle.wamp_ids.specs.Numbers.{IsId};
ghost use Rattle.wamp_messages.specs.Arguments.{is_args_if_any, is_kwargs_if_any};
ghost use Rattle.session.specs.FromClient.{said_of};
ghost use Rattle.session.specs.ToClient.{triple};
ghost use Rattle.client_messages.specs.Faults.{IsSayingFault};
ghost use Rattle.client_messages.specs.ToBroker.{authmethods, roles, hello_details, hello, ending, publish, subscribe, message_for, options_depth, read_as};

use crate::client_message::ClientMessage;
use crate::dictionaries::{dictionary, number, put, spent_options, spent_text, text};
use crate::fault::Fault;
use message_tree::{Content, Dict, Message, Options, Text, Tree};
use session::Args;
use std::alloc::{AllocError, Global};
use wamp_ids::Id;

/// The message by which a client says this (WAMP, "Messages"): a broker reads it as just that.
///
/// HELLO announces the roles of publisher and subscriber, which the standard demands, and beside an
/// authid the method `anonymous`. GOODBYE gives the reason `wamp.close.close_realm`, and as an answer
/// `wamp.close.goodbye_and_out`; ABORT gives `wamp.error.protocol_violation`.
///
/// # Errors
/// [`Fault::TooDeep`] where options nest more than 98 levels, [`Fault::NoMemory`] where a growth was
/// refused. What was to be said is dropped then.
pub fn said_message(alloc: Global, said: ClientMessage) -> Result<Message, Fault>
    ensures message { IfOk result (λ m. meaning m ≡ message_for said) }
    ensures reads { IfOk result (λ m. said_of (meaning m) ≡ Some (read_as said)) }
    ensures deep { result ≡ Err Fault.TooDeep → 98 < options_depth said }
    ensures faults { IfErr result IsSayingFault }
{
    match said {
        ClientMessage::Hello { realm, authid } => hello(alloc, realm, authid),
        ClientMessage::Abort => ending(alloc, 3, "wamp.error.protocol_violation"),
        ClientMessage::Goodbye => ending(alloc, 6, "wamp.close.close_realm"),
        ClientMessage::GoodbyeAndOut => ending(alloc, 6, "wamp.close.goodbye_and_out"),
        ClientMessage::Publish {
            request,
            options,
            topic,
            args,
        } => publish(alloc, request, options, topic, &args),
        ClientMessage::Subscribe {
            request,
            options,
            topic,
        } => subscribe(alloc, request, options, topic),
        ClientMessage::Unsubscribe {
            request,
            subscription,
        } => unsubscribe(alloc, request, subscription),
    }
}

/// A message of these elements.
fn message(elements: Vec<Tree>) -> Result<Message, Fault>
    ensures ok { IfOk result (λ m. meaning m ≡ list (items_view elements.items)) }
    ensures deep { result ≡ Err Fault.TooDeep → 99 < items_depth (items_view elements.items) }
    ensures faults { IfErr result IsSayingFault }
{
    match Message::of(Tree::List(elements)) {
        Ok(message) => Ok(message),
        Err(_) => Err(Fault::TooDeep),
    }
}

/// [HELLO, Realm, Details]
#[tactic(auto, unfolding(crate::specs::ToBroker::hello))]
fn hello(alloc: Global, realm: Text, authid: Option<Text>) -> Result<Message, Fault>
    ensures message { IfOk result (λ m. meaning m ≡ hello realm authid) }
    ensures shallow { result ≢ Err Fault.TooDeep }
    ensures faults { IfErr result IsSayingFault }
{
    let details = hello_details(alloc, authid)?;
    message(vec![in alloc; number(1), spent_text(realm), dictionary(details)]?)
}

/// HELLO.Details: the roles, and the authid that is asked for.
fn hello_details(alloc: Global, authid: Option<Text>) -> Result<Dict, AllocError>
    ensures ok { IfOk result (λ d. dict_view d ≡ hello_details authid) }
    ensures bounded { IfOk result (λ d. entries_depth (dict_view d) ≤ 2) }
{
    let mut dict = Dict::new(alloc);
    put(alloc, &mut dict, "roles", dictionary(roles(alloc)?))?;
    if let Some(authid) = authid {
        put(alloc, &mut dict, "authmethods", authmethods(alloc)?)?;
        put(alloc, &mut dict, "authid", spent_text(authid))?;
    }
    Ok(dict)
}

fn roles(alloc: Global) -> Result<Dict, AllocError>
    ensures ok { IfOk result (λ d. dict_view d ≡ roles) }
{
    let mut dict = Dict::new(alloc);
    put(alloc, &mut dict, "subscriber", dictionary(Dict::new(alloc)))?;
    put(alloc, &mut dict, "publisher", dictionary(Dict::new(alloc)))?;
    Ok(dict)
}

fn authmethods(alloc: Global) -> Result<Tree, AllocError>
    ensures ok { IfOk result (λ t. view t ≡ authmethods) }
{
    let anonymous = text(alloc, "anonymous")?;
    Ok(Tree::List(vec![in alloc; anonymous]?))
}

/// [type, {}, Reason]
#[tactic(auto, unfolding(crate::specs::ToBroker::ending))]
fn ending(alloc: Global, kind: u64, reason: &str) -> Result<Message, Fault>
    ensures message { IfOk result (λ m. meaning m ≡ ending kind reason.now) }
    ensures shallow { result ≢ Err Fault.TooDeep }
    ensures faults { IfErr result IsSayingFault }
{
    let reason = text(alloc, reason)?;
    message(vec![in alloc; number(kind), dictionary(Dict::new(alloc)), reason]?)
}

/// [PUBLISH, Request, Options, Topic, (Arguments, (ArgumentsKw))]
#[tactic(auto, unfolding(crate::specs::ToBroker::publish))]
fn publish(
    alloc: Global,
    request: Id,
    options: Options,
    topic: Text,
    args: &Args,
) -> Result<Message, Fault>
    ensures message { IfOk result (λ m. meaning m ≡ publish request options topic args.now) }
    ensures id { IsId request }
    ensures args_kind { is_args_if_any args.now.args ≡ true }
    ensures kwargs_kind { is_kwargs_if_any args.now.kwargs ≡ true }
    ensures alone { args.now.args ≡ None → args.now.kwargs ≡ None }
    ensures deep { result ≡ Err Fault.TooDeep → 98 < entries_depth options }
    ensures faults { IfErr result IsSayingFault }
{
    let kind = number(16);
    let request = number(request.value());
    let options = spent_options(options);
    let topic = spent_text(topic);
    let arguments = args.decoded(alloc)?;
    match (arguments.args, arguments.kwargs) {
        (None, _) => message(vec![in alloc; kind, request, options, topic]?),
        (Some(args), None) => {
            message(vec![in alloc; kind, request, options, topic, args.into_tree()]?)
        }
        (Some(args), Some(kwargs)) => message(vec![in alloc;
            kind,
            request,
            options,
            topic,
            args.into_tree(),
            kwargs.into_tree(),
        ]?),
    }
}

/// [SUBSCRIBE, Request, Options, Topic]
#[tactic(auto, unfolding(crate::specs::ToBroker::subscribe))]
fn subscribe(alloc: Global, request: Id, options: Options, topic: Text) -> Result<Message, Fault>
    ensures message { IfOk result (λ m. meaning m ≡ subscribe request options topic) }
    ensures id { IsId request }
    ensures deep { result ≡ Err Fault.TooDeep → 98 < entries_depth options }
    ensures faults { IfErr result IsSayingFault }
{
    message(vec![in alloc;
        number(32),
        number(request.value()),
        spent_options(options),
        spent_text(topic),
    ]?)
}

/// [UNSUBSCRIBE, Request, Subscription]
fn unsubscribe(alloc: Global, request: Id, subscription: Id) -> Result<Message, Fault>
    ensures message { IfOk result (λ m. meaning m ≡ triple 34 request subscription) }
    ensures request_id { IsId request }
    ensures subscription_id { IsId subscription }
    ensures shallow { result ≢ Err Fault.TooDeep }
    ensures faults { IfErr result IsSayingFault }
{
    message(vec![in alloc;
        number(34),
        number(request.value()),
        number(subscription.value()),
    ]?)
}
