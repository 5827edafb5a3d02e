//! From what the broker tells to the message that says it.
ghost use Rattle.std.specs.Prelude.{◌≡◌, ◌≤◌, IfOk, IfSome, Some, option_map, true};
ghost use Rattle.message_tree.specs.Data.{list, items_depth, is_carried, items_carried};
ghost use Rattle.message_tree.specs.View.{items_view};
ghost use Rattle.message_tree.specs.Meaning.{meaning};
ghost use Rattle.wamp_messages.specs.Arguments.{last_items};
ghost use Rattle.session.specs.ToClient.{uri_of, type_of, triple, unsubscribed, farewell, error, welcome, event, message_of};

use crate::messages::details::{dictionary, event_details, number, text, welcome_details};
use eligibility::Who;
use message_tree::{Dict, Message, Tree};
use std::alloc::{AllocError, Global};
use wamp_ids::Id;
use wamp_messages::{Item, Publication, Reason, Request};

/// The message that tells a client an item (WAMP, "Messages"); `None` for a PONG, which is a frame
/// and no message. Nothing in it is uncarried; still MessagePack has no spelling for it where
/// something in it has 2^32 or more octets or members.
///
/// # Errors
/// [`AllocError`] where a growth was refused.
pub fn item_message(alloc: Global, item: &Item) -> Result<Option<Message>, AllocError>
    ensures ok { IfOk result (λ m. option_map meaning m ≡ message_of item.now) }
    ensures carried { IfOk result (λ m. IfSome m (λ m. is_carried (meaning m) ≡ true)) }
{
    match item {
        Item::Welcome(who) => Ok(Some(welcome(alloc, who)?)),
        Item::Abort(reason) => Ok(Some(farewell(alloc, 3, *reason)?)),
        Item::Goodbye(reason) => Ok(Some(farewell(alloc, 6, *reason)?)),
        Item::Error {
            kind,
            request,
            reason,
        } => Ok(Some(error(alloc, *kind, *request, *reason)?)),
        Item::Published {
            request,
            publication,
        } => Ok(Some(triple(alloc, 17, *request, *publication)?)),
        Item::Subscribed {
            request,
            subscription,
        } => Ok(Some(triple(alloc, 33, *request, *subscription)?)),
        Item::Unsubscribed { request } => Ok(Some(unsubscribed(alloc, *request)?)),
        Item::Event {
            subscription,
            publication,
            with_topic,
            retained,
        } => Ok(Some(event(
            alloc,
            *subscription,
            publication.value(),
            *with_topic,
            *retained,
        )?)),
        Item::Pong(_) => Ok(None),
    }
}

/// The URI of a reason.
pub fn uri(reason: Reason) -> &'static str
    ensures { result.now ≡ uri_of reason }
{
    match reason {
        Reason::ProtocolViolation => "wamp.error.protocol_violation",
        Reason::NoSuchRealm => "wamp.error.no_such_realm",
        Reason::NotAuthorized => "wamp.error.not_authorized",
        Reason::SessionIdTaken => "broker.error.session_id_taken",
        Reason::InvalidUri => "wamp.error.invalid_uri",
        Reason::InvalidArgument => "wamp.error.invalid_argument",
        Reason::NoSuchSubscription => "wamp.error.no_such_subscription",
        Reason::TooManySubscriptions => "broker.error.too_many_subscriptions",
        Reason::RetainedFull => "broker.error.retained_full",
        Reason::GoodbyeAndOut => "wamp.close.goodbye_and_out",
        Reason::SystemShutdown => "wamp.close.system_shutdown",
    }
}

fn type_number(kind: Request) -> u64
    ensures { result ≡ type_of kind }
{
    match kind {
        Request::Publish => 16,
        Request::Subscribe => 32,
        Request::Unsubscribe => 34,
    }
}

/// A message of these elements, which are few levels deep.
fn message(elements: Vec<Tree>) -> Message
    requires bounded { items_depth (items_view elements.items) ≤ 99 }
    requires carried { items_carried (items_view elements.items) ≡ true }
    ensures value { meaning result ≡ list (items_view elements.items) }
    ensures carried { is_carried (meaning result) ≡ true }
{
    match Message::of(Tree::List(elements)) {
        Ok(message) => message,
        Err(_) => unreachable!(),
    }
}

fn triple(alloc: Global, kind: u64, request: Id, other: Id) -> Result<Message, AllocError>
    ensures ok { IfOk result (λ m. meaning m ≡ triple kind request other) }
    ensures carried { IfOk result (λ m. is_carried (meaning m) ≡ true) }
{
    let elements = vec![in alloc;
        number(kind),
        number(request.value()),
        number(other.value()),
    ]?;
    Ok(message(elements))
}

fn unsubscribed(alloc: Global, request: Id) -> Result<Message, AllocError>
    ensures ok { IfOk result (λ m. meaning m ≡ unsubscribed request) }
    ensures carried { IfOk result (λ m. is_carried (meaning m) ≡ true) }
{
    let elements = vec![in alloc; number(35), number(request.value())]?;
    Ok(message(elements))
}

/// ABORT, of type 3, or GOODBYE, of type 6.
pub(crate) fn farewell(alloc: Global, kind: u64, reason: Reason) -> Result<Message, AllocError>
    ensures ok { IfOk result (λ m. meaning m ≡ farewell kind reason) }
    ensures carried { IfOk result (λ m. is_carried (meaning m) ≡ true) }
{
    let reason = text(alloc, uri(reason))?;
    let details = dictionary(Dict::new(alloc));
    let elements = vec![in alloc; number(kind), details, reason]?;
    Ok(message(elements))
}

fn error(alloc: Global, kind: Request, request: Id, reason: Reason) -> Result<Message, AllocError>
    ensures ok { IfOk result (λ m. meaning m ≡ error kind request reason) }
    ensures carried { IfOk result (λ m. is_carried (meaning m) ≡ true) }
{
    let reason = text(alloc, uri(reason))?;
    let details = dictionary(Dict::new(alloc));
    let kind = type_number(kind);
    let elements = vec![in alloc;
        number(8),
        number(kind),
        number(request.value()),
        details,
        reason,
    ]?;
    Ok(message(elements))
}

fn welcome(alloc: Global, who: &Who) -> Result<Message, AllocError>
    ensures ok { IfOk result (λ m. meaning m ≡ welcome who.now) }
    ensures carried { IfOk result (λ m. is_carried (meaning m) ≡ true) }
{
    let details = dictionary(welcome_details(alloc, who)?);
    let elements = vec![in alloc; number(2), number(who.id.value()), details]?;
    Ok(message(elements))
}

fn event(
    alloc: Global,
    subscription: Id,
    made: &Publication,
    with_topic: bool,
    retained: bool,
) -> Result<Message, AllocError>
    ensures ok { IfOk result (λ m. meaning m ≡ event subscription made.now with_topic retained) }
    ensures carried { IfOk result (λ m. is_carried (meaning m) ≡ true) }
{
    let details = event_details(alloc, made, with_topic, retained)?;
    let mut arguments = last_elements(alloc, made)?;
    let mut elements = vec![in alloc;
        number(36),
        number(subscription.value()),
        number(made.id.value()),
        dictionary(details),
    ]?;
    elements.append(&mut arguments)?;
    Ok(message(elements))
}

/// The last elements of an EVENT: Arguments and ArgumentsKw, as far as they are there.
fn last_elements(alloc: Global, made: &Publication) -> Result<Vec<Tree>, AllocError>
    ensures ok { IfOk result
        (λ ts. items_view ts.items ≡ last_items made.now.args.args made.now.args.kwargs) }
    ensures bounded { IfOk result (λ ts. items_depth (items_view ts.items) ≤ 99) }
    ensures carried { IfOk result (λ ts. items_carried (items_view ts.items) ≡ true) }
{
    let payload = made.args.args().decoded(alloc)?;
    match (payload.args, payload.kwargs) {
        (None, _) => Ok(Vec::new(alloc)),
        (Some(args), None) => Ok(vec![in alloc; args.into_tree()]?),
        (Some(args), Some(kwargs)) => Ok(vec![in alloc; args.into_tree(), kwargs.into_tree()]?),
    }
}
