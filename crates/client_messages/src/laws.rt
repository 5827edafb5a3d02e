//! What follows from the definitions of messages alone. These functions do nothing: each is there for its
//! contract.
ghost use Rattle.std.specs.Prelude.{◌≡◌, None, Some, true};
ghost use Rattle.wamp_ids.specs.Numbers.{IsId};
ghost use Rattle.message_tree.specs.Data.{Data};
ghost use Rattle.wamp_messages.specs.Arguments.{is_args_if_any, is_kwargs_if_any};
ghost use Rattle.session.specs.ToClient.{message_of};
ghost use Rattle.client_messages.specs.FromBroker.{heard_of};
ghost use Rattle.client_messages.specs.Laws.{meant};

use session::{Args, Item};
use wamp_ids::Id;

/// What is heard in the message of an item that this broker owes a client is what the item says: its
/// numbers, its URI, its arguments, and of an event what it tells of its topic and its publisher.
pub fn broker_messages_are_heard_as_meant(item: &Item)
    ensures { (message : Data) → message_of item.now ≡ Some message
        → heard_of message ≡ meant item.now }
{
    match item {
        Item::Welcome(who) => is_id(&who.id),
        Item::Error { request, .. } => is_id(request),
        Item::Published {
            request,
            publication,
        } => are_ids(request, publication),
        Item::Subscribed {
            request,
            subscription,
        } => are_ids(request, subscription),
        Item::Unsubscribed { request } => is_id(request),
        Item::Event {
            subscription,
            publication,
            ..
        } => {
            let made = publication.value();
            are_ids(subscription, &made.id);
            is_id(&made.publisher.id);
            are_arguments(made.args.args());
        }
        Item::Abort(_) => {}
        Item::Goodbye(_) => {}
        Item::Pong(_) => {}
    }
}

fn is_id(id: &Id)
    ensures { IsId id.now }
{
    let _ = id.value();
}

fn are_ids(one: &Id, other: &Id)
    ensures one { IsId one.now }
    ensures other { IsId other.now }
{
    is_id(one);
    is_id(other);
}

/// Arguments are as a PUBLISH may have them.
fn are_arguments(args: &Args)
    ensures args { is_args_if_any args.now.args ≡ true }
    ensures kwargs { is_kwargs_if_any args.now.kwargs ≡ true }
    ensures alone { args.now.args ≡ None → args.now.kwargs ≡ None }
{
    args.fit();
}
