//! Which subscription is of which topic.
ghost use Rattle.std.specs.Prelude.{◌≡◌, ◌≤◌, IfErr, IfOk, IfSome, OnOk, Some, length, true};
ghost use Rattle.client_commands.specs.Acts.{granted_with, request_of, topic_at, topic_told};
ghost use Rattle.client_commands.specs.Faults.{IsOfBroker, IsOfHere};
ghost use Rattle.client_commands.specs.Stops.{GivesFault};
ghost use Rattle.client_messages.specs.declared.heard.Heard.TheVariants.{Subscribed as SubscribedHeard};

use crate::fault::Fault;
use client_session::EventDetails;
use message_tree::Text;
use wamp_ids::Id;

/// A subscription that the broker gave, and the request that asked for it. The request's id is the place of its topic, from 1.
#[derive(Clone, Copy, Debug)]
pub(crate) struct Granted {
    pub(crate) subscription: Id,
    pub(crate) request: Id,
}

/// The topic of a request that may be answered: it was made, and isn't answered yet.
fn open_topic<'a>(topics: &'a Vec<Text>, granted: &Vec<Granted>, request: Id) -> Option<&'a Text>
    ensures { IfSome result (λ topic. topic.now ≡ topic_at topics.now.items (Some request)) }
{
    let number = request.value();
    if granted.iter().any(|one| one.request.value() == number) {
        return None;
    }
    topics.get((number - 1) as usize)
}

/// Adds a subscription, and gives its topic.
///
/// # Errors
/// [`Fault::Unexpected`] where the request was never made or is answered, [`Fault::NoMemory`].
pub(crate) fn grant<'a>(
    topics: &'a Vec<Text>,
    granted: &mut Vec<Granted>,
    request: Id,
    subscription: Id,
) -> Result<&'a Text, Fault>
    ensures noted { OnOk result (granted.new.items
        ≡ granted_with granted.old.items (SubscribedHeard request subscription)) }
    ensures topic { IfOk result (λ topic.
        topic.now ≡ topic_at topics.now.items (Some request)) }
    ensures blamed { IfErr result (GivesFault (SubscribedHeard request subscription)) }
    ensures here { IfErr result IsOfHere }
    ensures aside { IfErr result IsOfBroker }
{
    let Some(topic) = open_topic(topics, granted, request) else {
        return Err(Fault::Unexpected);
    };
    if granted
        .push(Granted {
            subscription,
            request,
        })
        .is_err()
    {
        return Err(Fault::NoMemory);
    }
    Ok(topic)
}

/// The request that first gave a subscription.
fn request_of(granted: &Vec<Granted>, subscription: Id) -> Option<Id>
    ensures { result ≡ request_of subscription granted.now.items }
{
    'grants: for one in granted {
        if one.subscription.value() == subscription.value() {
            return Some(one.request);
        }
    }
    None
}

/// The topic of an event: the one that it names, else the one that was subscribed to.
pub(crate) fn topic_told<'a>(
    topics: &'a Vec<Text>,
    granted: &Vec<Granted>,
    subscription: Id,
    named: &'a Option<Text>,
) -> Option<&'a Text>
    ensures { IfSome result (λ topic.
        topic.now ≡ topic_told topics.now.items granted.now.items subscription named.now) }
{
    match named {
        Some(topic) => Some(topic),
        None => match request_of(granted, subscription) {
            Some(request) => topics.get((request.value() - 1) as usize),
            None => None,
        },
    }
}
