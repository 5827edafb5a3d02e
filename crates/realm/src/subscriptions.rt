//! SUBSCRIBE and UNSUBSCRIBE: what is refused, what is held, and the retained events that follow.
ghost use Rattle.std.specs.Prelude.{◌≡◌, ◌+◌, ◌≤◌, ◌++◌, ◌∷◌, [], true, length, vec_len, map, is_some, None, Some, Ok, Err, IfOk, OnOk, OnErr};
ghost use Rattle.std.specs.Vec.{vec_capacity};
ghost use Rattle.eligibility.specs.declared.who.Who.{Who};
ghost use Rattle.realm.specs.Subscriptions.{pattern_of};
ghost use Rattle.realm.specs.body.LiveSessions.{session_of};
ghost use Rattle.realm.specs.body.Outputs.{all_for};
ghost use Rattle.realm.specs.body.Transitions.{IsHeld, IsSubscribed, IsUnsubscribed, wanted, retained_event};

use crate::events::{Given, names_topic, one};
use crate::fault::Fault;
use crate::notes::Refusal;
use crate::spare::Spare;
use crate::state::State;
use message_tree::{Shared, Text};
use retained::Store;
use std::alloc::Global;
use wamp_ids::{Conn, Id, Pattern, Policy};
use wamp_messages::{Item, Publication, Reason, Request, SubscribeOptions, Who};

/// A SUBSCRIBE.
#[derive(Drop)]
pub struct SubscribeRequest<'a> {
    pub conn: Conn,
    pub request: Id,
    pub options: SubscribeOptions,
    pub topic: &'a Text,
}

/// The pattern that a SUBSCRIBE asks for, or why it is malformed.
fn pattern_of(
    alloc: Global,
    options: SubscribeOptions,
    topic: &Text,
) -> Result<Result<Pattern, Reason>, Fault>
    ensures { IfOk result (λ pattern. pattern ≡ pattern_of options topic.now) }
{
    let (Some(policy), Some(_)) = (options.policy, options.get_retained) else {
        return Ok(Err(Reason::InvalidArgument));
    };
    match Pattern::read(alloc, policy, topic.as_str()) {
        Ok(pattern) => Ok(Ok(pattern)),
        Err(wamp_ids::Fault::BadUri) => Ok(Err(Reason::InvalidUri)),
        Err(_) => Err(Fault::NoMemory),
    }
}

/// The retained publications that a SUBSCRIBE asks for, of those that match and admit the session.
fn wanted(
    alloc: Global,
    store: &Store,
    options: SubscribeOptions,
    pattern: &Pattern,
    who: &Who,
) -> Result<Vec<Shared<Publication>>, Fault>
    ensures { IfOk result (λ kept.
        kept.items ≡ wanted store.now options.get_retained pattern.now who.now) }
{
    match options.get_retained {
        Some(true) => Ok(store.admitting(alloc, pattern, who)?),
        _ => Ok(Vec::new(alloc)),
    }
}

/// Gives the connection the EVENTs of what is retained, for which there is room.
fn give_retained(
    given: &mut Given,
    conn: Conn,
    subscription: Id,
    policy: Policy,
    publications: Vec<Shared<Publication>>,
)
    requires { vec_len given.old + length publications.items ≤ vec_capacity given.old }
    ensures { given.new.items ≡ given.old.items ++ all_for
        conn (map (retained_event subscription policy) publications.items) }
{
    for publication in publications {
        given.push_reserved((
            conn,
            Item::Event {
                subscription,
                publication,
                with_topic: names_topic(policy),
                retained: true,
            },
        ));
    }
}

/// Notes that a SUBSCRIBE was refused.
fn note(alloc: Global, spare: &mut Spare, asked: &SubscribeRequest<'_>, reason: Reason) {
    spare.note_refusal(Refusal {
        conn: asked.conn,
        kind: Request::Subscribe,
        request: asked.request,
        reason,
        topic: asked.topic.try_copy(alloc).ok(),
    });
}

/// The ERROR that refuses a request.
fn refusal(kind: Request, request: Id, reason: Reason) -> Item
    ensures { result ≡ Item.Error kind request reason }
{
    Item::Error {
        kind,
        request,
        reason,
    }
}

/// Answers a SUBSCRIBE of a live session.
pub fn subscribe(
    alloc: Global,
    state: &mut State,
    asked: &SubscribeRequest<'_>,
) -> Result<Given, Fault>
    requires { is_some (session_of state.old.sessions asked.now.conn) ≡ true }
    ensures ok { IfOk result (λ given. (w : Who)
        → session_of state.old.sessions asked.now.conn ≡ Some w
        → IsSubscribed (record { old = state.old; new = state.new; given = given.items })
        (record { conn = asked.now.conn; request = asked.now.request })
        asked.now.options.get_retained w
        (pattern_of asked.now.options asked.now.topic.now)) }
    ensures unchanged { OnErr result (state.new ≡ state.old) }
{
    let pattern = match pattern_of(alloc, asked.options, asked.topic)? {
        Ok(pattern) => pattern,
        Err(reason) => {
            note(alloc, &mut state.spare, asked, reason);
            let item = refusal(Request::Subscribe, asked.request, reason);
            return one(alloc, asked.conn, item);
        }
    };
    let Some(who) = state.sessions.find(asked.conn) else {
        unreachable!()
    };
    let retained = wanted(alloc, &state.store, asked.options, &pattern, who)?;
    hold(alloc, state, asked, pattern, retained)
}

/// Answers a SUBSCRIBE of a pattern, after which these retained publications are given.
fn hold(
    alloc: Global,
    state: &mut State,
    asked: &SubscribeRequest<'_>,
    pattern: Pattern,
    retained: Vec<Shared<Publication>>,
) -> Result<Given, Fault>
    ensures ok { IfOk result (λ given.
        IsHeld (record { old = state.old; new = state.new; given = given.items })
        (record { conn = asked.now.conn; request = asked.now.request }) pattern retained.items) }
    ensures unchanged { OnErr result (state.new ≡ state.old) }
{
    let policy = pattern.policy();
    let mut given = Vec::with_capacity(alloc, retained.len() + 1)?;
    match state.index.hold(alloc, asked.conn, pattern) {
        Ok(subscription) => {
            let subscribed = Item::Subscribed {
                request: asked.request,
                subscription,
            };
            given.push_reserved((asked.conn, subscribed));
            give_retained(&mut given, asked.conn, subscription, policy, retained);
            Ok(given)
        }
        Err(subscription_index::Fault::TooManySubscriptions) => {
            let reason = Reason::TooManySubscriptions;
            note(alloc, &mut state.spare, asked, reason);
            let item = refusal(Request::Subscribe, asked.request, reason);
            given.push_reserved((asked.conn, item));
            Ok(given)
        }
        Err(subscription_index::Fault::NoMemory) => Err(Fault::NoMemory),
    }
}

/// Answers an UNSUBSCRIBE.
pub fn unsubscribe(
    alloc: Global,
    state: &mut State,
    conn: Conn,
    request: Id,
    subscription: Id,
) -> Result<Given, Fault>
    ensures ok { IfOk result (λ given.
        IsUnsubscribed (record { old = state.old; new = state.new; given = given.items })
        (record { conn = conn; request = request }) subscription) }
    ensures unchanged { OnErr result (state.new ≡ state.old) }
{
    let mut given = Vec::with_capacity(alloc, 1)?;
    let item = if state.index.release(conn, subscription) {
        Item::Unsubscribed { request }
    } else {
        let reason = Reason::NoSuchSubscription;
        state.spare.note_refusal(Refusal {
            conn,
            kind: Request::Unsubscribe,
            request,
            reason,
            topic: None,
        });
        refusal(Request::Unsubscribe, request, reason)
    };
    given.push_reserved((conn, item));
    Ok(given)
}
