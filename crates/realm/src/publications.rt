//! PUBLISH: whether it is accepted, what it gives, and what stays retained.
ghost use Rattle.std.specs.Prelude.{[], ◌≡◌, ℕ, true, not, ◌&&◌, is_some, None, Some, IfOk, OnOk, OnErr, IfSome};
ghost use Rattle.wamp_ids.specs.Uri.{is_topic, is_reserved};
ghost use Rattle.wamp_messages.specs.Arguments.{is_all_carried};
ghost use Rattle.retained.specs.Store.{has_room, set_topic};
ghost use Rattle.eligibility.specs.declared.who.Who.{Who};
ghost use Rattle.realm.specs.body.LiveSessions.{session_of, AreHeld};
ghost use Rattle.realm.specs.Publications.{published_by, accepted_options_of, made_by};
ghost use Rattle.realm.specs.body.Outputs.{all_events};
ghost use Rattle.realm.specs.body.Transitions.{IsPublished, made_with, is_some_true, refused, told};

use crate::accepted_options::{AcceptedOptions, accepted_options};
use crate::events::{Given, events_to, events_without_lists, one, put_before, receivers};
use crate::fault::Fault;
use crate::notes::Refusal;
use crate::state::State;
use message_tree::{Shared, Text};
use retained::Store;
use std::alloc::Global;
use wamp_ids::{Conn, Id, Topic};
use wamp_messages::{
    Args, CarriedArgs, Item, Publication, Publish, PublishOptions, Reason, Request, Who,
};

/// A PUBLISH, and the word of its publication's id. Answering spends it: its lists, topic and arguments are moved.
#[derive(Drop)]
pub struct PublishRequest {
    pub conn: Conn,
    pub word: u64,
    pub what: Publish,
}

/// Who asks, and whether for an answer; where its option has a wrong type, it doesn't.
#[derive(Drop)]
struct Requester {
    conn: Conn,
    request: Id,
    acknowledge: Option<bool>,
}

/// A PUBLISH that is accepted.
#[derive(Drop)]
pub struct AcceptedPublication {
    pub topic: Topic,
    pub options: AcceptedOptions,
    pub args: CarriedArgs,
}

/// The arguments, where they can be carried.
fn carried(args: Args) -> Option<CarriedArgs>
    ensures same { IfSome result (λ carried. carried ≡ args) }
    ensures carried { is_some result ≡ is_all_carried args }
{
    match CarriedArgs::of(args) {
        Ok(carried) => Some(carried),
        Err(_) => None,
    }
}

/// Moves the text of a topic that a refused PUBLISH named.
fn name(named: &mut Option<Text>, topic: Topic) {
    *named = Some(Text::from_string(topic.into_string()));
}

/// The topic of a PUBLISH; none where it is no topic, or a reserved one, and then it stands in `named`.
fn open_topic(text: Text, named: &mut Option<Text>) -> Option<Topic>
    ensures same { IfSome result (λ topic. topic ≡ text) }
    ensures open { is_some result ≡ (is_topic text && not (is_reserved text)) }
{
    match Topic::or_text(text.into_string()) {
        Ok(topic) if !topic.is_reserved() => Some(topic),
        Ok(topic) => {
            name(named, topic);
            None
        }
        Err(text) => {
            *named = Some(Text::from_string(text));
            None
        }
    }
}

/// What a PUBLISH with these options asks for where it is accepted, or why it is refused. Then its
/// topic stands in `named`.
fn accepted_with(
    store: &Store,
    options: AcceptedOptions,
    topic: Text,
    args: Args,
    named: &mut Option<Text>,
) -> Result<AcceptedPublication, Reason>
    ensures answer { (word : ℕ) (w : Who)
        → published_by (has_room store.now topic) word w topic args (Some options)
        ≡ made_with word w result }
    ensures room { IfOk result (λ a. a.options.retained ≡ true
        → has_room store.now a.topic ≡ true) }
    ensures options { IfOk result (λ a. a.options ≡ options) }
{
    let Some(topic) = open_topic(topic, named) else {
        return Err(Reason::InvalidUri);
    };
    let Some(args) = carried(args) else {
        name(named, topic);
        return Err(Reason::InvalidArgument);
    };
    if options.retained && !store.has_room(topic.text()) {
        name(named, topic);
        return Err(Reason::RetainedFull);
    }
    Ok(AcceptedPublication {
        topic,
        options,
        args,
    })
}

/// What a PUBLISH asks for where it is accepted, or why it is refused. Then its topic stands in
/// `named`.
fn accepted(
    store: &Store,
    options: PublishOptions,
    topic: Text,
    args: Args,
    named: &mut Option<Text>,
) -> Result<AcceptedPublication, Reason>
    ensures answer { (word : ℕ) (w : Who)
        → published_by (has_room store.now topic) word w topic args (accepted_options_of options)
        ≡ made_with word w result }
    ensures room { IfOk result (λ a. a.options.retained ≡ true
        → has_room store.now a.topic ≡ true) }
    ensures options { IfOk result (λ a. accepted_options_of options ≡ Some a.options) }
{
    match accepted_options(options) {
        Some(options) => accepted_with(store, options, topic, args, named),
        None => {
            *named = Some(topic);
            Err(Reason::InvalidArgument)
        }
    }
}

/// The publication that an accepted PUBLISH makes. The arguments are moved.
fn publication(
    alloc: Global,
    publisher: &Who,
    word: u64,
    accepted: AcceptedPublication,
) -> Result<Publication, Fault>
    ensures { IfOk result (λ p. p
        ≡ (made_by word publisher.now accepted.topic accepted.args
        accepted.options).publication) }
{
    let publisher = publisher.twin()?;
    let AcceptedPublication {
        topic,
        options,
        args,
    } = accepted;
    Ok(Publication {
        id: Id::of_word(word),
        topic,
        args,
        lists: options.lists,
        publisher,
        disclosed: options.disclosed,
    })
}

fn is_acknowledged(requester: &Requester) -> bool
    ensures { result ≡ is_some_true requester.now.acknowledge }
{
    match requester.acknowledge {
        Some(flag) => flag,
        None => false,
    }
}

/// ERROR for a PUBLISH that is refused, where it asked for an answer.
fn refused(alloc: Global, requester: &Requester, reason: Reason) -> Result<Given, Fault>
    ensures { IfOk result (λ given.
        given.items ≡ refused requester.now.conn requester.now.request requester.now.acknowledge
        reason) }
{
    if !is_acknowledged(requester) {
        return Ok(Vec::new(alloc));
    }
    let item = Item::Error {
        kind: Request::Publish,
        request: requester.request,
        reason,
    };
    one(alloc, requester.conn, item)
}

/// The EVENTs of an accepted publication, in a list that is lent for them. For one that admits
/// nobody no receiver is searched; one without lists has nobody looked up for it.
fn events(
    alloc: Global,
    spare: Given,
    state: &State,
    made: &Shared<Publication>,
) -> Result<Given, Fault>
    requires empty { spare.items ≡ [] }
    requires held { AreHeld state.now.sessions state.now.index.rows }
    ensures { IfOk result (λ given.
        given.items ≡ all_events state.now.sessions state.now.index.rows made.now) }
{
    if made.value().lists.admits_nobody() {
        return Ok(spare);
    }
    let found = receivers(alloc, &state.index, &made.value().topic)?;
    if made.value().lists.has_no_lists() {
        events_without_lists(spare, &state.sessions, made, &found)
    } else {
        events_to(spare, &state.sessions, made, &found)
    }
}

/// What an accepted publication gives: EVENTs, and PUBLISHED where that was asked for.
fn told(
    alloc: Global,
    spare: Given,
    state: &State,
    requester: &Requester,
    made: &Shared<Publication>,
) -> Result<Given, Fault>
    requires empty { spare.items ≡ [] }
    requires held { AreHeld state.now.sessions state.now.index.rows }
    ensures { IfOk result (λ given.
        given.items ≡ told state.now requester.now.conn requester.now.request
        requester.now.acknowledge made.now) }
{
    let mut given = events(alloc, spare, state, made)?;
    if is_acknowledged(requester) {
        let published = Item::Published {
            request: requester.request,
            publication: made.value().id,
        };
        put_before(&mut given, requester.conn, published)?;
    }
    Ok(given)
}

/// How many EVENTs there are among what an accepted publication gives.
fn events_in(given: &Given, requester: &Requester) -> usize {
    if is_acknowledged(requester) {
        given.len().saturating_sub(1)
    } else {
        given.len()
    }
}

/// An equal publication, with nothing in JSON beside its arguments.
fn without_json(alloc: Global, made: &Publication) -> Result<Publication, Fault>
    ensures { IfOk result (λ copy. copy ≡ made.now) }
{
    let topic = made.topic.try_copy(alloc)?;
    let lists = made.lists.twin()?;
    let publisher = made.publisher.twin()?;
    let args = made.args.try_copy(alloc)?;
    Ok(Publication {
        id: made.id,
        topic,
        lists,
        publisher,
        disclosed: made.disclosed,
        args,
    })
}

/// The publication as it is retained. What its arguments are in JSON is for those who get it now:
/// it is up to six times as long, and goes when they have taken it.
fn to_retain(alloc: Global, made: Shared<Publication>) -> Result<Shared<Publication>, Fault>
    ensures { IfOk result (λ kept. kept ≡ made) }
{
    if !made.value().args.keeps_json() {
        return Ok(made);
    }
    let kept = without_json(alloc, made.value())?;
    Ok(Shared::new(alloc, kept)?)
}

/// Retains a publication for which there is room.
fn retain(alloc: Global, store: &mut Store, made: Shared<Publication>) -> Result<(), Fault>
    requires { has_room store.old made.topic ≡ true }
    ensures kept { OnOk result (store.new ≡ set_topic made store.old) }
    ensures unchanged { OnErr result (store.new ≡ store.old) }
{
    match store.keep(alloc, to_retain(alloc, made)?) {
        Ok(()) => Ok(()),
        Err(retained::Fault::NoMemory) => Err(Fault::NoMemory),
        Err(retained::Fault::RetainedFull) => unreachable!(),
    }
}

/// Answers a PUBLISH of a live session.
pub fn publish(alloc: Global, state: &mut State, asked: PublishRequest) -> Result<Given, Fault>
    requires live { is_some (session_of state.old.sessions asked.conn) ≡ true }
    requires held { AreHeld state.old.sessions state.old.index.rows }
    ensures ok { IfOk result (λ given. (w : Who) → session_of state.old.sessions asked.conn ≡ Some w
        → IsPublished (record { old = state.old; new = state.new; given = given.items })
        (record { conn = asked.conn; request = asked.what.request }) asked.what.options.acknowledge
        (published_by (has_room state.old.store asked.what.topic) asked.word w asked.what.topic
        asked.what.args (accepted_options_of asked.what.options))) }
    ensures unchanged { OnErr result (state.new ≡ state.old) }
{
    let PublishRequest { conn, word, what } = asked;
    let Publish {
        request,
        options,
        topic,
        args,
    } = what;
    let requester = Requester {
        conn,
        request,
        acknowledge: options.acknowledge,
    };
    let mut named = None;
    let accepted = match accepted(&state.store, options, topic, args, &mut named) {
        Ok(accepted) => accepted,
        Err(reason) => {
            state.spare.note_refusal(Refusal {
                conn,
                kind: Request::Publish,
                request: requester.request,
                reason,
                topic: named,
            });
            return refused(alloc, &requester, reason);
        }
    };
    let Some(publisher) = state.sessions.find(conn) else {
        unreachable!()
    };
    let retained = accepted.options.retained;
    let made = publication(alloc, publisher, word, accepted)?;
    let made = Shared::new(alloc, made)?;
    let spare = state.spare.take(alloc);
    let given = told(alloc, spare, state, &requester, &made)?;
    if retained {
        retain(alloc, &mut state.store, made)?;
    } else {
        state.spare.put_aside(made);
    }
    state.spare.note_publication(events_in(&given, &requester));
    Ok(given)
}
