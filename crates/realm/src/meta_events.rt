//! The session meta events: `wamp.session.on_join` and `on_leave`.
ghost use Rattle.std.specs.Prelude.{◌≡◌, ◌≤◌, true, pos, IfOk, OnOk};
ghost use Rattle.message_tree.specs.Data.{Items, whole, text, put, items_depth, is_carried, items_carried};
ghost use Rattle.message_tree.specs.View.{view, dict_view, items_view};
ghost use Rattle.wamp_ids.specs.Uri.{is_topic};
ghost use Rattle.realm.specs.MetaEvents.{announcement, arrival, departure, joined_items, left_items, listed};
ghost use Rattle.realm.specs.body.Outputs.{all_events};

use crate::events::{Given, events_to, receivers};
use crate::fault::Fault;
use crate::state::State;
use message_tree::{Content, Dict, Shared, Text, Tree};
use std::alloc::{AllocError, Global};
use wamp_ids::{Id, Topic};
use wamp_messages::{Args, CarriedArgs, Lists, Publication, Who};

/// The topic of this text, which is one.
fn topic_of(alloc: Global, text: &str) -> Result<Topic, Fault>
    requires { is_topic text.now ≡ true }
    ensures { IfOk result (λ topic. topic ≡ text.now) }
{
    match Topic::read(alloc, text) {
        Ok(topic) => Ok(topic),
        Err(wamp_ids::Fault::BadUri) => unreachable!(),
        Err(_) => Err(Fault::NoMemory),
    }
}

/// An id as a tree.
fn number(id: Id) -> Tree
    ensures value { view result ≡ whole (pos id) }
    ensures carried { is_carried (view result) ≡ true }
{
    Tree::Whole(id.value() as i128)
}

/// A text as a tree.
fn text(alloc: Global, of: &Text) -> Result<Tree, Fault>
    ensures { IfOk result (λ tree. view tree ≡ text of.now) }
{
    Ok(Tree::Text(String::from_str(alloc, of.as_str())?))
}

/// Arguments that are a list of these values.
fn listed(alloc: Global, items: Vec<Tree>) -> Result<CarriedArgs, AllocError>
    requires carried { items_carried (items_view items.items) ≡ true }
    requires shallow { items_depth (items_view items.items) ≤ 1 }
    ensures { IfOk result (λ args. args ≡ listed (items_view items.items)) }
{
    let args = Args::positional(alloc, Content::of(Tree::List(items)))?;
    match CarriedArgs::of(args) {
        Ok(args) => Ok(args),
        Err(_) => unreachable!(),
    }
}

/// Sets one key.
fn set(alloc: Global, dict: &mut Dict, key: &str, value: Tree) -> Result<(), AllocError>
    ensures { OnOk result (dict_view dict.new ≡ put key.now (view value) (dict_view dict.old)) }
{
    let key = String::from_str(alloc, key)?;
    dict.set(alloc, key, value)
}

/// The arguments of what is published where a session joins.
fn joined_args(alloc: Global, who: &Who) -> Result<CarriedArgs, Fault>
    ensures { IfOk result (λ args. args ≡ listed (joined_items who.now)) }
{
    let mut details = Dict::new(alloc);
    set(alloc, &mut details, "session", number(who.id))?;
    set(
        alloc,
        &mut details,
        "authrole",
        text(alloc, who.authrole.value())?,
    )?;
    set(
        alloc,
        &mut details,
        "authid",
        text(alloc, who.authid.value())?,
    )?;
    Ok(listed(alloc, vec![in alloc; Tree::Dict(details)]?)?)
}

/// The arguments of what is published where a session leaves.
fn left_args(alloc: Global, who: &Who) -> Result<CarriedArgs, Fault>
    ensures { IfOk result (λ args. args ≡ listed (left_items who.now)) }
{
    let authid = text(alloc, who.authid.value())?;
    let authrole = text(alloc, who.authrole.value())?;
    Ok(listed(alloc, vec![in alloc; number(who.id), authid, authrole]?)?)
}

/// What is published of a session.
fn announcement(
    alloc: Global,
    word: u64,
    who: &Who,
    topic: Topic,
    args: CarriedArgs,
) -> Result<Shared<Publication>, Fault>
    ensures { IfOk result (λ made. (items : Items) → args ≡ listed items
        → made ≡ announcement word who.now topic items) }
{
    let made = Publication {
        id: Id::of_word(word),
        topic,
        lists: Lists::everyone(),
        publisher: who.twin()?,
        disclosed: false,
        args,
    };
    Ok(Shared::new(alloc, made)?)
}

/// The EVENTs of a session's arrival. Where nobody holds a pattern that matches, nothing is made of it.
pub fn arrival_events(alloc: Global, state: &State, word: u64, who: &Who) -> Result<Given, Fault>
    ensures { IfOk result (λ given.
        given.items ≡ all_events state.now.sessions state.now.index.rows (arrival word who.now)) }
{
    let topic = topic_of(alloc, "wamp.session.on_join")?;
    let found = receivers(alloc, &state.index, &topic)?;
    if found.is_empty() {
        return Ok(Vec::new(alloc));
    }
    let args = joined_args(alloc, who)?;
    let made = announcement(alloc, word, who, topic, args)?;
    events_to(Vec::new(alloc), &state.sessions, &made, &found)
}

/// The EVENTs of a session's departure. Where nobody holds a pattern that matches, nothing is made of it.
pub fn departure_events(alloc: Global, state: &State, word: u64, who: &Who) -> Result<Given, Fault>
    ensures { IfOk result (λ given.
        given.items ≡ all_events state.now.sessions state.now.index.rows (departure word who.now)) }
{
    let topic = topic_of(alloc, "wamp.session.on_leave")?;
    let found = receivers(alloc, &state.index, &topic)?;
    if found.is_empty() {
        return Ok(Vec::new(alloc));
    }
    let args = left_args(alloc, who)?;
    let made = announcement(alloc, word, who, topic, args)?;
    events_to(Vec::new(alloc), &state.sessions, &made, &found)
}
