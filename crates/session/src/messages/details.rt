//! The dictionaries of the broker's messages, each key of them set where it is wanted.
ghost use Rattle.std.specs.Prelude.{◌≡◌, ◌≤◌, IfOk, OnOk, true};
ghost use Rattle.message_tree.specs.Data.{flag, text, dict, put, entries_depth, is_carried, entries_carried};
ghost use Rattle.message_tree.specs.View.{view, dict_view};
ghost use Rattle.session.specs.ToClient.{number, put_if, features, roles, welcome_details, event_details};

use eligibility::Who;
use message_tree::{Dict, Tree};
use std::alloc::{AllocError, Global};
use wamp_messages::Publication;

/// A whole number as a tree.
pub(crate) fn number(n: u64) -> Tree
    ensures value { view result ≡ number n }
    ensures carried { is_carried (view result) ≡ true }
{
    Tree::Whole(n as i128)
}

/// A text as a tree.
pub(crate) fn text(alloc: Global, of: &str) -> Result<Tree, AllocError>
    ensures ok { IfOk result (λ t. view t ≡ text of.now) }
{
    Ok(Tree::Text(String::from_str(alloc, of)?))
}

/// The truth value true as a tree.
fn truth() -> Tree
    ensures { view result ≡ flag true }
{
    Tree::Flag(true)
}

/// A dictionary as a tree.
pub(crate) fn dictionary(of: Dict) -> Tree
    ensures { view result ≡ dict (dict_view of) }
{
    Tree::Dict(of)
}

/// WELCOME.Details: who the session is, and the broker's features.
#[tactic(auto, unfolding(crate::specs::ToClient::welcome_details))]
pub(crate) fn welcome_details(alloc: Global, who: &Who) -> Result<Dict, AllocError>
    ensures ok { IfOk result (λ d. dict_view d ≡ welcome_details who.now) }
    ensures bounded { IfOk result (λ d. entries_depth (dict_view d) ≤ 3) }
    ensures carried { IfOk result (λ d. entries_carried (dict_view d) ≡ true) }
{
    let mut dict = Dict::new(alloc);
    let roles = roles(alloc)?;
    put_dict(alloc, &mut dict, "roles", roles)?;
    put_text(alloc, &mut dict, "authrole", who.authrole.value().as_str())?;
    put_text(alloc, &mut dict, "authid", who.authid.value().as_str())?;
    Ok(dict)
}

/// EVENT.Details: the publisher where it is disclosed, whether it is retained, and the topic.
#[tactic(auto, unfolding(crate::specs::ToClient::event_details))]
pub(crate) fn event_details(
    alloc: Global,
    made: &Publication,
    with_topic: bool,
    retained: bool,
) -> Result<Dict, AllocError>
    ensures ok { IfOk result (λ d. dict_view d ≡ event_details made.now with_topic retained) }
    ensures bounded { IfOk result (λ d. entries_depth (dict_view d) ≤ 0) }
    ensures carried { IfOk result (λ d. entries_carried (dict_view d) ≡ true) }
{
    let publisher = &made.publisher;
    let is_named = made.disclosed;
    let mut dict = Dict::new(alloc);
    put_text_if(alloc, &mut dict, with_topic, "topic", made.topic.text())?;
    put_if(alloc, &mut dict, retained, "retained", truth())?;
    let authrole = publisher.authrole.value().as_str();
    put_text_if(alloc, &mut dict, is_named, "publisher_authrole", authrole)?;
    let authid = publisher.authid.value().as_str();
    put_text_if(alloc, &mut dict, is_named, "publisher_authid", authid)?;
    let id = number(publisher.id.value());
    put_if(alloc, &mut dict, is_named, "publisher", id)?;
    Ok(dict)
}

fn roles(alloc: Global) -> Result<Dict, AllocError>
    ensures ok { IfOk result (λ d. dict_view d ≡ roles) }
{
    let features = features(alloc)?;
    let mut broker = Dict::new(alloc);
    put_dict(alloc, &mut broker, "features", features)?;
    let mut dict = Dict::new(alloc);
    put_dict(alloc, &mut dict, "broker", broker)?;
    Ok(dict)
}

/// The features that the broker announces (WAMP, "Feature Announcement").
fn features(alloc: Global) -> Result<Dict, AllocError>
    ensures ok { IfOk result (λ d. dict_view d ≡ features) }
{
    let mut dict = Dict::new(alloc);
    put_flag(alloc, &mut dict, "subscriber_blackwhite_listing")?;
    put_flag(alloc, &mut dict, "publisher_identification")?;
    put_flag(alloc, &mut dict, "publisher_exclusion")?;
    put_flag(alloc, &mut dict, "pattern_based_subscription")?;
    put_flag(alloc, &mut dict, "event_retention")?;
    Ok(dict)
}

/// Sets a key.
fn put(alloc: Global, dict: &mut Dict, key: &str, value: Tree) -> Result<(), AllocError>
    ensures ok { OnOk result (dict_view dict.new ≡ put key.now (view value) (dict_view dict.old)) }
{
    let key = String::from_str(alloc, key)?;
    dict.set(alloc, key, value)
}

/// Sets a key to true.
fn put_flag(alloc: Global, dict: &mut Dict, key: &str) -> Result<(), AllocError>
    ensures ok { OnOk result (dict_view dict.new ≡ put key.now (flag true) (dict_view dict.old)) }
{
    put(alloc, dict, key, truth())
}

/// Sets a key to a text.
fn put_text(alloc: Global, dict: &mut Dict, key: &str, of: &str) -> Result<(), AllocError>
    ensures ok { OnOk result (dict_view dict.new ≡ put key.now (text of.now) (dict_view dict.old)) }
{
    let value = text(alloc, of)?;
    put(alloc, dict, key, value)
}

/// Sets a key to a dictionary.
fn put_dict(alloc: Global, outer: &mut Dict, key: &str, inner: Dict) -> Result<(), AllocError>
    ensures ok { OnOk result (dict_view outer.new ≡ put
        key.now (dict (dict_view inner)) (dict_view outer.old)) }
{
    put(alloc, outer, key, dictionary(inner))
}

/// Sets a key where it is wanted.
#[tactic(auto, unfolding(crate::specs::ToClient::put_if))]
fn put_if(
    alloc: Global,
    dict: &mut Dict,
    wanted: bool,
    key: &str,
    value: Tree,
) -> Result<(), AllocError>
    ensures ok { OnOk result (dict_view dict.new ≡ put_if wanted
        key.now (view value) (dict_view dict.old)) }
{
    if wanted {
        put(alloc, dict, key, value)?;
    }
    Ok(())
}

/// Sets a key to a text where it is wanted.
fn put_text_if(
    alloc: Global,
    dict: &mut Dict,
    wanted: bool,
    key: &str,
    of: &str,
) -> Result<(), AllocError>
    ensures ok { OnOk result (dict_view dict.new ≡ put_if wanted
        key.now (text of.now) (dict_view dict.old)) }
{
    let value = text(alloc, of)?;
    put_if(alloc, dict, wanted, key, value)
}
