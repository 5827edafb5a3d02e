//! What a client may wish beside a topic, and the options that ask for it.
ghost use Rattle.std.specs.Prelude.{◌≡◌, ◌≤◌, IfOk, None, OnOk, Some, codes, false};
ghost use Rattle.std.specs.List.{AllByRecursion};
ghost use Rattle.std.specs.Option.{option_map};
ghost use Rattle.message_tree.specs.Data.{list, no_entries, find_entry, entries_depth};
ghost use Rattle.message_tree.specs.View.{view, dict_view};
ghost use Rattle.eligibility.specs.Options.{flag_or};
ghost use Rattle.eligibility.specs.Lists.{audience_of};
ghost use Rattle.wamp_ids.specs.Numbers.{IsId};
ghost use Rattle.client_messages.specs.Wishes.{AreIds, put_some, put_lists, flag_wish, policy_wish, exclude_me_wish, ids_in, numbers, numbers_wish, texts, texts_wish, subscribe_options, publish_options, wished_audience};

use crate::dictionaries::{number, put, text, truth};
use message_tree::{Dict, Options, Text, Tree};
use std::alloc::{AllocError, Global};
use wamp_ids::{Id, Policy};

/// What a SUBSCRIBE may wish beside its pattern's text.
#[derive(Clone, Copy, Debug)]
pub struct SubscribeWishes {
    /// How topics are compared with the text (WAMP, "Pattern-based Subscriptions").
    pub policy: Policy,
    /// Whether to be sent what is retained (WAMP, "Event Retention").
    pub get_retained: bool,
}

impl SubscribeWishes {
    /// What a SUBSCRIBE without options asks for: the text itself is the topic, and nothing that is
    /// retained is sent.
    #[tactic(auto, unfolding(crate::specs::Wishes::subscribe_options, crate::specs::Wishes::put_some))]
    pub fn none() -> SubscribeWishes
        ensures { subscribe_options result ≡ no_entries }
    {
        SubscribeWishes {
            policy: Policy::Exact,
            get_retained: false,
        }
    }

    /// The options that ask for this and for nothing else.
    ///
    /// # Errors
    /// [`AllocError`] where a growth was refused.
    #[tactic(auto, unfolding(crate::specs::Wishes::subscribe_options))]
    pub fn options(&self, alloc: Global) -> Result<Options, AllocError>
        ensures entries { IfOk result (λ o. o ≡ subscribe_options self.now) }
        ensures policy { IfOk result (λ o.
            find_entry (codes "match") o ≡ policy_wish self.now.policy) }
        ensures get_retained { IfOk result (λ o.
            flag_or false (find_entry (codes "get_retained") o) ≡ Some self.now.get_retained) }
        ensures shallow { IfOk result (λ o. entries_depth o ≤ 0) }
    {
        let mut dict = Dict::new(alloc);
        put_some(
            alloc,
            &mut dict,
            "get_retained",
            flag_wish(self.get_retained),
        )?;
        put_some(alloc, &mut dict, "match", policy_wish(alloc, self.policy)?)?;
        Ok(Options::of(dict))
    }
}

/// Sessions that a PUBLISH names, in up to three lists: by their ids, their authids and their authroles.
#[derive(Debug, Drop)]
pub struct SessionLists {
    /// Their ids, where these are named.
    pub ids: Option<Vec<Id>>,
    /// Their authids, where these are named.
    pub authids: Option<Vec<Text>>,
    /// Their authroles, where these are named.
    pub authroles: Option<Vec<Text>>,
}

impl SessionLists {
    /// None of the lists is given.
    pub fn none() -> SessionLists
        ensures ids { result.ids ≡ None }
        ensures authids { result.authids ≡ None }
        ensures authroles { result.authroles ≡ None }
    {
        SessionLists {
            ids: None,
            authids: None,
            authroles: None,
        }
    }
}

/// What a PUBLISH may wish beside its topic and its arguments.
#[derive(Debug, Drop)]
pub struct PublishWishes {
    /// Whether to be told that it was published, or why not.
    pub acknowledge: bool,
    /// Whether the events may name the publisher (WAMP, "Publisher Identification").
    pub disclose_me: bool,
    /// The only sessions that are to receive it (WAMP, "Subscriber Black- and Whitelisting"): they are in each list that is given.
    pub eligible: SessionLists,
    /// The sessions that are not to receive it: they are in one of the lists.
    pub exclude: SessionLists,
    /// Whether the publisher is left out (WAMP, "Publisher Exclusion").
    pub exclude_me: bool,
    /// Whether it is to be its topic's retained event (WAMP, "Event Retention").
    pub retain: bool,
}

impl PublishWishes {
    /// What a PUBLISH without options asks for: it goes to all but its publisher, and no answer comes.
    #[tactic(auto, unfolding(crate::specs::Wishes::publish_options, crate::specs::Wishes::put_some, crate::specs::Wishes::put_lists))]
    pub fn none() -> PublishWishes
        ensures { publish_options result ≡ no_entries }
    {
        PublishWishes {
            acknowledge: false,
            disclose_me: false,
            eligible: SessionLists::none(),
            exclude: SessionLists::none(),
            exclude_me: true,
            retain: false,
        }
    }

    /// The options that ask for this and for nothing else.
    ///
    /// # Errors
    /// [`AllocError`] where a growth was refused.
    #[tactic(auto, unfolding(crate::specs::Wishes::publish_options))]
    pub fn options(&self, alloc: Global) -> Result<Options, AllocError>
        ensures entries { IfOk result (λ o. o ≡ publish_options self.now) }
        ensures acknowledge { IfOk result (λ o.
            flag_or false (find_entry (codes "acknowledge") o) ≡ Some self.now.acknowledge) }
        ensures disclose_me { IfOk result (λ o.
            flag_or false (find_entry (codes "disclose_me") o) ≡ Some self.now.disclose_me) }
        ensures retain { IfOk result (λ o.
            flag_or false (find_entry (codes "retain") o) ≡ Some self.now.retain) }
        ensures audience { IfOk result (λ o. audience_of o ≡ Some (wished_audience self.now)) }
        ensures shallow { IfOk result (λ o. entries_depth o ≤ 1) }
    {
        let mut dict = Dict::new(alloc);
        put_some(alloc, &mut dict, "retain", flag_wish(self.retain))?;
        put_some(
            alloc,
            &mut dict,
            "exclude_me",
            exclude_me_wish(self.exclude_me),
        )?;
        put_lists(
            alloc,
            &mut dict,
            &self.exclude,
            "exclude",
            "exclude_authid",
            "exclude_authrole",
        )?;
        put_lists(
            alloc,
            &mut dict,
            &self.eligible,
            "eligible",
            "eligible_authid",
            "eligible_authrole",
        )?;
        put_some(alloc, &mut dict, "disclose_me", flag_wish(self.disclose_me))?;
        put_some(alloc, &mut dict, "acknowledge", flag_wish(self.acknowledge))?;
        Ok(Options::of(dict))
    }
}

/// Sets the keys of the lists that are given.
#[tactic(auto, unfolding(crate::specs::Wishes::put_lists))]
fn put_lists(
    alloc: Global,
    dict: &mut Dict,
    lists: &SessionLists,
    ids: &str,
    authids: &str,
    authroles: &str,
) -> Result<(), AllocError>
    ensures ok { OnOk result (dict_view dict.new
        ≡ put_lists lists.now ids.now authids.now authroles.now (dict_view dict.old)) }
    ensures in_range { OnOk result (AreIds (ids_in lists.now)) }
{
    let named = texts_wish(alloc, &lists.authroles)?;
    put_some(alloc, dict, authroles, named)?;
    let named = texts_wish(alloc, &lists.authids)?;
    put_some(alloc, dict, authids, named)?;
    let named = numbers_wish(alloc, &lists.ids)?;
    put_some(alloc, dict, ids, named)
}

/// Sets a key where there is a value for it.
#[tactic(auto, unfolding(crate::specs::Wishes::put_some))]
fn put_some(
    alloc: Global,
    dict: &mut Dict,
    key: &str,
    value: Option<Tree>,
) -> Result<(), AllocError>
    ensures ok { OnOk result
        (dict_view dict.new ≡ put_some key.now (option_map view value) (dict_view dict.old)) }
{
    match value {
        None => Ok(()),
        Some(value) => put(alloc, dict, key, value),
    }
}

fn flag_wish(wished: bool) -> Option<Tree>
    ensures { option_map view result ≡ flag_wish wished }
{
    if wished { Some(truth()) } else { None }
}

fn exclude_me_wish(exclude_me: bool) -> Option<Tree>
    ensures { option_map view result ≡ exclude_me_wish exclude_me }
{
    if exclude_me {
        None
    } else {
        Some(Tree::Flag(false))
    }
}

fn policy_wish(alloc: Global, policy: Policy) -> Result<Option<Tree>, AllocError>
    ensures ok { IfOk result (λ t. option_map view t ≡ policy_wish policy) }
{
    match policy {
        Policy::Exact => Ok(None),
        Policy::Prefix => Ok(Some(text(alloc, "prefix")?)),
        Policy::Wildcard => Ok(Some(text(alloc, "wildcard")?)),
    }
}

fn texts_wish(alloc: Global, wished: &Option<Vec<Text>>) -> Result<Option<Tree>, AllocError>
    ensures ok { IfOk result (λ t.
        option_map view t ≡ texts_wish (option_map (λ v. v.items) wished.now)) }
{
    match wished {
        None => Ok(None),
        Some(wished) => Ok(Some(texts(alloc, wished)?)),
    }
}

/// Texts as a list.
fn texts(alloc: Global, of: &Vec<Text>) -> Result<Tree, AllocError>
    ensures ok { IfOk result (λ t. view t ≡ list (texts of.now.items)) }
{
    let mut trees = Vec::with_capacity(alloc, of.len())?;
    for one in of {
        trees.push(text(alloc, one.as_str())?)?;
    }
    Ok(Tree::List(trees))
}

fn numbers_wish(alloc: Global, wished: &Option<Vec<Id>>) -> Result<Option<Tree>, AllocError>
    ensures ok { IfOk result (λ t.
        option_map view t ≡ numbers_wish (option_map (λ v. v.items) wished.now)) }
    ensures in_range { OnOk result (AreIds (option_map (λ v. v.items) wished.now)) }
{
    match wished {
        None => Ok(None),
        Some(wished) => Ok(Some(numbers(alloc, wished)?)),
    }
}

/// Ids as a list.
fn numbers(alloc: Global, of: &Vec<Id>) -> Result<Tree, AllocError>
    ensures ok { IfOk result (λ t. view t ≡ list (numbers of.now.items)) }
    ensures in_range { OnOk result (AllByRecursion IsId of.now.items) }
{
    let mut trees = Vec::with_capacity(alloc, of.len())?;
    for one in of {
        trees.push(number(one.value()))?;
    }
    Ok(Tree::List(trees))
}
