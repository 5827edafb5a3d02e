//! The elements of a message as trees.
ghost use Rattle.std.specs.Prelude.{◌≡◌, ◌≤◌, IfOk, OnErr, IfErr, OnOk, IfSome, MatchOption, List, ℕ, None, Some, codes, true};
ghost use Rattle.message_tree.specs.Data.{Items, Entries, item, no_items, depth, items_depth, find_entry};
ghost use Rattle.message_tree.specs.View.{view, items_view};
ghost use Rattle.eligibility.specs.Options.{number_of, text_of};
ghost use Rattle.arguments.specs.Arguments.{is_args, is_kwargs};
ghost use Rattle.arguments.specs.Reading.{args_of, kwargs_of, with_args, with_both};
ghost use Rattle.session.specs.FromClient.{IsMore, IsNext, IsReadFault, arguments_of, dict_of, first, id_of, id_among, publish_options_in, subscribe_options_in, text_or_none};

use crate::fault::Fault;
use crate::messages::elements::MessageElements;
use arguments::Args;
use message_tree::{Content, Dict, Options, Text, Tree};
use std::alloc::{AllocError, Global};
use std::collections::VecDeque;
use std::marker::Model;
use wamp_ids::Id;
use wamp_messages::{PublishOptions, SubscribeOptions};

/// The elements of a message that aren't read yet. A call takes the next element also where it is not of the kind that
/// is asked for.
#[derive(Drop)]
pub struct TreeElements {
    rest: VecDeque<Tree>,
}

impl Model for TreeElements {
    ghost use Rattle.std.specs.Prelude.{◌≤◌};
    ghost use Rattle.message_tree.specs.Data.{Items, items_depth};
    ghost use Rattle.message_tree.specs.Code.{items_code};
    ghost use Rattle.message_tree.specs.View.{items_view};

    ghost Value = { Items };

    ghost coded = { items_code };

    ghost view = { λ e. items_view e.rest.items };

    ghost invariant = { λ e. items_depth (items_view e.rest.items) ≤ 99 };
}

impl TreeElements {
    /// All of them.
    pub fn of(trees: Vec<Tree>) -> TreeElements
        requires { items_depth (items_view trees.items) ≤ 99 }
        ensures { result ≡ items_view trees.items }
    {
        TreeElements {
            rest: VecDeque::from_vec(trees),
        }
    }

    /// The next element.
    pub fn next(&mut self) -> Option<Tree>
        ensures first { MatchOption result (self.old ≡ no_items)
            (λ t. self.old ≡ item (view t) self.new) }
        ensures bounded { IfSome result (λ t. depth (view t) ≤ 99) }
    {
        self.rest.pop_front()
    }

    /// The next element, a whole number that a serialization carries.
    pub fn next_number(&mut self) -> Option<i128>
        ensures { IsNext number_of self.old result self.new }
    {
        let tree = self.next()?;
        let is_carried = tree.is_carried();
        match tree {
            Tree::Whole(number) if is_carried => Some(number),
            _ => None,
        }
    }

    /// The next element, an id.
    pub fn next_id(&mut self) -> Option<Id>
        ensures { IsNext id_of self.old result self.new }
    {
        match self.next() {
            Some(Tree::Whole(number)) => id_among(number),
            _ => None,
        }
    }

    /// The next element, a text.
    pub fn next_text(&mut self) -> Option<Text>
        ensures { IsNext text_of self.old result self.new }
    {
        match self.next() {
            Some(Tree::Text(text)) => Some(Text::from_string(text)),
            _ => None,
        }
    }

    /// The next element, a dictionary.
    pub fn next_dict(&mut self) -> Option<Options>
        ensures { IsNext dict_of self.old result self.new }
    {
        match self.next() {
            Some(Tree::Dict(dict)) => Some(Options::of(dict)),
            _ => None,
        }
    }

    /// Arguments and ArgumentsKw, as far as they are there, as the last elements; `None` where others are left.
    ///
    /// # Errors
    /// [`AllocError`] where a growth was refused.
    pub fn last_arguments(mut self, alloc: Global) -> Result<Option<Args>, AllocError>
        ensures { IfOk result (λ a. arguments_of self ≡ a) }
    {
        let Some(first) = self.next() else {
            return Ok(Some(Args::none()));
        };
        let Some(second) = self.next() else {
            return positional(alloc, first);
        };
        match self.next() {
            None => both(alloc, first, second),
            Some(_) => Ok(None),
        }
    }
}

impl MessageElements for TreeElements {
    ghost items = { λ e. e };

    ghost is_whole = { λ e. true };

    fn number(&mut self) -> Result<i128, Fault> {
        self.next_number().ok_or(Fault::Shape)
    }

    fn id(&mut self) -> Result<Id, Fault> {
        self.next_id().ok_or(Fault::Shape)
    }

    fn text(&mut self, _alloc: Global) -> Result<Text, Fault> {
        self.next_text().ok_or(Fault::Shape)
    }

    fn pass_text(&mut self) -> Result<(), Fault> {
        match self.next() {
            Some(Tree::Text(_)) => Ok(()),
            _ => Err(Fault::Shape),
        }
    }

    fn publish_options(&mut self, alloc: Global) -> Result<PublishOptions, Fault> {
        match self.next() {
            Some(Tree::Dict(dict)) => Ok(PublishOptions::of_dict(alloc, dict)?),
            _ => Err(Fault::Shape),
        }
    }

    fn subscribe_options(&mut self) -> Result<SubscribeOptions, Fault> {
        match self.next() {
            Some(Tree::Dict(dict)) => Ok(SubscribeOptions::of_dict(&dict)),
            _ => Err(Fault::Shape),
        }
    }

    fn pass_dict(&mut self) -> Result<(), Fault> {
        match self.next() {
            Some(Tree::Dict(_)) => Ok(()),
            _ => Err(Fault::Shape),
        }
    }

    fn authid(&mut self, alloc: Global) -> Result<Option<Text>, Fault> {
        match self.next() {
            Some(Tree::Dict(details)) => text_at(alloc, &Options::of(details), "authid"),
            _ => Err(Fault::Shape),
        }
    }

    fn end(&mut self) -> Result<(), Fault> {
        match self.next() {
            None => Ok(()),
            Some(_) => Err(Fault::Shape),
        }
    }

    fn pass_rest(self) -> Result<(), Fault> {
        Ok(())
    }

    fn arguments(self, alloc: Global) -> Result<Args, Fault> {
        self.last_arguments(alloc)?.ok_or(Fault::Shape)
    }
}

/// The id of this number: from 1 to 2^53.
pub fn id_among(number: i128) -> Option<Id>
    ensures { result ≡ id_among number }
{
    if number < 0 || number > u64::MAX as i128 {
        return None;
    }
    Id::new(number as u64).ok()
}

fn text_at(alloc: Global, details: &Options, key: &str) -> Result<Option<Text>, Fault>
    ensures ok { IfOk result (λ t. text_or_none (find_entry key.now details.now) ≡ Some t) }
    ensures bad { result ≡ Err Fault.Shape → text_or_none (find_entry key.now details.now) ≡ None }
    ensures faults { IfErr result IsReadFault }
{
    match details.get(key) {
        None => Ok(None),
        Some(Tree::Null) => Ok(None),
        Some(Tree::Text(text)) => Ok(Some(Text::of(alloc, text.as_str())?)),
        Some(_) => Err(Fault::Shape),
    }
}

/// Arguments alone.
fn positional(alloc: Global, args: Tree) -> Result<Option<Args>, AllocError>
    requires { depth (view args) ≤ 99 }
    ensures { IfOk result (λ a. with_args (args_of (view args)) ≡ a) }
{
    match args_of(alloc, args) {
        Some(args) => Ok(Some(Args::positional(alloc, args)?)),
        None => Ok(None),
    }
}

/// Arguments and ArgumentsKw.
fn both(alloc: Global, args: Tree, kwargs: Tree) -> Result<Option<Args>, AllocError>
    requires { (depth (view args) ≤ 99) × (depth (view kwargs) ≤ 99) }
    ensures { IfOk result
        (λ a. with_both (args_of (view args)) (kwargs_of (view kwargs)) ≡ a) }
{
    match (args_of(alloc, args), kwargs_of(alloc, kwargs)) {
        (Some(args), Some(kwargs)) => Ok(Some(Args::both(alloc, args, kwargs)?)),
        _ => Ok(None),
    }
}

/// Arguments: a list, which null is too, or what isn't carried.
fn args_of(alloc: Global, tree: Tree) -> Option<Content>
    requires { depth (view tree) ≤ 99 }
    ensures found { result ≡ args_of (view tree) }
    ensures bounded { IfSome result (λ c. depth c ≤ 99) }
    ensures kind { IfSome result (λ c. is_args c ≡ true) }
{
    match tree {
        Tree::Null => Some(Content::of(Tree::List(Vec::new(alloc)))),
        Tree::List(items) => Some(Content::of(Tree::List(items))),
        Tree::Uncarried => Some(Content::of(Tree::Uncarried)),
        _ => None,
    }
}

/// ArgumentsKw: a dictionary, which null is too, or what isn't carried.
fn kwargs_of(alloc: Global, tree: Tree) -> Option<Content>
    requires { depth (view tree) ≤ 99 }
    ensures found { result ≡ kwargs_of (view tree) }
    ensures bounded { IfSome result (λ c. depth c ≤ 99) }
    ensures kind { IfSome result (λ c. is_kwargs c ≡ true) }
{
    match tree {
        Tree::Null => Some(Content::of(Tree::Dict(Dict::new(alloc)))),
        Tree::Dict(dict) => Some(Content::of(Tree::Dict(dict))),
        Tree::Uncarried => Some(Content::of(Tree::Uncarried)),
        _ => None,
    }
}
