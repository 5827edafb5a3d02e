//! The elements of a broker's message, one after another.
ghost use Rattle.std.specs.Prelude.{◌≡◌, ◌≤◌, IfOk, OnErr, IfErr, OnOk, IfSome, MatchOption, None, Some};
ghost use Rattle.message_tree.specs.Data.{item, no_items, depth, items_depth};
ghost use Rattle.message_tree.specs.View.{view, items_view};
ghost use Rattle.eligibility.specs.Options.{number_of, text_of};
ghost use Rattle.session.specs.FromClient.{first, dict_of, id_of, id_among, IsMore};
ghost use Rattle.client_messages.specs.FromBroker.{request_of, request_by};

use crate::fault::Fault;
use message_tree::{Options, Text, Tree};
use session::{Request, TreeElements};
use std::marker::Model;
use wamp_ids::Id;

/// The elements of a message that aren't read yet.
#[derive(Drop)]
pub(crate) struct UnreadElements {
    rest: TreeElements,
}

impl Model for UnreadElements {
    ghost use Rattle.message_tree.specs.Data.{Items};
    ghost use Rattle.message_tree.specs.Code.{items_code};

    ghost Value = { Items };

    ghost coded = { items_code };

    ghost view = { λ e. e.rest };
}

impl UnreadElements {
    /// All of them.
    pub fn of(trees: Vec<Tree>) -> UnreadElements
        requires { items_depth (items_view trees.items) ≤ 99 }
        ensures { result ≡ items_view trees.items }
    {
        UnreadElements {
            rest: TreeElements::of(trees),
        }
    }

    /// The next element.
    pub fn next(&mut self) -> Option<Tree>
        ensures first { MatchOption result (self.old ≡ no_items)
            (λ t. self.old ≡ item (view t) self.new) }
        ensures bounded { IfSome result (λ t. depth (view t) ≤ 99) }
    {
        self.rest.next()
    }

    /// The next element, a text.
    pub fn text(&mut self) -> Result<Text, Fault>
        ensures ok { IfOk result (λ t. first text_of self.old ≡ Some (t, self.new)) }
        ensures err { OnErr result (first text_of self.old ≡ None) }
        ensures fault { IfErr result (λ fault. fault ≡ Fault.NoBrokerMessage) }
    {
        self.rest.next_text().ok_or(Fault::NoBrokerMessage)
    }

    /// The next element, a dictionary.
    pub fn dict(&mut self) -> Result<Options, Fault>
        ensures ok { IfOk result (λ o. first dict_of self.old ≡ Some (o, self.new)) }
        ensures err { OnErr result (first dict_of self.old ≡ None) }
        ensures fault { IfErr result (λ fault. fault ≡ Fault.NoBrokerMessage) }
    {
        self.rest.next_dict().ok_or(Fault::NoBrokerMessage)
    }

    /// The next element, a whole number that a serialization carries.
    pub fn number(&mut self) -> Result<i128, Fault>
        ensures ok { IfOk result (λ z. first number_of self.old ≡ Some (z, self.new)) }
        ensures err { OnErr result (first number_of self.old ≡ None) }
        ensures fault { IfErr result (λ fault. fault ≡ Fault.NoBrokerMessage) }
    {
        self.rest.next_number().ok_or(Fault::NoBrokerMessage)
    }

    /// The next element, the type of a request.
    pub fn request(&mut self) -> Result<Request, Fault>
        ensures ok { IfOk result (λ r. first request_of self.old ≡ Some (r, self.new)) }
        ensures err { OnErr result (first request_of self.old ≡ None) }
        ensures fault { IfErr result (λ fault. fault ≡ Fault.NoBrokerMessage) }
    {
        request_by(self.number()?)
    }

    /// The next element, an id.
    pub fn id(&mut self) -> Result<Id, Fault>
        ensures ok { IfOk result (λ id. first id_of self.old ≡ Some (id, self.new)) }
        ensures err { OnErr result (first id_of self.old ≡ None) }
        ensures fault { IfErr result (λ fault. fault ≡ Fault.NoBrokerMessage) }
    {
        self.rest.next_id().ok_or(Fault::NoBrokerMessage)
    }

    /// That nothing is left.
    pub fn end(&mut self) -> Result<(), Fault>
        ensures ok { OnOk result (self.old ≡ no_items) }
        ensures err { OnErr result (IsMore self.old) }
        ensures fault { IfErr result (λ fault. fault ≡ Fault.NoBrokerMessage) }
    {
        match self.next() {
            None => Ok(()),
            Some(_) => Err(Fault::NoBrokerMessage),
        }
    }
}

/// The id of this number.
pub(crate) fn id_among(number: i128) -> Result<Id, Fault>
    ensures ok { IfOk result (λ id. id_among number ≡ Some id) }
    ensures err { OnErr result (id_among number ≡ None) }
    ensures fault { IfErr result (λ fault. fault ≡ Fault.NoBrokerMessage) }
{
    session::id_among(number).ok_or(Fault::NoBrokerMessage)
}

fn request_by(kind: i128) -> Result<Request, Fault>
    ensures ok { IfOk result (λ r. request_by kind ≡ Some r) }
    ensures err { OnErr result (request_by kind ≡ None) }
    ensures fault { IfErr result (λ fault. fault ≡ Fault.NoBrokerMessage) }
{
    match kind {
        16 => Ok(Request::Publish),
        32 => Ok(Request::Subscribe),
        34 => Ok(Request::Unsubscribe),
        _ => Err(Fault::NoBrokerMessage),
    }
}
