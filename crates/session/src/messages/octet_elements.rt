//! The elements of a client's message where they stand in octets of MessagePack.
ghost use Rattle.std.specs.Prelude.{◌≡◌, IfOk, IfErr, OnOk, OnErr, None, Some, codes};
ghost use Rattle.message_tree.specs.Data.{Entries, find_entry, fits_codecs};
ghost use Rattle.session.specs.FromClient.{IsReadFault, dict_of, id_of, publish_options_in, subscribe_options_in, text_or_none};
ghost use Rattle.eligibility.specs.Options.{text_of};
ghost use Rattle.msgpack_cursor.specs.Seen.{data_of};

use crate::fault::Fault;
use crate::messages::elements::MessageElements;
use crate::messages::tree_elements::id_among;
use arguments::Args;
use message_tree::Text;
use msgpack_cursor::{Seen, Unread, Value};
use std::alloc::Global;
use std::marker::Model;
use wamp_ids::Id;
use wamp_messages::{PublishOptions, SubscribeOptions};

/// The elements of a message that aren't read yet.
#[derive(Drop)]
pub(crate) struct OctetElements<'a> {
    rest: Unread<'a>,
}

impl<'a> Model for OctetElements<'a> {
    ghost use Rattle.msgpack_cursor.specs.Unread.{Rest, rest_code};

    ghost Value = { Rest };

    ghost coded = { rest_code };

    ghost view = { λ e. e.rest };
}

impl<'a> OctetElements<'a> {
    /// All of them.
    pub fn of(rest: Unread<'a>) -> OctetElements<'a>
        ensures { result ≡ rest.entry }
    {
        OctetElements { rest }
    }
}

/// Whether a serialization carries the number as a whole number.
fn fits(number: i128) -> bool
    ensures { result ≡ fits_codecs number }
{
    -(1 << 63) <= number && number < 1 << 64
}

/// A text, null, or nothing.
fn text_or_none(alloc: Global, value: Option<Value>) -> Result<Option<Text>, Fault>
    ensures ok { IfOk result (λ t. text_or_none value.entry ≡ Some t) }
    ensures bad { result ≡ Err Fault.Shape → text_or_none value.entry ≡ None }
    ensures faults { IfErr result IsReadFault }
{
    let Some(value) = value else {
        return Ok(None);
    };
    match value.seen() {
        Seen::Null => Ok(None),
        Seen::Text(text) => Ok(Some(Text::of(alloc, text)?)),
        _ => Err(Fault::Shape),
    }
}

/// What a dictionary asks for as the options of a PUBLISH.
fn publish_options_in(alloc: Global, value: &Value) -> Result<PublishOptions, Fault>
    ensures ok { IfOk result (λ o. publish_options_in value.now ≡ Some o) }
    ensures bad { result ≡ Err Fault.Shape → publish_options_in value.now ≡ None }
    ensures faults { IfErr result IsReadFault }
{
    match value.seen() {
        Seen::Dict(options) => Ok(PublishOptions::of_octets(alloc, &options)?),
        _ => Err(Fault::Shape),
    }
}

/// What a dictionary asks for as the options of a SUBSCRIBE.
fn subscribe_options_in(value: &Value) -> Result<SubscribeOptions, Fault>
    ensures ok { IfOk result (λ o. subscribe_options_in value.now ≡ Some o) }
    ensures bad { OnErr result (subscribe_options_in value.now ≡ None) }
    ensures fault { IfErr result (λ fault. fault ≡ Fault.Shape) }
{
    match value.seen() {
        Seen::Dict(options) => Ok(SubscribeOptions::of_octets(&options)),
        _ => Err(Fault::Shape),
    }
}

/// That a value is a dictionary.
fn pass_dict(value: &Value) -> Result<(), Fault>
    ensures ok { OnOk result ((es : Entries) × (dict_of value.now ≡ Some es)) }
    ensures bad { OnErr result (dict_of value.now ≡ None) }
    ensures fault { IfErr result (λ fault. fault ≡ Fault.Shape) }
{
    match value.seen() {
        Seen::Dict(_) => Ok(()),
        _ => Err(Fault::Shape),
    }
}

/// A text, null, or nothing, at `authid` in a dictionary.
fn authid_in(alloc: Global, value: &Value) -> Result<Option<Text>, Fault>
    ensures ok { IfOk result (λ t. (es : Entries) × (dict_of value.now ≡ Some es)
        × (text_or_none (find_entry (codes "authid") es) ≡ Some t)) }
    ensures bad { result ≡ Err Fault.Shape → (es : Entries) → dict_of value.now ≡ Some es
        → text_or_none (find_entry (codes "authid") es) ≡ None }
    ensures faults { IfErr result IsReadFault }
{
    match value.seen() {
        Seen::Dict(details) => text_or_none(alloc, details.get("authid")),
        _ => Err(Fault::Shape),
    }
}

impl<'a> MessageElements for OctetElements<'a> {
    ghost items = { λ e. e.items };

    ghost is_whole = { λ e. e.is_whole };

    fn number(&mut self) -> Result<i128, Fault> {
        match self.rest.whole() {
            Some(number) if fits(number) => Ok(number),
            _ => Err(Fault::Shape),
        }
    }

    fn id(&mut self) -> Result<Id, Fault> {
        match self.rest.whole() {
            Some(number) => id_among(number).ok_or(Fault::Shape),
            None => Err(Fault::Shape),
        }
    }

    fn text(&mut self, alloc: Global) -> Result<Text, Fault> {
        match self.rest.text() {
            Some(text) => Ok(Text::of(alloc, text)?),
            None => Err(Fault::Shape),
        }
    }

    fn pass_text(&mut self) -> Result<(), Fault> {
        let Some(_text) = self.rest.text() else {
            return Err(Fault::Shape);
        };
        Ok(())
    }

    fn publish_options(&mut self, alloc: Global) -> Result<PublishOptions, Fault> {
        if self.rest.pass_empty_dict() {
            return Ok(PublishOptions::none());
        }
        match self.rest.value() {
            Some(value) => publish_options_in(alloc, &value),
            None => Err(Fault::Shape),
        }
    }

    fn subscribe_options(&mut self) -> Result<SubscribeOptions, Fault> {
        match self.rest.value() {
            Some(value) => subscribe_options_in(&value),
            None => Err(Fault::Shape),
        }
    }

    fn pass_dict(&mut self) -> Result<(), Fault> {
        match self.rest.value() {
            Some(value) => pass_dict(&value),
            None => Err(Fault::Shape),
        }
    }

    fn authid(&mut self, alloc: Global) -> Result<Option<Text>, Fault> {
        match self.rest.value() {
            Some(value) => authid_in(alloc, &value),
            None => Err(Fault::Shape),
        }
    }

    fn end(&mut self) -> Result<(), Fault> {
        if self.rest.is_end() {
            Ok(())
        } else {
            Err(Fault::Shape)
        }
    }

    fn pass_rest(self) -> Result<(), Fault> {
        if self.rest.is_whole() {
            Ok(())
        } else {
            Err(Fault::Shape)
        }
    }

    fn arguments(mut self, alloc: Global) -> Result<Args, Fault> {
        if self.rest.is_end() {
            return Ok(Args::none());
        }
        let Some(args) = self.rest.value() else {
            return Err(Fault::Shape);
        };
        if self.rest.is_end() {
            return Ok(Args::read_args(alloc, &args)?);
        }
        let Some(kwargs) = self.rest.value() else {
            return Err(Fault::Shape);
        };
        self.end()?;
        Ok(Args::read_both(alloc, &args, &kwargs)?)
    }
}
