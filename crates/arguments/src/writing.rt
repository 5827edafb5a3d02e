//! Arguments at the end of a message.
ghost use Rattle.std.specs.Prelude.{◌≡◌, ◌++◌, ◌⊎◌, IfOk, IfErr, IfSome, OnOk, true, false};
ghost use Rattle.message_tree.specs.Data.{is_carried};
ghost use Rattle.rawsocket.specs.declared.handshake.Serializer.TheVariants.{Json, MsgPack};
ghost use Rattle.arguments.specs.Arguments.{is_all_carried, is_carried_if_any, last_items};
ghost use Rattle.arguments.specs.Endings.{IsEnding, further, items_have_spelling};
ghost use Rattle.arguments.specs.body.KeptArguments.{AreWritten, IsGiven, arguments_in, written_in};
ghost use Rattle.arguments.specs.body.Parts.{HasStanding, IsJsonPut, further_if_any, further_one, has_spelling_if_any, has_spelling_one};

use crate::buffer::buffer;
use crate::fault::Fault;
use crate::held::HeldArguments;
use message_tree::{Appender, Content, Octets};
use msgpack_to_json::write_json;
use rawsocket::Serializer;
use std::alloc::{AllocError, Global};

/// What JSON mostly takes beside the octets of MessagePack.
const ROOM: usize = 32;

/// Writes the value at the front in JSON, behind a comma, and gives the octets after it.
fn put_one_json<'a>(
    alloc: Global,
    octets: &'a [u8],
    out: &mut Appender,
) -> Result<&'a [u8], AllocError>
    requires { HasStanding octets.now }
    ensures ok { IfOk result (λ rest. IsJsonPut octets.entry.now rest.now out.old.since
        out.new.since) }
    ensures before { out.new.before ≡ out.old.before }
{
    out.put(b',')?;
    match write_json(alloc, octets, out) {
        Ok(rest) => Ok(rest),
        Err(msgpack_to_json::Fault::NoMemory) => Err(AllocError),
        Err(msgpack_to_json::Fault::Malformed) => unreachable!(),
    }
}

/// Writes in JSON what was written in MessagePack, each behind a comma.
fn put_json(
    alloc: Global,
    octets: &[u8],
    has_kwargs: bool,
    out: &mut Appender,
) -> Result<(), AllocError>
    requires { AreWritten octets.now has_kwargs }
    ensures ok { OnOk result (out.new.since ≡ out.old.since
        ++ further Json (last_items (written_in octets.now has_kwargs).args
        (written_in octets.now has_kwargs).kwargs)) }
    ensures before { out.new.before ≡ out.old.before }
{
    let rest = put_one_json(alloc, octets, out)?;
    if has_kwargs {
        put_one_json(alloc, rest, out)?;
    }
    Ok(())
}

/// Writes a tree at the end of a message, behind a separator.
fn put_tree(
    alloc: Global,
    serializer: Serializer,
    content: &Content,
    out: &mut Appender,
) -> Result<(), Fault>
    requires { is_carried content.now ≡ true }
    ensures ok { OnOk result (out.new.since ≡ out.old.since ++ further_one serializer content.now) }
    ensures spelled { OnOk result (has_spelling_one serializer content.now ≡ true) }
    ensures unspelled { result ≡ Err Fault.TooLong
        → has_spelling_one serializer content.now ≡ false }
    ensures before { out.new.before ≡ out.old.before }
    ensures fault { IfErr result (λ f. (f ≡ Fault.NoMemory) ⊎ (f ≡ Fault.TooLong)) }
{
    match serializer {
        Serializer::Json => {
            out.put(b',')?;
            Ok(json_codec::encode_into(alloc, content.tree(), out)?)
        }
        Serializer::MsgPack => match msgpack_codec::encode_into(content.tree(), out) {
            Ok(()) => Ok(()),
            Err(msgpack_codec::Fault::NoMemory) => Err(Fault::NoMemory),
            Err(_) => Err(Fault::TooLong),
        },
    }
}

/// Writes a tree at the end of a message, where there is one.
fn put_tree_if_any(
    alloc: Global,
    serializer: Serializer,
    content: &Option<Content>,
    out: &mut Appender,
) -> Result<(), Fault>
    requires { is_carried_if_any content.now ≡ true }
    ensures ok { OnOk result (out.new.since ≡ out.old.since
        ++ further_if_any serializer content.now) }
    ensures spelled { OnOk result (has_spelling_if_any serializer content.now ≡ true) }
    ensures unspelled { result ≡ Err Fault.TooLong
        → has_spelling_if_any serializer content.now ≡ false }
    ensures before { out.new.before ≡ out.old.before }
    ensures fault { IfErr result (λ f. (f ≡ Fault.NoMemory) ⊎ (f ≡ Fault.TooLong)) }
{
    match content {
        None => Ok(()),
        Some(content) => put_tree(alloc, serializer, content, out),
    }
}

impl HeldArguments {
    /// Their octets in MessagePack, where they are held.
    pub(crate) fn octets(&self) -> Option<&[u8]>
        requires { IsGiven self.now }
        ensures { IfSome result (λ octets. IsEnding MsgPack (arguments_in self.now) octets.now) }
    {
        match self {
            HeldArguments::Trees { .. } | HeldArguments::Spelled { .. } => None,
            HeldArguments::Written { octets, .. } => Some(octets.as_slice()),
        }
    }

    /// Writes them at the end of a message, each behind a separator.
    pub(crate) fn put(
        &self,
        alloc: Global,
        serializer: Serializer,
        out: &mut Appender,
    ) -> Result<(), Fault>
        requires given { IsGiven self.now }
        requires carried { is_all_carried (arguments_in self.now) ≡ true }
        ensures ok { OnOk result (out.new.since ≡ out.old.since
            ++ further serializer (last_items (arguments_in self.now).args
            (arguments_in self.now).kwargs)) }
        ensures spelled { OnOk result (items_have_spelling serializer
            (last_items (arguments_in self.now).args (arguments_in self.now).kwargs) ≡ true) }
        ensures unspelled { result ≡ Err Fault.TooLong → items_have_spelling serializer
            (last_items (arguments_in self.now).args (arguments_in self.now).kwargs) ≡ false }
        ensures before { out.new.before ≡ out.old.before }
        ensures fault { IfErr result (λ f. (f ≡ Fault.NoMemory) ⊎ (f ≡ Fault.TooLong)) }
    {
        match self {
            HeldArguments::Trees { args, kwargs } => {
                put_tree(alloc, serializer, args, out)?;
                put_tree_if_any(alloc, serializer, kwargs, out)
            }
            HeldArguments::Written { octets, has_kwargs } => match serializer {
                Serializer::Json => Ok(put_json(alloc, octets.as_slice(), *has_kwargs, out)?),
                Serializer::MsgPack => Ok(out.put_all(octets.as_slice())?),
            },
            HeldArguments::Spelled { .. } => unreachable!(),
        }
    }
}

/// What arguments are at the end of a message in JSON, unless something in them is uncarried, or a
/// growth is refused.
pub(crate) fn json_ending(alloc: Global, given: &HeldArguments) -> Option<Octets>
    requires { IsGiven given.now }
    ensures { IfSome result (λ octets. IsEnding Json (arguments_in given.now) octets) }
{
    if !given.is_carried() {
        return None;
    }
    let len = given.octets().map_or(0, |octets| octets.len());
    let Ok(mut out) = buffer(alloc, len.saturating_add(ROOM)) else {
        return None;
    };
    match given.put(alloc, Serializer::Json, &mut out) {
        Ok(()) => Some(Octets::from_vec(out.into_vec())),
        Err(_) => None,
    }
}
