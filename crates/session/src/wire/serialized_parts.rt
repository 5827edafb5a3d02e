//! Values and parts of values in either serialization, written behind what a buffer held.
ghost use Rattle.std.specs.Prelude.{◌≡◌, ◌<◌, ◌++◌, ◌⊎◌, OnOk, IfErr, true, false};
ghost use Rattle.message_tree.specs.Data.{is_carried, flag, text};
ghost use Rattle.message_tree.specs.View.{view};
ghost use Rattle.session.specs.body.SerializedParts.{has_spelling, list_opening, list_closing, separator, dict_opening, dict_closing, key_text};
ghost use Rattle.session.specs.Serializer.{serialized};
ghost use Rattle.session.specs.ToClient.{number};

use crate::fault::Fault;
use message_tree::{Appender, Tree};
use rawsocket::Serializer;
use std::alloc::{AllocError, Global};

/// Writes a number at the end.
pub(crate) fn put_number(
    out: &mut Appender,
    serializer: Serializer,
    n: u64,
) -> Result<(), AllocError>
    ensures ok { OnOk result (out.new.since ≡ out.old.since ++ serialized
        serializer (number n)) }
    ensures before { out.new.before ≡ out.old.before }
{
    match serializer {
        Serializer::Json => json_codec::encode_number_into(n, out),
        Serializer::MsgPack => msgpack_codec::encode_number_into(n, out),
    }
}

/// Writes a text at the end.
pub(crate) fn put_text(
    out: &mut Appender,
    alloc: Global,
    serializer: Serializer,
    of: &str,
) -> Result<(), Fault>
    ensures ok { OnOk result (out.new.since ≡ out.old.since ++ serialized
        serializer (text of.now)) }
    ensures before { out.new.before ≡ out.old.before }
    ensures spelled { OnOk result (has_spelling serializer (text of.now) ≡ true) }
    ensures unspelled { result ≡ Err Fault.TooLongForClient
        → has_spelling serializer (text of.now) ≡ false }
    ensures fault { IfErr result (λ f. (f ≡ Fault.NoMemory) ⊎ (f ≡ Fault.TooLongForClient)) }
{
    match serializer {
        Serializer::Json => Ok(json_codec::encode_text_into(alloc, of, out)?),
        Serializer::MsgPack => match msgpack_codec::encode_text_into(of, out) {
            Ok(()) => Ok(()),
            Err(msgpack_codec::Fault::NoMemory) => Err(Fault::NoMemory),
            Err(_) => Err(Fault::TooLongForClient),
        },
    }
}

/// Writes a carried tree at the end.
pub(crate) fn put_tree(
    out: &mut Appender,
    alloc: Global,
    serializer: Serializer,
    tree: &Tree,
) -> Result<(), Fault>
    requires { is_carried (view tree.now) ≡ true }
    ensures ok { OnOk result (out.new.since ≡ out.old.since ++ serialized
        serializer (view tree.now)) }
    ensures before { out.new.before ≡ out.old.before }
    ensures spelled { OnOk result (has_spelling serializer (view tree.now) ≡ true) }
    ensures unspelled { result ≡ Err Fault.TooLongForClient
        → has_spelling serializer (view tree.now) ≡ false }
    ensures fault { IfErr result (λ f. (f ≡ Fault.NoMemory) ⊎ (f ≡ Fault.TooLongForClient)) }
{
    match serializer {
        Serializer::Json => Ok(json_codec::encode_into(alloc, tree, out)?),
        Serializer::MsgPack => match msgpack_codec::encode_into(tree, out) {
            Ok(()) => Ok(()),
            Err(msgpack_codec::Fault::NoMemory) => Err(Fault::NoMemory),
            Err(_) => Err(Fault::TooLongForClient),
        },
    }
}

/// Opens a list of so many members.
#[tactic(auto, unfolding(msgpack_codec::specs::Short::list_head))]
pub(crate) fn open_list(
    out: &mut Appender,
    serializer: Serializer,
    count: u8,
) -> Result<(), AllocError>
    requires { count < 16 }
    ensures ok { OnOk result (out.new.since ≡ out.old.since ++ list_opening serializer
        count) }
    ensures before { out.new.before ≡ out.old.before }
{
    match serializer {
        Serializer::Json => out.put_all(b"["),
        Serializer::MsgPack => out.put_all(&[0x90 + count]),
    }
}

/// Separates two members.
pub(crate) fn separate(out: &mut Appender, serializer: Serializer) -> Result<(), AllocError>
    ensures ok { OnOk result (out.new.since ≡ out.old.since ++ separator serializer) }
    ensures before { out.new.before ≡ out.old.before }
{
    match serializer {
        Serializer::Json => out.put_all(b","),
        Serializer::MsgPack => Ok(()),
    }
}

/// Closes a list.
pub(crate) fn close_list(out: &mut Appender, serializer: Serializer) -> Result<(), AllocError>
    ensures ok { OnOk result (out.new.since ≡ out.old.since ++ list_closing serializer) }
    ensures before { out.new.before ≡ out.old.before }
{
    match serializer {
        Serializer::Json => out.put_all(b"]"),
        Serializer::MsgPack => Ok(()),
    }
}

/// Opens a dictionary of so many entries.
#[tactic(auto, unfolding(msgpack_codec::specs::Short::dict_head))]
pub(crate) fn open_dict(
    out: &mut Appender,
    serializer: Serializer,
    count: u8,
) -> Result<(), AllocError>
    requires { count < 16 }
    ensures ok { OnOk result (out.new.since ≡ out.old.since ++ dict_opening serializer
        count) }
    ensures before { out.new.before ≡ out.old.before }
{
    match serializer {
        Serializer::Json => out.put_all(b"{"),
        Serializer::MsgPack => out.put_all(&[0x80 + count]),
    }
}

/// Writes a short key, behind a separator where an entry stands before it.
pub(crate) fn put_key(
    out: &mut Appender,
    alloc: Global,
    serializer: Serializer,
    later: bool,
    key: &str,
) -> Result<(), AllocError>
    ensures ok { OnOk result (out.new.since ≡ out.old.since ++ key_text serializer later
        key.now) }
    ensures before { out.new.before ≡ out.old.before }
{
    match serializer {
        Serializer::Json => {
            if later {
                out.put_all(b",")?;
            }
            json_codec::encode_text_into(alloc, key, out)?;
            out.put_all(b":")
        }
        Serializer::MsgPack => {
            match msgpack_codec::encode_text_into(key, out) {
                Ok(()) => Ok(()),
                Err(_) => Err(AllocError),
            }
        }
    }
}

/// Writes the truth value true.
pub(crate) fn put_true(out: &mut Appender, serializer: Serializer) -> Result<(), AllocError>
    ensures ok { OnOk result (out.new.since ≡ out.old.since ++ serialized
        serializer (flag true)) }
    ensures before { out.new.before ≡ out.old.before }
{
    match serializer {
        Serializer::Json => out.put_all(b"true"),
        Serializer::MsgPack => out.put_all(&[0xc3]),
    }
}

/// Closes a dictionary.
pub(crate) fn close_dict(out: &mut Appender, serializer: Serializer) -> Result<(), AllocError>
    ensures ok { OnOk result (out.new.since ≡ out.old.since ++ dict_closing serializer) }
    ensures before { out.new.before ≡ out.old.before }
{
    match serializer {
        Serializer::Json => out.put_all(b"}"),
        Serializer::MsgPack => Ok(()),
    }
}
