//! Reading one option of a dictionary: its tree is written as a message has it, and read there.
ghost use Rattle.std.specs.Prelude.{◌≡◌, IfOk, OnErr, IfErr, Some, None};
ghost use Rattle.message_tree.specs.Data.{Data, find_entry};
ghost use Rattle.message_tree.specs.View.{view, dict_view};
ghost use Rattle.msgpack_codec.specs.Grammar.{Spells};
ghost use Rattle.eligibility.specs.Options.{flag_or, list_or_none, number_of, text_of};

use crate::fault::Fault;
use crate::numbers::Numbers;
use crate::options::{numbers_of, texts_of};
use crate::texts::Texts;
use message_tree::{Appender, Dict, MAX_DEPTH, Tree};
use msgpack_codec::encode_into;
use msgpack_cursor::{Value, message};
use std::alloc::Global;

/// A flag, or `absent` where none is given.
pub(crate) fn flag_at(options: &Dict, key: &str, absent: bool) -> Result<bool, Fault>
    ensures ok { IfOk result (λ b. flag_or absent (find_entry key.now (dict_view options.now))
        ≡ Some b) }
    ensures bad { OnErr result (flag_or absent (find_entry key.now (dict_view options.now))
        ≡ None) }
    ensures fault { IfErr result (λ fault. fault ≡ Fault.Shape) }
{
    match options.get(key) {
        None => Ok(absent),
        Some(Tree::Null) => Ok(absent),
        Some(Tree::Flag(flag)) => Ok(*flag),
        Some(_) => Err(Fault::Shape),
    }
}

/// The numbers that an option lists, where it does.
pub(crate) fn numbers_at(alloc: Global, options: &Dict, key: &str) -> Result<Option<Numbers>, Fault>
    ensures ok { IfOk result (λ r.
        list_or_none number_of (find_entry key.now (dict_view options.now)) ≡ Some r) }
    ensures bad { result ≡ Err Fault.Shape
        → list_or_none number_of (find_entry key.now (dict_view options.now)) ≡ None }
{
    let Some(tree) = options.get(key) else {
        return Ok(None);
    };
    let octets = spelled(alloc, tree)?;
    numbers_of(alloc, &Some(standing(&octets)))
}

/// The texts that an option lists, where it does.
pub(crate) fn texts_at(alloc: Global, options: &Dict, key: &str) -> Result<Option<Texts>, Fault>
    ensures ok { IfOk result (λ r. list_or_none text_of (find_entry key.now (dict_view options.now))
        ≡ Some r) }
    ensures bad { result ≡ Err Fault.Shape
        → list_or_none text_of (find_entry key.now (dict_view options.now)) ≡ None }
{
    let Some(tree) = options.get(key) else {
        return Ok(None);
    };
    let octets = spelled(alloc, tree)?;
    texts_of(alloc, &Some(standing(&octets)))
}

/// The octets of a tree. One that isn't carried, or nests too deep, is no list of numbers or texts.
fn spelled(alloc: Global, tree: &Tree) -> Result<Vec<u8>, Fault>
    ensures ok { IfOk result (λ octets. Spells 100 octets.items (view tree.now)) }
    ensures no_numbers { result ≡ Err Fault.Shape
        → list_or_none number_of (Some (view tree.now)) ≡ None }
    ensures no_texts { result ≡ Err Fault.Shape
        → list_or_none text_of (Some (view tree.now)) ≡ None }
{
    if !tree.is_carried() || tree.depth() > MAX_DEPTH {
        return Err(Fault::Shape);
    }
    let mut out = Appender::new(Vec::new(alloc));
    match encode_into(tree, &mut out) {
        Ok(()) => Ok(out.into_vec()),
        Err(_) => Err(Fault::NoMemory),
    }
}

/// The value that the octets are.
fn standing(octets: &[u8]) -> Value<'_>
    requires { (d : Data) × Spells 100 octets.now d }
    ensures { (d : Data) → Spells 100 octets.now d → result ≡ d }
{
    match message(octets) {
        Ok(value) => value,
        Err(_) => unreachable!(),
    }
}
