//! From JSON text to a message: `serde_json` says what the text means, and its value becomes a tree.
ghost use Rattle.std.specs.Prelude.{◌≡◌, ◌≢◌, ◌≤◌, IfOk, IfErr, string_bytes};
ghost use Rattle.serde_json.specs.View.{view as value_view, number_view, items_view as values_view, members_view};
ghost use Rattle.message_tree.specs.Data.{depth};
ghost use Rattle.message_tree.specs.View.{view, dict_view, items_view};
ghost use Rattle.message_tree.specs.Meaning.{meaning};
ghost use Rattle.json_codec.specs.Decoder.{tree_of as tree_data, number_tree, string_tree, items_tree, members_tree, Reads, IsUnreadable, IsTooDeep};

use crate::fault::Fault;
use base64::DecodeAllocError;
use base64::engine::general_purpose::STANDARD;
use message_tree::{Dict, Message, Tree};
use serde_json::{Category, Map, Number, Value};
use std::alloc::{AllocError, Global};

/// The message that a JSON text is (RFC 8259).
///
/// A whole number from -2^63 to 2^64 - 1 is a `Whole`, every other number `Uncarried`. A string
/// that begins with U+0000 and goes on with the padded base64 of RFC 4648 is the `Bytes` that this
/// decodes to; every other string is a `Text`, and keys are always texts. The last of two equal
/// keys stands.
///
/// # Errors
/// [`Fault::TooDeep`] where the tree nests more than 100 levels; [`Fault::Malformed`] where the
/// octets are no JSON text, or one of more than 127 levels; [`Fault::NoMemory`] where a growth was
/// refused.
pub fn decode(alloc: Global, octets: &[u8]) -> Result<Message, Fault>
    ensures ok { IfOk result (λ m. Reads octets.now (meaning m)) }
    ensures shallow { IfOk result (λ m. depth (meaning m) ≤ 100) }
    ensures too_deep { IfErr result (λ e. e ≡ Fault.TooDeep → IsTooDeep octets.now) }
    ensures malformed { IfErr result (λ e. e ≡ Fault.Malformed → IsUnreadable octets.now) }
    ensures carried { IfErr result (λ e. e ≢ Fault.UncarriedLeaf) }
{
    let value = match Value::from_slice(alloc, octets) {
        Ok(value) => value,
        Err(error) => {
            return Err(match error.classify() {
                Category::Memory => Fault::NoMemory,
                _ => Fault::Malformed,
            });
        }
    };
    match Message::of(tree_of(alloc, value)?) {
        Ok(message) => Ok(message),
        Err((_, _tree)) => Err(Fault::TooDeep),
    }
}

/// Takes the value apart, so that its strings are moved.
#[cycle(tree)]
fn tree_of(alloc: Global, value: Value) -> Result<Tree, AllocError>
    ensures ok { IfOk result (λ t. view t ≡ tree_data (value_view value)) }
{
    match value {
        Value::Null => Ok(Tree::Null),
        Value::Bool(flag) => Ok(Tree::Flag(flag)),
        Value::Number(number) => Ok(tree_of_number(&number)),
        Value::String(text) => tree_of_string(alloc, text),
        Value::Array(items) => Ok(Tree::List(tree_of_items(alloc, items)?)),
        Value::Object(members) => Ok(Tree::Dict(tree_of_members(alloc, members)?)),
    }
}

#[cycle(tree)]
fn tree_of_items(alloc: Global, items: Vec<Value>) -> Result<Vec<Tree>, AllocError>
    ensures ok { IfOk result (λ v. items_view v.items ≡ items_tree (values_view items.items)) }
{
    let mut made = Vec::with_capacity(alloc, items.len())?;
    for item in items {
        made.push(tree_of(alloc, item)?)?;
    }
    Ok(made)
}

#[cycle(tree)]
fn tree_of_members(alloc: Global, members: Map<String, Value>) -> Result<Dict, AllocError>
    ensures ok { IfOk result (λ d. dict_view d ≡ members_tree (members_view members.entries)) }
{
    let mut made = Dict::new(alloc);
    for (key, member) in members {
        let value = tree_of(alloc, member)?;
        made.set(alloc, key, value)?;
    }
    Ok(made)
}

fn tree_of_number(number: &Number) -> Tree
    ensures { view result ≡ number_tree (number_view number.now) }
{
    match number.as_i128() {
        Some(whole) => Tree::Whole(whole),
        None => Tree::Uncarried,
    }
}

fn tree_of_string(alloc: Global, text: String) -> Result<Tree, AllocError>
    ensures ok { IfOk result (λ t. view t ≡ string_tree (string_bytes text)) }
{
    if let Some((0, rest)) = text.as_bytes().split_first() {
        match STANDARD.decode(alloc, rest) {
            Ok(bytes) => return Ok(Tree::Bytes(bytes)),
            Err(DecodeAllocError::OutOfMemory) => return Err(AllocError),
            Err(DecodeAllocError::DecodeError(_)) => {}
        }
    }
    Ok(Tree::Text(text))
}
