//! From a message to JSON text, written as `serde_json` writes.
ghost use Rattle.std.specs.Prelude.{pos, ◌≡◌, ◌≤◌, ◌++◌, ◌⊎◌, IfOk, IfErr, OnOk, OnErr, true, false};
ghost use Rattle.json.specs.Tree.{json_tokens, items_tokens, members_tokens};
ghost use Rattle.serde_json.specs.Written.{outline, items_outline, members_outline};
ghost use Rattle.message_tree.specs.Data.{IsSound, depth, is_carried, items_carried, entries_carried, fits_codecs, whole, text, bytes as bytes_data};
ghost use Rattle.message_tree.specs.View.{view, dict_view, items_view};
ghost use Rattle.message_tree.specs.Meaning.{meaning};
ghost use Rattle.json_codec.specs.Decoder.{Reads};
ghost use Rattle.json_codec.specs.Encoder.{value_of, items_value, entries_value, json_text, has_plain_texts};

use crate::fault::Fault;
use crate::quoting::put_short;
use base64::engine::general_purpose::STANDARD;
use itoa::Buffer;
use json::Writer;
use message_tree::{Appender, Dict, Message, Tree};
use std::alloc::{AllocError, Global};

/// The compact JSON text of a message (RFC 8259): no white space, the keys in ascending bytes. A
/// byte string is written as a string of U+0000 and its padded base64 (RFC 4648, section 4).
///
/// The text is written straight from the tree: no string is copied but the base64 of bytes.
///
/// # Errors
/// [`Fault::UncarriedLeaf`] exactly where the message isn't carried; [`Fault::NoMemory`] where a
/// growth was refused.
pub fn encode(alloc: Global, message: &Message) -> Result<Vec<u8>, Fault>
    ensures text { IfOk result (λ b. b.items ≡ json_text (meaning message.now)) }
    ensures carried { OnOk result (is_carried (meaning message.now) ≡ true) }
    ensures reads_back { IfOk result (λ b. has_plain_texts (meaning message.now) ≡ true
        → Reads b.items (meaning message.now)) }
    ensures uncarried { IfErr result
        (λ e. e ≡ Fault.UncarriedLeaf → is_carried (meaning message.now) ≡ false) }
    ensures fault { IfErr result (λ e. (e ≡ Fault.NoMemory) ⊎ (e ≡ Fault.UncarriedLeaf)) }
{
    if !message.is_carried() {
        return Err(Fault::UncarriedLeaf);
    }
    Ok(text_of(alloc, message.tree())?)
}

/// The compact JSON text of a carried tree.
fn text_of(alloc: Global, tree: &Tree) -> Result<Vec<u8>, AllocError>
    requires carried { is_carried (view tree.now) ≡ true }
    ensures ok { IfOk result (λ b. b.items ≡ json_text (view tree.now)) }
    ensures reads_back { OnOk result (IsSound (view tree.now) → depth (view tree.now) ≤ 100
        → has_plain_texts (view tree.now) ≡ true
        → Reads (json_text (view tree.now)) (view tree.now)) }
{
    let mut out = Writer::new(Vec::with_capacity(alloc, 128)?);
    write_tree(alloc, tree, &mut out)?;
    Ok(out.into_inner())
}

/// Writes the compact JSON text of a carried tree at the end, as [`encode`] does, with no walk before.
///
/// The text is made in a buffer of its own: a `Writer` that begins in a long one clears as many octets
/// ahead as stand there, up to 16,384.
///
/// # Errors
/// [`AllocError`] where a growth was refused; nothing is written then.
pub fn encode_into(alloc: Global, tree: &Tree, out: &mut Appender) -> Result<(), AllocError>
    requires carried { is_carried (view tree.now) ≡ true }
    ensures ok { OnOk result (out.new.since ≡ out.old.since ++ json_text (view tree.now)) }
    ensures reads_back { OnOk result (IsSound (view tree.now) → depth (view tree.now) ≤ 100
        → has_plain_texts (view tree.now) ≡ true
        → Reads (json_text (view tree.now)) (view tree.now)) }
    ensures err { OnErr result (out.new.since ≡ out.old.since) }
    ensures before { out.new.before ≡ out.old.before }
{
    let text = text_of(alloc, tree)?;
    out.put_all(&text)
}

/// Writes a whole number at the end, as [`encode_into`] does.
///
/// # Errors
/// [`AllocError`] where a growth was refused; nothing is written then.
pub fn encode_number_into(number: u64, out: &mut Appender) -> Result<(), AllocError>
    ensures ok { OnOk result (out.new.since ≡ out.old.since ++ json_text (whole (pos number))) }
    ensures err { OnErr result (out.new.since ≡ out.old.since) }
    ensures before { out.new.before ≡ out.old.before }
{
    let mut buffer = Buffer::new();
    out.put_all(buffer.format(number).as_bytes())
}

/// Writes a text at the end, as [`encode_into`] does.
///
/// # Errors
/// [`AllocError`] where a growth was refused; nothing is written then.
pub fn encode_text_into(alloc: Global, of: &str, out: &mut Appender) -> Result<(), AllocError>
    ensures ok { OnOk result (out.new.since ≡ out.old.since ++ json_text (text of.now)) }
    ensures err { OnErr result (out.new.since ≡ out.old.since) }
    ensures before { out.new.before ≡ out.old.before }
{
    if put_short(of.as_bytes(), out)? {
        return Ok(());
    }
    let string = string_of(alloc, of)?;
    out.put_all(&string)
}

/// A text as a JSON string.
fn string_of(alloc: Global, of: &str) -> Result<Vec<u8>, AllocError>
    ensures { IfOk result (λ b. b.items ≡ json_text (text of.now)) }
{
    let mut out = Writer::new(Vec::with_capacity(alloc, 128)?);
    out.string(of)?;
    Ok(out.into_inner())
}

#[cycle(write)]
fn write_tree(alloc: Global, tree: &Tree, out: &mut Writer) -> Result<(), AllocError>
    requires { is_carried (view tree.now) ≡ true }
    ensures ok { OnOk result
        (out.new.tokens ≡ out.old.tokens ++ json_tokens (outline (value_of (view tree.now)))) }
    ensures before { out.new.before ≡ out.old.before }
{
    match tree {
        Tree::Null => out.null(),
        Tree::Flag(flag) => out.boolean(*flag),
        Tree::Whole(number) => write_whole(*number, out),
        Tree::Text(text) => out.string(text.as_str()),
        Tree::Bytes(bytes) => write_bytes(alloc, bytes, out),
        Tree::List(items) => {
            out.begin_array()?;
            write_items(alloc, items, out)
        }
        Tree::Dict(dict) => {
            out.begin_object()?;
            write_entries(alloc, dict, out)
        }
        Tree::Uncarried => unreachable!(),
    }
}

/// The items and the closing bracket.
#[cycle(write)]
fn write_items(alloc: Global, items: &Vec<Tree>, out: &mut Writer) -> Result<(), AllocError>
    requires { items_carried (items_view items.now.items) ≡ true }
    ensures ok { OnOk result (out.new.tokens ≡ out.old.tokens
        ++ items_tokens (items_outline (items_value (items_view items.now.items)))) }
    ensures before { out.new.before ≡ out.old.before }
{
    for item in items {
        write_tree(alloc, item, out)?;
    }
    out.end_array()
}

/// The entries and the closing brace.
#[cycle(write)]
fn write_entries(alloc: Global, dict: &Dict, out: &mut Writer) -> Result<(), AllocError>
    requires { entries_carried (dict_view dict.now) ≡ true }
    ensures ok { OnOk result (out.new.tokens ≡ out.old.tokens
        ++ members_tokens (members_outline (entries_value (dict_view dict.now)))) }
    ensures before { out.new.before ≡ out.old.before }
{
    for (key, value) in dict.iter() {
        out.key(key.as_str())?;
        write_tree(alloc, value, out)?;
    }
    out.end_object()
}

fn write_whole(number: i128, out: &mut Writer) -> Result<(), AllocError>
    requires { fits_codecs number ≡ true }
    ensures ok { OnOk result
        (out.new.tokens ≡ out.old.tokens ++ json_tokens (outline (value_of (whole number)))) }
    ensures before { out.new.before ≡ out.old.before }
{
    if number >= 0 {
        out.u64(number as u64)
    } else {
        out.i64(number as i64)
    }
}

fn write_bytes(alloc: Global, bytes: &[u8], out: &mut Writer) -> Result<(), AllocError>
    ensures ok { OnOk result (out.new.tokens ≡ out.old.tokens
        ++ json_tokens (outline (value_of (bytes_data bytes.now)))) }
    ensures before { out.new.before ≡ out.old.before }
{
    let mut text = String::from_str(alloc, "\0")?;
    STANDARD.encode_string(bytes, &mut text)?;
    out.string(text.as_str())
}
