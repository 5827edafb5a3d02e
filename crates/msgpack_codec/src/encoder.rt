//! Messages to octets.
ghost use Rattle.std.specs.Prelude.{pos, ◌≡◌, ◌<◌, nat_lt, ◌^◌, ◌++◌, ◌⊎◌, length, IfOk, IfErr, OnOk, OnErr, true, false};
ghost use Rattle.message_tree.specs.Data.{is_carried, items_carried, entries_carried, fits_codecs, entry_count, whole, text};
ghost use Rattle.message_tree.specs.View.{view, dict_view, items_view};
ghost use Rattle.message_tree.specs.Meaning.{meaning};
ghost use Rattle.msgpack_codec.specs.Grammar.{Spells};
ghost use Rattle.msgpack_codec.specs.Short.{text_head, bytes_head, list_head, dict_head, whole_short, from_zero, below_zero, short, items_short, entries_short, item_count, has_short, items_have_short, entries_have_short};

use crate::fault::Fault;
use message_tree::{Appender, Dict, Message, Tree};
use std::alloc::{AllocError, Global};

/// MessagePack counts octets and members in four octets at most.
const LIMIT: usize = 0x1_0000_0000;

/// The head of a str of so many octets.
#[tactic(auto, unfolding(crate::specs::Short::text_head))]
fn put_text_head(out: &mut Appender, len: usize) -> Result<(), AllocError>
    requires { len < 2 ^ 32 }
    ensures ok { OnOk result (out.new.since ≡ out.old.since ++ text_head len) }
    ensures before { out.new.before ≡ out.old.before }
{
    if len < 32 {
        out.put(0xa0 + len as u8)?;
    } else if len < 0x100 {
        out.put_all(&[0xd9, len as u8])?;
    } else if len < 0x1_0000 {
        out.put(0xda)?;
        out.put_all(&(len as u16).to_be_bytes())?;
    } else {
        out.put(0xdb)?;
        out.put_all(&(len as u32).to_be_bytes())?;
    }
    Ok(())
}

/// The head of a bin of so many octets.
#[tactic(auto, unfolding(crate::specs::Short::bytes_head))]
fn put_bytes_head(out: &mut Appender, len: usize) -> Result<(), AllocError>
    requires { len < 2 ^ 32 }
    ensures ok { OnOk result (out.new.since ≡ out.old.since ++ bytes_head len) }
    ensures before { out.new.before ≡ out.old.before }
{
    if len < 0x100 {
        out.put_all(&[0xc4, len as u8])?;
    } else if len < 0x1_0000 {
        out.put(0xc5)?;
        out.put_all(&(len as u16).to_be_bytes())?;
    } else {
        out.put(0xc6)?;
        out.put_all(&(len as u32).to_be_bytes())?;
    }
    Ok(())
}

/// The head of an array of so many values.
#[tactic(auto, unfolding(crate::specs::Short::list_head))]
fn put_list_head(out: &mut Appender, len: usize) -> Result<(), AllocError>
    requires { len < 2 ^ 32 }
    ensures ok { OnOk result (out.new.since ≡ out.old.since ++ list_head len) }
    ensures before { out.new.before ≡ out.old.before }
{
    if len < 16 {
        out.put(0x90 + len as u8)?;
    } else if len < 0x1_0000 {
        out.put(0xdc)?;
        out.put_all(&(len as u16).to_be_bytes())?;
    } else {
        out.put(0xdd)?;
        out.put_all(&(len as u32).to_be_bytes())?;
    }
    Ok(())
}

/// The head of a map of so many pairs.
#[tactic(auto, unfolding(crate::specs::Short::dict_head))]
fn put_dict_head(out: &mut Appender, len: usize) -> Result<(), AllocError>
    requires { len < 2 ^ 32 }
    ensures ok { OnOk result (out.new.since ≡ out.old.since ++ dict_head len) }
    ensures before { out.new.before ≡ out.old.before }
{
    if len < 16 {
        out.put(0x80 + len as u8)?;
    } else if len < 0x1_0000 {
        out.put(0xde)?;
        out.put_all(&(len as u16).to_be_bytes())?;
    } else {
        out.put(0xdf)?;
        out.put_all(&(len as u32).to_be_bytes())?;
    }
    Ok(())
}

/// A number from 0.
#[tactic(auto, unfolding(crate::specs::Short::from_zero))]
fn put_from_zero(out: &mut Appender, number: u64) -> Result<(), AllocError>
    ensures ok { OnOk result (out.new.since ≡ out.old.since ++ from_zero number) }
    ensures before { out.new.before ≡ out.old.before }
{
    if number < 0x80 {
        out.put(number as u8)?;
    } else if number < 0x100 {
        out.put_all(&[0xcc, number as u8])?;
    } else if number < 0x1_0000 {
        out.put(0xcd)?;
        out.put_all(&(number as u16).to_be_bytes())?;
    } else if number < 0x1_0000_0000 {
        out.put(0xce)?;
        out.put_all(&(number as u32).to_be_bytes())?;
    } else {
        out.put(0xcf)?;
        out.put_all(&number.to_be_bytes())?;
    }
    Ok(())
}

/// The number -(below + 1).
#[tactic(auto, unfolding(crate::specs::Short::below_zero))]
fn put_below_zero(out: &mut Appender, below: u64) -> Result<(), AllocError>
    requires { below < 2 ^ 63 }
    ensures ok { OnOk result (out.new.since ≡ out.old.since ++ below_zero below) }
    ensures before { out.new.before ≡ out.old.before }
{
    if below < 0x20 {
        out.put(0xff - below as u8)?;
    } else if below < 0x80 {
        out.put_all(&[0xd0, 0xff - below as u8])?;
    } else if below < 0x8000 {
        out.put(0xd1)?;
        out.put_all(&(0xffff - below as u16).to_be_bytes())?;
    } else if below < 0x8000_0000 {
        out.put(0xd2)?;
        out.put_all(&(0xffff_ffff - below as u32).to_be_bytes())?;
    } else {
        out.put(0xd3)?;
        out.put_all(&(u64::MAX - below).to_be_bytes())?;
    }
    Ok(())
}

fn put_whole(out: &mut Appender, number: i128) -> Result<(), AllocError>
    requires { fits_codecs number ≡ true }
    ensures ok { OnOk result (out.new.since ≡ out.old.since ++ whole_short number) }
    ensures before { out.new.before ≡ out.old.before }
{
    if number < 0 {
        put_below_zero(out, (-1 - number) as u64)
    } else {
        put_from_zero(out, number as u64)
    }
}

fn put_text(out: &mut Appender, text: &str) -> Result<(), AllocError>
    requires { length text.now < 2 ^ 32 }
    ensures ok { OnOk result
        (out.new.since ≡ out.old.since ++ (text_head (length text.now) ++ text.now)) }
    ensures before { out.new.before ≡ out.old.before }
{
    put_text_head(out, text.len())?;
    out.put_all(text.as_bytes())?;
    Ok(())
}

fn put_bytes(out: &mut Appender, bytes: &[u8]) -> Result<(), AllocError>
    requires { length bytes.now < 2 ^ 32 }
    ensures ok { OnOk result
        (out.new.since ≡ out.old.since ++ (bytes_head (length bytes.now) ++ bytes.now)) }
    ensures before { out.new.before ≡ out.old.before }
{
    put_bytes_head(out, bytes.len())?;
    out.put_all(bytes)?;
    Ok(())
}

fn count(items: &Vec<Tree>) -> usize
    ensures { result ≡ item_count (items_view items.now.items) }
{
    items.as_slice().len()
}

fn is_short(text: &str) -> bool
    ensures { result ≡ nat_lt (length text.now) (2 ^ 32) }
{
    text.len() < LIMIT
}

/// Writes a carried tree at the end, as [`encode`] does, with no walk before.
///
/// # Errors
/// [`Fault::UncarriedLeaf`] where a text, byte string, list or dictionary in it, keys among the
/// texts, has 2^32 or more octets or members; [`Fault::NoMemory`] where a growth was refused. Some
/// of it may have been written then; what stood before stays.
#[cycle(write)]
pub fn encode_into(tree: &Tree, out: &mut Appender) -> Result<(), Fault>
    requires carried { is_carried (view tree.now) ≡ true }
    ensures ok { OnOk result (out.new.since ≡ out.old.since ++ short (view tree.now)) }
    ensures fits { OnOk result (has_short (view tree.now) ≡ true) }
    ensures unfit { result ≡ Err Fault.UncarriedLeaf → has_short (view tree.now) ≡ false }
    ensures before { out.new.before ≡ out.old.before }
    ensures fault { IfErr result (λ e. (e ≡ Fault.NoMemory) ⊎ (e ≡ Fault.UncarriedLeaf)) }
{
    match tree {
        Tree::Null => Ok(out.put(0xc0)?),
        Tree::Flag(true) => Ok(out.put(0xc3)?),
        Tree::Flag(false) => Ok(out.put(0xc2)?),
        Tree::Whole(number) => Ok(put_whole(out, *number)?),
        Tree::Text(text) => {
            if !is_short(text.as_str()) {
                return Err(Fault::UncarriedLeaf);
            }
            Ok(put_text(out, text.as_str())?)
        }
        Tree::Bytes(bytes) => {
            if bytes.len() >= LIMIT {
                return Err(Fault::UncarriedLeaf);
            }
            Ok(put_bytes(out, bytes.as_slice())?)
        }
        Tree::List(items) => {
            if count(items) >= LIMIT {
                return Err(Fault::UncarriedLeaf);
            }
            write_items(out, items)
        }
        Tree::Dict(dict) => {
            if dict.len() >= LIMIT {
                return Err(Fault::UncarriedLeaf);
            }
            write_entries(out, dict)
        }
        Tree::Uncarried => unreachable!(),
    }
}

#[cycle(write)]
fn write_items(out: &mut Appender, items: &Vec<Tree>) -> Result<(), Fault>
    requires few { item_count (items_view items.now.items) < 2 ^ 32 }
    requires carried { items_carried (items_view items.now.items) ≡ true }
    ensures ok { OnOk result (out.new.since ≡ out.old.since
        ++ (list_head (item_count (items_view items.now.items))
        ++ items_short (items_view items.now.items))) }
    ensures fits { OnOk result (items_have_short (items_view items.now.items) ≡ true) }
    ensures unfit { result ≡ Err Fault.UncarriedLeaf
        → items_have_short (items_view items.now.items) ≡ false }
    ensures before { out.new.before ≡ out.old.before }
    ensures fault { IfErr result (λ e. (e ≡ Fault.NoMemory) ⊎ (e ≡ Fault.UncarriedLeaf)) }
{
    put_list_head(out, count(items))?;
    for item in items {
        encode_into(item, out)?;
    }
    Ok(())
}

#[cycle(write)]
fn write_entries(out: &mut Appender, dict: &Dict) -> Result<(), Fault>
    requires few { entry_count (dict_view dict.now) < 2 ^ 32 }
    requires carried { entries_carried (dict_view dict.now) ≡ true }
    ensures ok { OnOk result (out.new.since ≡ out.old.since
        ++ (dict_head (entry_count (dict_view dict.now)) ++ entries_short (dict_view dict.now))) }
    ensures fits { OnOk result (entries_have_short (dict_view dict.now) ≡ true) }
    ensures unfit { result ≡ Err Fault.UncarriedLeaf
        → entries_have_short (dict_view dict.now) ≡ false }
    ensures before { out.new.before ≡ out.old.before }
    ensures fault { IfErr result (λ e. (e ≡ Fault.NoMemory) ⊎ (e ≡ Fault.UncarriedLeaf)) }
{
    put_dict_head(out, dict.len())?;
    for (key, tree) in dict.iter() {
        if !is_short(key.as_str()) {
            return Err(Fault::UncarriedLeaf);
        }
        put_text(out, key.as_str())?;
        encode_into(tree, out)?;
    }
    Ok(())
}

/// Writes a whole number at the end, as [`encode_into`] does.
///
/// # Errors
/// [`AllocError`] where a growth was refused. Some of it may have been written then; what stood
/// before stays.
pub fn encode_number_into(number: u64, out: &mut Appender) -> Result<(), AllocError>
    ensures ok { OnOk result (out.new.since ≡ out.old.since ++ short (whole (pos number))) }
    ensures before { out.new.before ≡ out.old.before }
{
    put_from_zero(out, number)
}

/// Writes a text at the end, as [`encode_into`] does.
///
/// # Errors
/// [`Fault::UncarriedLeaf`] where it has 2^32 or more octets; [`Fault::NoMemory`] where a growth was
/// refused. Some of it may have been written then; what stood before stays.
pub fn encode_text_into(of: &str, out: &mut Appender) -> Result<(), Fault>
    ensures ok { OnOk result (out.new.since ≡ out.old.since ++ short (text of.now)) }
    ensures fits { OnOk result (has_short (text of.now) ≡ true) }
    ensures unfit { result ≡ Err Fault.UncarriedLeaf → has_short (text of.now) ≡ false }
    ensures before { out.new.before ≡ out.old.before }
    ensures fault { IfErr result (λ e. (e ≡ Fault.NoMemory) ⊎ (e ≡ Fault.UncarriedLeaf)) }
{
    if !is_short(of) {
        return Err(Fault::UncarriedLeaf);
    }
    Ok(put_text(out, of)?)
}

/// The octets of a message: the shortest spelling of each value (MessagePack specification,
/// "Formats"), keys ascending by their bytes. They read back as the message.
///
/// # Errors
/// [`Fault::UncarriedLeaf`] where the message isn't carried, or a text, byte string, list or
/// dictionary in it, keys among the texts, has 2^32 or more octets or members;
/// [`Fault::NoMemory`] where a growth was refused.
pub fn encode(alloc: Global, message: &Message) -> Result<Vec<u8>, Fault>
    ensures short { IfOk result (λ v. v.items ≡ short (meaning message.now)) }
    ensures spelled { IfOk result (λ v. Spells 100 v.items (meaning message.now)) }
    ensures carried { OnOk result (is_carried (meaning message.now) ≡ true) }
    ensures fits { OnOk result (has_short (meaning message.now) ≡ true) }
    ensures uncarried { IfErr result (λ e. e ≡ Fault.UncarriedLeaf
        → (is_carried (meaning message.now) ≡ false)
        ⊎ (has_short (meaning message.now) ≡ false)) }
    ensures fault { IfErr result (λ e. (e ≡ Fault.NoMemory) ⊎ (e ≡ Fault.UncarriedLeaf)) }
{
    if !message.is_carried() {
        return Err(Fault::UncarriedLeaf);
    }
    let mut out = Appender::new(Vec::new(alloc));
    encode_into(message.tree(), &mut out)?;
    Ok(out.into_vec())
}
