//! Heads of values, each the shortest.
ghost use Rattle.std.specs.Prelude.{◌≡◌, ◌<◌, ◌^◌, ◌≤◌, ◌+◌, ◌∷◌, [], ◌++◌, length, take, drop, true, OnOk, IfOk};
ghost use Rattle.std.specs.Int.{w32, to_be_bytes};
ghost use Rattle.message_tree.specs.Data.{fits_codecs};
ghost use Rattle.msgpack_codec.specs.Short.{text_head, bytes_head, list_head, dict_head, whole_short, from_zero, below_zero};
ghost use Rattle.json_to_msgpack.specs.body.Heads.{counted};

use crate::refusal::TextRefusal;
use std::alloc::Global;

/// Writes one octet at the end.
#[inline(always)]
pub(crate) fn put(octet: u8, out: &mut Vec<u8>) -> Result<(), TextRefusal>
    ensures { OnOk result (out.new.items ≡ out.old.items ++ octet ∷ []) }
{
    match out.push(octet) {
        Ok(()) => Ok(()),
        Err(_) => Err(TextRefusal::NoMemory),
    }
}

/// Writes octets at the end.
#[inline(always)]
pub(crate) fn put_all(octets: &[u8], out: &mut Vec<u8>) -> Result<(), TextRefusal>
    ensures { OnOk result (out.new.items ≡ out.old.items ++ octets.now) }
{
    match out.extend_from_slice(octets) {
        Ok(()) => Ok(()),
        Err(_) => Err(TextRefusal::NoMemory),
    }
}

/// Writes an octet and the four of a number at the end, with one look at the room.
#[inline(always)]
fn put_five(first: u8, number: u32, out: &mut Vec<u8>) -> Result<(), TextRefusal>
    ensures { OnOk result (out.new.items ≡ out.old.items ++ (first ∷ to_be_bytes w32 number)) }
{
    let octets = number.to_be_bytes();
    out.reserve(5)?;
    out.push_reserved(first);
    out.push_reserved(octets[0]);
    out.push_reserved(octets[1]);
    out.push_reserved(octets[2]);
    out.push_reserved(octets[3]);
    Ok(())
}

/// The head of a text of so many octets.
#[inline(always)]
#[tactic(auto, unfolding(msgpack_codec::specs::Short::text_head))]
pub(crate) fn put_text_head(len: usize, out: &mut Vec<u8>) -> Result<(), TextRefusal>
    requires { len < 2 ^ 32 }
    ensures { OnOk result (out.new.items ≡ out.old.items ++ text_head len) }
{
    if len < 32 {
        put(0xa0 + len as u8, out)
    } else {
        put_long_text_head(len, out)
    }
}

/// The same of 32 octets or more.
#[inline(never)]
#[tactic(auto, unfolding(msgpack_codec::specs::Short::text_head))]
fn put_long_text_head(len: usize, out: &mut Vec<u8>) -> Result<(), TextRefusal>
    requires { (32 ≤ len) × (len < 2 ^ 32) }
    ensures { OnOk result (out.new.items ≡ out.old.items ++ text_head len) }
{
    if len < 0x100 {
        put_all(&[0xd9, len as u8], out)
    } else if len < 0x1_0000 {
        put(0xda, out)?;
        put_all(&(len as u16).to_be_bytes(), out)
    } else {
        put(0xdb, out)?;
        put_all(&(len as u32).to_be_bytes(), out)
    }
}

/// The head of a byte string of so many octets.
#[tactic(auto, unfolding(msgpack_codec::specs::Short::bytes_head))]
pub(crate) fn put_bytes_head(len: usize, out: &mut Vec<u8>) -> Result<(), TextRefusal>
    requires { len < 2 ^ 32 }
    ensures { OnOk result (out.new.items ≡ out.old.items ++ bytes_head len) }
{
    if len < 0x100 {
        put_all(&[0xc4, len as u8], out)
    } else if len < 0x1_0000 {
        put(0xc5, out)?;
        put_all(&(len as u16).to_be_bytes(), out)
    } else {
        put(0xc6, out)?;
        put_all(&(len as u32).to_be_bytes(), out)
    }
}

/// A number from 0.
#[inline(always)]
#[tactic(auto, unfolding(msgpack_codec::specs::Short::from_zero))]
pub(crate) fn put_from_zero(number: u64, out: &mut Vec<u8>) -> Result<(), TextRefusal>
    ensures { OnOk result (out.new.items ≡ out.old.items ++ from_zero number) }
{
    if number < 0x80 {
        put(number as u8, out)
    } else {
        put_from_128(number, out)
    }
}

/// A number from 128.
#[inline(never)]
#[tactic(auto, unfolding(msgpack_codec::specs::Short::from_zero))]
fn put_from_128(number: u64, out: &mut Vec<u8>) -> Result<(), TextRefusal>
    requires { 128 ≤ number }
    ensures { OnOk result (out.new.items ≡ out.old.items ++ from_zero number) }
{
    if number < 0x100 {
        put_all(&[0xcc, number as u8], out)
    } else if number < 0x1_0000 {
        put(0xcd, out)?;
        put_all(&(number as u16).to_be_bytes(), out)
    } else if number < 0x1_0000_0000 {
        put_five(0xce, number as u32, out)
    } else {
        put(0xcf, out)?;
        put_all(&number.to_be_bytes(), out)
    }
}

/// The number -(below + 1).
#[tactic(auto, unfolding(msgpack_codec::specs::Short::below_zero))]
fn put_below_zero(below: u64, out: &mut Vec<u8>) -> Result<(), TextRefusal>
    requires { below < 2 ^ 63 }
    ensures { OnOk result (out.new.items ≡ out.old.items ++ below_zero below) }
{
    if below < 0x20 {
        put(0xff - below as u8, out)
    } else if below < 0x80 {
        put_all(&[0xd0, 0xff - below as u8], out)
    } else if below < 0x8000 {
        put(0xd1, out)?;
        put_all(&(0xffff - below as u16).to_be_bytes(), out)
    } else if below < 0x8000_0000 {
        put(0xd2, out)?;
        put_all(&(0xffff_ffff - below as u32).to_be_bytes(), out)
    } else {
        put(0xd3, out)?;
        put_all(&(u64::MAX - below).to_be_bytes(), out)
    }
}

/// A whole number.
#[inline(always)]
pub(crate) fn put_whole_short(number: i128, out: &mut Vec<u8>) -> Result<(), TextRefusal>
    requires { fits_codecs number ≡ true }
    ensures { OnOk result (out.new.items ≡ out.old.items ++ whole_short number) }
{
    if number < 0 {
        put_below_zero((-1 - number) as u64, out)
    } else {
        put_from_zero(number as u64, out)
    }
}

/// Cuts off what stands behind a place and the octet there, which is dropped, and gives it back.
fn cut(alloc: Global, at: usize, out: &mut Vec<u8>) -> Result<Vec<u8>, TextRefusal>
    requires { at < length out.old.items }
    ensures { IfOk result (λ body. (body.items ≡ drop (at + 1) out.old.items)
        × (out.new.items ≡ take at out.old.items)) }
{
    let mut body = Vec::new(alloc);
    put_all(&out[at + 1..], &mut body)?;
    out.truncate(at);
    Ok(body)
}

/// Writes null in place of all that stands from `head` on.
pub(crate) fn put_null_at(head: usize, out: &mut Vec<u8>)
    requires { head < length out.old.items }
    ensures { out.new.items ≡ take head out.old.items ++ 0xc0 ∷ [] }
{
    out.truncate(head + 1);
    out[head] = 0xc0;
}

/// Writes the head of a list of so many members, whose members stand behind the octet at `head`, in
/// place of this octet.
#[inline(always)]
#[tactic(auto, unfolding(msgpack_codec::specs::Short::list_head))]
pub(crate) fn close_list(
    alloc: Global,
    head: usize,
    count: u32,
    out: &mut Vec<u8>,
) -> Result<(), TextRefusal>
    requires { head < length out.old.items }
    ensures items { OnOk result (out.new.items
        ≡ take head out.old.items ++ (list_head count ++ drop (head + 1) out.old.items)) }
    ensures fits { count < 2 ^ 32 }
{
    if count < 16 {
        out[head] = 0x90 + count as u8;
        Ok(())
    } else {
        close_counted(alloc, head, 0xdc, count, out)
    }
}

/// Writes the head of a dictionary of so many members, which stand behind the octet at `head`, in
/// place of this octet.
#[inline(always)]
#[tactic(auto, unfolding(msgpack_codec::specs::Short::dict_head))]
pub(crate) fn close_dict(
    alloc: Global,
    head: usize,
    count: u32,
    out: &mut Vec<u8>,
) -> Result<(), TextRefusal>
    requires { head < length out.old.items }
    ensures items { OnOk result (out.new.items
        ≡ take head out.old.items ++ (dict_head count ++ drop (head + 1) out.old.items)) }
    ensures fits { count < 2 ^ 32 }
{
    if count < 16 {
        out[head] = 0x80 + count as u8;
        Ok(())
    } else {
        close_counted(alloc, head, 0xde, count, out)
    }
}

/// Writes a count behind a mark, in two octets, or in four behind the next mark, in place of the octet at
/// `head`. What stands behind it is moved.
#[inline(never)]
fn close_counted(
    alloc: Global,
    head: usize,
    mark: u8,
    count: u32,
    out: &mut Vec<u8>,
) -> Result<(), TextRefusal>
    requires { (head < length out.old.items) × (mark < 255) }
    ensures { OnOk result (out.new.items
        ≡ take head out.old.items ++ (counted mark count ++ drop (head + 1) out.old.items)) }
{
    let body = cut(alloc, head, out)?;
    if count < 0x1_0000 {
        put(mark, out)?;
        put_all(&(count as u16).to_be_bytes(), out)?;
    } else {
        put(mark + 1, out)?;
        put_all(&count.to_be_bytes(), out)?;
    }
    put_all(&body, out)
}
