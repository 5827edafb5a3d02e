//! Arguments and ArgumentsKw as they are read from the elements of a message.
ghost use Rattle.std.specs.Prelude.{◌≡◌, ◌≤◌, ◌⊎◌, IfOk, IfErr, OnOk, None, Some, ℕ, true};
ghost use Rattle.message_tree.specs.Data.{Data, depth};
ghost use Rattle.arguments.specs.Reading.{args_of, kwargs_of};
ghost use Rattle.msgpack_codec.specs.Grammar.{Spells};
ghost use Rattle.msgpack_codec.specs.Written.{IsShortest};
ghost use Rattle.msgpack_cursor.specs.Seen.{BeginsAs};
ghost use Rattle.arguments.specs.body.Parts.{AreValue, IsPartPut, IsPut, IsSpelledPut};

use crate::fault::Fault;
use message_tree::Appender;
use msgpack_canonical::canonicalize_value;
use msgpack_cursor::{Beginning, Seen, Value};
use std::alloc::Global;

/// What `encode` writes for a list without elements.
const EMPTY_LIST: u8 = 0x90;

/// What `encode` writes for a dictionary without entries.
const EMPTY_DICT: u8 = 0x80;

/// Writes the value that octets spell behind others, where it is carried.
#[inline(always)]
fn put_canonical(alloc: Global, octets: &[u8], room: u8, out: &mut Appender) -> Result<bool, Fault>
    requires { AreValue room octets.now }
    ensures ok { IfOk result (λ b. (d : Data) → Spells room octets.now d → depth d ≤ 99
        → IsPut d b out.old.since out.new.since) }
    ensures before { out.new.before ≡ out.old.before }
    ensures fault { IfErr result (λ f. f ≡ Fault.NoMemory) }
{
    Ok(canonicalize_value(alloc, octets, room, out)?)
}

/// Writes the value that octets spell as `encode` writes it, behind others.
fn put_shortest(octets: &[u8], out: &mut Appender) -> Result<(), Fault>
    ensures ok { OnOk result ((room : ℕ) (d : Data) → Spells room octets.now d
        → IsShortest octets.now d → depth d ≤ 99 → IsPut d true out.old.since out.new.since) }
    ensures before { out.new.before ≡ out.old.before }
    ensures fault { IfErr result (λ f. f ≡ Fault.NoMemory) }
{
    Ok(out.put_all(octets)?)
}

/// Writes a value behind others, where it is carried.
#[inline(always)]
fn put_value(alloc: Global, value: &Value, out: &mut Appender) -> Result<bool, Fault>
    requires { depth value.now ≤ 99 }
    ensures ok { IfOk result (λ b. IsPut value.now b out.old.since out.new.since) }
    ensures before { out.new.before ≡ out.old.before }
    ensures fault { IfErr result (λ f. f ≡ Fault.NoMemory) }
{
    let spelling = value.spelling();
    if spelling.is_shortest {
        put_shortest(spelling.octets, out)?;
        return Ok(true);
    }
    put_canonical(alloc, spelling.octets, spelling.room, out)
}

/// Writes Arguments, where they are carried.
pub(crate) fn put_args(alloc: Global, value: &Value, out: &mut Appender) -> Result<bool, Fault>
    requires { depth value.now ≤ 99 }
    ensures ok { IfOk result (λ b. IsPartPut (args_of value.now) b out.old.since out.new.since) }
    ensures before { out.new.before ≡ out.old.before }
    ensures shape { result ≡ Err Fault.Shape → args_of value.now ≡ None }
    ensures fault { IfErr result (λ f. (f ≡ Fault.NoMemory) ⊎ (f ≡ Fault.Shape)) }
{
    match value.beginning() {
        Beginning::Null => {
            out.put(EMPTY_LIST)?;
            Ok(true)
        }
        Beginning::List | Beginning::Uncarried => put_value(alloc, value, out),
        Beginning::Map => put_map_args(alloc, value, out),
        Beginning::Leaf => Err(Fault::Shape),
    }
}

/// Writes Arguments that begin as a map: they are of another kind, unless a key is no text.
#[inline(never)]
fn put_map_args(alloc: Global, value: &Value, out: &mut Appender) -> Result<bool, Fault>
    requires shallow { depth value.now ≤ 99 }
    requires begun { BeginsAs Beginning.Map value.now }
    ensures ok { IfOk result (λ b. IsPartPut (args_of value.now) b out.old.since out.new.since) }
    ensures before { out.new.before ≡ out.old.before }
    ensures shape { result ≡ Err Fault.Shape → args_of value.now ≡ None }
    ensures fault { IfErr result (λ f. (f ≡ Fault.NoMemory) ⊎ (f ≡ Fault.Shape)) }
{
    match value.seen() {
        Seen::Uncarried => put_value(alloc, value, out),
        _ => Err(Fault::Shape),
    }
}

/// Writes ArgumentsKw, where they are carried.
pub(crate) fn put_kwargs(alloc: Global, value: &Value, out: &mut Appender) -> Result<bool, Fault>
    requires { depth value.now ≤ 99 }
    ensures ok { IfOk result (λ b. IsPartPut (kwargs_of value.now) b out.old.since out.new.since) }
    ensures before { out.new.before ≡ out.old.before }
    ensures shape { result ≡ Err Fault.Shape → kwargs_of value.now ≡ None }
    ensures fault { IfErr result (λ f. (f ≡ Fault.NoMemory) ⊎ (f ≡ Fault.Shape)) }
{
    match value.beginning() {
        Beginning::Null => {
            out.put(EMPTY_DICT)?;
            Ok(true)
        }
        Beginning::Map | Beginning::Uncarried => put_value(alloc, value, out),
        Beginning::List | Beginning::Leaf => Err(Fault::Shape),
    }
}

/// Copies the octets that spell a value behind others.
fn put_spelling(value: &Value, out: &mut Appender) -> Result<(), Fault>
    ensures ok { OnOk result (IsSpelledPut (Some value.now) out.old.since out.new.since) }
    ensures before { out.new.before ≡ out.old.before }
    ensures fault { IfErr result (λ f. f ≡ Fault.NoMemory) }
{
    Ok(out.put_all(value.spelling().octets)?)
}

/// Writes Arguments behind others by octets that spell them, the same ones where they are no nil.
pub(crate) fn put_spelled_args(value: &Value, out: &mut Appender) -> Result<(), Fault>
    ensures ok { OnOk result (IsSpelledPut (args_of value.now) out.old.since out.new.since) }
    ensures before { out.new.before ≡ out.old.before }
    ensures shape { result ≡ Err Fault.Shape → args_of value.now ≡ None }
    ensures fault { IfErr result (λ f. (f ≡ Fault.NoMemory) ⊎ (f ≡ Fault.Shape)) }
{
    match value.seen() {
        Seen::Null => Ok(out.put(EMPTY_LIST)?),
        Seen::List(_) => put_spelling(value, out),
        Seen::Uncarried => put_spelling(value, out),
        _ => Err(Fault::Shape),
    }
}

/// Writes ArgumentsKw behind others by octets that spell them, the same ones where they are no nil.
pub(crate) fn put_spelled_kwargs(value: &Value, out: &mut Appender) -> Result<(), Fault>
    ensures ok { OnOk result (IsSpelledPut (kwargs_of value.now) out.old.since out.new.since) }
    ensures before { out.new.before ≡ out.old.before }
    ensures shape { result ≡ Err Fault.Shape → kwargs_of value.now ≡ None }
    ensures fault { IfErr result (λ f. (f ≡ Fault.NoMemory) ⊎ (f ≡ Fault.Shape)) }
{
    match value.seen() {
        Seen::Null => Ok(out.put(EMPTY_DICT)?),
        Seen::Dict(_) => put_spelling(value, out),
        Seen::Uncarried => put_spelling(value, out),
        _ => Err(Fault::Shape),
    }
}
