//! Wildcards of few components, in tables by their shape: where they are empty, and about how long they are.
ghost use Rattle.std.specs.Prelude.{◌≡◌, ◌<◌, ◌≤◌, ◌&&◌, ◌==◌, ◌+◌, ◌*◌, ◌%◌, ℕ, List, [], drop, length, map, not, cond, nat_lt, true, false, Some, None, OnOk, OnErr, IfOk, IfSome};
ghost use Rattle.std.specs.Str.{bytes_eq};
ghost use Rattle.std.specs.BTreeMap.{get};
ghost use Rattle.std.specs.Ordering.{nat_cmp};
ghost use Rattle.wamp_ids.specs.Uri.{components};
ghost use Rattle.wamp_ids.specs.Pattern.{fits};
ghost use Rattle.subscription_index.specs.body.Found.{Adds};
ghost use Rattle.subscription_index.specs.body.Tables.{number_at};
ghost use Rattle.subscription_index.specs.body.Shapes.{AreDotless, HasEntries, digit_of, dotted, is_deep, mask_of, named, number_by_shape, shape_of, size_of};

use crate::parts::parts_of;
use crate::table::{self, TextNumbers};
use std::alloc::{AllocError, Global};
use std::collections::BTreeMap;
use wamp_ids::{Id, dot_in};

/// So many components a wildcard may have here.
const MOST_PARTS: usize = 8;

/// A text of fewer octets than the first of these is of size 0, and so on: a text of many octets is made only where a
/// wildcard of about as many is held.
const SIZES: usize = 4;

const SMALL: usize = 256;

const MIDDLE: usize = 4096;

const LARGE: usize = 65536;

/// A table for each shape that occurs.
pub(crate) type Shapes = BTreeMap<usize, TextNumbers>;

/// The digit where the component has octets, and 0 where it is empty.
fn digit_for(part: &[u8], digit: usize) -> usize
    ensures digit { result ≡ digit * digit_of part.now }
    ensures bounded { result ≤ digit }
{
    match part {
        [] => 0,
        _ => digit,
    }
}

/// Which components of a text aren't empty, as the binary digits of a number: the first is the lowest,
/// and a 1 stands above the last. `None` where it has more than 8.
pub(crate) fn mask_of(text: &[u8]) -> Option<usize>
    ensures mask { result ≡ cond (is_deep text.now) None (Some (mask_of (components text.now))) }
    ensures bounded { IfSome result (λ mask. mask < 512) }
{
    let mut rest = text;
    let mut mask = 0;
    let mut digit = 1;
    for _depth in 0..MOST_PARTS {
        match dot_in(rest) {
            None => return Some(mask + digit_for(rest, digit) + 2 * digit),
            Some(i) => {
                mask += digit_for(&rest[..i], digit);
                digit *= 2;
                rest = &rest[i + 1..];
            }
        }
    }
    None
}

/// About how long a text is: one of four sizes.
fn size_of(length: usize) -> usize
    ensures size { result ≡ size_of length }
    ensures bounded { result < 4 }
{
    if length < SMALL {
        0
    } else if length < MIDDLE {
        1
    } else if length < LARGE {
        2
    } else {
        3
    }
}

/// The shape of a wildcard; `None` where it has more than 8 components.
pub(crate) fn shape_of(text: &[u8]) -> Option<usize>
    ensures { result ≡ cond (is_deep text.now) None (Some (shape_of text.now)) }
{
    match mask_of(text) {
        None => None,
        Some(mask) => Some(SIZES * mask + size_of(text.len())),
    }
}

/// The number of the wildcard of this shape.
pub(crate) fn find(shapes: &Shapes, shape: usize, text: &[u8]) -> Option<Id>
    requires { shape ≡ shape_of text.now }
    ensures { result ≡ number_by_shape shapes.now text.now }
{
    match shapes.get(&shape) {
        None => None,
        Some(table) => table::find(table, text),
    }
}

/// Gives the wildcard of this shape this number.
pub(crate) fn put(
    shapes: &mut Shapes,
    alloc: Global,
    shape: usize,
    text: &[u8],
    number: Id,
) -> Result<(), AllocError>
    requires { shape ≡ shape_of text.now }
    ensures ok { OnOk result ((q : List ℕ)
        → number_by_shape shapes.new q
        ≡ cond (bytes_eq text.now q) (Some number) (number_by_shape shapes.old q)) }
    ensures err { OnErr result ((q : List ℕ)
        → number_by_shape shapes.new q ≡ number_by_shape shapes.old q) }
{
    match shapes.get_mut(&shape) {
        Some(table) => table::put(table, alloc, text, number),
        None => {
            let mut table = BTreeMap::new(alloc);
            table::put(&mut table, alloc, text, number)?;
            shapes.insert(shape, table)?;
            Ok(())
        }
    }
}

/// Takes the number of the wildcard of this shape away, and the shape's table where that is empty then.
pub(crate) fn take(shapes: &mut Shapes, shape: usize, text: &[u8])
    requires { shape ≡ shape_of text.now }
    ensures numbers { (q : List ℕ) → number_by_shape shapes.new q ≡ cond (bytes_eq text.now q)
        None (number_by_shape shapes.old q) }
    ensures kept { HasEntries (get nat_cmp shapes.new shape) }
{
    if let Some(table) = shapes.get_mut(&shape) {
        table::take(table, text);
    }
    drop_empty(shapes, shape);
}

/// Takes the table of this shape away where it is empty.
fn drop_empty(shapes: &mut Shapes, shape: usize)
    ensures numbers { (q : List ℕ) → number_by_shape shapes.new q ≡ number_by_shape shapes.old q }
    ensures kept { HasEntries (get nat_cmp shapes.new shape) }
{
    if let Some(table) = shapes.get(&shape) {
        if table.is_empty() {
            shapes.remove(&shape);
        }
    }
}

/// The most octets of a text of this size; of the largest, as many as there may be.
fn longest_of(size: usize) -> usize
    ensures { result < 18446744073709551615
        → (length : ℕ) → size_of length ≡ size → length ≤ result }
{
    match size {
        0 => SMALL,
        1 => MIDDLE,
        2 => LARGE,
        _ => usize::MAX,
    }
}

/// The component where the mask's lowest digit is 1, and else an empty one.
fn named<'a>(part: &'a [u8], mask: usize) -> &'a [u8]
    ensures { result.now ≡ cond (mask % 2 == 1) part.now [] }
{
    if mask % 2 == 1 { part } else { &part[..0] }
}

fn is_longer(part: &[u8], most: usize) -> bool
    ensures longer { result ≡ nat_lt most (length part.now) }
    ensures limited { result ≡ true → most < 18446744073709551615 }
{
    part.len() > most
}

/// Makes a text of the components, each behind a dot, of which only those that aren't empty in the mask have
/// their octets. `false`, and not all of it, where one of these has more octets than so many.
fn fill(text: &mut Vec<u8>, parts: &[&[u8]], mask: usize, most: usize) -> Result<bool, AllocError>
    ensures whole { IfOk result (λ is_whole. is_whole ≡ true
        → text.new.items ≡ dotted (named mask (map (λ p. p.now) parts.now))) }
    ensures long { IfOk result (λ is_whole. is_whole ≡ false
        → (most < 18446744073709551615)
        × (most + 1 < length (dotted (named mask (map (λ p. p.now) parts.now))))) }
{
    text.clear();
    let mut left = mask;
    for place in 0..parts.len() {
        let part = named(parts[place], left);
        if is_longer(part, most) {
            return Ok(false);
        }
        text.push(b'.')?;
        text.extend_from_slice(part)?;
        left /= 2;
    }
    Ok(true)
}

/// Whether a text has this shape, and 8 components at most.
fn has_shape(text: &[u8], shape: usize) -> bool
    ensures { result ≡ (not (is_deep text.now) && shape_of text.now == shape) }
{
    match shape_of(text) {
        None => false,
        Some(own) => own == shape,
    }
}

/// The octets behind the first one.
fn behind_first(text: &[u8]) -> &[u8]
    ensures { result.now ≡ drop 1 text.now }
{
    if text.is_empty() { text } else { &text[1..] }
}

/// Adds the number of the only wildcard of this shape that may fit the components, where the table has it.
/// Only shapes whose mask has as many digits as the topic's are of as many components.
fn add_shaped(
    table: &TextNumbers,
    shape: usize,
    parts: &[&[u8]],
    topic_mask: usize,
    text: &mut Vec<u8>,
    numbers: &mut Vec<Id>,
) -> Result<(), AllocError>
    requires dotless { AreDotless (map (λ p. p.now) parts.now) }
    requires some { 1 ≤ length parts.now }
    requires few { length parts.now ≤ 8 }
    requires mask { topic_mask ≡ mask_of (map (λ p. p.now) parts.now) }
    ensures { OnOk result (Adds (number_at table.now)
        (λ q. shape_of q == shape && fits (components q) (map (λ p. p.now) parts.now))
        numbers.old.items numbers.new.items) }
{
    wamp_ids::laws::components_joined();
    let mask = shape / SIZES;
    if mask > topic_mask {
        return Ok(());
    }
    if mask <= topic_mask / 2 {
        return Ok(());
    }
    let is_whole = fill(text, parts, mask, longest_of(shape % SIZES))?;
    if !is_whole {
        return Ok(());
    }
    let wildcard = behind_first(text.as_slice());
    let Some(number) = table::find(table, wildcard) else {
        return Ok(());
    };
    if has_shape(wildcard, shape) {
        numbers.push(number)?;
    }
    Ok(())
}

/// Adds the numbers of the wildcards that fit the topic, of which this is the mask: one question for each
/// shape, however many wildcards have it.
pub(crate) fn add_fitting(
    shapes: &Shapes,
    alloc: Global,
    topic: &[u8],
    topic_mask: usize,
    numbers: &mut Vec<Id>,
) -> Result<(), AllocError>
    requires few { is_deep topic.now ≡ false }
    requires mask { topic_mask ≡ mask_of (components topic.now) }
    ensures { OnOk result (Adds (number_by_shape shapes.now)
        (λ q. fits (components q) (components topic.now)) numbers.old.items numbers.new.items) }
{
    wamp_ids::laws::components_joined();
    let parts = parts_of(alloc, topic)?;
    let mut text = Vec::new(alloc);
    let _ = shapes.len();
    for (shape, table) in shapes {
        add_shaped(table, *shape, &parts, topic_mask, &mut text, numbers)?;
    }
    Ok(())
}
