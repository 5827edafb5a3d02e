//! Items as octets, written straight from what they hold.
ghost use Rattle.std.specs.Prelude.{◌≡◌, ◌≤◌, ◌<◌, ◌+◌, ◌++◌, ◌⊎◌, length, take, OnOk, OnErr, IfErr, IfSome, Some, true, false};
ghost use Rattle.message_tree.specs.Data.{dict, item, no_items};
ghost use Rattle.msgpack_codec.specs.Short.{item_count};
ghost use Rattle.rawsocket.specs.Frames.{spelled};
ghost use Rattle.rawsocket.specs.declared.frame.Kind.TheVariants.{Message};
ghost use Rattle.rawsocket.specs.declared.handshake.Serializer.{Serializer};
ghost use Rattle.session.specs.ItemFrames.{frame_of, octets_of, Fits, IsSpelled, IsUnspelled, IsTooLong};
ghost use Rattle.arguments.specs.Endings.{IsEnding};
ghost use Rattle.session.specs.body.EventHead.{event_beginning};
ghost use Rattle.session.specs.body.SerializedParts.{has_spelling, items_have_spelling, list_opening, list_closing, further};
ghost use Rattle.session.specs.Serializer.{serialized};
ghost use Rattle.wamp_messages.specs.Arguments.{is_all_carried, last_items};
ghost use Rattle.session.specs.ToClient.{number, event, event_details, triple, unsubscribed, message_of};

use crate::fault::Fault;
use crate::messages::to_client::item_message;
use crate::wire::event_details::put_details;
use crate::wire::event_head::EventHead;
use crate::wire::serialized_parts::{close_list, open_list, put_number, put_tree, separate};
use arguments::CarriedArgs;
use message_tree::Appender;
use rawsocket::{Kind, Serializer, fill_header};
use std::alloc::{AllocError, Global};
use std::mem;
use wamp_ids::Id;
use wamp_messages::{Item, Publication};

/// Three numbers as the first elements of a list of so many.
fn put_numbers(
    out: &mut Appender,
    serializer: Serializer,
    count: u8,
    numbers: (u64, u64, u64),
) -> Result<(), AllocError>
    requires { count < 16 }
    ensures ok { OnOk result (out.new.since ≡ out.old.since ++ (list_opening serializer count
        ++ (serialized serializer (number numbers.0)
        ++ further serializer (item (number numbers.1) (item (number numbers.2) no_items))))) }
    ensures before { out.new.before ≡ out.old.before }
{
    open_list(out, serializer, count)?;
    put_number(out, serializer, numbers.0)?;
    separate(out, serializer)?;
    put_number(out, serializer, numbers.1)?;
    separate(out, serializer)?;
    put_number(out, serializer, numbers.2)
}

/// Arguments, each behind a separator.
fn put_tail(
    out: &mut Appender,
    alloc: Global,
    serializer: Serializer,
    carried: &CarriedArgs,
) -> Result<(), Fault>
    ensures ok { OnOk result (out.new.since ≡ out.old.since
        ++ further serializer (last_items carried.now.args carried.now.kwargs)) }
    ensures spelled { OnOk result
        (items_have_spelling serializer (last_items carried.now.args carried.now.kwargs) ≡ true) }
    ensures unspelled { result ≡ Err Fault.TooLongForClient
        → items_have_spelling serializer (last_items carried.now.args carried.now.kwargs) ≡ false }
    ensures before { out.new.before ≡ out.old.before }
    ensures fault { IfErr result (λ f. (f ≡ Fault.NoMemory) ⊎ (f ≡ Fault.TooLongForClient)) }
{
    Ok(carried.args().put(alloc, serializer, out)?)
}

/// What stands before the arguments of an EVENT.
pub(crate) fn put_beginning(
    out: &mut Appender,
    alloc: Global,
    serializer: Serializer,
    subscription: Id,
    made: &Publication,
    with_topic: bool,
    retained: bool,
) -> Result<(), Fault>
    ensures ok { OnOk result (out.new.since ≡ out.old.since ++ event_beginning serializer
        (4 + item_count (last_items made.now.args.args made.now.args.kwargs)) subscription
        made.now.id (dict (event_details made.now with_topic retained))) }
    ensures spelled { OnOk result
        (has_spelling serializer (dict (event_details made.now with_topic retained)) ≡ true) }
    ensures unspelled { result ≡ Err Fault.TooLongForClient
        → has_spelling serializer (dict (event_details made.now with_topic retained)) ≡ false }
    ensures before { out.new.before ≡ out.old.before }
    ensures fault { IfErr result (λ f. (f ≡ Fault.NoMemory) ⊎ (f ≡ Fault.TooLongForClient)) }
{
    let count = 4 + made.args.args().count();
    let numbers = (36, subscription.value(), made.id.value());
    put_numbers(out, serializer, count, numbers)?;
    separate(out, serializer)?;
    put_details(out, alloc, serializer, made, with_topic, retained)?;
    Ok(())
}

/// An EVENT.
fn put_event(
    out: &mut Appender,
    alloc: Global,
    serializer: Serializer,
    subscription: Id,
    made: &Publication,
    with_topic: bool,
    retained: bool,
) -> Result<(), Fault>
    ensures ok { OnOk result (out.new.since ≡ out.old.since
        ++ serialized serializer (event subscription made.now with_topic retained)) }
    ensures spelled { OnOk result
        (has_spelling serializer (event subscription made.now with_topic retained) ≡ true) }
    ensures unspelled { result ≡ Err Fault.TooLongForClient
        → has_spelling serializer (event subscription made.now with_topic retained) ≡ false }
    ensures before { out.new.before ≡ out.old.before }
    ensures fault { IfErr result (λ f. (f ≡ Fault.NoMemory) ⊎ (f ≡ Fault.TooLongForClient)) }
{
    put_beginning(
        out,
        alloc,
        serializer,
        subscription,
        made,
        with_topic,
        retained,
    )?;
    put_tail(out, alloc, serializer, &made.args)?;
    Ok(close_list(out, serializer)?)
}

/// PUBLISHED or SUBSCRIBED.
fn put_triple(
    out: &mut Appender,
    serializer: Serializer,
    kind: u64,
    request: Id,
    other: Id,
) -> Result<(), AllocError>
    ensures ok { OnOk result (out.new.since ≡ out.old.since
        ++ serialized serializer (triple kind request other)) }
    ensures spelled { has_spelling serializer (triple kind request other) ≡ true }
    ensures before { out.new.before ≡ out.old.before }
{
    let numbers = (kind, request.value(), other.value());
    put_numbers(out, serializer, 3, numbers)?;
    close_list(out, serializer)
}

/// The payload of an item's frame.
fn put_item(
    out: &mut Appender,
    alloc: Global,
    serializer: Serializer,
    item: &Item,
) -> Result<(), Fault>
    ensures ok { OnOk result (out.new.since ≡ out.old.since
        ++ (frame_of serializer item.now).payload) }
    ensures spelled { OnOk result (IsSpelled serializer (message_of item.now)) }
    ensures unspelled { result ≡ Err Fault.TooLongForClient
        → IsUnspelled serializer (message_of item.now) }
    ensures before { out.new.before ≡ out.old.before }
    ensures fault { IfErr result (λ f. (f ≡ Fault.NoMemory) ⊎ (f ≡ Fault.TooLongForClient)) }
{
    match item {
        Item::Event {
            subscription,
            publication,
            with_topic,
            retained,
        } => put_event(
            out,
            alloc,
            serializer,
            *subscription,
            publication.value(),
            *with_topic,
            *retained,
        ),
        Item::Published {
            request,
            publication,
        } => Ok(put_triple(out, serializer, 17, *request, *publication)?),
        Item::Subscribed {
            request,
            subscription,
        } => Ok(put_triple(out, serializer, 33, *request, *subscription)?),
        _ => put_message(out, alloc, serializer, item),
    }
}

/// The payload of an item's frame, by way of the item's message.
fn put_message(
    out: &mut Appender,
    alloc: Global,
    serializer: Serializer,
    item: &Item,
) -> Result<(), Fault>
    ensures ok { OnOk result (out.new.since ≡ out.old.since
        ++ (frame_of serializer item.now).payload) }
    ensures spelled { OnOk result (IsSpelled serializer (message_of item.now)) }
    ensures unspelled { result ≡ Err Fault.TooLongForClient
        → IsUnspelled serializer (message_of item.now) }
    ensures before { out.new.before ≡ out.old.before }
    ensures fault { IfErr result (λ f. (f ≡ Fault.NoMemory) ⊎ (f ≡ Fault.TooLongForClient)) }
{
    match item_message(alloc, item)? {
        Some(message) => put_tree(out, alloc, serializer, message.tree()),
        None => match item {
            Item::Pong(octets) => Ok(out.put_all(octets.as_slice())?),
            _ => unreachable!(),
        },
    }
}

/// Writes the payload of an item's frame at the end: its message in the serialization, or the octets
/// of a PONG.
///
/// # Errors
/// [`Fault::TooLongForClient`] where MessagePack has no spelling for the message; [`Fault::NoMemory`]
/// where a growth was refused. What was written stays as it was.
pub fn write_payload(
    alloc: Global,
    serializer: Serializer,
    item: &Item,
    out: &mut Vec<u8>,
) -> Result<(), Fault>
    ensures ok { OnOk result (out.new.items ≡ out.old.items
        ++ (frame_of serializer item.now).payload) }
    ensures spelled { OnOk result (IsSpelled serializer (message_of item.now)) }
    ensures err { OnErr result (out.new.items ≡ out.old.items) }
    ensures unspelled { result ≡ Err Fault.TooLongForClient
        → IsUnspelled serializer (message_of item.now) }
    ensures fault { IfErr result (λ f. (f ≡ Fault.NoMemory) ⊎ (f ≡ Fault.TooLongForClient)) }
{
    let mut appender = Appender::new(mem::replace(out, Vec::new(alloc)));
    match put_item(&mut appender, alloc, serializer, item) {
        Ok(()) => {
            *out = appender.into_vec();
            Ok(())
        }
        Err(fault) => {
            *out = appender.into_before();
            Err(fault)
        }
    }
}

/// The kind of an item's frame.
fn kind_of(item: &Item) -> Kind
    ensures { (s : Serializer) → result ≡ (frame_of s item.now).kind }
{
    match item {
        Item::Pong(_) => Kind::Pong,
        _ => Kind::Message,
    }
}

/// What the encoded arguments of a publication are at the end of its EVENT, where that names no publisher.
fn plain_tail(made: &Publication, serializer: Serializer) -> Option<&[u8]>
    ensures tail { IfSome result (λ octets. IsEnding serializer made.now.args octets.now) }
    ensures plain { IfSome result (λ _. made.now.disclosed ≡ false) }
{
    if made.disclosed {
        return None;
    }
    made.args.args().ending(serializer)
}

/// How many octets close a list.
fn closing_len(serializer: Serializer) -> usize
    ensures { result ≡ length (list_closing serializer) }
{
    match serializer {
        Serializer::Json => 1,
        Serializer::MsgPack => 0,
    }
}

/// Writes octets at the end, and the end of a list. Where a growth was refused some of them may stand there.
fn append(
    serializer: Serializer,
    head: &[u8],
    tail: &[u8],
    out: &mut Vec<u8>,
) -> Result<(), AllocError>
    ensures ok { OnOk result (out.new.items ≡ out.old.items
        ++ (head.now ++ (tail.now ++ list_closing serializer))) }
    ensures before { take (length out.old.items) out.new.items ≡ out.old.items }
{
    out.extend_from_slice(head)?;
    out.extend_from_slice(tail)?;
    match serializer {
        Serializer::Json => match out.push(b']') {
            Ok(()) => Ok(()),
            Err(_) => Err(AllocError),
        },
        Serializer::MsgPack => Ok(()),
    }
}

/// Writes the frame of an EVENT without details, whose arguments are these octets, at the end: what [`write_item`] writes, in two copies.
fn write_event(
    serializer: Serializer,
    limit: u32,
    subscription: Id,
    made: &Publication,
    tail: &[u8],
    out: &mut Vec<u8>,
) -> Result<(), Fault>
    requires limit { limit ≤ 16777215 }
    requires tail { IsEnding serializer made.now.args tail.now }
    requires plain { made.now.disclosed ≡ false }
    ensures ok { OnOk result (out.new.items ≡ out.old.items ++ spelled (record {
      kind = Message;
      payload = serialized serializer (event subscription made.now false false);
    })) }
    ensures fits { OnOk result
        (length (serialized serializer (event subscription made.now false false)) ≤ limit) }
    ensures spelled { has_spelling serializer (event subscription made.now false false) ≡ true }
    ensures err { OnErr result (out.new.items ≡ out.old.items) }
    ensures long { result ≡ Err Fault.TooLongForClient
        → limit < length (serialized serializer (event subscription made.now false false)) }
    ensures fault { IfErr result (λ f. (f ≡ Fault.NoMemory) ⊎ (f ≡ Fault.TooLongForClient)) }
{
    let count = 4 + made.args.args().count();
    let mut head = EventHead::new();
    head.put_event(serializer, count, (subscription.value(), made.id.value()));
    let len = head.len() + tail.len() + closing_len(serializer);
    if len > limit as usize {
        return Err(Fault::TooLongForClient);
    }
    head.put_header(len);
    let at = out.len();
    if let Err(AllocError) = append(serializer, head.as_slice(), tail, out) {
        out.truncate(at);
        return Err(Fault::NoMemory);
    }
    Ok(())
}

/// Writes the frame of any item at the end, as [`write_item`] does.
fn write_any(
    alloc: Global,
    serializer: Serializer,
    limit: u32,
    item: &Item,
    out: &mut Vec<u8>,
) -> Result<(), Fault>
    requires { limit ≤ 16777215 }
    ensures ok { OnOk result (out.new.items ≡ out.old.items ++ octets_of serializer item.now) }
    ensures fits { OnOk result (Fits serializer limit item.now) }
    ensures spelled { OnOk result (IsSpelled serializer (message_of item.now)) }
    ensures err { OnErr result (out.new.items ≡ out.old.items) }
    ensures long { result ≡ Err Fault.TooLongForClient → IsTooLong serializer limit item.now }
    ensures fault { IfErr result (λ f. (f ≡ Fault.NoMemory) ⊎ (f ≡ Fault.TooLongForClient)) }
{
    let at = out.len();
    out.extend_from_slice(&[0; 4])?;
    if let Err(fault) = write_payload(alloc, serializer, item, out) {
        out.truncate(at);
        return Err(fault);
    }
    if out.len() - at - 4 > limit as usize {
        out.truncate(at);
        return Err(Fault::TooLongForClient);
    }
    fill_header(kind_of(item), at, out);
    Ok(())
}

/// Writes the frame of an item at the end, for a client that takes so many octets in one payload.
///
/// # Errors
/// [`Fault::TooLongForClient`] where the payload has more octets, or MessagePack has no spelling for
/// the message; [`Fault::NoMemory`] where a growth was refused. What was written stays as it was.
pub fn write_item(
    alloc: Global,
    serializer: Serializer,
    limit: u32,
    item: &Item,
    out: &mut Vec<u8>,
) -> Result<(), Fault>
    requires { limit ≤ 16777215 }
    ensures ok { OnOk result (out.new.items ≡ out.old.items ++ octets_of serializer item.now) }
    ensures fits { OnOk result (Fits serializer limit item.now) }
    ensures spelled { OnOk result (IsSpelled serializer (message_of item.now)) }
    ensures err { OnErr result (out.new.items ≡ out.old.items) }
    ensures long { result ≡ Err Fault.TooLongForClient → IsTooLong serializer limit item.now }
    ensures fault { IfErr result (λ f. (f ≡ Fault.NoMemory) ⊎ (f ≡ Fault.TooLongForClient)) }
{
    if let Item::Event {
        subscription,
        publication,
        with_topic: false,
        retained: false,
    } = item
    {
        let made = publication.value();
        if let Some(tail) = plain_tail(made, serializer) {
            return write_event(serializer, limit, *subscription, made, tail, out);
        }
    }
    write_any(alloc, serializer, limit, item, out)
}
