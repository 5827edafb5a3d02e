//! Frames of large EVENTs, whose arguments aren't copied: all that share a publication write them from where they lie.
ghost use Rattle.std.specs.Prelude.{◌≡◌, ◌≤◌, ◌<◌, ◌++◌, ◌⊎◌, length, take, OnOk, OnErr, IfErr, IfOk, false, true};
ghost use Rattle.arguments.specs.Endings.{IsEnding};
ghost use Rattle.rawsocket.specs.Frames.{spelled};
ghost use Rattle.rawsocket.specs.declared.frame.Kind.TheVariants.{Message};
ghost use Rattle.session.specs.ItemFrames.{octets_of, Fits, IsSpelled, IsTooLong};
ghost use Rattle.session.specs.LargeFrames.{octets_in};
ghost use Rattle.session.specs.Serializer.{serialized};
ghost use Rattle.session.specs.ToClient.{event, message_of};
ghost use Rattle.session.specs.body.SerializedParts.{has_spelling, list_closing};

use crate::fault::Fault;
use crate::wire::item_frames::{put_beginning, write_item};
use message_tree::Appender;
use rawsocket::{Kind, Serializer, header};
use std::alloc::{AllocError, Global};
use wamp_ids::Id;
use wamp_messages::{Item, Publication};

/// From so many octets on arguments aren't copied.
const LARGE: usize = 65_536;

/// The end of a frame, from where it lies.
#[derive(Clone, Copy, Debug, Drop)]
pub struct FrameEnd<'a> {
    /// The arguments.
    pub arguments: &'a [u8],
    /// What closes the message behind them.
    pub closing: &'static [u8],
}

/// What closes a list.
fn closing(serializer: Serializer) -> &'static [u8]
    ensures { result.now ≡ list_closing serializer }
{
    match serializer {
        Serializer::Json => b"]",
        Serializer::MsgPack => b"",
    }
}

/// Writes a header and what stands behind it at the end. Where a growth was refused some of them may stand there.
fn append(header: &[u8], beginning: &[u8], out: &mut Vec<u8>) -> Result<(), AllocError>
    ensures ok { OnOk result (out.new.items ≡ out.old.items ++ (header.now ++ beginning.now)) }
    ensures before { take (length out.old.items) out.new.items ≡ out.old.items }
{
    out.extend_from_slice(header)?;
    out.extend_from_slice(beginning)
}

/// Writes the frame of an EVENT at the end, but for its arguments, which are these octets, and what closes it.
fn write_beginning(
    alloc: Global,
    serializer: Serializer,
    limit: u32,
    subscription: Id,
    made: &Publication,
    with_topic: bool,
    retained: bool,
    arguments: &[u8],
    out: &mut Vec<u8>,
) -> Result<(), Fault>
    requires limit { limit ≤ 16777215 }
    requires arguments { IsEnding serializer made.now.args arguments.now }
    ensures ok { OnOk result (out.new.items ++ (arguments.now ++ list_closing serializer)
        ≡ out.old.items ++ spelled (record {
          kind = Message;
          payload = serialized serializer (event subscription made.now with_topic retained);
        })) }
    ensures fits { OnOk result
        (length (serialized serializer (event subscription made.now with_topic retained)) ≤ limit) }
    ensures spelled { OnOk result
        (has_spelling serializer (event subscription made.now with_topic retained) ≡ true) }
    ensures err { OnErr result (out.new.items ≡ out.old.items) }
    ensures long { result ≡ Err Fault.TooLongForClient →
        (limit < length (serialized serializer (event subscription made.now with_topic retained)))
        ⊎ (has_spelling serializer (event subscription made.now with_topic retained) ≡ false) }
    ensures fault { IfErr result (λ f. (f ≡ Fault.NoMemory) ⊎ (f ≡ Fault.TooLongForClient)) }
{
    let mut beginning = Appender::new(Vec::new(alloc));
    put_beginning(
        &mut beginning,
        alloc,
        serializer,
        subscription,
        made,
        with_topic,
        retained,
    )?;
    let beginning = beginning.into_vec();
    let len = beginning.len() + arguments.len() + closing(serializer).len();
    if len > limit as usize {
        return Err(Fault::TooLongForClient);
    }
    let at = out.len();
    if let Err(AllocError) = append(&header(Kind::Message, len), beginning.as_slice(), out) {
        out.truncate(at);
        return Err(Fault::NoMemory);
    }
    Ok(())
}

/// Writes the frame of an item at the end, as [`write_item`] does. Only where it is an EVENT whose arguments have 65,536 octets or
/// more, and these are kept, they and what closes the message aren't written: they are what it gives.
///
/// # Errors
/// As [`write_item`]: what was written stays as it was.
pub fn write_unless_large<'a>(
    alloc: Global,
    serializer: Serializer,
    limit: u32,
    item: &'a Item,
    out: &mut Vec<u8>,
) -> Result<Option<FrameEnd<'a>>, Fault>
    requires { limit ≤ 16777215 }
    ensures ok { IfOk result (λ end. out.new.items ++ octets_in end
        ≡ out.old.items ++ octets_of serializer item.entry.now) }
    ensures fits { OnOk result (Fits serializer limit item.entry.now) }
    ensures spelled { OnOk result (IsSpelled serializer (message_of item.entry.now)) }
    ensures err { OnErr result (out.new.items ≡ out.old.items) }
    ensures long { result ≡ Err Fault.TooLongForClient
        → IsTooLong serializer limit item.entry.now }
    ensures fault { IfErr result (λ f. (f ≡ Fault.NoMemory) ⊎ (f ≡ Fault.TooLongForClient)) }
{
    if let Item::Event {
        subscription,
        publication,
        with_topic,
        retained,
    } = item
    {
        let made = publication.value();
        if let Some(arguments) = made.args.args().ending(serializer)
            && arguments.len() >= LARGE
        {
            write_beginning(
                alloc,
                serializer,
                limit,
                *subscription,
                made,
                *with_topic,
                *retained,
                arguments,
                out,
            )?;
            return Ok(Some(FrameEnd {
                arguments,
                closing: closing(serializer),
            }));
        }
    }
    write_item(alloc, serializer, limit, item, out)?;
    Ok(None)
}
