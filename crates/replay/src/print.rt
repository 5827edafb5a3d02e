//! What a replay prints.
ghost use Rattle.std.specs.Prelude.{◌≡◌, ◌++◌, IfOk, OnOk};
ghost use Rattle.session.specs.ToClient.{message_of};
ghost use Rattle.replay.specs.Transcript.{ended, item_text, printed, printed_all};

use itoa::Buffer;
use rawsocket::Serializer;
use session::{Item, write_payload};
use std::alloc::{AllocError, Global};
use wamp_ids::Conn;

/// A line of output.
fn print(out: &mut Vec<u8>, number: Conn, text: &[u8]) -> Result<(), AllocError>
    ensures printed { OnOk result (out.new.items ≡ out.old.items ++ printed number text.now) }
{
    let mut buffer = Buffer::new();
    out.extend_from_slice(buffer.format(number.value()).as_bytes())?;
    out.push(b' ')?;
    out.extend_from_slice(text)?;
    out.push(b'\n')?;
    Ok(())
}

/// The line that says that a number has ended.
pub fn print_end(out: &mut Vec<u8>, number: Conn) -> Result<(), AllocError>
    ensures printed { OnOk result (out.new.items ≡ out.old.items ++ ended number) }
{
    print(out, number, b"end")
}

/// The text of an item: its message, as a client gets it that speaks JSON. A PONG is none, and has no text.
#[tactic(auto, using(crate::proofs::PrintLemmas::payload_is_text))]
fn text_of(alloc: Global, item: &Item) -> Result<Vec<u8>, AllocError>
    ensures { IfOk result (λ text. text.items ≡ item_text (message_of item.now)) }
{
    let mut text = Vec::new(alloc);
    if let Item::Pong(_) = item {
        return Ok(text);
    }
    match write_payload(alloc, Serializer::Json, item, &mut text) {
        Ok(()) => Ok(text),
        Err(_) => Err(AllocError),
    }
}

/// The line of an item.
pub fn print_item(
    alloc: Global,
    out: &mut Vec<u8>,
    number: Conn,
    item: &Item,
) -> Result<(), AllocError>
    ensures printed { OnOk result (out.new.items ≡ out.old.items ++ printed
        number (item_text (message_of item.now))) }
{
    let text = text_of(alloc, item)?;
    print(out, number, &text)
}

/// The lines of what was given.
pub fn print_all(
    alloc: Global,
    out: &mut Vec<u8>,
    given: &Vec<(Conn, Item)>,
) -> Result<(), AllocError>
    ensures printed { OnOk result (out.new.items ≡ out.old.items ++ printed_all given.now.items) }
{
    for (number, item) in given {
        print_item(alloc, out, *number, item)?;
    }
    Ok(())
}
