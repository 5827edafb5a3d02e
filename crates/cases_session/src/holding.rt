//! What arguments tell of themselves: as they were read, by a copy, and once JSON was asked for.
use crate::publishing::args_of;
use crate::saying::args_in_words;
use arguments::{Args, CarriedArgs, Fault};
use case_text::{line_of, spell};
use message_tree::Appender;
use msgpack_cursor::Unread;
use rawsocket::Serializer;
use std::alloc::Global;
use std::io;

/// The elements of a list in MessagePack as arguments.
pub fn args(alloc: Global, octets: &[u8]) -> io::Result<String> {
    match args_in(alloc, octets) {
        Ok(args) => told(alloc, args),
        Err(fault) => Ok(format!(in alloc; "{fault}\n")?),
    }
}

/// The arguments of a PUBLISH in JSON, which are trees first.
pub fn trees(alloc: Global, json: &str) -> io::Result<String> {
    match args_of(alloc, json) {
        Some(args) => told(alloc, args),
        None => line_of(alloc, "no PUBLISH, or E1 no memory"),
    }
}

fn args_in(alloc: Global, octets: &[u8]) -> Result<Args, Fault> {
    let Some(mut elements) = Unread::of(octets) else {
        return Err(Fault::Shape);
    };
    let Some(args) = elements.value() else {
        return Ok(Args::none());
    };
    let Some(kwargs) = elements.value() else {
        return Args::read_args(alloc, &args);
    };
    Args::read_both(alloc, &args, &kwargs)
}

fn told(alloc: Global, args: Args) -> io::Result<String> {
    let mut out = String::new(alloc);
    tell_count(alloc, &mut out, &args)?;
    out.push_str("\nread")?;
    tell_endings(&mut out, &args)?;
    out.push_str("\ncopied")?;
    tell_held(alloc, &mut out, args.try_copy(alloc)?)?;
    out.push_str("\nasked")?;
    let args = args.with_json(alloc);
    if lacks_json(&args) {
        return line_of(alloc, "nothing is kept in JSON, or E1 no memory");
    }
    tell_held(alloc, &mut out, args)?;
    out.push('\n')?;
    Ok(out)
}

/// Adds how many they are, whether they are carried, and each in JSON.
fn tell_count(alloc: Global, out: &mut String, args: &Args) -> io::Result<()> {
    let count = args.count();
    let carried = carried_mark(args);
    let words = args_in_words(alloc, args)?;
    Ok(write!(out, "{count} {carried}{words}")?)
}

fn carried_mark(args: &Args) -> &'static str {
    if args.is_carried() {
        "carried"
    } else {
        "uncarried"
    }
}

/// Whether nothing is kept in JSON of what could be.
fn lacks_json(args: &Args) -> bool {
    args.count() > 0 && args.is_carried() && args.ending(Serializer::Json).is_none()
}

/// Adds the endings that are kept, in MessagePack and in JSON.
fn tell_endings(out: &mut String, args: &Args) -> io::Result<()> {
    for serializer in [Serializer::MsgPack, Serializer::Json] {
        out.push(' ')?;
        tell_ending(out, args.ending(serializer))?;
    }
    Ok(())
}

fn tell_ending(out: &mut String, ending: Option<&[u8]>) -> io::Result<()> {
    match ending {
        Some(octets) => spell(out, octets),
        None => Ok(out.push('-')?),
    }
}

/// Adds the endings that are kept, and what is put behind the octets `ab`.
fn tell_held(alloc: Global, out: &mut String, args: Args) -> io::Result<()> {
    tell_endings(out, &args)?;
    let Ok(carried) = CarriedArgs::of(args) else {
        out.push_str(" uncarried")?;
        return Ok(());
    };
    for serializer in [Serializer::MsgPack, Serializer::Json] {
        out.push(' ')?;
        tell_put(alloc, out, &carried, serializer)?;
    }
    tell_copy(alloc, out, &carried)
}

/// Tells of a copy only where it isn't as it should be: put as the other one, with nothing in JSON beside it.
fn tell_copy(alloc: Global, out: &mut String, carried: &CarriedArgs) -> io::Result<()> {
    let copy = carried.try_copy(alloc)?;
    let same = put_behind(alloc, carried, Serializer::MsgPack).ok();
    if copy.keeps_json() || put_behind(alloc, &copy, Serializer::MsgPack).ok() != same {
        out.push_str(" copied otherwise, or E1 no memory")?;
    }
    Ok(())
}

fn tell_put(
    alloc: Global,
    out: &mut String,
    carried: &CarriedArgs,
    serializer: Serializer,
) -> io::Result<()> {
    match put_behind(alloc, carried, serializer) {
        Ok(octets) => spell(out, &octets),
        Err(fault) => Ok(write!(out, "{fault}")?),
    }
}

fn put_behind(
    alloc: Global,
    carried: &CarriedArgs,
    serializer: Serializer,
) -> Result<Vec<u8>, Fault> {
    let mut out = Appender::new(Vec::from_slice(alloc, b"ab")?);
    carried.args().put(alloc, serializer, &mut out)?;
    Ok(out.into_vec())
}
