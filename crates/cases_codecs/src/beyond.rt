//! Trees that no serialization carries, and faults as they are printed.
use crate::reading::write;
use message_tree::{Dict, Fault, Message, Tree};
use std::alloc::{AllocError, Global};
use std::io;

/// Whether each is carried, and what is written of it.
pub fn beyond(alloc: Global) -> io::Result<String> {
    let mut text = String::new(alloc);
    for tree in [
        Tree::Uncarried,
        Tree::Whole(18446744073709551616),
        Tree::Whole(-9223372036854775809),
        Tree::List(vec![in alloc; Tree::Null, Tree::Uncarried]?),
    ] {
        told(alloc, &mut text, tree)?;
    }
    told(alloc, &mut text, held(alloc)?)?;
    Ok(text)
}

/// A list that holds an uncarried leaf, in a dictionary.
fn held(alloc: Global) -> Result<Tree, AllocError> {
    let list = Tree::List(vec![in alloc; Tree::Uncarried]?);
    let mut dict = Dict::new(alloc);
    dict.set(alloc, String::from_str(alloc, "a")?, list)?;
    Ok(Tree::Dict(dict))
}

fn told(alloc: Global, text: &mut String, tree: Tree) -> io::Result<()> {
    let is_carried = tree.is_carried();
    match Message::of(tree) {
        Ok(message) => {
            let is_message_carried = message.is_carried();
            writeln!(text, "{is_carried} {is_message_carried}")?;
            write(alloc, text, &message)
        }
        Err((fault, _)) => Ok(writeln!(text, "{fault}")?),
    }
}

/// Each fault as it is printed: of trees, of JSON, of MessagePack, and of frames.
pub fn faults(alloc: Global) -> io::Result<String> {
    let mut text = String::new(alloc);
    writeln!(&mut text, "{}", Fault::TooDeep)?;
    add_faults_of_json(&mut text)?;
    add_faults_of_msgpack(&mut text)?;
    add_faults_of_frames(&mut text)?;
    Ok(text)
}

fn add_faults_of_json(text: &mut String) -> io::Result<()> {
    for fault in [
        json_codec::Fault::NoMemory,
        json_codec::Fault::TooDeep,
        json_codec::Fault::Malformed,
        json_codec::Fault::UncarriedLeaf,
    ] {
        writeln!(text, "{fault}")?;
    }
    Ok(())
}

fn add_faults_of_msgpack(text: &mut String) -> io::Result<()> {
    for fault in [
        msgpack_codec::Fault::NoMemory,
        msgpack_codec::Fault::TooDeep,
        msgpack_codec::Fault::Malformed,
        msgpack_codec::Fault::UncarriedLeaf,
    ] {
        writeln!(text, "{fault}")?;
    }
    Ok(())
}

fn add_faults_of_frames(text: &mut String) -> io::Result<()> {
    use rawsocket::Fault as Transport;

    for fault in [
        Transport::NoMemory,
        Transport::SerializerUnsupported,
        Transport::ReservedBits,
        Transport::FrameTooLong,
        Transport::FrameType,
        Transport::ReadFault,
        Transport::WriteFault,
        Transport::TooManyTurns,
    ] {
        writeln!(text, "{fault}")?;
    }
    Ok(())
}
