//! Messages in the serialization that a client asked for.
ghost use Rattle.std.specs.Prelude.{◌≡◌, ◌≢◌, IfOk, IfErr, true};
ghost use Rattle.message_tree.specs.Data.{is_carried};
ghost use Rattle.message_tree.specs.Meaning.{meaning};
ghost use Rattle.msgpack_codec.specs.Short.{has_short};
ghost use Rattle.session.specs.Serializer.{Decodes, IsUndecodable, serialized};

use crate::fault::Fault;
use message_tree::Message;
use rawsocket::Serializer;
use std::alloc::{AllocError, Global};

/// The message that the octets are in a serialization.
///
/// # Errors
/// [`Fault::TooDeep`] and [`Fault::Malformed`] where they are none; [`Fault::NoMemory`] where a
/// growth of memory was refused.
pub fn decode(alloc: Global, serializer: Serializer, octets: &[u8]) -> Result<Message, Fault>
    ensures ok { IfOk result (λ m. Decodes serializer octets.now (meaning m)) }
    ensures bad { IfErr result (λ f. f ≢ Fault.NoMemory → IsUndecodable serializer octets.now f) }
{
    match serializer {
        Serializer::Json => decode_json(alloc, octets),
        Serializer::MsgPack => decode_msgpack(alloc, octets),
    }
}

fn decode_json(alloc: Global, octets: &[u8]) -> Result<Message, Fault>
    ensures ok { IfOk result (λ m. Decodes Serializer.Json octets.now (meaning m)) }
    ensures bad { IfErr result (λ f. f ≢ Fault.NoMemory
        → IsUndecodable Serializer.Json octets.now f) }
{
    match json_codec::decode(alloc, octets) {
        Ok(message) => Ok(message),
        Err(json_codec::Fault::NoMemory) => Err(Fault::NoMemory),
        Err(json_codec::Fault::TooDeep) => Err(Fault::TooDeep),
        Err(json_codec::Fault::Malformed) => Err(Fault::Malformed),
        Err(json_codec::Fault::UncarriedLeaf) => unreachable!(),
    }
}

fn decode_msgpack(alloc: Global, octets: &[u8]) -> Result<Message, Fault>
    ensures ok { IfOk result (λ m. Decodes Serializer.MsgPack octets.now (meaning m)) }
    ensures bad { IfErr result (λ f. f ≢ Fault.NoMemory
        → IsUndecodable Serializer.MsgPack octets.now f) }
{
    match msgpack_codec::decode(alloc, octets) {
        Ok(message) => Ok(message),
        Err(msgpack_codec::Fault::NoMemory) => Err(Fault::NoMemory),
        Err(msgpack_codec::Fault::TooDeep) => Err(Fault::TooDeep),
        Err(msgpack_codec::Fault::Malformed) => Err(Fault::Malformed),
        Err(msgpack_codec::Fault::UncarriedLeaf) => unreachable!(),
    }
}

/// The octets of a message that every serialization writes.
pub(crate) fn encode(
    alloc: Global,
    serializer: Serializer,
    message: &Message,
) -> Result<Vec<u8>, AllocError>
    requires carried { is_carried (meaning message.now) ≡ true }
    requires short { has_short (meaning message.now) ≡ true }
    ensures ok { IfOk result (λ v. v.items ≡ serialized serializer (meaning message.now)) }
{
    match serializer {
        Serializer::Json => match json_codec::encode(alloc, message) {
            Ok(octets) => Ok(octets),
            Err(json_codec::Fault::NoMemory) => Err(AllocError),
            Err(_) => unreachable!(),
        },
        Serializer::MsgPack => match msgpack_codec::encode(alloc, message) {
            Ok(octets) => Ok(octets),
            Err(msgpack_codec::Fault::NoMemory) => Err(AllocError),
            Err(_) => unreachable!(),
        },
    }
}
