//! Messages to the broker, as octets.
ghost use Rattle.std.specs.Prelude.{◌≡◌, ◌≤◌, ◌⊎◌, ℕ, length, IfOk, IfErr, OnOk, Err};
ghost use Rattle.message_tree.specs.Meaning.{meaning};
ghost use Rattle.session.specs.Serializer.{serialized};
ghost use Rattle.client_session.specs.Hearing.{terms};
ghost use Rattle.client_session.specs.Saying.{payload_of, saying, IsUnsaid, IsUnwritten};

use crate::fault::Fault;
use crate::inbox::BrokerTerms;
use client_messages::{ClientMessage, said_message};
use message_tree::Message;
use rawsocket::{Kind, Serializer, write_frame};
use std::alloc::Global;

/// The octets of a message in a serialization.
fn encode(alloc: Global, serializer: Serializer, message: &Message) -> Result<Vec<u8>, Fault>
    ensures ok { IfOk result (λ v. v.items ≡ serialized serializer (meaning message.now)) }
    ensures unwritten { result ≡ Err Fault.Unsayable
        → IsUnwritten serializer (meaning message.now) }
    ensures fault { IfErr result (λ f. (f ≡ Fault.NoMemory) ⊎ (f ≡ Fault.Unsayable)) }
{
    match serializer {
        Serializer::Json => match json_codec::encode(alloc, message) {
            Ok(octets) => Ok(octets),
            Err(json_codec::Fault::NoMemory) => Err(Fault::NoMemory),
            Err(_) => Err(Fault::Unsayable),
        },
        Serializer::MsgPack => match msgpack_codec::encode(alloc, message) {
            Ok(octets) => Ok(octets),
            Err(msgpack_codec::Fault::NoMemory) => Err(Fault::NoMemory),
            Err(_) => Err(Fault::Unsayable),
        },
    }
}

/// The payload that says this.
fn payload_of(alloc: Global, serializer: Serializer, said: ClientMessage) -> Result<Vec<u8>, Fault>
    ensures ok { IfOk result (λ v. v.items ≡ payload_of serializer said) }
    ensures unsaid { IfErr result (λ f. (limit : ℕ) → IsUnsaid (terms serializer limit) said f) }
{
    let message = match said_message(alloc, said) {
        Ok(message) => message,
        Err(client_messages::Fault::NoMemory) => return Err(Fault::NoMemory),
        Err(client_messages::Fault::TooDeep) => return Err(Fault::Unsayable),
        Err(client_messages::Fault::NoBrokerMessage) => unreachable!(),
    };
    encode(alloc, serializer, &message)
}

/// The frame that says this to a broker.
pub(crate) fn frame_of(
    alloc: Global,
    broker: BrokerTerms,
    said: ClientMessage,
) -> Result<Vec<u8>, Fault>
    requires { broker.limit ≤ 16777215 }
    ensures ok { IfOk result (λ v. v.items ≡ saying broker.serializer said) }
    ensures fits { OnOk result (length (payload_of broker.serializer said) ≤ broker.limit) }
    ensures unsaid { IfErr result
        (IsUnsaid (terms broker.serializer broker.limit) said) }
{
    let payload = match payload_of(alloc, broker.serializer, said) {
        Ok(payload) => payload,
        Err(fault) => return Err(fault),
    };
    if payload.len() > broker.limit as usize {
        return Err(Fault::TooLongForBroker);
    }
    let mut out = Vec::new(alloc);
    match write_frame(alloc, Kind::Message, &payload, &mut out) {
        Ok(()) => Ok(out),
        Err(rawsocket::Fault::NoMemory) => Err(Fault::NoMemory),
        Err(_) => unreachable!(),
    }
}
