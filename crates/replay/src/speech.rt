//! What the text of a line means: a message of a client, or that its connection is gone.
ghost use Rattle.std.specs.Prelude.{◌≡◌, IfOk};
ghost use Rattle.replay.specs.Speech.{Hears};

use crate::fault::Fault;
use rawsocket::Serializer;
use session::read_payload;
use std::alloc::{AllocError, Global};

/// What the text of a line is.
#[derive(Drop)]
pub enum Speech {
    /// `gone`: the connection is gone.
    Gone,
    /// A message of a client.
    Said(session::Said),
    /// Neither.
    Noise,
}

/// What the text of a line is. A message is read as a client's is that speaks JSON.
#[tactic(auto, using(crate::proofs::SpeechLemmas::said_is_heard, crate::proofs::SpeechLemmas::nothing_is_noise))]
pub fn read_speech(alloc: Global, text: &[u8]) -> Result<Speech, AllocError>
    ensures heard { IfOk result (Hears text.now) }
{
    if text == b"gone".as_slice() {
        return Ok(Speech::Gone);
    }
    match read_payload(alloc, Serializer::Json, text) {
        Ok(said) => Ok(Speech::Said(said)),
        Err(session::Fault::NoMemory) => Err(AllocError),
        Err(_) => Ok(Speech::Noise),
    }
}
