//! What a client asked for, and over which devices it is served.
ghost use Rattle.std.specs.Prelude.{◌≤◌};

use rawsocket::Serializer;

/// A call that no run comes to.
pub const NEVER: u64 = u64::MAX;

/// The most octets that a frame holds.
const MOST: u32 = 16777215;

/// The serializer of this name.
pub fn serializer_of(name: &str) -> Option<Serializer> {
    match name {
        "json" => Some(Serializer::Json),
        "msgpack" => Some(Serializer::MsgPack),
        _ => None,
    }
}

/// How messages are serialized, and how many octets the client takes in one payload.
#[derive(Clone, Copy, Drop)]
pub struct Client {
    pub serializer: Serializer,
    pub limit: u32,
    ghost fits: { limit ≤ 16777215 },
}

impl Client {
    /// JSON, and as few octets as a client may ask for.
    pub fn least() -> Client {
        Client {
            serializer: Serializer::Json,
            limit: 512,
        }
    }

    /// As in `msgpack 1024`.
    pub fn of(text: &str) -> Option<Client> {
        let (name, limit) = text.split_once(' ')?;
        let serializer = serializer_of(name)?;
        let limit = limit.parse::<u32>().ok()?.min(MOST);
        Some(Client { serializer, limit })
    }
}

/// How devices do.
#[derive(Clone, Copy, Drop, PartialEq, Eq)]
pub enum Manner {
    /// They give and take all at once.
    Whole,
    /// They give and take one octet at a time.
    Slow,
    /// What is written is held until it is to be passed on.
    Held,
    /// The same, and each item is owed only once all before it was passed on.
    Fed,
    /// They give one octet at a time, and only once who receives was woken behind all that was posted.
    Heard,
}

/// The devices of a case, and which of their calls fails.
#[derive(Clone, Copy, Drop)]
pub struct Devices {
    pub manner: Manner,
    pub failing: u64,
}

impl Devices {
    /// None fails.
    pub fn good() -> Devices {
        Devices {
            manner: Manner::Whole,
            failing: NEVER,
        }
    }
}
