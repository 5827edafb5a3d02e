//! The octets of an EVENT's frame before its arguments, put together from behind: the header counts what follows it, and a number's
//! digits are found from the last to the first.
ghost use Rattle.std.specs.Prelude.{◌≡◌, ◌<◌, ◌≤◌, ◌+◌, ◌++◌, ◌∷◌, ℕ, [], length, decimal};
ghost use Rattle.msgpack_codec.specs.Short.{from_zero};
ghost use Rattle.rawsocket.specs.Frames.{header as spelled_header};
ghost use Rattle.rawsocket.specs.declared.frame.Kind.TheVariants.{Message};
ghost use Rattle.rawsocket.specs.declared.handshake.Serializer.TheVariants.{Json, MsgPack};
ghost use Rattle.session.specs.body.EventHead.{event_front};

use itoa::write_digits;
use rawsocket::{Kind, Serializer, header};
use std::marker::Model;

/// How many octets there is room for. A header has 4, and an EVENT at most 48 before its arguments.
const ROOM: usize = 64;

/// Octets, the last of which was put first.
#[derive(Drop)]
pub(crate) struct EventHead {
    octets: [u8; ROOM],
    start: usize,
}

impl Model for EventHead {
    ghost use Rattle.std.specs.Prelude.{◌≤◌, ℕ, List, drop};

    ghost Value = { List ℕ };

    ghost view = { λ h. drop h.start h.octets };

    ghost invariant = { λ h. h.start ≤ 64 };
}

impl EventHead {
    /// No octets.
    pub(crate) fn new() -> EventHead
        ensures { result ≡ [] }
    {
        EventHead {
            octets: [0; ROOM],
            start: ROOM,
        }
    }

    /// How many octets there are.
    pub(crate) fn len(&self) -> usize
        ensures { result ≡ length self.now }
    {
        ROOM - self.start
    }

    /// The octets.
    pub(crate) fn as_slice(&self) -> &[u8]
        ensures { result.now ≡ self.now }
    {
        &self.octets[self.start..]
    }

    /// Puts an octet before them.
    fn put(&mut self, octet: u8)
        requires { length self.old < 64 }
        ensures { self.new ≡ octet ∷ self.old }
    {
        self.start -= 1;
        self.octets[self.start] = octet;
    }

    /// Puts octets before them.
    fn put_all(&mut self, octets: &[u8])
        requires { length octets.now + length self.old ≤ 64 }
        ensures { self.new ≡ octets.now ++ self.old }
    {
        let end = self.start;
        self.start -= octets.len();
        self.octets[self.start..end].copy_from_slice(octets);
    }

    /// Puts the digits of a number before them.
    fn put_digits(&mut self, number: u64)
        requires { length self.old ≤ 44 }
        ensures put { self.new ≡ decimal number ++ self.old }
        ensures few { length self.new ≤ length self.old + 20 }
    {
        self.start = write_digits(number, &mut self.octets, self.start);
    }

    /// Puts a number in MessagePack before them.
    #[tactic(auto, unfolding(msgpack_codec::specs::Short::from_zero))]
    fn put_packed(&mut self, number: u64)
        requires { length self.old ≤ 55 }
        ensures put { self.new ≡ from_zero number ++ self.old }
        ensures few { length self.new ≤ length self.old + 9 }
    {
        if number < 0x80 {
            self.put(number as u8);
        } else if number < 0x100 {
            self.put_all(&[0xcc, number as u8]);
        } else if number < 0x1_0000 {
            self.put_all(&(number as u16).to_be_bytes());
            self.put(0xcd);
        } else if number < 0x1_0000_0000 {
            self.put_all(&(number as u32).to_be_bytes());
            self.put(0xce);
        } else {
            self.put_all(&number.to_be_bytes());
            self.put(0xcf);
        }
    }

    /// Puts the first four of so many elements of an EVENT: its type, the numbers of the subscription and the publication, and no details.
    pub(crate) fn put_event(&mut self, serializer: Serializer, count: u8, numbers: (u64, u64))
        requires count { count < 16 }
        requires none { self.old ≡ [] }
        ensures put { self.new ≡ event_front serializer count numbers.0 numbers.1 }
        ensures few { length self.new ≤ 60 }
    {
        match serializer {
            Serializer::Json => self.put_event_as_json(numbers),
            Serializer::MsgPack => self.put_event_as_msgpack(count, numbers),
        }
    }

    fn put_event_as_json(&mut self, numbers: (u64, u64))
        requires none { self.old ≡ [] }
        ensures put { (count : ℕ) → self.new ≡ event_front Json count numbers.0 numbers.1 }
        ensures few { length self.new ≤ 60 }
    {
        self.put_all(b",{}");
        self.put_digits(numbers.1);
        self.put(b',');
        self.put_digits(numbers.0);
        self.put_all(b"[36,");
    }

    fn put_event_as_msgpack(&mut self, count: u8, numbers: (u64, u64))
        requires count { count < 16 }
        requires none { self.old ≡ [] }
        ensures put { self.new ≡ event_front MsgPack count numbers.0 numbers.1 }
        ensures few { length self.new ≤ 60 }
    {
        self.put(0x80);
        self.put_packed(numbers.1);
        self.put_packed(numbers.0);
        self.put_all(&[0x90 + count, 36]);
    }

    /// Puts the header of a message of so many octets.
    pub(crate) fn put_header(&mut self, len: usize)
        requires room { length self.old ≤ 60 }
        requires len { len < 16777216 }
        ensures { self.new ≡ spelled_header Message len ++ self.old }
    {
        self.put_all(&header(Kind::Message, len));
    }
}
