//! How long the messages of clients may be.
ghost use Rattle.std.specs.Prelude.{◌≡◌, ◌≤◌, ◌↔◌, IfSome, IsSome};
ghost use Rattle.rawsocket.specs.Bounds.{IsMostOctets, largest_bound, most_octets};

use std::marker::Model;

/// The greatest number that tells a bound in the reply to a handshake.
const LARGEST: u8 = 11;

/// How many octets a payload of a client may have at most, as a router picks it: a power of two, from 512 to 2^20. Contracts
/// see the number, from 0 to 11, that tells it in the upper four bits of the reply's second octet: 9 less than the
/// power's exponent (WAMP, "RawSocket Transport").
#[derive(Clone, Copy, Debug, Drop)]
pub struct MessageBound {
    number: u8,
}

impl Model for MessageBound {
    ghost use Rattle.std.specs.Prelude.{ℕ, ◌≤◌};
    ghost use Rattle.rawsocket.specs.Bounds.{largest_bound};

    ghost Value = { ℕ };

    ghost view = { λ bound. bound.number };

    ghost invariant = { λ bound. bound.number ≤ largest_bound };

    ghost inverse = { λ n. record { number = n } };
}

/// The most octets of the bound that this number tells.
fn octets_of(number: u8) -> u32
    requires { number ≤ largest_bound }
    ensures { result ≡ most_octets number }
{
    1u32 << (9 + number)
}

impl MessageBound {
    /// The largest bound, 2^20 octets: that of a router for which nobody picked one.
    pub fn largest() -> MessageBound
        ensures { result ≡ largest_bound }
    {
        MessageBound { number: LARGEST }
    }

    /// The bound of so many octets. `None` where that is no power of two from 512 to 1,048,576.
    pub fn of_octets(octets: u32) -> Option<MessageBound>
        ensures value { IfSome result (λ bound. most_octets bound ≡ octets) }
        ensures some { IsSome result ↔ IsMostOctets octets }
    {
        let mut number: u8 = 0;
        while number <= LARGEST {
            if octets_of(number) == octets {
                return Some(MessageBound { number });
            }
            number += 1;
        }
        None
    }

    /// How many octets a payload may have at most: 512 to 1,048,576.
    pub fn most_octets(&self) -> u32
        ensures { result ≡ most_octets self.now }
    {
        octets_of(self.number)
    }

    /// The number, from 0 to 11, that tells it in the reply to a handshake.
    pub(crate) fn number(&self) -> u8
        ensures number { result ≡ self.now }
        ensures in_range { result ≤ largest_bound }
    {
        self.number
    }
}
