//! What comes first of two streams.
ghost use Rattle.std.specs.Prelude.{◌≡◌, ◌≢◌, None, Some, pos};
ghost use Rattle.client_commands.specs.declared.timing.Arrival.TheVariants.{Broker, Input};

use client_commands::Arrival;
use libc::EINTR;
use libc::net::{POLLIN, poll};
use libc::types::pollfd;
use std::os::fd::RawFd;

/// Waits, for as long as it takes, until one of two streams has something to be read, or an end or a failure to tell. Where it can't
/// wait for both, the input is read without waiting for the broker.
pub fn first_arrival(broker: RawFd, input: RawFd) -> Arrival {
    for _ in 0..u64::MAX {
        let mut asked = [readable(broker), readable(input)];
        if poll(&mut asked, -1) < 0 {
            if os::errno() == EINTR {
                continue;
            }
            return Arrival::Input;
        }
        if let Some(arrival) = arrival_of(asked[0].revents, asked[1].revents) {
            return arrival;
        }
    }
    Arrival::Input
}

/// What is asked of a stream: whether it can be read.
fn readable(fd: RawFd) -> pollfd {
    pollfd {
        fd,
        events: POLLIN,
        revents: 0,
    }
}

/// From which stream something came, by what is told of each: 0 where nothing did.
fn arrival_of(of_broker: i16, of_input: i16) -> Option<Arrival>
    ensures broker { of_broker ≢ pos 0 → result ≡ Some Broker }
    ensures input { of_broker ≡ pos 0 → of_input ≢ pos 0 → result ≡ Some Input }
    ensures none { of_broker ≡ pos 0 → of_input ≡ pos 0 → result ≡ None }
{
    if of_broker != 0 {
        Some(Arrival::Broker)
    } else if of_input != 0 {
        Some(Arrival::Input)
    } else {
        None
    }
}
