//! What ends a connection whose other machine is gone: probes of TCP.
ghost use Rattle.libc.specs.Net.{SockOption};

use libc::net as tcp;
use std::net::TcpStream;
use std::os::fd::AsRawFd;
use std::time::Duration;

/// How many seconds a connection is silent before the first probe.
const SILENCE: i32 = 15;

/// How many seconds behind a probe that isn't answered the next one is sent.
const PAUSE: i32 = 5;

/// How many probes aren't answered where the other machine is gone.
const PROBES: i32 = 3;

/// So many milliseconds may what was written be unacknowledged, at least: as long as it takes until the probes have failed.
const SHORTEST_PATIENCE: u128 = 30_000;

/// Has the system probe a connection that is silent, and end it where nothing answers any more, be it a probe or what was written. An
/// answer of the broker may take as long as the limit says. Where an option isn't had the connection goes on without it.
pub fn keep_alive(stream: &TcpStream, limit: Duration) {
    let patience = limit.as_millis().max(SHORTEST_PATIENCE);
    set(stream, tcp::IPPROTO_TCP, tcp::TCP_KEEPIDLE, SILENCE);
    set(stream, tcp::IPPROTO_TCP, tcp::TCP_KEEPINTVL, PAUSE);
    set(stream, tcp::IPPROTO_TCP, tcp::TCP_KEEPCNT, PROBES);
    set(
        stream,
        tcp::IPPROTO_TCP,
        tcp::TCP_USER_TIMEOUT,
        i32::try_from(patience).unwrap_or(i32::MAX),
    );
    set(stream, tcp::SOL_SOCKET, tcp::SO_KEEPALIVE, 1);
}

/// Sets an option of a stream to a number.
fn set(stream: &TcpStream, level: i32, name: i32, number: i32)
    requires { SockOption level name }
{
    let mut value = [0u8; 16];
    value[..4].copy_from_slice(&number.to_ne_bytes());
    let _ = unsafe { tcp::setsockopt(stream.as_raw_fd(), level, name, &value, 4) };
}
