//! Streams to a broker over TCP.
use crate::keepalive::keep_alive;
use client_commands::Contact;
use std::io;
use std::net::{Net, TcpStream, ToSocketAddrs};
use std::time::Duration;

/// How long an answer may take.
pub fn limit_of(contact: &Contact) -> Duration {
    Duration::from_secs(contact.timeout as u64)
}

/// A stream to the broker. Small writes go out at once, neither a write nor an answer may take too long, and it ends where the broker's
/// machine is gone.
pub fn connect<R: Net<Stream = TcpStream>>(rt: &R, contact: &Contact) -> io::Result<TcpStream> {
    let limit = limit_of(contact);
    let stream = connect_within(rt, contact.host.as_str(), contact.port, limit)?;
    let _ = stream.set_nodelay(true);
    keep_alive(&stream, limit);
    Ok(stream)
}

/// Connects to the first address of a host that answers within this time.
fn connect_within<R: Net<Stream = TcpStream>>(
    rt: &R,
    host: &str,
    port: u16,
    limit: Duration,
) -> io::Result<TcpStream> {
    let mut last = io::Error::from(io::ErrorKind::AddrNotAvailable);
    for address in (host, port).to_socket_addrs(rt)? {
        match TcpStream::connect_timeout(rt, &address, limit) {
            Ok(stream) => {
                stream.set_read_timeout(Some(limit))?;
                stream.set_write_timeout(Some(limit))?;
                return Ok(stream);
            }
            Err(error) => last = error,
        }
    }
    Err(last)
}
