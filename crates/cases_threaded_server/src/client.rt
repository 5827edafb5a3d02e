//! A client.
use crate::steps::Flood;
use std::alloc::{AllocError, Global};
use std::io::{self, ErrorKind, Read, Write};
use std::net::TcpStream;
use std::os::unix::net::UnixStream;

/// How often in a row a client finds that its stream takes nothing, before it stops sending.
const LOOKS: u64 = 200_000;

/// A client's end of a stream.
pub trait Peer: Read + Write + Drop {
    /// Says whether writing waits until the stream takes something.
    fn wait_to_write(&self, waits: bool) -> io::Result<()>;
}

impl Peer for UnixStream {
    fn wait_to_write(&self, waits: bool) -> io::Result<()> {
        self.set_nonblocking(!waits)
    }
}

impl Peer for TcpStream {
    fn wait_to_write(&self, waits: bool) -> io::Result<()> {
        self.set_nonblocking(!waits)
    }
}

/// A client: its end of the stream, and what it got so far.
#[derive(Drop)]
pub struct Client<T> {
    alloc: Global,
    // None once the stream has ended.
    stream: Option<T>,
    got: Vec<u8>,
    // Whether it couldn't send all that it wanted to.
    is_held_back: bool,
    // The other end of the gate that its sink or its source stands still at.
    gate: Option<UnixStream>,
}

impl<T: Peer> Client<T> {
    /// A client that got nothing yet.
    pub fn new(alloc: Global, stream: T, gate: Option<UnixStream>) -> Client<T> {
        Client {
            alloc,
            stream: Some(stream),
            got: Vec::new(alloc),
            is_held_back: false,
            gate,
        }
    }

    /// What it got so far.
    pub fn got(&self) -> &[u8] {
        &self.got
    }

    /// Whether it couldn't send all that it wanted to.
    pub fn is_held_back(&self) -> bool {
        self.is_held_back
    }

    /// Sends PINGs until its stream takes no more.
    pub fn flood(&mut self, flood: Flood) -> io::Result<()> {
        let Some(stream) = &mut self.stream else {
            return Ok(());
        };
        let ping = ping_of(self.alloc, flood.octets)?;
        stream.wait_to_write(false)?;
        for time in 0..flood.times {
            if !push(stream, &ping, time < flood.least)? {
                self.is_held_back = true;
                break;
            }
        }
        stream.wait_to_write(true)
    }

    /// Closes its stream.
    pub fn leave(&mut self) -> io::Result<()> {
        self.stream = None;
        Ok(())
    }

    /// Sends octets.
    pub fn say(&mut self, octets: &[u8]) -> io::Result<()> {
        match &mut self.stream {
            Some(stream) => stream.write_all(octets),
            None => Ok(()),
        }
    }

    /// Reads until it got so many octets, or its stream has ended.
    pub fn hear(&mut self, count: u64) -> io::Result<()> {
        for _ in 0..u64::MAX {
            if self.got.len() as u64 >= count || !self.read_some()? {
                break;
            }
        }
        Ok(())
    }

    // False where the stream has ended. It is closed then.
    fn read_some(&mut self) -> io::Result<bool> {
        let Some(stream) = &mut self.stream else {
            return Ok(false);
        };
        let mut buffer = [0u8; 512];
        let count = stream.read(&mut buffer).unwrap_or(0);
        if count == 0 {
            self.stream = None;
            return Ok(false);
        }
        self.got.extend_from_slice(&buffer[..count])?;
        Ok(true)
    }

    /// Waits until its sink stands still.
    pub fn wait_for_sink(&mut self) -> io::Result<()> {
        if let Some(gate) = &mut self.gate {
            let _ = gate.read(&mut [0u8; 1])?;
        }
        Ok(())
    }

    /// The other end of its gate, which it has no longer.
    pub fn take_gate(&mut self) -> Option<UnixStream> {
        self.gate.take()
    }

    /// Lets what stands still go on.
    pub fn free(&mut self) -> io::Result<()> {
        match &mut self.gate {
            Some(gate) => gate.write_all(&[1]),
            None => Ok(()),
        }
    }
}

// The frame of a PING of so many octets, all of them 0.
fn ping_of(alloc: Global, octets: usize) -> Result<Vec<u8>, AllocError> {
    let mut frame = Vec::with_capacity(alloc, octets.saturating_add(4))?;
    let length = (octets & 0xff_ffff) as u32;
    frame.extend_from_slice(&(0x0100_0000 | length).to_be_bytes())?;
    frame.resize(octets.saturating_add(4), 0)?;
    Ok(frame)
}

// Sends octets, whatever part of them the stream takes at once. False where it took nothing, over and over, and that need not be waited for.
fn push<T: Peer>(stream: &mut T, octets: &[u8], must: bool) -> io::Result<bool> {
    let mut rest = octets;
    let mut looks: u64 = 0;
    for _ in 0..u64::MAX {
        match stream.write(rest) {
            Ok(0) => return Ok(false),
            Ok(count) => {
                looks = 0;
                rest = rest.get(count..).unwrap_or(&[]);
                if rest.is_empty() {
                    break;
                }
            }
            Err(error) if error.kind() == ErrorKind::WouldBlock => {
                looks = looks.wrapping_add(1);
                if !must && looks >= LOOKS {
                    return Ok(false);
                }
            }
            Err(error) => return Err(error),
        }
    }
    Ok(true)
}
