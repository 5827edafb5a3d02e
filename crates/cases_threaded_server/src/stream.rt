//! The broker's end of a stream.
ghost use Rattle.std.specs.Io.{ReadsAtMost};

use realm_inbox::Shut;
use std::alloc::{AllocError, Global};
use std::io::{self, Read, Write};
use std::net::Shutdown;
use std::os::unix::net::UnixStream;
use std::sync::Arc;

/// How many octets a client's handshake has.
const HANDSHAKE: usize = 4;

/// Where a stream stands still: at each gate its thread says that it has come, and waits until it is told to go on, or until the stream
/// is shut.
#[derive(Drop)]
pub struct Gates {
    /// The sink, before it is first written an EVENT.
    pub sink: Option<Arc<UnixStream>>,
    /// The source, with what it has read behind the handshake: as a thread does that is held up behind a read. When it is read again it says
    /// that it has come.
    pub source: Option<Arc<UnixStream>>,
    /// Who lets go of the stream.
    pub end: Option<Hold>,
}

/// The other end of the gate of another stream's source. Who lets go of it tells that source to go on, and waits until it is read again, or
/// until that stream is shut.
pub struct Hold {
    pub gate: Arc<UnixStream>,
}

impl Drop for Hold {
    fn drop(self) {
        let Self { gate } = self;
        let mut gate = &*gate;
        let _ = gate.write_all(&[1]);
        let _ = gate.read(&mut [0u8; 1]);
    }
}

fn another(gate: &Option<Arc<UnixStream>>) -> Result<Option<Arc<UnixStream>>, AllocError> {
    match gate {
        Some(gate) => Ok(Some(Arc::try_clone(gate)?)),
        None => Ok(None),
    }
}

fn close_gate(gate: &Option<Arc<UnixStream>>) {
    if let Some(gate) = gate {
        let _ = gate.shutdown(Shutdown::Both);
    }
}

impl Gates {
    pub fn none() -> Gates {
        Gates {
            sink: None,
            source: None,
            end: None,
        }
    }

    fn another(&self) -> Result<Gates, AllocError> {
        let end = match &self.end {
            Some(hold) => Some(Hold {
                gate: Arc::try_clone(&hold.gate)?,
            }),
            None => None,
        };
        Ok(Gates {
            sink: another(&self.sink)?,
            source: another(&self.source)?,
            end,
        })
    }

    // The stream is shut.
    fn shut(&self) {
        close_gate(&self.sink);
        close_gate(&self.source);
    }
}

/// One holder of the broker's end of a stream: all of them share one descriptor.
#[derive(Drop)]
pub struct End {
    stream: Arc<UnixStream>,
    gates: Gates,
    // How often it was read.
    reads: u64,
}

impl End {
    /// The first holder.
    pub fn new(alloc: Global, stream: UnixStream, gates: Gates) -> Result<End, AllocError> {
        Ok(End {
            stream: Arc::new(alloc, stream)?,
            gates,
            reads: 0,
        })
    }

    /// One holder more.
    pub fn another(&self) -> Result<End, AllocError> {
        Ok(End {
            stream: Arc::try_clone(&self.stream)?,
            gates: self.gates.another()?,
            reads: 0,
        })
    }

    // Stands still before the first EVENT, where there is a gate.
    fn stand(&mut self, octets: &[u8]) -> io::Result<()> {
        if has_event(octets) {
            if let Some(gate) = self.gates.sink.take() {
                let mut gate = &*gate;
                gate.write_all(&[1])?;
                let _ = gate.read(&mut [0u8; 1])?;
            }
        }
        Ok(())
    }

    // Reads the handshake, then what comes behind it, and stands still with that.
    fn read_late(&mut self, gate: &UnixStream, buf: &mut [u8]) -> io::Result<usize>
        ensures { ReadsAtMost result buf.new }
    {
        let mut stream = &*self.stream;
        let mut gate = gate;
        self.reads = self.reads.wrapping_add(1);
        if self.reads == 1 {
            let (first, _) = buf.split_at_mut(buf.len().min(HANDSHAKE));
            return stream.read(first);
        }
        if self.reads == 2 {
            let count = stream.read(buf)?;
            let _ = gate.read(&mut [0u8; 1]);
            return Ok(count);
        }
        let _ = gate.write_all(&[1]);
        let _ = gate.shutdown(Shutdown::Both);
        stream.read(buf)
    }
}

// Whether an EVENT in JSON is among the octets.
fn has_event(octets: &[u8]) -> bool {
    octets.windows(4).any(|four| four == b"[36,".as_slice())
}

impl Shut for End {
    fn shut(&self) {
        let _ = self.stream.shutdown(Shutdown::Both);
        self.gates.shut();
    }

    fn twin(&self) -> Option<End> {
        self.another().ok()
    }
}

impl Read for End {
    fn read(&mut self, buf: &mut [u8]) -> io::Result<usize> {
        if let Some(gate) = another(&self.gates.source)? {
            return self.read_late(&gate, buf);
        }
        let mut stream = &*self.stream;
        stream.read(buf)
    }
}

impl Write for End {
    fn write(&mut self, buf: &[u8]) -> io::Result<usize> {
        self.stand(buf)?;
        let mut stream = &*self.stream;
        stream.write(buf)
    }

    fn flush(&mut self) -> io::Result<()> {
        Ok(())
    }
}
