//! Octets that are written behind what a buffer held.
ghost use Rattle.std.specs.Prelude.{◌≡◌, ◌++◌, ◌∷◌, [], OnOk, OnErr};

use std::alloc::AllocError;
use std::marker::Model;

/// A buffer, and how many octets it held at the start: what stood in it before stays, and what was
/// written since can be cut off. Codecs write behind one.
#[derive(Drop)]
pub struct Appender {
    out: Vec<u8>,
    start: usize,
}

impl Model for Appender {
    ghost use Rattle.std.specs.Prelude.{◌≤◌, length, take, drop};
    ghost use Rattle.message_tree.specs.Appender.{Written, written_code};

    ghost Value = { Written };

    ghost coded = { written_code };

    ghost view = { λ a. record {
      before = take a.start a.out.items;
      since = drop a.start a.out.items;
    } };

    ghost invariant = { λ a. a.start ≤ length a.out.items };
}

impl Appender {
    /// Writes behind what the buffer holds.
    pub fn new(out: Vec<u8>) -> Appender
        ensures before { result.before ≡ out.items }
        ensures since { result.since ≡ [] }
    {
        let start = out.len();
        Appender { out, start }
    }

    /// Writes one octet at the end.
    ///
    /// # Errors
    /// [`AllocError`] where a growth was refused; nothing is changed then.
    pub fn put(&mut self, octet: u8) -> Result<(), AllocError>
        ensures ok { OnOk result (self.new.since ≡ self.old.since ++ octet ∷ []) }
        ensures err { OnErr result (self.new.since ≡ self.old.since) }
        ensures before { self.new.before ≡ self.old.before }
    {
        match self.out.push(octet) {
            Ok(()) => Ok(()),
            Err(_) => Err(AllocError),
        }
    }

    /// Writes octets at the end.
    ///
    /// # Errors
    /// [`AllocError`] where a growth was refused; nothing is changed then.
    pub fn put_all(&mut self, octets: &[u8]) -> Result<(), AllocError>
        ensures ok { OnOk result (self.new.since ≡ self.old.since ++ octets.now) }
        ensures err { OnErr result (self.new.since ≡ self.old.since) }
        ensures before { self.new.before ≡ self.old.before }
    {
        self.out.extend_from_slice(octets)
    }

    /// What the buffer held, and what was written.
    pub fn into_vec(self) -> Vec<u8>
        ensures { result.items ≡ self.before ++ self.since }
    {
        self.out
    }

    /// What the buffer held at the start: what was written since is cut off.
    pub fn into_before(self) -> Vec<u8>
        ensures { result.items ≡ self.before }
    {
        let Appender { mut out, start } = self;
        out.truncate(start);
        out
    }
}
