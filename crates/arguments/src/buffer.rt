//! A buffer to write in.
ghost use Rattle.std.specs.Prelude.{◌≡◌, [], IfOk};

use message_tree::Appender;
use std::alloc::{AllocError, Global};

/// An empty buffer with room for so many octets.
pub(crate) fn buffer(alloc: Global, len: usize) -> Result<Appender, AllocError>
    ensures before { IfOk result (λ out. out.before ≡ []) }
    ensures since { IfOk result (λ out. out.since ≡ []) }
{
    let mut octets = Vec::new(alloc);
    octets.reserve_exact(len)?;
    Ok(Appender::new(octets))
}
