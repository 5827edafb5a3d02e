//! The components of a topic.
ghost use Rattle.std.specs.Prelude.{◌≡◌, map, IfOk};
ghost use Rattle.wamp_ids.specs.Uri.{components};

use std::alloc::{AllocError, Global};
use wamp_ids::dot_in;

/// The components of the topic, in order.
pub(crate) fn parts_of(alloc: Global, topic: &[u8]) -> Result<Vec<&[u8]>, AllocError>
    ensures { IfOk result (λ parts. map (λ p. p.now) parts.items ≡ components topic.now) }
{
    let mut parts = Vec::new(alloc);
    let mut rest = topic;
    while let Some(i) = dot_in(rest) {
        parts.push(&rest[..i])?;
        rest = &rest[i + 1..];
    }
    parts.push(rest)?;
    Ok(parts)
}
