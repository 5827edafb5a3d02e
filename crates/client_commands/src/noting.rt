//! What people are told beside the lines.
ghost use Rattle.std.specs.Prelude.{◌≡◌, ◌++◌, IfOk};
ghost use Rattle.client_commands.specs.Notes.{IsNoted, note_of, noting};

use message_tree::Text;
use rawsocket::devices::Sink;
use std::alloc::{AllocError, Global};

/// The line of a topic that is subscribed to.
pub(crate) fn note_of(alloc: Global, topic: &Text) -> Result<Vec<u8>, AllocError>
    ensures line { IfOk result (λ v. v.items ≡ note_of topic.now) }
{
    let mut line = Vec::new(alloc);
    line.extend_from_slice(b"subscribed to ")?;
    line.extend_from_slice(topic.as_str().as_bytes())?;
    line.push(b'\n')?;
    Ok(line)
}

/// Tells a note, and passes it on. A device that fails is passed over, so that nobody misses an event for it; a beginning of the
/// note is told then.
pub(crate) fn tell<N: Sink>(notes: &mut N, note: &[u8])
    ensures { IsNoted note.now (noting (N.seen notes.old))
        (noting (N.seen notes.new)) }
{
    let mut rest = note;
    while !rest.is_empty() {
        let Ok(count) = notes.write_some(rest) else {
            return;
        };
        rest = &rest[count..];
    }
    let _ = notes.flush();
}
