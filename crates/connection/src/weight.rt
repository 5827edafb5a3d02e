//! What a message takes of what its client may have waiting.
ghost use Rattle.std.specs.Prelude.{◌≡◌, ◌≤◌, ◌<◌};

use realm_inbox::MOST_WAITING;
use session::Said;

/// A message of fewer octets weighs what it is read from, whatever it says: an inbox doesn't count it.
const LEAST_LOOKED_AT: usize = 256;

/// An octet of a topic or of a pattern weighs as much as so many others: the realm compares it with many others, in its one thread.
const URI_TIMES: usize = 64;

// How many octets the topic or the pattern has that was said. None where there is none.
fn uri_octets(said: &Said) -> usize {
    match said {
        Said::Publish(publish) => publish.topic.as_str().len(),
        Said::Subscribe { topic, .. } => topic.as_str().len(),
        _ => 0,
    }
}

/// The octets that a message counts for while it waits, which was read from so many: these, or 64 for each octet of its topic or
/// pattern where that is more, up to all that a client may have waiting. So of topics and patterns a client has 65,536 octets
/// waiting at most, or one that is longer, and the posts of others come between.
///
/// What counts for all that a client may have waiting waits for nothing but what its client said before.
pub(crate) fn weight_of(said: &Said, octets: usize) -> usize
    ensures least { octets ≤ result }
    ensures short { octets < LEAST_LOOKED_AT → result ≡ octets }
{
    if octets < LEAST_LOOKED_AT {
        return octets;
    }
    let dear = uri_octets(said).saturating_mul(URI_TIMES);
    octets.max(dear.min(MOST_WAITING as usize))
}
