//! A retained publication, and how many components its topic has.
ghost use Rattle.std.specs.Prelude.{◌≡◌, IfOk};
ghost use Rattle.wamp_ids.specs.Pattern.{matches};
ghost use Rattle.retained.specs.body.Counts.{component_count, wildcard_count};

use message_tree::Shared;
use std::alloc::AllocError;
use std::marker::Model;
use wamp_ids::{Pattern, Policy};
use wamp_messages::Publication;

/// A retained publication. The components of its topic are counted once, when it is kept: a topic may
/// be long, and a wildcard of another number of components isn't compared with it.
#[derive(Drop)]
pub(crate) struct Kept {
    publication: Shared<Publication>,
    counted: usize,
}

impl Model for Kept {
    ghost use Rattle.std.specs.Prelude.{◌≡◌};
    ghost use Rattle.wamp_messages.specs.contracts.item.Publication.{the_row};
    ghost use Rattle.wamp_messages.specs.declared.item.Publication.{Publication};
    ghost use Rattle.retained.specs.body.Counts.{component_count};

    ghost Value = { Publication };

    ghost coded = { the_row.coded };

    ghost view = { λ k. k.publication };

    ghost invariant = { λ k. k.counted ≡ component_count k.publication.topic };
}

impl Kept {
    /// The publication, with its topic's components counted.
    pub(crate) fn of(publication: Shared<Publication>) -> Kept
        ensures { result ≡ publication }
    {
        let counted = component_count(publication.value().topic.text().as_bytes());
        Kept {
            publication,
            counted,
        }
    }

    /// The publication.
    pub(crate) fn publication(&self) -> &Publication
        ensures { result.now ≡ self.now }
    {
        self.publication.value()
    }

    /// Another holder of the publication.
    pub(crate) fn twin(&self) -> Result<Shared<Publication>, AllocError>
        ensures { IfOk result (λ p. p ≡ self.now) }
    {
        self.publication.twin()
    }

    /// Whether the pattern, whose components are counted where it is a wildcard, matches the topic.
    /// A wildcard of dots alone matches each topic of as many components.
    pub(crate) fn is_matched(&self, pattern: &Pattern, counted: Option<usize>) -> bool
        requires { counted ≡ wildcard_count pattern.now }
        ensures { result ≡ matches pattern.now self.now.topic }
    {
        match counted {
            None => pattern.matches(&self.publication.value().topic),
            Some(count) => {
                count == self.counted
                    && (pattern.text().len() + 1 == count
                        || pattern.matches(&self.publication.value().topic))
            }
        }
    }
}

/// How many components a wildcard has; `None` of the other policies, which compare no components.
pub(crate) fn wildcard_count(pattern: &Pattern) -> Option<usize>
    ensures { result ≡ wildcard_count pattern.now }
{
    match pattern.policy() {
        Policy::Exact | Policy::Prefix => None,
        Policy::Wildcard => Some(component_count(pattern.text().as_bytes())),
    }
}

/// How many components a text has: one more than dots.
fn component_count(text: &[u8]) -> usize
    ensures { result ≡ component_count text.now }
{
    let mut dots = 0;
    for octet in text {
        if *octet == b'.' {
            dots += 1;
        }
    }
    dots + 1
}
