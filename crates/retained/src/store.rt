//! The last publication of each topic, topics ascending.
ghost use Rattle.std.specs.Prelude.{◌≡◌, ◌↔◌, ◌≤◌, ◌&&◌, [], true, false, length, Err, IfOk, IsOk, OnOk, OnErr, MatchResult};
ghost use Rattle.std.specs.Cmp.Lexicographic.{slice_cmp};
ghost use Rattle.std.specs.List.{filter};
ghost use Rattle.std.specs.Ordering.{nat_cmp};
ghost use Rattle.eligibility.specs.Lists.{admits};
ghost use Rattle.wamp_ids.specs.Pattern.{matches};
ghost use Rattle.retained.specs.body.Counts.{wildcard_count};
ghost use Rattle.retained.specs.body.Places.{GoesAt, IsAt};
ghost use Rattle.retained.specs.Store.{AreByTopic, has_room, has_topic, is_full, set_topic};

use crate::fault::Fault;
use crate::kept::{Kept, wildcard_count};
use message_tree::Shared;
use std::alloc::{AllocError, Global};
use std::cmp::Ordering;
use std::marker::Model;
use wamp_ids::{Pattern, Policy};
use wamp_messages::{Publication, Who};

/// How many topics may have a retained publication.
const MOST_RETAINED: usize = 1000;

/// The retained publications of a realm: of each topic at most one, and of at most 1,000 topics.
/// Contracts see them in strictly ascending order of the topics' bytes, which is how they stand: a
/// topic is found by halves.
#[derive(Drop)]
pub struct Store {
    publications: Vec<Kept>,
    // The octets of their topics and arguments. Contracts see nothing of it.
    octets: u64,
}

impl Model for Store {
    ghost use Rattle.std.specs.Coded.{coded_list};
    ghost use Rattle.std.specs.Prelude.{List};
    ghost use Rattle.retained.specs.Store.{IsStore};
    ghost use Rattle.wamp_messages.specs.contracts.item.Publication.{the_row};
    ghost use Rattle.wamp_messages.specs.declared.item.Publication.{Publication};

    ghost Value = { List Publication };

    ghost coded = { coded_list the_row.coded };

    ghost view = { λ s. s.publications.items };

    ghost invariant = { λ s. IsStore s.publications.items };
}

impl Store {
    /// A store with nothing in it.
    pub fn new(alloc: Global) -> Store
        ensures { result ≡ [] }
    {
        Store {
            publications: Vec::new(alloc),
            octets: 0,
        }
    }

    /// Whether a publication of this topic may be kept: its topic has one already, or fewer than
    /// 1,000 topics have.
    pub fn has_room(&self, topic: &str) -> bool
        ensures { result ≡ has_room self.now topic.now }
    {
        self.publications.len() < MOST_RETAINED || place_of(&self.publications, topic).is_ok()
    }

    /// Whether as many topics as may have a retained publication have one: 1,000.
    pub fn is_full(&self) -> bool
        ensures { result ≡ is_full self.now }
    {
        MOST_RETAINED <= self.publications.len()
    }

    /// How many topics have a retained publication.
    pub fn len(&self) -> usize
        ensures { result ≡ length self.now }
    {
        self.publications.len()
    }

    /// How many octets their topics and arguments take, for who looks on.
    pub fn octets(&self) -> u64 {
        self.octets
    }

    /// The octets without those of the publication at this place.
    fn octets_without(&self, place: usize) -> u64 {
        match self.publications.get(place) {
            Some(kept) => self.octets.wrapping_sub(kept.publication().octets()),
            None => self.octets,
        }
    }

    /// Keeps a publication, in the place of what its topic had.
    ///
    /// # Errors
    /// `RetainedFull` exactly where there is no room for the topic; `NoMemory` where a growth was
    /// refused, which a topic that has one needs not. Nothing is changed then.
    pub fn keep(&mut self, _alloc: Global, publication: Shared<Publication>) -> Result<(), Fault>
        ensures kept { OnOk result (self.new ≡ set_topic publication self.old) }
        ensures full { (result ≡ Err Fault.RetainedFull)
            ↔ (has_room self.old publication.topic ≡ false) }
        ensures replaced { has_topic publication.topic self.old ≡ true → IsOk result }
        ensures unchanged { OnErr result (self.new ≡ self.old) }
        ensures few { length self.new ≤ 1000 }
    {
        match place_of(&self.publications, publication.value().topic.text()) {
            Ok(place) => {
                let octets = self
                    .octets_without(place)
                    .wrapping_add(octets_of(&publication));
                self.publications[place] = Kept::of(publication);
                self.octets = octets;
                Ok(())
            }
            Err(place) => {
                if self.publications.len() >= MOST_RETAINED {
                    return Err(Fault::RetainedFull);
                }
                let octets = self.octets.wrapping_add(octets_of(&publication));
                self.publications.insert(place, Kept::of(publication))?;
                self.octets = octets;
                Ok(())
            }
        }
    }

    /// Those whose topic the pattern matches, in strictly ascending order of the topics' bytes.
    ///
    /// # Errors
    /// `AllocError` where a growth was refused.
    pub fn matching(
        &self,
        alloc: Global,
        pattern: &Pattern,
    ) -> Result<Vec<Shared<Publication>>, AllocError>
        ensures found { IfOk result (λ found.
            found.items ≡ filter (λ p. matches pattern.now p.topic) self.now) }
        ensures order { IfOk result (λ found. AreByTopic found.items) }
    {
        let counted = wildcard_count(pattern);
        let mut found = Vec::new(alloc);
        for kept in candidates(&self.publications, pattern) {
            if kept.is_matched(pattern, counted) {
                found.push(kept.twin()?)?;
            }
        }
        Ok(found)
    }

    /// Those of them that admit the session, in the same order. The others aren't shared for it.
    ///
    /// # Errors
    /// `AllocError` where a growth was refused.
    pub fn admitting(
        &self,
        alloc: Global,
        pattern: &Pattern,
        who: &Who,
    ) -> Result<Vec<Shared<Publication>>, AllocError>
        ensures { IfOk result (λ found. found.items ≡
            filter (λ p. admits p.lists who.now p.publisher)
            (filter (λ p. matches pattern.now p.topic) self.now)) }
    {
        let counted = wildcard_count(pattern);
        let mut found = Vec::new(alloc);
        for kept in candidates(&self.publications, pattern) {
            if is_for(kept, pattern, counted, who) {
                found.push(kept.twin()?)?;
            }
        }
        Ok(found)
    }
}

/// The octets of a publication's topic and arguments.
fn octets_of(publication: &Shared<Publication>) -> u64 {
    publication.value().octets()
}

/// Whether the pattern, whose components are counted where it is a wildcard, matches the
/// publication's topic, and the publication admits the session.
fn is_for(kept: &Kept, pattern: &Pattern, counted: Option<usize>, who: &Who) -> bool
    requires { counted ≡ wildcard_count pattern.now }
    ensures { result ≡ (matches pattern.now kept.now.topic
        && admits kept.now.lists who.now kept.now.publisher) }
{
    let publication = kept.publication();
    kept.is_matched(pattern, counted) && publication.lists.admits(who, &publication.publisher)
}

/// How the publication's topic compares with another topic, by their bytes.
fn compare(kept: &Kept, topic: &str) -> Ordering
    ensures { result ≡ slice_cmp nat_cmp kept.now.topic topic.now }
{
    kept.publication().topic.text().cmp(topic)
}

/// Of publications in order those that the pattern may match: an exact one matches one at most.
fn candidates<'a>(publications: &'a [Kept], pattern: &Pattern) -> &'a [Kept]
    requires { AreByTopic publications.now }
    ensures { filter (λ p. matches pattern.now p.topic) result.now
        ≡ filter (λ p. matches pattern.now p.topic) publications.now }
{
    match pattern.policy() {
        Policy::Prefix | Policy::Wildcard => publications,
        Policy::Exact => match place_of(publications, pattern.text()) {
            Ok(place) => &publications[place..place + 1],
            Err(_) => &[],
        },
    }
}

/// Where the topic is among publications in order, or where it goes.
fn place_of(publications: &[Kept], topic: &str) -> Result<usize, usize>
    requires { AreByTopic publications.now }
    ensures { MatchResult result (λ i. IsAt publications.now i topic.now)
        (λ i. GoesAt publications.now i topic.now) }
{
    publications.binary_search_by(|kept| compare(kept, topic))
}
