//! What is told of what a session's writer does.
use crate::fate::Fate;
use crate::plan::Plan;
use connection::{OwedPongs, Watch};
use log_lines::{Opening, opened};
use rawsocket::Serializer;
use session::{Fault, Item, Who, write_payload};
use std::alloc::{AllocError, Global};
use std::sync::Wait;
use std::time::Clock;

/// Tells of the session that a WELCOME opens; and counts what is taken and written, and the octets of an item that can't be. What it is told it
/// tells the session's PONGs, which keep it.
#[derive(Drop)]
pub struct Herald<'a, R> {
    rt: &'a R,
    alloc: Global,
    plan: &'a Plan,
    fate: &'a Fate,
    pongs: OwedPongs,
    realm: usize,
    serializer: Serializer,
    limit: u32,
    // Whether the log tells of the realm, and so of its outboxes.
    is_counted: bool,
    // How many items the writer took: a WELCOME is the first one.
    taken: u64,
    // How many EVENTs it wrote.
    events: u64,
    octets: Option<usize>,
}

impl<'a, R> Herald<'a, R> {
    /// Who watches the writer of a session of the realm at this place, whose client takes so many octets in one payload.
    pub fn new(
        rt: &'a R,
        alloc: Global,
        plan: &'a Plan,
        fate: &'a Fate,
        pongs: OwedPongs,
        realm: usize,
        serializer: Serializer,
        limit: u32,
    ) -> Herald<'a, R> {
        Herald {
            rt,
            alloc,
            plan,
            fate,
            pongs,
            realm,
            serializer,
            limit,
            is_counted: plan.board(realm).is_some(),
            taken: 0,
            events: 0,
            octets: None,
        }
    }

    /// How many octets the payload of the item has that couldn't be written: `None` where each one could, where that one has no spelling,
    /// or where there was no memory to count them.
    pub fn octets(&self) -> Option<usize> {
        self.octets
    }

    // The line of a session.
    fn line(&self, alloc: Global, who: &Who) -> Result<Vec<u8>, AllocError> {
        let realm = match self.plan.realms.get(self.realm) {
            Some(realm) => realm.text(),
            None => "",
        };
        let opening = Opening {
            session: who.id.value(),
            realm,
            authid: who.authid.value().as_str(),
            authrole: who.authrole.value().as_str(),
            serializer: self.serializer,
            limit: self.limit,
        };
        opened(alloc, who.conn, &opening)
    }
}

impl<R: Wait + Clock> Herald<'_, R> {
    // Tells of a session that is open.
    fn welcome(&self, who: &Who) {
        self.fate.admit();
        if let Some(log) = &self.plan.log {
            log.tell(self.rt, self.line(log.alloc(), who));
        }
    }
}

impl<R: Wait + Clock> Watch for Herald<'_, R> {
    ghost told = { λ h. ⟦<OwedPongs as Watch>⟧.told h.pongs };

    fn takes(&mut self, item: &Item) {
        self.pongs.takes(item);
        if self.taken == 0 {
            if let Item::Welcome(who) = item {
                self.welcome(who);
            }
        }
        self.taken = self.taken.wrapping_add(1);
        if self.is_counted {
            self.fate.note_taken(self.taken);
        }
    }

    fn writes(&mut self, item: &Item) {
        if let Item::Event { .. } = item {
            self.events = self.events.wrapping_add(1);
        }
        self.pongs.writes(item);
    }

    fn ends(&mut self, octets: u64) {
        self.fate.note_written(self.events, octets);
    }

    fn gives_up(&mut self, item: &Item, fault: Fault) {
        self.pongs.gives_up(item, fault);
        if self.plan.log.is_some() && fault == Fault::TooLongForClient {
            self.octets = octets_in(self.alloc, self.serializer, item);
        }
    }
}

// How many octets the item has in one payload. None where it has no spelling, or there is no memory for them.
fn octets_in(alloc: Global, serializer: Serializer, item: &Item) -> Option<usize> {
    let mut payload = Vec::new(alloc);
    match write_payload(alloc, serializer, item, &mut payload) {
        Ok(()) => Some(payload.len()),
        Err(_) => None,
    }
}
