//! What a realm gives for the entries that the actor had, in its order.
ghost use Rattle.std.specs.Prelude.{◌≡◌, true};
ghost use Rattle.realm.specs.Sessions.{may_come};

use crate::publishing::{Taken, publishing};
use crate::threads::{CONNS, SUBSCRIBE};
use case_items::said_of;
use realm::{Entry, Item, Realm, RealmConfig};
use std::alloc::{AllocError, Global};
use std::io;
use wamp_ids::{Conn, Topic};

/// A realm, the next word, and how often each connection published so far.
#[derive(Drop)]
pub struct Expecting {
    realm: Realm,
    word: u64,
    published: Vec<u64>,
}

fn realm_of(alloc: Global) -> io::Result<Realm> {
    let Ok(name) = Topic::read(alloc, "r.one") else {
        return Err(AllocError)?;
    };
    let grants = Vec::new(alloc);
    match Realm::new(alloc, RealmConfig { name, grants }) {
        Ok(realm) => Ok(realm),
        Err(_) => Err(AllocError)?,
    }
}

// 1 where the item is the connection's that was taken of, and differs from what was taken next; else 0.
fn differing(alloc: Global, taken: &mut Taken, conn: Conn, item: &Item) -> io::Result<u64> {
    if taken.conn != conn {
        return Ok(0);
    }
    Ok(u64::from(taken.differs(alloc, item)?))
}

// How often the item differs from what was taken of its connection next.
fn count_differing_from(
    alloc: Global,
    all: &mut Vec<Taken>,
    conn: Conn,
    item: &Item,
) -> io::Result<u64> {
    let mut count: u64 = 0;
    for taken in all.iter_mut() {
        count = count.wrapping_add(differing(alloc, taken, conn, item)?);
    }
    Ok(count)
}

// How many of the items differ from what was taken of their connections next.
fn count_differing(alloc: Global, all: &mut Vec<Taken>, given: &[(Conn, Item)]) -> io::Result<u64> {
    let mut count: u64 = 0;
    for (conn, item) in given {
        count = count.wrapping_add(count_differing_from(alloc, all, *conn, item)?);
    }
    Ok(count)
}

// How many items were taken and not compared.
fn count_left(all: &[Taken]) -> u64 {
    let mut left: u64 = 0;
    for taken in all {
        left = left.wrapping_add(taken.left() as u64);
    }
    left
}

impl Expecting {
    pub fn new(alloc: Global) -> io::Result<Expecting> {
        let mut published = Vec::new(alloc);
        for _ in 0..=CONNS {
            published.push(0)?;
        }
        Ok(Expecting {
            realm: realm_of(alloc)?,
            word: 0,
            published,
        })
    }

    // What the next entry gives. One that may not come gives nothing.
    fn apply(&mut self, alloc: Global, entry: Entry) -> io::Result<Vec<(Conn, Item)>> {
        if !self.realm.may_come(&entry) {
            return Ok(Vec::new(alloc));
        }
        match self.realm.apply(alloc, entry) {
            Ok(given) => Ok(given),
            Err(_) => Err(AllocError)?,
        }
    }

    fn next_word(&mut self) -> u64 {
        let word = self.word;
        self.word = word.wrapping_add(1);
        word
    }

    // The connection's next publication, or its subscription, where it published nothing and none is asked for.
    fn said(
        &mut self,
        alloc: Global,
        conn: Conn,
        text: &str,
        word: u64,
    ) -> io::Result<Vec<(Conn, Item)>> {
        match said_of(alloc, text)? {
            None => Ok(Vec::new(alloc)),
            Some(said) => self.apply(alloc, Entry::Said { conn, word, said }),
        }
    }

    // The connection joins and subscribes.
    fn enter(&mut self, alloc: Global, conn: Conn, all: &mut Vec<Taken>) -> io::Result<u64> {
        let word = self.next_word();
        let authid = None;
        let welcome = self.apply(alloc, Entry::Join { conn, word, authid })?;
        let first = count_differing(alloc, all, &welcome)?;
        let subscribed = self.said(alloc, conn, SUBSCRIBE, 0)?;
        Ok(first.wrapping_add(count_differing(alloc, all, &subscribed)?))
    }

    // The connection publishes once more.
    fn publish(&mut self, alloc: Global, conn: Conn, all: &mut Vec<Taken>) -> io::Result<u64> {
        let Some(number) = self.published.get_mut(conn.value() as usize) else {
            return Ok(1);
        };
        let text = publishing(alloc, *number)?;
        *number = number.wrapping_add(1);
        let word = self.next_word();
        let given = self.said(alloc, conn, text.as_str(), word)?;
        count_differing(alloc, all, &given)
    }

    // Each connection joins and subscribes.
    fn enter_all(&mut self, alloc: Global, all: &mut Vec<Taken>) -> io::Result<u64> {
        let mut differences: u64 = 0;
        for number in 1..=CONNS {
            if let Some(conn) = Conn::new(number) {
                differences = differences.wrapping_add(self.enter(alloc, conn, all)?);
            }
        }
        Ok(differences)
    }

    // The connections publish in this order.
    fn publish_all(
        &mut self,
        alloc: Global,
        order: &[Conn],
        all: &mut Vec<Taken>,
    ) -> io::Result<u64> {
        let mut differences: u64 = 0;
        for conn in order {
            differences = differences.wrapping_add(self.publish(alloc, *conn, all)?);
        }
        Ok(differences)
    }

    /// How many items that were taken are others than the realm gives, or are missing, or too many.
    pub fn differences(
        mut self,
        alloc: Global,
        all: &mut Vec<Taken>,
        count: u64,
    ) -> io::Result<u64> {
        let differences = self.enter_all(alloc, all)?;
        let order = match all.first() {
            None => return Ok(u64::MAX),
            Some(taken) => taken.publishers(alloc)?,
        };
        let differences = differences.wrapping_add(self.publish_all(alloc, &order, all)?);
        let missing = count.wrapping_mul(CONNS).abs_diff(order.len() as u64);
        Ok(
            differences
                .wrapping_add(missing)
                .wrapping_add(count_left(all)),
        )
    }
}
