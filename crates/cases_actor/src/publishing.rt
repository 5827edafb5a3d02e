//! Threads that publish, and threads that take.
ghost use Rattle.std.specs.Prelude.{◌≡◌, false, IfOk, IfSome};
ghost use Rattle.realm_inbox.specs.Joins.{is_join};

use crate::seating::post_act;
use case_items::item_text;
use case_posts::{Wire, act_of};
use case_text::Work;
use outbox_queue::{Drain, Waited};
use realm_inbox::{Act, Poster, RealmHistory};
use session::{Item, Said};
use std::alloc::Global;
use std::io;
use std::sync::Wait;
use wamp_ids::Conn;

/// What a connection says to publish for the time of this number, from 0: to itself too, and with an answer.
pub fn publishing(alloc: Global, number: u64) -> io::Result<String> {
    let request = number.wrapping_add(1);
    Ok(format!(in alloc;
        "[16,{request},{{\"acknowledge\":true,\"exclude_me\":false}},\"a.b\",[{number}]]"
    )?)
}

// The same as an act. None where memory was refused.
fn act_of_number(alloc: Global, number: u64) -> Option<Act<Wire>>
    ensures { IfSome result (λ act. is_join act ≡ false) }
{
    let text = publishing(alloc, number).ok()?;
    act_of(alloc, "said", text.as_str()).ok()?
}

/// Publishes so many times.
#[derive(Drop)]
pub struct Publisher {
    pub poster: Poster<Wire>,
    pub count: u64,
    pub alloc: Global,
}

impl<R: Wait + Copy> Work<R, bool> for Publisher {
    /// False where memory was refused.
    fn run(self, rt: R) -> bool {
        let Publisher {
            mut poster,
            count,
            alloc,
        } = self;
        for number in 0..count {
            let Some(act) = act_of_number(alloc, number) else {
                return false;
            };
            if !post_act(&rt, &mut poster, act) {
                return false;
            }
        }
        true
    }
}

/// Takes all that a connection is given.
#[derive(Drop)]
pub struct Writer {
    pub conn: Conn,
    pub drain: Drain<Item, RealmHistory>,
    pub alloc: Global,
}

/// What was taken of a connection, and how much of it was compared so far.
#[derive(Drop)]
pub struct Taken {
    pub conn: Conn,
    pub items: Vec<Item>,
    pub had_memory: bool,
    compared: usize,
}

impl<R: Wait + Copy> Work<R, Taken> for Writer {
    fn run(self, rt: R) -> Taken {
        let Writer {
            conn,
            mut drain,
            alloc,
        } = self;
        let mut taken = Taken {
            conn,
            items: Vec::new(alloc),
            had_memory: true,
            compared: 0,
        };
        for _ in rt.forever() {
            match drain.wait_next(&rt) {
                Waited::Stopped => break,
                Waited::Item(item) => taken.keep(item),
            }
        }
        taken
    }
}

impl Taken {
    fn keep(&mut self, item: Item) {
        if self.items.push(item).is_err() {
            self.had_memory = false;
        }
    }

    /// Whether the next item is another one than this, or there is none.
    pub fn differs(&mut self, alloc: Global, item: &Item) -> io::Result<bool> {
        let Some(taken) = self.items.get(self.compared) else {
            return Ok(true);
        };
        self.compared = self.compared.wrapping_add(1);
        Ok(item_text(alloc, taken)? != item_text(alloc, item)?)
    }

    /// How many items were not compared.
    pub fn left(&self) -> usize {
        self.items.len().saturating_sub(self.compared)
    }

    /// Who published the events, in the order in which they were taken.
    pub fn publishers(&self, alloc: Global) -> io::Result<Vec<Conn>> {
        let mut publishers = Vec::new(alloc);
        for item in &self.items {
            if let Item::Event { publication, .. } = item {
                publishers.push(publication.value().publisher.conn)?;
            }
        }
        Ok(publishers)
    }
}
