//! The thread that writes to a client.
ghost use Rattle.std.specs.Prelude.{◌≡◌, ◌≤◌};

use crate::closed::Closed;
use crate::fate::Fate;
use crate::herald::Herald;
use crate::plan::Plan;
use crate::work::{Task, Work};
use connection::{OwedPongs, WriteEnd, write_watched};
use outbox_queue::Drain;
use rawsocket::Serializer;
use rawsocket::devices::Sink;
use realm_inbox::{RealmHistory, Shut};
use session::Item;
use std::alloc::Global;
use std::snapshot::Snapshot;
use std::sync::{Arc, Wait};
use std::time::Clock;

/// What a writer's thread has.
#[derive(Drop)]
pub struct Writer<O, S> {
    pub alloc: Global,
    pub plan: Arc<Plan>,
    pub fate: Arc<Fate>,
    /// The place of the session's realm.
    pub realm: usize,
    pub drain: Drain<Item, RealmHistory>,
    /// The reader waits for these, until they are dropped: once the writer has ended, or where it never came to be.
    pub pongs: OwedPongs,
    pub sink: O,
    pub transport: S,
    pub serializer: Serializer,
    pub limit: u32,
    ghost small: { limit ≤ 16777215 },
}

/// How a writer ended.
#[derive(Drop)]
pub struct Written<O> {
    /// The place of the session's realm.
    pub realm: usize,
    /// What it wrote to.
    pub sink: Closed<O>,
    /// The newest history that it knew, if it knew one: that by which its realm's actor vouched for all that was added, else that which the last
    /// item named.
    pub seen: Option<RealmHistory>,
    /// What it took from, as it left that. It takes no bytes.
    pub drain: Snapshot<Drain<Item, RealmHistory>>,
    /// Why it ended.
    pub end: WriteEnd,
    /// How many octets the payload of the item has that it couldn't write, where that is known.
    pub octets: Option<usize>,
}

impl<O: Drop> Written<O> {
    ghost use Rattle.broker_threads.specs.Courses.{seen_by};

    /// The half that was written to, and the newest that was known of its realm's history, if anything was.
    pub fn into_parts(self) -> (Closed<O>, Option<SeenHistory>)
        ensures sink { result.0 ≡ self.sink }
        ensures seen { result.1 ≡ seen_by self }
    {
        let Written {
            realm,
            sink,
            seen,
            drain: _,
            end: _,
            octets: _,
        } = self;
        match seen {
            Some(history) => (sink, Some(SeenHistory { realm, history })),
            None => (sink, None),
        }
    }
}

/// What a writer saw last of the history of a realm.
#[derive(Drop)]
pub struct SeenHistory {
    /// The realm's place.
    pub realm: usize,
    /// What it saw. It takes no bytes.
    pub history: RealmHistory,
}

impl<O: Sink + Drop + Send + 'static, S: Shut> Task for Writer<O, S> {
    ghost use Rattle.broker_threads.specs.Writes.{Writes};

    type Done = Written<O>;

    ghost does = { λ w done. Writes O.seen w done };
}

impl<R: Wait + Clock + Copy, O: Sink + Drop + Send + 'static, S: Shut> Work<R> for Writer<O, S> {
    ghost use Rattle.broker_threads.specs.Writes.{Writes};

    /// Writes what the session is owed, and shuts the transport.
    fn run(self, rt: R) -> Written<O>
        ensures { Writes O.seen self result }
    {
        let Writer {
            alloc,
            plan,
            fate,
            realm,
            drain,
            pongs,
            mut sink,
            transport,
            serializer,
            limit,
        } = self;
        let mut herald = Herald::new(&rt, alloc, &plan, &fate, pongs, realm, serializer, limit);
        let (drain, end) = write_watched(
            &rt,
            alloc,
            drain,
            &mut sink,
            serializer,
            limit,
            &mut herald,
        );
        let octets = herald.octets();
        if end == WriteEnd::Device {
            fate.fail_to_write();
        }
        transport.shut();
        drain.shows();
        let left = Snapshot::of(&drain);
        let seen = drain.into_newest();
        drop(herald);
        Written {
            realm,
            sink: Closed::of(sink),
            seen,
            drain: left,
            end,
            octets,
        }
    }
}
