//! A session's row in the actor's table: its outbox and its transport, as long as they are held.
ghost use Rattle.std.specs.Prelude.{◌≡◌, ◌<◌, false, true, ◌∷◌, List, Some, length, slice_get};
ghost use Rattle.std.specs.Option.{ForSome};
ghost use Rattle.wamp_messages.specs.declared.item.Item.{Item as AnItem};
ghost use Rattle.realm.specs.Yield.{owed};
ghost use Rattle.realm_actor.specs.OutboxHistory.{Follows, Goes, IsHome};

use outbox_queue::{Full, Outbox, Stamped};
use realm::Realm;
use realm_inbox::{RealmChronicle, RealmHistory, RealmMoment, Shut};
use std::cell::Cell;
use std::sync::Wait;
use wamp_ids::Conn;
use wamp_messages::Item;

// Stamps the item, which is the next that the realm's history owes the outbox's session, by that history, which its chronicle
// has recorded, and records once more.
fn stamp(
    outbox: &Outbox<Item, RealmHistory>,
    item: Item,
    realm: &Realm,
    chronicle: &mut RealmChronicle,
) -> Stamped<Item, RealmHistory>
    requires next { slice_get (owed realm.now outbox.now.conn) (length outbox.now.added)
        ≡ Some item }
    requires told { chronicle.old.history ≡ Some realm.now }
    ensures stamped { result ≡ record {
      item = item;
      conn = outbox.now.conn;
      place = length outbox.now.added;
      history = record { chronicle = chronicle.old.chronicle; history = realm.now };
    } }
    ensures kept { chronicle.new ≡ chronicle.old }
{
    let history = RealmHistory::by(chronicle, &RealmMoment::of(realm));
    outbox.stamp(item, history)
}

/// The outbox of a session, its transport, and whether a step found the outbox full.
#[derive(Drop)]
pub struct HeldOutbox<S: Shut> {
    pub outbox: Outbox<Item, RealmHistory>,
    pub transport: S,
    pub is_full: bool,
    /// How many items were added since its writer was last woken.
    pub since_wake: Cell<usize>,
    /// How many items were added, for who looks on.
    pub added: Cell<u64>,
    ghost full: { is_full ≡ true → 0 < outbox.full_finds },
    ghost never: { is_full ≡ false → outbox.full_finds ≡ 0 },
}

impl<S: Shut> HeldOutbox<S> {
    /// Adds the item, which is the next that the realm's history owes, unless the outbox was found full before or is now. True
    /// where it is now.
    pub fn offer<R: Wait>(
        &mut self,
        rt: &R,
        item: Item,
        realm: &Realm,
        chronicle: &mut RealmChronicle,
    ) -> bool
        requires follows { (due : List AnItem) × Follows realm.now (item ∷ due) self.old.outbox }
        requires told { chronicle.old.history ≡ Some realm.now }
        requires home { IsHome chronicle.old.chronicle self.old.outbox }
        ensures follows { (due : List AnItem) → Follows realm.now (item ∷ due) self.old.outbox
            → Follows realm.now due self.new.outbox }
        ensures goes { Goes self.old.outbox self.new.outbox }
        ensures rose { result ≡ true → self.old.outbox.full_finds < self.new.outbox.full_finds }
        ensures same { result ≡ false → self.new.outbox.full_finds ≡ self.old.outbox.full_finds }
        ensures transport { self.new.transport ≡ self.old.transport }
        ensures kept { chronicle.new ≡ chronicle.old }
    {
        if self.is_full {
            return false;
        }
        let stamped = stamp(&self.outbox, item, realm, chronicle);
        if let Err(Full(_)) = self.outbox.add(rt, stamped) {
            self.is_full = true;
            self.transport.note_full();
            return true;
        }
        self.count();
        false
    }

    // One item more waits for its writer to be woken.
    fn count(&self) {
        self.since_wake.set(self.since_wake.get().saturating_add(1));
        self.added.set(self.added.get().wrapping_add(1));
    }

    /// Closes the outbox.
    pub fn close(&mut self)
        ensures outbox { self.new.outbox ≡ record self.old.outbox { is_closed = true } }
        ensures transport { self.new.transport ≡ self.old.transport }
    {
        self.outbox.close();
    }

    // Wakes the writer, if as many items were added since it was last woken.
    fn wake_from(&self, least: usize) {
        if least <= self.since_wake.get() {
            self.since_wake.set(0);
            self.outbox.wake();
        }
    }
}

/// A row of the actor's table. A session that is live and no longer held has one too.
#[derive(Drop)]
pub struct Row<S: Shut> {
    pub conn: Conn,
    pub held: Option<HeldOutbox<S>>,
    /// Whether it was found full in the handling of the post.
    pub is_cut: bool,
    /// Whether it was cut for want of memory in the handling of the post.
    pub is_lost: bool,
    /// Whether memory was refused for something of its session, so that it was cut. It stays, and goes out with the outbox.
    pub was_lost: bool,

    ghost of_conn: { ForSome held (λ e. e.outbox.conn ≡ conn) },
}

impl<S: Shut> Row<S> {
    ghost use Rattle.realm_actor.specs.Rows.{Rose, RowDue, RowGoes, RowHome, box_in};
    ghost use Rattle.realm_actor.specs.Tables.{BoxEnds};

    /// Offers the item, which is the next that the realm's history owes, to the row's outbox, if it is held. True where that is
    /// found full.
    pub fn offer<R: Wait>(
        &mut self,
        rt: &R,
        item: Item,
        realm: &Realm,
        chronicle: &mut RealmChronicle,
    ) -> bool
        requires due { (due : List AnItem) × RowDue realm.now (item ∷ due) self.old }
        requires told { chronicle.old.history ≡ Some realm.now }
        requires home { RowHome chronicle.old.chronicle self.old }
        ensures due { (due : List AnItem) → RowDue realm.now (item ∷ due) self.old
            → RowDue realm.now due self.new }
        ensures goes { RowGoes self.old self.new }
        ensures same { result ≡ false → Rose (box_in self.old) (box_in self.new) → ⊥ }
        ensures kept { chronicle.new ≡ chronicle.old }
    {
        let Some(held) = &mut self.held else {
            return false;
        };
        if held.offer(rt, item, realm, chronicle) {
            self.is_cut = true;
            return true;
        }
        false
    }

    /// The row of a connection that joins.
    pub fn new(conn: Conn, outbox: Outbox<Item, RealmHistory>, transport: S) -> Row<S>
        requires own { outbox.conn ≡ conn }
        requires never { outbox.full_finds ≡ 0 }
        ensures conn { result.conn ≡ conn }
        ensures outbox { box_in result ≡ Some outbox }
        ensures is_cut { result.is_cut ≡ false }
        ensures is_lost { result.is_lost ≡ false }
        ensures was_lost { result.was_lost ≡ false }
    {
        let held = HeldOutbox {
            outbox,
            transport,
            is_full: false,
            since_wake: Cell::new(0),
            added: Cell::new(0),
        };
        Row {
            conn,
            held: Some(held),
            is_cut: false,
            is_lost: false,
            was_lost: false,
        }
    }

    /// Shuts the row's transport, if it is held.
    pub fn shut(&self) {
        if let Some(held) = &self.held {
            held.transport.shut();
        }
    }

    /// Tells the row's transport, if it is held, that the session is cut for want of memory.
    pub fn tell_lost(&self) {
        if let Some(held) = &self.held {
            held.transport.note_lost();
        }
    }

    /// Tells the row's transport, if it is held, that a request of the session was refused. Whether it is the first one that was.
    pub fn tell_refusal(&self) -> bool {
        match &self.held {
            Some(held) => held.transport.note_refusal(),
            None => false,
        }
    }

    /// How many items wait in the row's outbox, if it is held and its transport counts those that were taken.
    pub fn waiting(&self) -> u64 {
        let Some(held) = &self.held else {
            return 0;
        };
        match held.transport.taken() {
            Some(taken) => held.added.get().saturating_sub(taken),
            None => 0,
        }
    }

    /// Closes the row's outbox, if it is held.
    pub fn close(&mut self)
        ensures conn { self.new.conn ≡ self.old.conn }
        ensures is_cut { self.new.is_cut ≡ self.old.is_cut }
        ensures is_lost { self.new.is_lost ≡ self.old.is_lost }
        ensures was_lost { self.new.was_lost ≡ self.old.was_lost }
        ensures outbox { BoxEnds true (box_in self.old) (box_in self.new) }
    {
        let Some(held) = &mut self.held else {
            return;
        };
        held.close();
    }

    /// Wakes the row's writer, if items were added since it was last woken.
    pub fn wake(&self) {
        if let Some(held) = &self.held {
            held.wake_from(1);
        }
    }

    /// The same, if these items are a quarter of its outbox's capacity: then its waking may not wait.
    pub fn wake_in_need(&self) {
        if let Some(held) = &self.held {
            held.wake_from(held.outbox.capacity().div_ceil(4));
        }
    }
}
