//! What an entry gave goes to the outboxes.
ghost use Rattle.std.specs.Prelude.{◌≡◌, ◌||◌, ℕ, List, ◌∷◌, [], Some, false};
ghost use Rattle.wamp_messages.specs.declared.item.Item.{Item as AnItem};
ghost use Rattle.realm_actor.specs.Rows.{Ascending, EachDue, EachGoes, EachHome, NoneRose};

use crate::row::Row;
use crate::row_search::find_by_seat;
use crate::seat_guesses::SeatGuesses;
use realm::Realm;
use realm_inbox::{RealmChronicle, Shut};
use std::sync::Wait;
use wamp_ids::Conn;
use wamp_messages::Item;

// Where the pass over the rows stands, and whether it found an outbox full.
#[derive(Clone, Copy, Drop)]
struct Pass {
    place: usize,
    is_full: bool,
}

// Wakes the writer of the row at the place, if there is one and its waking may not wait.
fn leave<S: Shut>(rows: &[Row<S>], place: usize) {
    if place < rows.len() {
        rows[place].wake_in_need();
    }
}

// Offers the item to the row of its connection. Where that isn't the row that got the item before, the pass leaves that one.
fn offer_one<S: Shut, R: Wait>(
    rt: &R,
    rows: &mut [Row<S>],
    guesses: &mut SeatGuesses,
    pass: Pass,
    conn: Conn,
    item: Item,
    realm: &Realm,
    chronicle: &mut RealmChronicle,
) -> Pass
    requires ascending { Ascending rows.old }
    requires due { (rest : List (ℕ × AnItem)) × EachDue realm.now ((conn, item) ∷ rest) rows.old }
    requires told { chronicle.old.history ≡ Some realm.now }
    requires home { EachHome chronicle.old.chronicle rows.old }
    ensures due { (rest : List (ℕ × AnItem)) → EachDue realm.now ((conn, item) ∷ rest) rows.old
        → EachDue realm.now rest rows.new }
    ensures goes { EachGoes rows.old rows.new }
    ensures none { result.is_full ≡ false → (pass.is_full ≡ false) × NoneRose rows.old rows.new }
    ensures kept { chronicle.new ≡ chronicle.old }
{
    let Some(place) = find_by_seat(rows, pass.place, guesses, conn) else {
        return pass;
    };
    if place != pass.place {
        leave(rows, pass.place);
    }
    let row = &mut rows[place];
    let is_full = row.offer(rt, item, realm, chronicle);
    Pass {
        place,
        is_full: either(pass.is_full, is_full),
    }
}

/// Whether one of the two is true.
pub fn either(first: bool, second: bool) -> bool
    ensures { result ≡ first || second }
{
    first || second
}

/// Offers each item to the row of its connection, in their order, and leaves the list empty. True where an outbox was found full.
pub fn offer_all<S: Shut, R: Wait>(
    rt: &R,
    rows: &mut [Row<S>],
    guesses: &mut SeatGuesses,
    given: &mut Vec<(Conn, Item)>,
    realm: &Realm,
    chronicle: &mut RealmChronicle,
) -> bool
    requires ascending { Ascending rows.old }
    requires due { EachDue realm.now given.old.items rows.old }
    requires told { chronicle.old.history ≡ Some realm.now }
    requires home { EachHome chronicle.old.chronicle rows.old }
    ensures due { EachDue realm.now [] rows.new }
    ensures goes { EachGoes rows.old rows.new }
    ensures none { result ≡ false → NoneRose rows.old rows.new }
    ensures kept { chronicle.new ≡ chronicle.old }
{
    let mut pass = Pass {
        place: rows.len(),
        is_full: false,
    };
    for (conn, item) in given.drain(..) {
        pass = offer_one(rt, rows, guesses, pass, conn, item, realm, chronicle);
    }
    leave(rows, pass.place);
    pass.is_full
}

/// Wakes each writer for whom items were added since it was last woken.
pub fn wake_all<S: Shut>(rows: &[Row<S>]) {
    for row in rows {
        row.wake();
    }
}
