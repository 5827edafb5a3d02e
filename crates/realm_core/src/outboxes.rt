//! The queues of the sessions. One that is empty is not kept.
ghost use Rattle.std.specs.Prelude.{◌≡◌, ◌≢◌, ◌==◌, ◌++◌, ℕ, true, false, [], ◌∷◌, cond, length, MatchOption, IfNone, OnOk, OnErr};
ghost use Rattle.realm_core.specs.body.Outboxes.{outbox_of, AreFilled, AreFilledBut, HasRoom};

use std::alloc::{AllocError, Global};
use std::collections::{BTreeMap, VecDeque};
use wamp_ids::Conn;
use wamp_messages::Item;

/// What was added for a session and not taken yet, the oldest first.
#[derive(Drop)]
pub(crate) struct SessionQueue {
    items: VecDeque<Item>,
}

/// The queue of each connection for which anything waits.
pub(crate) type Outboxes = BTreeMap<Conn, SessionQueue>;

/// How many items wait for the connection.
pub(crate) fn count_for(outboxes: &Outboxes, conn: Conn) -> usize
    ensures { result ≡ length (outbox_of outboxes.now conn) }
{
    match outboxes.get(&conn) {
        None => 0,
        Some(outbox) => outbox.items.len(),
    }
}

/// Whether no item waits for any connection.
pub(crate) fn are_empty(outboxes: &Outboxes) -> bool
    requires { AreFilled outboxes.now }
    ensures none { result ≡ true → (c : ℕ) → outbox_of outboxes.now c ≡ [] }
    ensures some { result ≡ false → (c : ℕ) × (outbox_of outboxes.now c ≢ []) }
{
    outboxes.is_empty()
}

/// Makes room for one more item of the connection.
pub(crate) fn make_room(
    outboxes: &mut Outboxes,
    alloc: Global,
    conn: Conn,
) -> Result<(), AllocError>
    requires { AreFilled outboxes.old }
    ensures items { (c : ℕ) → outbox_of outboxes.new c ≡ outbox_of outboxes.old c }
    ensures room { OnOk result (HasRoom outboxes.new conn) }
    ensures others { AreFilledBut conn outboxes.new }
    ensures filled { OnErr result (AreFilled outboxes.new) }
{
    match outboxes.get_mut(&conn) {
        Some(outbox) => outbox.items.reserve(1),
        None => {
            let mut items = VecDeque::new(alloc);
            items.reserve(1)?;
            outboxes.insert(conn, SessionQueue { items })?;
            Ok(())
        }
    }
}

/// Adds the item at the back of the connection's queue, in which there is room.
pub(crate) fn add(outboxes: &mut Outboxes, conn: Conn, item: Item)
    requires room { HasRoom outboxes.old conn }
    requires others { AreFilledBut conn outboxes.old }
    ensures added { (c : ℕ) → outbox_of outboxes.new c ≡ outbox_of outboxes.old c
        ++ cond (conn == c) (item ∷ []) [] }
    ensures filled { AreFilled outboxes.new }
{
    if let Some(outbox) = outboxes.get_mut(&conn) {
        outbox.items.push_back_reserved(item);
    }
}

/// Takes the front of the connection's queue.
pub(crate) fn take(outboxes: &mut Outboxes, conn: Conn) -> Option<Item>
    requires { AreFilled outboxes.old }
    ensures taken { MatchOption result (outbox_of outboxes.old conn ≡ []) (λ item. (c : ℕ)
        → outbox_of outboxes.old c ≡ cond (conn == c) (item ∷ []) [] ++ outbox_of outboxes.new c) }
    ensures nothing { IfNone result ((c : ℕ)
        → outbox_of outboxes.new c ≡ outbox_of outboxes.old c) }
    ensures filled { AreFilled outboxes.new }
{
    let item = take_front(outboxes, conn);
    drop_empty(outboxes, conn);
    item
}

/// Takes the front of the connection's queue, which may be left empty.
fn take_front(outboxes: &mut Outboxes, conn: Conn) -> Option<Item>
    requires { AreFilled outboxes.old }
    ensures taken { MatchOption result (outbox_of outboxes.old conn ≡ []) (λ item. (c : ℕ)
        → outbox_of outboxes.old c ≡ cond (conn == c) (item ∷ []) [] ++ outbox_of outboxes.new c) }
    ensures nothing { IfNone result ((c : ℕ)
        → outbox_of outboxes.new c ≡ outbox_of outboxes.old c) }
    ensures others { AreFilledBut conn outboxes.new }
{
    match outboxes.get_mut(&conn) {
        None => None,
        Some(outbox) => outbox.items.pop_front(),
    }
}

/// Lets the connection's queue go, where it is empty.
fn drop_empty(outboxes: &mut Outboxes, conn: Conn)
    requires { AreFilledBut conn outboxes.old }
    ensures items { (c : ℕ) → outbox_of outboxes.new c ≡ outbox_of outboxes.old c }
    ensures filled { AreFilled outboxes.new }
{
    if let Some(outbox) = outboxes.get(&conn) {
        if outbox.items.is_empty() {
            outboxes.remove(&conn);
        }
    }
}
