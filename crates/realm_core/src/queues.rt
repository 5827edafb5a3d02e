//! Lists by connection: the first, the least, what is removed.
ghost use Rattle.std.specs.Prelude.{◌≡◌, ℕ, [], ◌∷◌, drop, MatchOption, None};
ghost use Rattle.std.specs.List.{filter};
ghost use Rattle.std.specs.Option.{option_copied};
ghost use Rattle.realm.specs.Sessions.{live};
ghost use Rattle.realm_core.specs.Worlds.{is_in, unless_any, IsLeast};
ghost use Rattle.realm_core.specs.body.Rest.{IsFirstOf};
ghost use Rattle.realm_core.specs.body.Queues.{FrontIs, lesser, least_of};

use realm::{Entry, Realm};
use std::collections::VecDeque;
use wamp_ids::Conn;
use wamp_messages::Item;

/// Whether the connection is in the list.
pub fn is_in(conns: &[Conn], conn: Conn) -> bool
    ensures { result ≡ is_in conn conns.now }
{
    for other in conns {
        if *other == conn {
            return true;
        }
    }
    false
}

/// The lesser of two connections, where there are two.
fn lesser(best: Option<Conn>, conn: Conn) -> Option<Conn>
    ensures { result ≡ lesser best conn }
{
    match best {
        None => Some(conn),
        Some(best) => {
            if best.value() <= conn.value() {
                Some(best)
            } else {
                Some(conn)
            }
        }
    }
}

/// The least of those connections that are live.
pub fn least_live(realm: &Realm, conns: &[Conn]) -> Option<Conn>
    ensures { result ≡ least_of None (filter (live realm.now) conns.now) }
{
    let mut best = None;
    for conn in conns {
        if realm.is_live(*conn) {
            best = lesser(best, *conn);
        }
    }
    best
}

/// The front of the inbox.
fn front(inbox: &VecDeque<Entry>) -> Option<&Entry>
    ensures { FrontIs (option_copied result) inbox.now.items (drop 1 inbox.now.items) }
{
    inbox.front()
}

/// The first item that waits to be pushed, and for whom it is.
fn first(pushing: &VecDeque<(Conn, Item)>) -> Option<&(Conn, Item)>
    ensures { MatchOption (option_copied result) (pushing.now.items ≡ [])
        (λ pair. pushing.now.items ≡ pair ∷ drop 1 pushing.now.items) }
{
    pushing.front()
}

/// For whom the first item is that waits to be pushed.
pub fn first_conn(pushing: &VecDeque<(Conn, Item)>) -> Option<Conn>
    ensures { MatchOption result (pushing.now.items ≡ [])
        (λ conn. IsFirstOf conn pushing.now.items) }
{
    match first(pushing) {
        None => None,
        Some(pair) => Some(pair.0),
    }
}

/// Takes the front out of the inbox, if there is one.
pub fn remove_front(inbox: &mut VecDeque<Entry>)
    ensures { inbox.new.items ≡ drop 1 inbox.old.items }
{
    inbox.pop_front();
}

/// Lets the first item that waits to be pushed go, if there is one.
pub fn remove_first(pushing: &mut VecDeque<(Conn, Item)>)
    ensures { pushing.new.items ≡ drop 1 pushing.old.items }
{
    pushing.pop_front();
}

/// The front of the inbox, unless any item waits to be pushed or any of those connections is live.
pub fn next_post<'a>(
    realm: &Realm,
    pushing: &VecDeque<(Conn, Item)>,
    marks: &[Conn],
    inbox: &'a VecDeque<Entry>,
) -> Option<&'a Entry>
    ensures { FrontIs (option_copied result)
        (unless_any pushing.now.items
        (unless_any (filter (live realm.now) marks.now) inbox.now.items)) (drop 1 inbox.now.items) }
{
    match first(pushing) {
        Some(_waits) => None,
        None => match least_live(realm, marks) {
            Some(_marked) => None,
            None => front(inbox),
        },
    }
}

/// The least of those connections that are live, unless any item waits to be pushed.
pub fn next_leaver(realm: &Realm, pushing: &VecDeque<(Conn, Item)>, marks: &[Conn]) -> Option<Conn>
    ensures { MatchOption result (unless_any pushing.now.items (filter (live realm.now) marks.now)
        ≡ []) (λ c. IsLeast c (unless_any pushing.now.items (filter (live realm.now) marks.now))) }
{
    match first(pushing) {
        Some(_) => None,
        None => least_live(realm, marks),
    }
}
