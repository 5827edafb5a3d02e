//! The EVENTs of a publication: who gets one, under which number, in which order.
ghost use Rattle.std.specs.Prelude.{◌≡◌, ◌≤◌, ◌<◌, ◌+◌, ◌++◌, cond, length, vec_len, [], ◌∷◌, IfOk, OnOk, true};
ghost use Rattle.std.specs.Vec.{vec_capacity};
ghost use Rattle.std.specs.List.{insert};
ghost use Rattle.subscription_index.specs.Receiver.{receivers};
ghost use Rattle.eligibility.specs.Lists.{has_no_lists};
ghost use Rattle.wamp_messages.specs.declared.item.Item.{Item};
ghost use Rattle.realm.specs.Yield.{names_topic};
ghost use Rattle.realm.specs.Publications.{admits};
ghost use Rattle.realm.specs.Yield.{admits_who};
ghost use Rattle.realm.specs.body.LiveSessions.{session_of, AreLive};
ghost use Rattle.realm.specs.body.Outputs.{all_for, event_for, events_to, put_before, put_first, IsAnswer};

use crate::fault::Fault;
use crate::sessions::Sessions;
use message_tree::Shared;
use std::alloc::Global;
use subscription_index::{Index, Receiver, Receivers};
use wamp_ids::{Conn, Policy, Topic};
use wamp_messages::{Item, Publication, Who};

/// What an entry gives: for each item the connection that it is for.
pub type Given = Vec<(Conn, Item)>;

/// One item for one connection.
pub fn one(alloc: Global, conn: Conn, item: Item) -> Result<Given, Fault>
    ensures { IfOk result (λ given. given.items ≡ all_for conn (item ∷ [])) }
{
    let mut given = Vec::new(alloc);
    given.push((conn, item))?;
    Ok(given)
}

/// Where the items of the connection begin.
fn place_of(given: &[(Conn, Item)], conn: Conn) -> usize
    ensures within { result ≤ length given.now }
    ensures place { (item : Item) → insert given.now result (conn, item) ≡ put_before conn item
        given.now }
{
    for i in 0..given.len() {
        if given[i].0.value() >= conn.value() {
            return i;
        }
    }
    given.len()
}

/// Puts an item before what the connection is given.
pub fn put_before(given: &mut Given, conn: Conn, item: Item) -> Result<(), Fault>
    ensures { OnOk result (given.new.items ≡ put_before conn item given.old.items) }
{
    let place = place_of(given, conn);
    given.insert(place, (conn, item))?;
    Ok(())
}

/// Puts an item, where there is one, before what the connection is given.
pub fn put_first(given: &mut Given, conn: Conn, item: Option<Item>) -> Result<(), Fault>
    ensures { OnOk result (given.new.items ≡ put_first conn item given.old.items) }
{
    match item {
        None => Ok(()),
        Some(item) => put_before(given, conn, item),
    }
}

/// Whether EVENT.Details names the topic: where the pattern doesn't.
pub fn names_topic(policy: Policy) -> bool
    ensures { result ≡ names_topic policy }
{
    match policy {
        Policy::Exact => false,
        Policy::Prefix => true,
        Policy::Wildcard => true,
    }
}

/// Whether the publication admits the session.
fn admits(publication: &Publication, who: &Who) -> bool
    ensures { result ≡ admits publication.now who.now }
{
    publication.lists.admits(who, &publication.publisher)
}

/// Whether the publication admits the session of the connection.
fn is_admitted(sessions: &Sessions, publication: &Publication, conn: Conn) -> bool
    ensures { result ≡ admits_who publication.now (session_of sessions.now conn) }
{
    match sessions.find(conn) {
        None => false,
        Some(who) => admits(publication, who),
    }
}

/// The same, where the last answer may be that of the connection.
fn is_admitted_after(
    last: Option<(Conn, bool)>,
    sessions: &Sessions,
    publication: &Publication,
    conn: Conn,
) -> bool
    requires { IsAnswer sessions.now publication.now last }
    ensures { result ≡ admits_who publication.now (session_of sessions.now conn) }
{
    if let Some((asked, answer)) = last {
        if asked == conn {
            return answer;
        }
    }
    is_admitted(sessions, publication, conn)
}

/// Adds the EVENT of a publication for one receiver, where it is admitted.
fn add_event(
    given: &mut Given,
    admitted: bool,
    made: &Shared<Publication>,
    receiver: &Receiver,
) -> Result<(), Fault>
    requires { vec_len given.old < vec_capacity given.old }
    ensures items { OnOk result (given.new.items ≡ given.old.items ++ all_for
        receiver.now.conn (cond admitted (event_for made.now receiver.now ∷ []) [])) }
    ensures len { vec_len given.new ≤ vec_len given.old + 1 }
    ensures capacity { vec_capacity given.new ≡ vec_capacity given.old }
{
    if !admitted {
        return Ok(());
    }
    let publication = made.twin()?;
    given.push_reserved((
        receiver.conn,
        Item::Event {
            subscription: receiver.number,
            publication,
            with_topic: receiver.names_topic,
            retained: false,
        },
    ));
    Ok(())
}

/// Who holds a pattern that matches the topic.
pub fn receivers<'a>(alloc: Global, index: &'a Index, topic: &Topic) -> Result<Receivers<'a>, Fault>
    ensures { IfOk result (λ found. found ≡ receivers index.now.rows topic.now) }
{
    match index.receivers(alloc, topic) {
        Ok(found) => Ok(found),
        Err(_) => Err(Fault::NoMemory),
    }
}

/// The EVENTs of a publication that gives no list, for these receivers, with room for one item
/// more, in a list that is lent for it. They are live, so that none of them is looked up.
pub fn events_without_lists(
    spare: Given,
    _sessions: &Sessions,
    made: &Shared<Publication>,
    receivers: &Receivers<'_>,
) -> Result<Given, Fault>
    requires empty { spare.items ≡ [] }
    requires unlisted { has_no_lists made.now.lists ≡ true }
    requires live { AreLive _sessions.now receivers.now }
    ensures { IfOk result (λ given.
        given.items ≡ events_to _sessions.now made.now receivers.now) }
{
    let publication = made.value();
    let publisher = publication.publisher.conn;
    let mut given = spare;
    given.reserve(receivers.len() + 1)?;
    for place in 0..receivers.len() {
        let receiver = receivers.at(place);
        let admitted = publication
            .lists
            .admits_without_lists(receiver.conn, publisher);
        add_event(&mut given, admitted, made, &receiver)?;
    }
    Ok(given)
}

/// The EVENTs of a publication for these receivers, with room for one item more, in a list that is
/// lent for it; `admits` is asked once where those of one connection stand together.
pub fn events_to(
    spare: Given,
    sessions: &Sessions,
    made: &Shared<Publication>,
    receivers: &Receivers<'_>,
) -> Result<Given, Fault>
    requires empty { spare.items ≡ [] }
    ensures { IfOk result (λ given.
        given.items ≡ events_to sessions.now made.now receivers.now) }
{
    let mut given = spare;
    given.reserve(receivers.len() + 1)?;
    let mut last = None;
    for place in 0..receivers.len() {
        let receiver = receivers.at(place);
        let admitted = is_admitted_after(last, sessions, made.value(), receiver.conn);
        last = Some((receiver.conn, admitted));
        add_event(&mut given, admitted, made, &receiver)?;
    }
    Ok(given)
}
