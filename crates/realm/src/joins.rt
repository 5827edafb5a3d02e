//! Joins: who is admitted, and under which name and role.
ghost use Rattle.std.specs.Prelude.{◌≡◌, None, IfOk, OnErr};
ghost use Rattle.std.specs.Option.{option_copied};
ghost use Rattle.realm.specs.Sessions.{name_for, role_for};
ghost use Rattle.realm.specs.body.LiveSessions.{session_of};
ghost use Rattle.realm.specs.body.Transitions.{admitted, IsJoined};

use crate::events::{Given, one, put_before};
use crate::fault::Fault;
use crate::grants::Grants;
use crate::meta_events::arrival_events;
use crate::state::State;
use message_tree::{Shared, Text};
use std::alloc::Global;
use wamp_ids::{Conn, Id};
use wamp_messages::{Item, Reason, Who};

/// The authid and the role of a session that asked for none.
const ANONYMOUS: &str = "anonymous";

/// The role that a Join gets, where its authid may be asked for.
fn role_for<'a>(grants: &'a Grants, authid: &Option<Text>) -> Option<&'a str>
    ensures { option_copied result ≡ role_for grants.now authid.now }
{
    match authid {
        None => Some(ANONYMOUS),
        Some(authid) => match grants.role_of(authid.as_str()) {
            None => None,
            Some(role) => Some(role.as_str()),
        },
    }
}

/// The session's authid.
fn name_for(authid: &Option<Text>) -> &str
    ensures { result.now ≡ name_for authid.now }
{
    match authid {
        None => ANONYMOUS,
        Some(authid) => authid.as_str(),
    }
}

/// The session that a Join gets, or why it is refused.
fn admission(
    alloc: Global,
    state: &State,
    conn: Conn,
    word: u64,
    authid: &Option<Text>,
) -> Result<Result<Who, Reason>, Fault>
    ensures { IfOk result (λ answer. answer ≡ admitted state.now conn word authid.now) }
{
    let Some(role) = role_for(&state.grants, authid) else {
        return Ok(Err(Reason::NotAuthorized));
    };
    let id = Id::of_word(word);
    if state.sessions.has_id(id) {
        return Ok(Err(Reason::SessionIdTaken));
    }
    let authrole = Shared::new(alloc, Text::of(alloc, role)?)?;
    let authid = Shared::new(alloc, Text::of(alloc, name_for(authid))?)?;
    Ok(Ok(Who {
        conn,
        id,
        authid,
        authrole,
    }))
}

/// Answers a Join of a connection that has no session.
pub fn join(
    alloc: Global,
    state: &mut State,
    conn: Conn,
    word: u64,
    authid: &Option<Text>,
) -> Result<Given, Fault>
    requires { session_of state.old.sessions conn ≡ None }
    ensures ok { IfOk result (λ given.
        IsJoined (record { old = state.old; new = state.new; given = given.items }) conn word
        (admitted state.old conn word authid.now)) }
    ensures unchanged { OnErr result (state.new ≡ state.old) }
{
    match admission(alloc, state, conn, word, authid)? {
        Err(reason) => {
            let given = one(alloc, conn, Item::Abort(reason))?;
            state.seats.note(conn);
            Ok(given)
        }
        Ok(who) => {
            let mut given = arrival_events(alloc, state, word, &who)?;
            put_before(&mut given, conn, Item::Welcome(who.twin()?))?;
            state.sessions.add(who)?;
            state.seats.note(conn);
            Ok(given)
        }
    }
}
