//! Acts, as a line has them, and what a Join brings.
ghost use Rattle.std.specs.Prelude.{◌≡◌, ◌≤◌, None, false, IfOk, IfSome};
ghost use Rattle.realm_inbox.specs.Joins.{is_join};

use crate::wire::Wire;
use case_items::said_of;
use case_text::octets_of;
use message_tree::{Octets, Text};
use outbox_queue::{Drain, pair};
use realm_inbox::{Act, Joining, RealmHistory};
use session::Item;
use std::alloc::Global;
use std::io;
use wamp_ids::Conn;

/// What a connection brings to join, and the other end of its outbox.
#[derive(Drop)]
pub struct Entrance {
    pub joining: Joining<Wire>,
    pub drain: Drain<Item, RealmHistory>,
}

/// What a connection brings to join: the authid that it asks for, an outbox in which so many items may wait, and this transport.
pub fn entrance_of(
    alloc: Global,
    conn: Conn,
    authid: Option<Text>,
    cap: usize,
    transport: Wire,
) -> io::Result<Entrance>
    requires least { 1 ≤ cap }
    requires most { cap ≤ 65536 }
    ensures own { IfOk result (λ e. e.joining.outbox.conn ≡ conn) }
    ensures home { IfOk result (λ e. e.joining.outbox.chronicle ≡ None) }
    ensures drain { IfOk result (λ e. e.drain.conn ≡ conn) }
    ensures pair { IfOk result (λ e. e.joining.outbox.queue ≡ e.drain.queue) }
{
    let (outbox, drain) = pair::<Item, RealmHistory>(alloc, conn.value(), cap)?;
    let joining = Joining {
        authid,
        outbox,
        transport,
    };
    Ok(Entrance { joining, drain })
}

fn said(alloc: Global, text: &str) -> io::Result<Option<Act<Wire>>>
    ensures { IfOk result (λ found. IfSome found (λ act. is_join act ≡ false)) }
{
    match said_of(alloc, text)? {
        Some(said) => Ok(Some(Act::Said(said))),
        None => Ok(None),
    }
}

/// The act that a word and what is behind it name, unless it is a Join.
pub fn act_of(alloc: Global, word: &str, text: &str) -> io::Result<Option<Act<Wire>>>
    ensures { IfOk result (λ found. IfSome found (λ act. is_join act ≡ false)) }
{
    match word {
        "said" => said(alloc, text),
        "ping" => {
            let octets = octets_of(alloc, text)?;
            Ok(Some(Act::Ping(Octets::from_vec(octets))))
        }
        "spoilt" => Ok(Some(Act::Spoilt)),
        "gone" => Ok(Some(Act::Gone)),
        _ => Ok(None),
    }
}
