//! What a Join brings.
ghost use Rattle.std.specs.Prelude.{◌≡◌, [], false};

use crate::history::RealmHistory;
use crate::transport::Shut;
use message_tree::Text;
use outbox_queue::Outbox;
use wamp_messages::Item;

/// What a connection brings that asks for a session. Nothing was added to its outbox yet, and that is open.
#[derive(Drop)]
pub struct Joining<S: Shut> {
    /// The authid that its HELLO asks for.
    pub authid: Option<Text>,
    /// Where the session's items are to go.
    pub outbox: Outbox<Item, RealmHistory>,
    /// The session's transport.
    pub transport: S,
    ghost empty: { outbox.added ≡ [] },
    ghost open: { outbox.is_closed ≡ false },
}
