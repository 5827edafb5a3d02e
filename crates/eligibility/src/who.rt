//! A session, as the lists of a publication see it.
ghost use Rattle.std.specs.Prelude.{◌≡◌, IfOk};

use message_tree::{Shared, Text};
use std::alloc::AllocError;
use wamp_ids::{Conn, Id};

/// A session, as publisher or as receiver. Each of its publications carries one: so all share its
/// texts.
#[derive(Drop)]
pub struct Who {
    /// The connection that carries the session.
    pub conn: Conn,
    /// The session's id.
    pub id: Id,
    /// The authentication id that it was granted.
    pub authid: Shared<Text>,
    /// The authentication role that it was granted.
    pub authrole: Shared<Text>,
}

impl Who {
    /// The same session, which shares the texts.
    ///
    /// # Errors
    /// `AllocError` where a count of holders can't grow.
    pub fn twin(&self) -> Result<Who, AllocError>
        ensures { IfOk result (λ who. who ≡ self.now) }
    {
        Ok(Who {
            conn: self.conn,
            id: self.id,
            authid: self.authid.twin()?,
            authrole: self.authrole.twin()?,
        })
    }
}
