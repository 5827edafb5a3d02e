//! What the drivers of `realm_core` and `realm_actor` share: items as text, messages in JSON as what a client says, and
//! grants.
#![tactic(auto)]

mod grants;
mod items;
mod sayings;

pub use grants::grant_of;
pub use items::{item_text, unless_refused};
pub use sayings::said_of;
