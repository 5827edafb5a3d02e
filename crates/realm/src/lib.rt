//! A realm: what each entry of its history gives each session.
//!
//! The model stands in `specs/` and looks back over the history; [`Realm`] is a body that meets it.
//!
//! ```
//! // as in cases_actor/src/expecting.rt
//! match Realm::new(alloc, RealmConfig { name, grants }) {
//!     Ok(realm) => Ok(realm),
//!     Err(_) => Err(AllocError)?,
//! }
//! // Only an entry that may come is applied.
//! if !self.realm.may_come(&entry) {
//!     return Ok(Vec::new(alloc));
//! }
//! match self.realm.apply(alloc, entry) {
//!     Ok(given) => Ok(given),
//!     Err(_) => Err(AllocError)?,
//! }
//! // An entry, and what it gives: pairs of a connection and an item.
//! let welcome = self.apply(alloc, Entry::Join { conn, word, authid })?;
//! ```
//!
//! Contracts say that what [`Realm::apply`] gives is, session by session and in order, what the history says; [`laws`]
//! says what follows of every history. Of the posts that entered, and in which order, `specs/PostedOrder.antt` speaks:
//! the crates above show it of their own schedules.
#![tactic(auto)]

mod accepted_options;
mod dispatch;
mod entry;
mod events;
mod fault;
mod grants;
mod joins;
mod last_asked;
pub mod laws;
mod meta_events;
mod notes;
mod publications;
mod realm;
mod sessions;
mod spare;
mod state;
mod subscriptions;

pub use entry::{Entry, says_with_word};
pub use fault::Fault;
pub use notes::{Refusal, Tally};
pub use realm::{Realm, RealmConfig};
pub use wamp_messages::{
    Args, CarriedArgs, Item, Lists, Publication, Publish, PublishOptions, Reason, Request, Said,
    SubscribeOptions, Who,
};
