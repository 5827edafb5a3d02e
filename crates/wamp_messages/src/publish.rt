//! A PUBLISH.
use crate::publish_options::PublishOptions;
use arguments::Args;
use message_tree::Text;
use wamp_ids::Id;

/// What a client asks to be published (WAMP, "Publishing and Events").
#[derive(Drop)]
pub struct Publish {
    /// The request's id.
    pub request: Id,
    /// What its options ask for.
    pub options: PublishOptions,
    /// The topic's URI, as it was sent.
    pub topic: Text,
    /// Arguments and ArgumentsKw.
    pub args: Args,
}
