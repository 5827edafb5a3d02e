//! What the commands are told.
use client_messages::{PublishWishes, SubscribeWishes};
use client_session::Serializer;
use message_tree::{Content, Text};
use wamp_ids::Policy;

/// Where a broker is, and how it is spoken to.
#[derive(Drop)]
pub struct Contact {
    /// Its name or address.
    pub host: String,
    /// Its port, from 1.
    pub port: u16,
    /// How messages are serialized.
    pub serializer: Serializer,
    /// The realm that is joined, a URI.
    pub realm: Text,
    /// The authid that is asked for, if one is.
    pub authid: Option<Text>,
    /// How many seconds an answer that is due may take, from 1.
    pub timeout: u32,
}

/// How an event is printed.
#[derive(Clone, Copy, Debug, Drop, PartialEq, Eq)]
pub enum LineForm {
    /// All that is told of it, in JSON.
    Json,
    /// Its topic and its arguments, for people.
    Plain,
}

/// What `subscribe` is told.
#[derive(Drop)]
pub struct SubscribeCommand {
    /// The broker.
    pub contact: Contact,
    /// How topics are compared, and whether what is retained is asked for.
    pub wishes: SubscribeWishes,
    /// After how many events it ends; without one it goes on until something else ends it.
    pub count: Option<u64>,
    /// How each event is printed.
    pub form: LineForm,
    /// Whether it connects again where a connection is lost.
    pub reconnect: bool,
    /// The topics. The SUBSCRIBE of each has its place as its request's id, from 1.
    pub topics: Vec<Text>,
}

impl SubscribeCommand {
    /// What people may have overlooked: a `*` in a topic that is to be matched as it stands.
    pub fn hint(&self) -> Option<&'static str> {
        if !matches!(self.wishes.policy, Policy::Exact) {
            return None;
        }
        for topic in &self.topics {
            if topic.as_str().contains('*') {
                return Some(STAR);
            }
        }
        None
    }
}

/// What is told of a `*`.
const STAR: &str =
    "a * in a topic is a letter like others; --match prefix and --match wildcard match many topics";

/// What `publish` is told.
#[derive(Drop)]
pub struct PublishCommand {
    /// The broker.
    pub contact: Contact,
    /// What each publication wishes.
    pub wishes: PublishWishes,
    /// The topic of each publication.
    pub topic: Text,
    /// Its arguments.
    pub arguments: Arguments,
    /// What each publication names by keys, if anything: a dictionary.
    pub kwargs: Option<Content>,
}

/// What is published.
#[derive(Drop)]
pub enum Arguments {
    /// These, once: a list.
    Words(Content),
    /// Each line of an input as a publication's only argument, as [`crate::value_of`] reads it.
    Lines,
}
