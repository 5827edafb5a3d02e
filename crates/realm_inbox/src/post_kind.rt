//! What the receiving end looks at in a post.
use crate::act::Act;
use crate::letter::Post;
use crate::transport::Shut;
use wamp_messages::{Said, SaidKind};

/// What kind of post it is.
#[derive(Clone, Copy, Debug, Drop, PartialEq, Eq)]
pub(crate) enum PostKind {
    /// A PUBLISH: the one message that any client says over and over.
    Publish,
    /// The last post of its client.
    Last,
    /// Another one.
    Other,
}

/// What kind a post is.
pub(crate) fn kind_of<S: Shut>(post: &Post<S>) -> PostKind {
    match post {
        Post::Act(letter) => kind_of_act(&letter.act),
        Post::Stop(_) => PostKind::Other,
    }
}

/// From how many octets it was read, where they are counted: so it may take long by itself. Else 0.
pub(crate) fn octets_of<S: Shut>(post: &Post<S>) -> u64 {
    match post {
        Post::Act(letter) => letter.weight.octets(),
        Post::Stop(_) => 0,
    }
}

fn kind_of_act<S: Shut>(act: &Act<S>) -> PostKind {
    match act {
        Act::Said(said) => kind_of_said(said),
        Act::Spoilt | Act::Gone => PostKind::Last,
        _ => PostKind::Other,
    }
}

fn kind_of_said(said: &Said) -> PostKind {
    match said.kind() {
        SaidKind::Publication => PostKind::Publish,
        SaidKind::Farewell => PostKind::Last,
        _ => PostKind::Other,
    }
}
