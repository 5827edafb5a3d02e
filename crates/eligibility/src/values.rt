//! The options that say who receives, where they stand in a message.
use msgpack_cursor::Value;

/// The seven options of a PUBLISH that say who receives it, each where it is given. What they mean
/// is what [`Lists::read`](crate::Lists::read) makes of them.
#[derive(Drop)]
pub struct ListOptions<'a> {
    /// Whether the publisher itself is left out.
    pub exclude_me: Option<Value<'a>>,
    /// The ids of sessions that are left out.
    pub exclude: Option<Value<'a>>,
    /// The authids that are left out.
    pub exclude_authid: Option<Value<'a>>,
    /// The authroles that are left out.
    pub exclude_authrole: Option<Value<'a>>,
    /// The ids of sessions that alone receive it.
    pub eligible: Option<Value<'a>>,
    /// The authids that alone receive it.
    pub eligible_authid: Option<Value<'a>>,
    /// The authroles that alone receive it.
    pub eligible_authrole: Option<Value<'a>>,
}
