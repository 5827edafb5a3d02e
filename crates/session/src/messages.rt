//! The messages of a session, as types and as trees.

pub(crate) mod details;
pub(crate) mod elements;
pub(crate) mod from_client;
pub(crate) mod octet_elements;
pub(crate) mod to_client;
pub(crate) mod tree_elements;
