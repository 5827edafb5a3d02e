//! The octets of frames: items and payloads in either serialization.

pub(crate) mod event_details;
pub(crate) mod event_head;
pub(crate) mod item_frames;
pub(crate) mod large_frames;
pub(crate) mod serialized_parts;
pub(crate) mod serializer;
