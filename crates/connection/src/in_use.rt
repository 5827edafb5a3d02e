//! Which serializations are in use.
use rawsocket::Serializer;
use std::alloc::{AllocError, Global};
use std::sync::Arc;
use std::sync::atomic::{AtomicUsize, Ordering};

// A count for each serialization.
#[derive(Drop)]
struct UseCounts {
    json: AtomicUsize,
    msgpack: AtomicUsize,
}

impl UseCounts {
    fn of(&self, serializer: Serializer) -> &AtomicUsize {
        match serializer {
            Serializer::Json => &self.json,
            Serializer::MsgPack => &self.msgpack,
        }
    }
}

/// How many live sessions of a realm that subscribed use each serialization. All holders of it share the same counts.
///
/// It is a hint, by which a reader decides what is worth its time, and nothing is promised of it but safety: another thread may
/// change a count at any time, so no contract can speak of one.
#[derive(Drop)]
pub struct InUse {
    counts: Arc<UseCounts>,
}

impl InUse {
    /// No session uses any.
    ///
    /// # Errors
    /// `AllocError` where a growth of memory was refused.
    pub fn new(alloc: Global) -> Result<InUse, AllocError> {
        let counts = UseCounts {
            json: AtomicUsize::new(0),
            msgpack: AtomicUsize::new(0),
        };
        Ok(InUse {
            counts: Arc::new(alloc, counts)?,
        })
    }

    /// Another holder of the same counts.
    ///
    /// # Errors
    /// `AllocError` where the count of holders can't grow.
    pub fn twin(&self) -> Result<InUse, AllocError> {
        let counts = Arc::try_clone(&self.counts)?;
        Ok(InUse { counts })
    }

    /// Counts one more session that uses the serialization, until what is answered is dropped.
    ///
    /// # Errors
    /// `AllocError` where the count of holders can't grow; nothing is counted then.
    pub fn enter(&self, serializer: Serializer) -> Result<Using, AllocError> {
        let in_use = self.twin()?;
        in_use.counts.of(serializer).fetch_add(1, Ordering::SeqCst);
        Ok(Using { in_use, serializer })
    }

    /// Whether two sessions or more were counted that use the serialization, beside the one that asks: that is counted as one that
    /// uses `own`, or isn't counted.
    pub fn is_shared(&self, serializer: Serializer, own: Option<Serializer>) -> bool {
        let least = if own == Some(serializer) { 3 } else { 2 };
        self.counts.of(serializer).load(Ordering::SeqCst) >= least
    }
}

/// A session that uses a serialization. It is counted until this is dropped, so no count falls below zero.
pub struct Using {
    in_use: InUse,
    serializer: Serializer,
}

impl Drop for Using {
    fn drop(self) {
        let Self { in_use, serializer } = self;
        in_use.counts.of(serializer).fetch_sub(1, Ordering::SeqCst);
    }
}
