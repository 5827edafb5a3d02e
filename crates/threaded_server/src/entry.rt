//! A connection that is served.
ghost use Rattle.std.specs.Prelude.{◌≡◌};

use broker_threads::handover::SharedTransport;
use broker_threads::work::Doing;
use broker_threads::{Ended, Reader};
use rawsocket::devices::{Sink, Source};
use realm_inbox::Shut;
use std::snapshot::Snapshot;
use std::thread::PromisedHandle;
use wamp_ids::Conn;

/// A connection that is served: its reader's thread, which waits for its writer's.
#[derive(Drop)]
pub struct Connection<
    I: Source + Drop + Send + 'static,
    O: Sink + Drop + Send + 'static,
    S: Shut + Send + 'static,
> {
    pub conn: Conn,
    pub shared: SharedTransport<S>,
    /// What the reader was given. It takes no bytes.
    pub began: Snapshot<Reader<I, O, S>>,
    pub reader: PromisedHandle<Ended<I, O, S>, Doing<Reader<I, O, S>>>,
    pub ghost same: { reader.promise.0.value ≡ began.value },
    pub ghost number: { conn ≡ began.value.conn },
}
