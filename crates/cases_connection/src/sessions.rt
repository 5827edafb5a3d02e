//! The live sessions of a case's realm.
use case_text::{crossing, may_be_sent, may_be_shared};
use connection::{InUse, Using};
use rawsocket::Serializer;
use std::alloc::{AllocError, Global};
use std::io;

/// What they use, in the order in which they came.
#[derive(Drop)]
pub struct Sessions {
    in_use: InUse,
    live: Vec<Using>,
}

impl Sessions {
    /// There are none.
    pub fn none(alloc: Global) -> Result<Sessions, AllocError> {
        Ok(Sessions {
            in_use: InUse::new(alloc)?,
            live: Vec::new(alloc),
        })
    }

    /// What they use.
    pub fn in_use(&self) -> &InUse {
        &self.in_use
    }

    /// One more comes.
    pub fn enter(&mut self, serializer: Serializer) -> io::Result<()> {
        let using = self.in_use.enter(serializer)?;
        self.live.push(using)?;
        Ok(())
    }

    /// The last that came ends.
    pub fn leave(&mut self) {
        self.live.pop();
    }

    /// What two of them use, or more.
    pub fn shared(&self, alloc: Global) -> io::Result<String> {
        let found = in_words(
            self.in_use
                .is_shared(Serializer::Json, Some(Serializer::MsgPack)),
            self.in_use
                .is_shared(Serializer::MsgPack, Some(Serializer::Json)),
        );
        Ok(format!(in alloc; "shared: {found}\n")?)
    }

    /// What two of them use, or more, beside one that uses it too.
    pub fn others(&self, alloc: Global) -> io::Result<String> {
        let found = in_words(
            self.in_use
                .is_shared(Serializer::Json, Some(Serializer::Json)),
            self.in_use
                .is_shared(Serializer::MsgPack, Some(Serializer::MsgPack)),
        );
        Ok(format!(in alloc; "others: {found}\n")?)
    }
}

fn in_words(json: bool, msgpack: bool) -> &'static str {
    match (json, msgpack) {
        (false, false) => "none",
        (true, false) => "json",
        (false, true) => "msgpack",
        (true, true) => "json msgpack",
    }
}

/// That what sessions use may be known to many threads.
pub fn threads(alloc: Global) -> io::Result<String> {
    may_be_sent::<InUse>();
    may_be_shared::<InUse>();
    may_be_sent::<Using>();
    crossing(alloc)
}
