//! The values of the options of a SUBSCRIBE, where they stand.
ghost use Rattle.std.specs.Prelude.{◌≡◌};
ghost use Rattle.message_tree.specs.Data.{Entries, put};

use msgpack_cursor::{Dictionary, Value};

/// The options of a SUBSCRIBE that are known, each with the last value that it was given.
#[derive(Drop)]
pub(crate) struct SubscribeValues<'a> {
    pub(crate) policy: Option<Value<'a>>,
    pub(crate) get_retained: Option<Value<'a>>,
}

impl<'a> SubscribeValues<'a> {
    ghost use Rattle.wamp_messages.specs.body.Values.{subscribe_values_of};

    /// Those of a dictionary, which is gone through once.
    pub fn of(options: &Dictionary<'a>) -> SubscribeValues<'a>
        ensures { result ≡ subscribe_values_of options.now }
    {
        let mut values = SubscribeValues {
            policy: None,
            get_retained: None,
        };
        let mut entries = options.entries();
        while let Some((key, value)) = entries.next() {
            values.keep(key, value);
        }
        values
    }

    /// Keeps the value of a known option, in place of one that it was given before.
    fn keep(&mut self, key: &str, value: Value<'a>)
        ensures { (es : Entries) → self.old ≡ subscribe_values_of es
            → self.new ≡ subscribe_values_of (put key.now value.entry es) }
    {
        if key == "match" {
            self.policy = Some(value);
        } else if key == "get_retained" {
            self.get_retained = Some(value);
        }
    }
}
