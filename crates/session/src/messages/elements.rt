//! The elements of a client's message, one after another.
//!
//! Whether octets are a message is known once its last element is read: until then, what is wrong with an element may be that it
//! isn't there. So each call says that what is left is whole where what was left before it was, and answers for a wrong shape only
//! of what is whole.
ghost use Rattle.std.specs.Prelude.{◌≡◌, ℕ, Bool, List, IfOk, IfErr, OnOk, OnErr, None, Some, true, false, codes};
ghost use Rattle.message_tree.specs.Data.{Items, Entries, no_items, find_entry};
ghost use Rattle.eligibility.specs.Options.{number_of, text_of};
ghost use Rattle.session.specs.FromClient.{IsMore, IsReadFault, arguments_of, dict_of, first, id_of, publish_options_in, subscribe_options_in, text_or_none};

use crate::fault::Fault;
use arguments::Args;
use message_tree::Text;
use std::alloc::Global;
use wamp_ids::Id;
use wamp_messages::{PublishOptions, SubscribeOptions};

/// The elements of a message that aren't read yet.
pub(crate) trait MessageElements: Drop {
    /// Their data.
    ghost items: { Self → Items };

    /// Whether they are all there, with nothing behind them.
    ghost is_whole: { Self → Bool };

    /// The next element, a whole number that a serialization carries.
    fn number(&mut self) -> Result<i128, Fault>
        ensures ok { IfOk result (λ z.
            first number_of (items self.old) ≡ Some (z, items self.new)) }
        ensures whole { OnOk result (is_whole self.new ≡ is_whole self.old) }
        ensures bad { OnErr result (is_whole self.old ≡ true
            → first number_of (items self.old) ≡ None) }
        ensures fault { IfErr result (λ fault. fault ≡ Fault.Shape) };

    /// The next element, an id.
    fn id(&mut self) -> Result<Id, Fault>
        ensures ok { IfOk result (λ id. first id_of (items self.old) ≡ Some (id, items self.new)) }
        ensures whole { OnOk result (is_whole self.new ≡ is_whole self.old) }
        ensures bad { OnErr result (is_whole self.old ≡ true
            → first id_of (items self.old) ≡ None) }
        ensures fault { IfErr result (λ fault. fault ≡ Fault.Shape) };

    /// The next element, a text.
    fn text(&mut self, alloc: Global) -> Result<Text, Fault>
        ensures ok { IfOk result (λ t. first text_of (items self.old) ≡ Some (t, items self.new)) }
        ensures whole { OnOk result (is_whole self.new ≡ is_whole self.old) }
        ensures bad { result ≡ Err Fault.Shape → is_whole self.old ≡ true
            → first text_of (items self.old) ≡ None }
        ensures faults { IfErr result IsReadFault };

    /// The next element, a text that nobody asks for.
    fn pass_text(&mut self) -> Result<(), Fault>
        ensures ok { OnOk result ((t : List ℕ)
            × (first text_of (items self.old) ≡ Some (t, items self.new))) }
        ensures whole { OnOk result (is_whole self.new ≡ is_whole self.old) }
        ensures bad { OnErr result (is_whole self.old ≡ true
            → first text_of (items self.old) ≡ None) }
        ensures fault { IfErr result (λ fault. fault ≡ Fault.Shape) };

    /// What the next element, a dictionary, asks for as the options of a PUBLISH.
    fn publish_options(&mut self, alloc: Global) -> Result<PublishOptions, Fault>
        ensures ok { IfOk result (λ o.
            first publish_options_in (items self.old) ≡ Some (o, items self.new)) }
        ensures whole { OnOk result (is_whole self.new ≡ is_whole self.old) }
        ensures bad { result ≡ Err Fault.Shape → is_whole self.old ≡ true
            → first publish_options_in (items self.old) ≡ None }
        ensures faults { IfErr result IsReadFault };

    /// What the next element, a dictionary, asks for as the options of a SUBSCRIBE.
    fn subscribe_options(&mut self) -> Result<SubscribeOptions, Fault>
        ensures ok { IfOk result (λ o.
            first subscribe_options_in (items self.old) ≡ Some (o, items self.new)) }
        ensures whole { OnOk result (is_whole self.new ≡ is_whole self.old) }
        ensures bad { OnErr result (is_whole self.old ≡ true
            → first subscribe_options_in (items self.old) ≡ None) }
        ensures fault { IfErr result (λ fault. fault ≡ Fault.Shape) };

    /// The next element, a dictionary that nobody asks for.
    fn pass_dict(&mut self) -> Result<(), Fault>
        ensures ok { OnOk result ((es : Entries)
            × (first dict_of (items self.old) ≡ Some (es, items self.new))) }
        ensures whole { OnOk result (is_whole self.new ≡ is_whole self.old) }
        ensures bad { OnErr result (is_whole self.old ≡ true
            → first dict_of (items self.old) ≡ None) }
        ensures fault { IfErr result (λ fault. fault ≡ Fault.Shape) };

    /// What the next element, a dictionary, has at `authid`: a text, null, or nothing.
    fn authid(&mut self, alloc: Global) -> Result<Option<Text>, Fault>
        ensures ok { IfOk result (λ t. (es : Entries)
            × (first dict_of (items self.old) ≡ Some (es, items self.new))
            × (text_or_none (find_entry (codes "authid") es) ≡ Some t)) }
        ensures whole { OnOk result (is_whole self.new ≡ is_whole self.old) }
        ensures bad { result ≡ Err Fault.Shape → is_whole self.old ≡ true
            → (es : Entries) (rest : Items) → first dict_of (items self.old) ≡ Some (es, rest)
            → text_or_none (find_entry (codes "authid") es) ≡ None }
        ensures faults { IfErr result IsReadFault };

    /// That nothing is left.
    fn end(&mut self) -> Result<(), Fault>
        ensures ok { OnOk result (items self.old ≡ no_items) }
        ensures whole { OnOk result (is_whole self.old ≡ true) }
        ensures bad { OnErr result (is_whole self.old ≡ true → IsMore (items self.old)) }
        ensures fault { IfErr result (λ fault. fault ≡ Fault.Shape) };

    /// That what is left is whole. It is passed over.
    fn pass_rest(self) -> Result<(), Fault>
        ensures whole { OnOk result (is_whole self ≡ true) }
        ensures bad { OnErr result (is_whole self ≡ false) }
        ensures fault { IfErr result (λ fault. fault ≡ Fault.Shape) };

    /// Arguments and ArgumentsKw, as far as they are there; nothing may stand behind them.
    fn arguments(self, alloc: Global) -> Result<Args, Fault>
        ensures ok { IfOk result (λ a. arguments_of (items self) ≡ Some a) }
        ensures whole { OnOk result (is_whole self ≡ true) }
        ensures bad { result ≡ Err Fault.Shape → is_whole self ≡ true
            → arguments_of (items self) ≡ None }
        ensures faults { IfErr result IsReadFault };
}
