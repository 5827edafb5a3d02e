//! The details of an EVENT, written straight from the publication.
ghost use Rattle.std.specs.Prelude.{◌≡◌, ◌<◌, ◌++◌, ◌||◌, ◌⊎◌, OnOk, IfErr, true, false};
ghost use Rattle.message_tree.specs.Data.{dict, entry_count};
ghost use Rattle.session.specs.body.EventDetails.{publisher_entries, retained_entries, topic_entries};
ghost use Rattle.session.specs.body.SerializedParts.{has_spelling, entries_have_spelling, entries_from};
ghost use Rattle.session.specs.Serializer.{serialized};
ghost use Rattle.session.specs.ToClient.{event_details};

use crate::fault::Fault;
use crate::wire::serialized_parts::{
    close_dict, open_dict, put_key, put_number, put_text, put_true,
};
use message_tree::Appender;
use rawsocket::Serializer;
use std::alloc::{AllocError, Global};
use wamp_messages::Publication;

/// The publisher, where it is disclosed.
fn put_publisher(
    out: &mut Appender,
    alloc: Global,
    serializer: Serializer,
    made: &Publication,
) -> Result<(), Fault>
    ensures ok { OnOk result (out.new.since ≡ out.old.since
        ++ entries_from serializer false (publisher_entries made.now)) }
    ensures spelled { OnOk result (entries_have_spelling serializer (publisher_entries made.now)
        ≡ true) }
    ensures unspelled { result ≡ Err Fault.TooLongForClient
        → entries_have_spelling serializer (publisher_entries made.now) ≡ false }
    ensures before { out.new.before ≡ out.old.before }
    ensures fault { IfErr result (λ f. (f ≡ Fault.NoMemory) ⊎ (f ≡ Fault.TooLongForClient)) }
{
    if !made.disclosed {
        return Ok(());
    }
    let publisher = &made.publisher;
    put_key(out, alloc, serializer, false, "publisher")?;
    put_number(out, serializer, publisher.id.value())?;
    put_key(out, alloc, serializer, true, "publisher_authid")?;
    put_text(out, alloc, serializer, publisher.authid.value().as_str())?;
    put_key(out, alloc, serializer, true, "publisher_authrole")?;
    put_text(out, alloc, serializer, publisher.authrole.value().as_str())?;
    Ok(())
}

/// Whether it is a retained event.
fn put_retained(
    out: &mut Appender,
    alloc: Global,
    serializer: Serializer,
    later: bool,
    retained: bool,
) -> Result<(), AllocError>
    ensures ok { OnOk result (out.new.since ≡ out.old.since
        ++ entries_from serializer later (retained_entries retained)) }
    ensures before { out.new.before ≡ out.old.before }
{
    if !retained {
        return Ok(());
    }
    put_key(out, alloc, serializer, later, "retained")?;
    put_true(out, serializer)
}

/// The topic, where it is wanted.
fn put_topic(
    out: &mut Appender,
    alloc: Global,
    serializer: Serializer,
    later: bool,
    with_topic: bool,
    topic: &str,
) -> Result<(), Fault>
    ensures ok { OnOk result (out.new.since ≡ out.old.since
        ++ entries_from serializer later (topic_entries with_topic topic.now)) }
    ensures spelled { OnOk result (entries_have_spelling
        serializer (topic_entries with_topic topic.now) ≡ true) }
    ensures unspelled { result ≡ Err Fault.TooLongForClient
        → entries_have_spelling serializer (topic_entries with_topic topic.now) ≡ false }
    ensures before { out.new.before ≡ out.old.before }
    ensures fault { IfErr result (λ f. (f ≡ Fault.NoMemory) ⊎ (f ≡ Fault.TooLongForClient)) }
{
    if !with_topic {
        return Ok(());
    }
    put_key(out, alloc, serializer, later, "topic")?;
    put_text(out, alloc, serializer, topic)
}

/// How many details there are.
#[tactic(auto, unfolding(crate::specs::ToClient::event_details, crate::specs::ToClient::put_if))]
fn count_of(made: &Publication, with_topic: bool, retained: bool) -> u8
    ensures count { result ≡ entry_count (event_details made.now with_topic retained) }
    ensures few { result < 16 }
{
    match (made.disclosed, retained, with_topic) {
        (false, false, false) => 0,
        (false, false, true) => 1,
        (false, true, false) => 1,
        (false, true, true) => 2,
        (true, false, false) => 3,
        (true, false, true) => 4,
        (true, true, false) => 4,
        (true, true, true) => 5,
    }
}

/// Whether one of them is true.
fn either(one: bool, other: bool) -> bool
    ensures { result ≡ one || other }
{
    one || other
}

/// The details of an EVENT.
pub(crate) fn put_details(
    out: &mut Appender,
    alloc: Global,
    serializer: Serializer,
    made: &Publication,
    with_topic: bool,
    retained: bool,
) -> Result<(), Fault>
    ensures ok { OnOk result (out.new.since ≡ out.old.since
        ++ serialized serializer (dict (event_details made.now with_topic retained))) }
    ensures spelled { OnOk result
        (has_spelling serializer (dict (event_details made.now with_topic retained)) ≡ true) }
    ensures unspelled { result ≡ Err Fault.TooLongForClient
        → has_spelling serializer (dict (event_details made.now with_topic retained)) ≡ false }
    ensures before { out.new.before ≡ out.old.before }
    ensures fault { IfErr result (λ f. (f ≡ Fault.NoMemory) ⊎ (f ≡ Fault.TooLongForClient)) }
{
    open_dict(out, serializer, count_of(made, with_topic, retained))?;
    put_publisher(out, alloc, serializer, made)?;
    put_retained(out, alloc, serializer, made.disclosed, retained)?;
    let later = either(made.disclosed, retained);
    put_topic(out, alloc, serializer, later, with_topic, made.topic.text())?;
    Ok(close_dict(out, serializer)?)
}
