//! Events as lines.
ghost use Rattle.std.specs.Prelude.{◌≡◌, ◌++◌, ◌∷◌, [], IfOk, OnOk, true};
ghost use Rattle.json.specs.Print.{escape};
ghost use Rattle.message_tree.specs.Data.{text, entry, flag, no_entries, is_carried, items_carried};
ghost use Rattle.message_tree.specs.View.{view, items_view};
ghost use Rattle.json_codec.specs.Encoder.{json_text, entries_text};
ghost use Rattle.msgpack_codec.specs.Short.{item_count};
ghost use Rattle.arguments.specs.Arguments.{is_all_carried, is_carried_if_any, last_items};
ghost use Rattle.client_commands.specs.EventLine.{argument_entries, bare_line, entry_if_any, event_entries, event_line, given_entries, item_if_any, json_line, members, name_of, number_if_any, plain_arguments, plain_line, publisher_entries, spaced, text_if_any, uncarried_entries};

use crate::command::LineForm;
use crate::controls::shown;
use client_session::{Args, EventDetails, Serializer};
use message_tree::{Appender, Content, Text, Tree};
use std::alloc::{AllocError, Global};
use wamp_ids::Id;

/// Room for the line of a short event.
const ROOM: usize = 192;

/// The line of an event, with its LF. DEL and U+0080 to U+009F, which a terminal may obey, are escaped in it as JSON allows it.
///
/// [`LineForm::Json`] is a dictionary in JSON, `topic` first, then in ascending bytes:
///
/// - `args` and `kwargs`: the arguments, each where it was published. Where JSON has no spelling for something in them, as for a
///   number that isn't whole, both are left out, and `uncarried` is true.
/// - `publication`: the publication's id.
/// - `publisher`, `publisher_authid`, `publisher_authrole`: what is told of the publisher, each where it is there.
/// - `retained`: whether the event was retained.
///
/// [`LineForm::Plain`] is the topic, as JSON has it between quotes, then each argument in JSON behind a space, and where there
/// are keys these as one dictionary; or `uncarried` in place of both. It tells nothing else.
///
/// # Errors
/// [`AllocError`] where a growth was refused.
#[tactic(auto, unfolding(crate::specs::EventLine::event_line))]
pub fn event_line(
    alloc: Global,
    form: LineForm,
    topic: &str,
    publication: Id,
    details: &EventDetails,
    args: &Args,
) -> Result<Vec<u8>, AllocError>
    ensures line { IfOk result (λ v.
        v.items ≡ event_line form topic.now publication details.now args.now) }
{
    let bare = bare_line(alloc, form, topic, publication, details, args)?;
    let mut line = shown(alloc, bare)?;
    line.push(b'\n')?;
    Ok(line)
}

/// The same without its LF, and with the controls as they are.
fn bare_line(
    alloc: Global,
    form: LineForm,
    topic: &str,
    publication: Id,
    details: &EventDetails,
    args: &Args,
) -> Result<Vec<u8>, AllocError>
    ensures line { IfOk result (λ v.
        v.items ≡ bare_line form topic.now publication details.now args.now) }
{
    let mut out = Appender::new(Vec::with_capacity(alloc, ROOM)?);
    match form {
        LineForm::Json => put_json(alloc, &mut out, topic, publication, details, args)?,
        LineForm::Plain => put_plain(alloc, &mut out, topic, args)?,
    }
    Ok(out.into_vec())
}

#[tactic(auto, unfolding(crate::specs::EventLine::json_line))]
fn put_json(
    alloc: Global,
    out: &mut Appender,
    topic: &str,
    publication: Id,
    details: &EventDetails,
    args: &Args,
) -> Result<(), AllocError>
    ensures put { OnOk result (out.new.since ≡ out.old.since
        ++ json_line topic.now publication details.now args.now) }
    ensures before { out.new.before ≡ out.old.before }
{
    out.put_all(b"{\"topic\":")?;
    json_codec::encode_text_into(alloc, topic, out)?;
    put_event(alloc, out, publication, details, args)?;
    out.put(b'}')
}

#[tactic(auto, unfolding(crate::specs::EventLine::event_entries, json::specs::Print::escape_byte))]
fn put_event(
    alloc: Global,
    out: &mut Appender,
    publication: Id,
    details: &EventDetails,
    args: &Args,
) -> Result<(), AllocError>
    ensures put { OnOk result (out.new.since ≡ out.old.since
        ++ entries_text true (event_entries publication details.now args.now)) }
    ensures before { out.new.before ≡ out.old.before }
{
    put_arguments(alloc, out, args)?;
    put_number(out, "publication", b",\"publication\":", publication)?;
    put_publisher(alloc, out, details)?;
    put_flag(out, "retained", b",\"retained\":", details.retained)?;
    put_uncarried(alloc, out, args)
}

/// Puts a comma, a key and a colon, spelt so.
fn put_key(out: &mut Appender, key: &str, spelt: &[u8]) -> Result<(), AllocError>
    requires { spelt.now ≡ name_of key.now }
    ensures put { OnOk result (out.new.since ≡ out.old.since ++ name_of key.now) }
    ensures before { out.new.before ≡ out.old.before }
{
    let _ = key;
    out.put_all(spelt)
}

fn put_number(out: &mut Appender, key: &str, spelt: &[u8], id: Id) -> Result<(), AllocError>
    requires { spelt.now ≡ name_of key.now }
    ensures put { OnOk result (out.new.since ≡ out.old.since
        ++ entries_text true (entry_if_any key.now (number_if_any (Some id)))) }
    ensures before { out.new.before ≡ out.old.before }
{
    put_key(out, key, spelt)?;
    json_codec::encode_number_into(id.value(), out)
}

fn put_text(
    alloc: Global,
    out: &mut Appender,
    key: &str,
    spelt: &[u8],
    text: &Text,
) -> Result<(), AllocError>
    requires { spelt.now ≡ name_of key.now }
    ensures put { OnOk result (out.new.since ≡ out.old.since
        ++ entries_text true (entry_if_any key.now (text_if_any (Some text.now)))) }
    ensures before { out.new.before ≡ out.old.before }
{
    put_key(out, key, spelt)?;
    json_codec::encode_text_into(alloc, text.as_str(), out)
}

fn put_flag(out: &mut Appender, key: &str, spelt: &[u8], value: bool) -> Result<(), AllocError>
    requires { spelt.now ≡ name_of key.now }
    ensures put { OnOk result (out.new.since ≡ out.old.since
        ++ entries_text true (entry key.now (flag value) no_entries)) }
    ensures before { out.new.before ≡ out.old.before }
{
    put_key(out, key, spelt)?;
    if value {
        out.put_all(b"true")
    } else {
        out.put_all(b"false")
    }
}

fn put_content(
    alloc: Global,
    out: &mut Appender,
    key: &str,
    spelt: &[u8],
    content: &Option<Content>,
) -> Result<(), AllocError>
    requires spelt { spelt.now ≡ name_of key.now }
    requires carried { is_carried_if_any content.now ≡ true }
    ensures put { OnOk result (out.new.since ≡ out.old.since
        ++ entries_text true (entry_if_any key.now content.now)) }
    ensures before { out.new.before ≡ out.old.before }
{
    match content {
        None => Ok(()),
        Some(content) => {
            put_key(out, key, spelt)?;
            json_codec::encode_into(alloc, content.tree(), out)
        }
    }
}

#[tactic(auto, unfolding(crate::specs::EventLine::argument_entries))]
fn put_arguments(alloc: Global, out: &mut Appender, args: &Args) -> Result<(), AllocError>
    ensures put { OnOk result (out.new.since ≡ out.old.since
        ++ entries_text true (argument_entries args.now)) }
    ensures before { out.new.before ≡ out.old.before }
{
    if !args.is_carried() {
        return Ok(());
    }
    if args.count() == 1 {
        put_args_alone(alloc, out, args)
    } else {
        put_given(alloc, out, args)
    }
}

/// Puts arguments without keys, with no tree.
#[tactic(auto, unfolding(json::specs::Print::escape_byte))]
fn put_args_alone(alloc: Global, out: &mut Appender, args: &Args) -> Result<(), AllocError>
    requires carried { is_all_carried args.now ≡ true }
    requires alone { item_count (last_items args.now.args args.now.kwargs) ≡ 1 }
    ensures put { OnOk result (out.new.since ≡ out.old.since
        ++ entries_text true (given_entries args.now)) }
    ensures before { out.new.before ≡ out.old.before }
{
    let mut ending = Appender::new(Vec::with_capacity(alloc, ROOM)?);
    if args.put(alloc, Serializer::Json, &mut ending).is_err() {
        return Err(AllocError);
    }
    let ending = ending.into_vec();
    put_key(out, "args", b",\"args\":")?;
    out.put_all(&ending[1..])
}

#[tactic(auto, unfolding(json::specs::Print::escape_byte))]
fn put_given(alloc: Global, out: &mut Appender, args: &Args) -> Result<(), AllocError>
    requires { is_all_carried args.now ≡ true }
    ensures put { OnOk result (out.new.since ≡ out.old.since
        ++ entries_text true (given_entries args.now)) }
    ensures before { out.new.before ≡ out.old.before }
{
    let arguments = args.decoded(alloc)?;
    put_content(alloc, out, "args", b",\"args\":", &arguments.args)?;
    put_content(alloc, out, "kwargs", b",\"kwargs\":", &arguments.kwargs)
}

#[tactic(auto, unfolding(crate::specs::EventLine::publisher_entries, json::specs::Print::escape_byte))]
fn put_publisher(
    alloc: Global,
    out: &mut Appender,
    details: &EventDetails,
) -> Result<(), AllocError>
    ensures put { OnOk result (out.new.since ≡ out.old.since
        ++ entries_text true (publisher_entries details.now)) }
    ensures before { out.new.before ≡ out.old.before }
{
    put_number_if_any(out, "publisher", b",\"publisher\":", details.publisher)?;
    put_text_if_any(
        alloc,
        out,
        "publisher_authid",
        b",\"publisher_authid\":",
        &details.publisher_authid,
    )?;
    put_text_if_any(
        alloc,
        out,
        "publisher_authrole",
        b",\"publisher_authrole\":",
        &details.publisher_authrole,
    )
}

fn put_number_if_any(
    out: &mut Appender,
    key: &str,
    spelt: &[u8],
    id: Option<Id>,
) -> Result<(), AllocError>
    requires { spelt.now ≡ name_of key.now }
    ensures put { OnOk result (out.new.since ≡ out.old.since
        ++ entries_text true (entry_if_any key.now (number_if_any id))) }
    ensures before { out.new.before ≡ out.old.before }
{
    match id {
        None => Ok(()),
        Some(id) => put_number(out, key, spelt, id),
    }
}

fn put_text_if_any(
    alloc: Global,
    out: &mut Appender,
    key: &str,
    spelt: &[u8],
    text: &Option<Text>,
) -> Result<(), AllocError>
    requires { spelt.now ≡ name_of key.now }
    ensures put { OnOk result (out.new.since ≡ out.old.since
        ++ entries_text true (entry_if_any key.now (text_if_any text.now))) }
    ensures before { out.new.before ≡ out.old.before }
{
    match text {
        None => Ok(()),
        Some(text) => put_text(alloc, out, key, spelt, text),
    }
}

#[tactic(auto, unfolding(crate::specs::EventLine::uncarried_entries, json::specs::Print::escape_byte))]
fn put_uncarried(alloc: Global, out: &mut Appender, args: &Args) -> Result<(), AllocError>
    ensures put { OnOk result (out.new.since ≡ out.old.since
        ++ entries_text true (uncarried_entries args.now)) }
    ensures before { out.new.before ≡ out.old.before }
{
    if args.is_carried() {
        return Ok(());
    }
    put_flag(out, "uncarried", b",\"uncarried\":", true)
}

#[tactic(auto, unfolding(crate::specs::EventLine::plain_line))]
fn put_plain(alloc: Global, out: &mut Appender, topic: &str, args: &Args) -> Result<(), AllocError>
    ensures put { OnOk result (out.new.since ≡ out.old.since
        ++ plain_line topic.now args.now) }
    ensures before { out.new.before ≡ out.old.before }
{
    put_unquoted(alloc, out, topic)?;
    put_spaced_arguments(alloc, out, args)
}

/// Puts a text as JSON has it between quotes.
fn put_unquoted(alloc: Global, out: &mut Appender, text: &str) -> Result<(), AllocError>
    ensures put { OnOk result (out.new.since ≡ out.old.since ++ escape text.now) }
    ensures before { out.new.before ≡ out.old.before }
{
    let mut quoted = Appender::new(Vec::new(alloc));
    json_codec::encode_text_into(alloc, text, &mut quoted)?;
    let quoted = quoted.into_vec();
    out.put_all(&quoted[1..quoted.len() - 1])
}

#[tactic(auto, unfolding(crate::specs::EventLine::plain_arguments))]
fn put_spaced_arguments(alloc: Global, out: &mut Appender, args: &Args) -> Result<(), AllocError>
    ensures put { OnOk result (out.new.since ≡ out.old.since ++ plain_arguments args.now) }
    ensures before { out.new.before ≡ out.old.before }
{
    if !args.is_carried() {
        return out.put_all(b" uncarried");
    }
    let arguments = args.decoded(alloc)?;
    put_members(alloc, out, &arguments.args)?;
    match &arguments.kwargs {
        None => Ok(()),
        Some(kwargs) => put_spaced(alloc, out, kwargs.tree()),
    }
}

/// Puts the members of a list, each behind a space.
fn put_members(
    alloc: Global,
    out: &mut Appender,
    content: &Option<Content>,
) -> Result<(), AllocError>
    requires { is_carried_if_any content.now ≡ true }
    ensures put { OnOk result (out.new.since ≡ out.old.since ++ spaced (members content.now)) }
    ensures before { out.new.before ≡ out.old.before }
{
    match content {
        None => Ok(()),
        Some(content) => match content.tree() {
            Tree::List(items) => put_items(alloc, out, items),
            _ => Ok(()),
        },
    }
}

fn put_items(alloc: Global, out: &mut Appender, items: &Vec<Tree>) -> Result<(), AllocError>
    requires { items_carried (items_view items.now.items) ≡ true }
    ensures put { OnOk result (out.new.since ≡ out.old.since
        ++ spaced (items_view items.now.items)) }
    ensures before { out.new.before ≡ out.old.before }
{
    'items: for item in items {
        put_spaced(alloc, out, item)?;
    }
    Ok(())
}

/// Puts a space, and a value in JSON.
fn put_spaced(alloc: Global, out: &mut Appender, tree: &Tree) -> Result<(), AllocError>
    requires { is_carried (view tree.now) ≡ true }
    ensures put { OnOk result (out.new.since ≡ out.old.since
        ++ (32 ∷ json_text (view tree.now))) }
    ensures before { out.new.before ≡ out.old.before }
{
    out.put(b' ')?;
    match tree {
        Tree::Text(text) => json_codec::encode_text_into(alloc, text.as_str(), out),
        _ => json_codec::encode_into(alloc, tree, out),
    }
}
