//! Acts and posts, as a line has them.
ghost use Rattle.std.specs.Prelude.{◌≡◌, None, false, IfOk, IfSome};
ghost use Rattle.realm_inbox.specs.Joins.{is_join};

use crate::wire::Wire;
use case_text::{octets_of, part_of, spell};
use message_tree::{Octets, Text};
use outbox_queue::pair;
use realm_inbox::{Act, Joining, Letter, Post, RealmHistory};
use session::{Item, Said};
use std::alloc::Global;
use std::io;
use wamp_ids::{Conn, Id};
use wamp_messages::{Args, Publish, PublishOptions};

/// The act that a word names, unless it is a Join.
pub fn act_of(alloc: Global, word: &str, text: &str) -> io::Result<Option<Act<Wire>>>
    ensures { IfOk result (λ found. IfSome found (λ act. is_join act ≡ false)) }
{
    match word {
        "ping" => {
            let octets = octets_of(alloc, text)?;
            Ok(Some(Act::Ping(Octets::from_vec(octets))))
        }
        "publish" => Ok(Some(Act::Said(Said::Publish(publish_of(alloc, text)?)))),
        "goodbye" => Ok(Some(Act::Said(Said::Goodbye))),
        "spoilt" => Ok(Some(Act::Spoilt)),
        "gone" => Ok(Some(Act::Gone)),
        _ => Ok(None),
    }
}

// A PUBLISH to this topic, without options and arguments.
fn publish_of(alloc: Global, topic: &str) -> io::Result<Publish> {
    Ok(Publish {
        request: Id::of_word(0),
        options: PublishOptions::none(),
        topic: Text::of(alloc, topic)?,
        args: Args::none(),
    })
}

/// What a connection brings to join, with an outbox of its own, in which two items may wait.
pub fn joining_of(alloc: Global, conn: Conn, authid: &str, number: u64) -> io::Result<Joining<Wire>>
    ensures own { IfOk result (λ joining. joining.outbox.conn ≡ conn) }
    ensures home { IfOk result (λ joining. joining.outbox.chronicle ≡ None) }
{
    let authid = match part_of(authid) {
        "" => None,
        authid => Some(Text::of(alloc, authid)?),
    };
    let (outbox, _) = pair::<Item, RealmHistory>(alloc, conn.value(), 2)?;
    Ok(Joining {
        authid,
        outbox,
        transport: Wire { number },
    })
}

fn tell_joining(out: &mut String, joining: &Joining<Wire>) -> io::Result<()> {
    let authid = match &joining.authid {
        None => "-",
        Some(authid) => authid.as_str(),
    };
    let conn = joining.outbox.conn();
    let room = joining.outbox.capacity();
    let wire = joining.transport.number;
    write!(
        out,
        "join {authid} by wire {wire}, outbox of {conn} for {room}"
    )?;
    Ok(())
}

/// Adds what an act is.
pub fn tell_act(out: &mut String, act: &Act<Wire>) -> io::Result<()> {
    match act {
        Act::Join(joining) => tell_joining(out, joining),
        Act::Said(Said::Goodbye) => Ok(out.push_str("goodbye")?),
        Act::Said(Said::Publish(publish)) => {
            out.push_str("publish ")?;
            Ok(out.push_str(publish.topic.as_str())?)
        }
        Act::Said(_) => Ok(out.push_str("said")?),
        Act::Ping(octets) => {
            out.push_str("ping ")?;
            spell(out, octets.as_slice())
        }
        Act::Spoilt => Ok(out.push_str("spoilt")?),
        Act::Gone => Ok(out.push_str("gone")?),
    }
}

fn tell_letter(out: &mut String, letter: &Letter<Wire>) -> io::Result<()> {
    let conn = letter.conn().value();
    write!(out, "{conn} ")?;
    tell_act(out, letter.act())
}

/// What was received, as a line.
pub fn told(alloc: Global, received: Option<Post<Wire>>) -> io::Result<String> {
    let mut line = String::new(alloc);
    match &received {
        None => line.push_str("none")?,
        Some(Post::Stop(_)) => line.push_str("stop")?,
        Some(Post::Act(letter)) => tell_letter(&mut line, letter)?,
    }
    line.push('\n')?;
    Ok(line)
}

/// What came of a post, as a line.
pub fn answered(alloc: Global, posted: Result<(), Act<Wire>>) -> io::Result<String> {
    let mut line = String::new(alloc);
    if let Err(act) = &posted {
        line.push_str("back: ")?;
        tell_act(&mut line, act)?;
        line.push('\n')?;
    }
    Ok(line)
}
