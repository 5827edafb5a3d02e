//! The grammar of the words behind `subscribe` and `publish`, and their help.
use crate::grammar::option;
use clap::{Arg, ArgAction, Command};
use std::alloc::{AllocError, Global};

/// What stands after `subscribe`.
pub fn subscribe<'a>(alloc: Global) -> Result<Command<'a>, AllocError> {
    to_a_broker(alloc, "subscribe")?
        .about("Prints the events of topics as they come, a line of JSON each")
        .arg(
            option(alloc, "match").value_name("POLICY").help(
                "How topics are compared with those named: exact (if none is named), prefix or wildcard",
            ),
        )?
        .arg(flag(alloc, "get-retained").help("Ask for what is retained as well"))?
        .arg(
            option(alloc, "count")
                .value_name("N")
                .help("End after so many events, from 1"),
        )?
        .arg(flag(alloc, "plain").help(
            "Print the topic and the arguments alone, with spaces between them, in place of JSON",
        ))?
        .arg(flag(alloc, "reconnect").help(
            "Connect and subscribe again where the connection is lost, and tell what may be missed",
        ))?
        .arg(realm(alloc))?
        .arg(
            Arg::new(alloc, "topic")
                .value_name("TOPIC")
                .help("The topics")
                .required(true)
                .num_args(1..)
                .action(ArgAction::Append),
        )
}

/// What stands after `publish`.
pub fn publish<'a>(alloc: Global) -> Result<Command<'a>, AllocError> {
    to_a_broker(alloc, "publish")?
        .about("Publishes one event of its arguments, or one of each line of standard input")
        .arg(
            flag(alloc, "no-acknowledge")
                .conflicts_with("acknowledge")?
                .help(
                    "Don't wait for the broker to say that it published: faster, but what it refuses is lost without a word, and a long input may cut those who hear it",
                ),
        )?
        .arg(flag(alloc, "acknowledge").help(
            "Wait until the broker says that it published, as it does anyway",
        ))?
        .arg(flag(alloc, "retain").help("Make it the topic's retained event"))?
        .arg(flag(alloc, "disclose-me").help("Tell who hears it who published it"))?
        .arg(
            option(alloc, "exclude-me").value_name("WHETHER").help(
                "Whether the publisher itself is left out: true (if it isn't said) or false",
            ),
        )?
        .arg(list(alloc, "exclude", "SESSION").help(
            "Who doesn't receive it: the session of this id, from 1 to 9007199254740992, or of one of these",
        ))?
        .arg(list(alloc, "exclude-authid", "AUTHID").help(
            "Who doesn't receive it: sessions of this authid, or of one of these",
        ))?
        .arg(list(alloc, "exclude-authrole", "ROLE").help(
            "Who doesn't receive it: sessions of this role, or of one of these",
        ))?
        .arg(list(alloc, "eligible", "SESSION").help(
            "Who alone may receive it: the session of this id, from 1 to 9007199254740992, or of one of these",
        ))?
        .arg(list(alloc, "eligible-authid", "AUTHID").help(
            "Who alone may receive it: sessions of this authid, or of one of these",
        ))?
        .arg(list(alloc, "eligible-authrole", "ROLE").help(
            "Who alone may receive it: sessions of this role, or of one of these",
        ))?
        .arg(
            option(alloc, "kwargs").value_name("JSON").help(
                "What is published by keys: a dictionary in JSON, of whole numbers alone",
            ),
        )?
        .arg(
            option(alloc, "file")
                .value_name("PATH")
                .conflicts_with("argument")?
                .help(
                    "Publish the octets of this file as the one argument, a byte string; - is standard input",
                ),
        )?
        .arg(realm(alloc))?
        .arg(
            Arg::new(alloc, "topic")
                .value_name("TOPIC")
                .help("The topic")
                .required(true),
        )?
        .arg(
            Arg::new(alloc, "argument")
                .value_name("JSON")
                .help(
                    "The event's arguments, each in JSON, of whole numbers alone, or else a text; - publishes each line of standard input",
                )
                .num_args(0..)
                .action(ArgAction::Append),
        )
}

/// What stands after the name of a command that is a client: where its broker is, and how it is spoken to.
fn to_a_broker<'a>(alloc: Global, name: &'a str) -> Result<Command<'a>, AllocError> {
    Command::new(alloc, name)
        .disable_help_flag(true)
        .arg(
            Arg::new(alloc, "help")
                .long("help")
                .action(ArgAction::Help)
                .help("Print help"),
        )?
        .arg(
            option(alloc, "host").short('h').value_name("HOST").help(
                "The broker's name or address, 127.0.0.1 if none is named; its port may stand behind a colon",
            ),
        )?
        .arg(
            option(alloc, "port").short('p').value_name("PORT").help(
                "The broker's port, from 1 to 65535, 9000 if none is named",
            ),
        )?
        .arg(
            option(alloc, "authid")
                .value_name("AUTHID")
                .help("The authid to ask for"),
        )?
        .arg(
            option(alloc, "timeout").value_name("SECONDS").help(
                "How long an answer of the broker may take, from 1 to 86400, 10 if it isn't said",
            ),
        )?
        .arg(
            flag(alloc, "json")
                .conflicts_with("msgpack")?
                .help("Speak JSON in place of MessagePack"),
        )?
        .arg(flag(alloc, "msgpack").help("Speak MessagePack, as it does anyway"))
}

/// The realm that is joined.
fn realm<'a>(alloc: Global) -> Arg<'a> {
    Arg::new(alloc, "realm")
        .value_name("REALM")
        .help("The realm")
        .required(true)
}

/// An option that takes a value each time that it stands there.
fn list<'a>(alloc: Global, name: &'a str, value: &'a str) -> Arg<'a> {
    option(alloc, name)
        .value_name(value)
        .action(ArgAction::Append)
}

/// An option without a value.
pub fn flag<'a>(alloc: Global, name: &'a str) -> Arg<'a> {
    Arg::new(alloc, name).long(name).action(ArgAction::SetTrue)
}
