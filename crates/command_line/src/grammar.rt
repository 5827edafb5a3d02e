//! The grammar of the command line, and its help.
use crate::client_grammar::{flag, publish, subscribe};
use crate::version::VERSION;
use clap::{Arg, ArgAction, Command};
use std::alloc::{AllocError, Global};

/// What a command line looks like.
pub fn grammar<'a>(alloc: Global) -> Result<Command<'a>, AllocError> {
    Command::new(alloc, "wampd")
        .bin_name("wampd")?
        .about("A publish-subscribe broker for WAMP")
        .version(VERSION)
        .no_binary_name(true)
        .subcommand_required(true)
        .subcommand(replay(alloc)?)?
        .subcommand(serve(alloc)?)?
        .subcommand(subscribe(alloc)?)?
        .subcommand(publish(alloc)?)
}

/// What stands after `replay`.
fn replay<'a>(alloc: Global) -> Result<Command<'a>, AllocError> {
    Command::new(alloc, "replay")
        .about("Runs one realm on lines of input, each a client's number and its message")
        .arg(
            option(alloc, "realm")
                .value_name("REALM")
                .help("The realm")
                .required(true),
        )?
        .arg(grants(alloc))
}

/// What stands after `serve`.
fn serve<'a>(alloc: Global) -> Result<Command<'a>, AllocError> {
    Command::new(alloc, "serve")
        .about("Serves realms over RawSocket")
        .arg(
            option(alloc, "port")
                .value_name("PORT")
                .help("The port to listen at, from 1 to 65535")
                .required(true),
        )?
        .arg(
            option(alloc, "host").value_name("HOST").help(
                "The name or address to listen at, 127.0.0.1 if none is named",
            ),
        )?
        .arg(
            option(alloc, "outbox").value_name("ITEMS").help(
                "How many items may wait for a client, from 1 to 65536, 256 if none is named",
            ),
        )?
        .arg(
            option(alloc, "ids")
                .value_name("SOURCE")
                .help("What ids are made of: random (if none is named) or count"),
        )?
        .arg(grants(alloc))?
        .arg(flag(alloc, "log").help(
            "Tell on standard error what happens to connections, a line each",
        ))?
        .arg(
            option(alloc, "stats")
                .value_name("SECONDS")
                .requires_arg("log")?
                .help("How often, in seconds, the log tells of each realm (needs --log)"),
        )?
        .arg(
            option(alloc, "longest-message").value_name("OCTETS").help(
                "How many octets a client's message may have, a power of two from 512 to 1048576, 1048576 if none is named",
            ),
        )?
        .arg(flag(alloc, "check").help(
            "Serve nothing: print what would be served, and end with status 0, or by the fault that serving would end by",
        ))?
        .arg(
            flag(alloc, "no-bind").requires_arg("check")?.help(
                "With --check: leave the port alone, as a broker that runs has it",
            ),
        )?
        .arg(
            Arg::new(alloc, "realm")
                .value_name("REALM")
                .help("The realms, from 1 to 16")
                .required(true)
                .num_args(1..)
                .action(ArgAction::Append),
        )
}

/// An option that takes a value.
pub fn option<'a>(alloc: Global, name: &'a str) -> Arg<'a> {
    Arg::new(alloc, name).long(name).action(ArgAction::Set)
}

/// The option that names who may ask for which authid.
fn grants<'a>(alloc: Global) -> Arg<'a> {
    option(alloc, "grants").value_name("AUTHID:ROLE,..").help(
        "The authids that a client may ask for, each with its role",
    )
}
