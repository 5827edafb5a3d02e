//! Why the program ends with a fault.
ghost use Rattle.std.specs.Prelude.{◌≡◌, ◌≢◌, [], false, true};
ghost use Rattle.std.specs.IoError.{error_kind};
ghost use Rattle.command_line.specs.declared.fault.Fault.TheVariants.{ConnectFault, FileFault, LateAnswer, ListenFault, NoMemory, Usage};
ghost use Rattle.command_line.specs.Commands.{fault_of_client, fault_of_input};

use broker_server::{Fault, explain, help, shown_line};
use client_commands::{Contact, InputFault, LinkFault};
use std::alloc::{AllocError, Global};
use std::io::{self, ErrorKind};

/// What an argument of an event has to be.
const ARGUMENTS: &str =
    "a number has to be whole (send it as a text, \"21.5\", or as a whole number in a smaller unit), \
    and lists and dictionaries nest no more than 98 levels";

/// What a broker says that doesn't serve a realm.
const NO_REALM: &str = "wamp.error.no_such_realm";

/// What is wrong with a word that can't be read.
const UNREADABLE: &str = "a word isn't UTF-8";

/// What a line of a replay has to be.
const REPLAYED: &str =
    "a line is a connection's number from 1 to 256, one space, and a message in JSON or the word gone, \
    in at most 1048576 octets";

/// A fault, and what is told behind its line.
#[derive(Drop)]
pub struct Failure {
    pub fault: Fault,
    /// Whole lines, or nothing.
    pub more: Vec<u8>,
}

impl Failure {
    /// A fault of which nothing else is told.
    pub fn of(alloc: Global, fault: Fault) -> Failure
        ensures fault { result.fault ≡ fault }
        ensures nothing { result.more.items ≡ [] }
    {
        Failure {
            fault,
            more: Vec::new(alloc),
        }
    }

    /// The words couldn't be had: one isn't UTF-8, or there is no memory for them.
    pub fn to_have_words(alloc: Global, error: &io::Error) -> Failure
        ensures unreadable { error_kind error.now ≡ ErrorKind.InvalidData → result.fault ≡ Usage }
        ensures unheld { error_kind error.now ≢ ErrorKind.InvalidData → result.fault ≡ NoMemory }
    {
        match error.kind() {
            ErrorKind::InvalidData => {
                let reason = format!(in alloc; "{UNREADABLE}");
                Failure::with_reason(alloc, Fault::Usage, reason.ok())
            }
            _ => Failure::of(alloc, Fault::NoMemory),
        }
    }

    /// Words that `read_command` refused with this fault: what is wrong with them, or the help where there are none.
    pub fn of_words(alloc: Global, fault: Fault, words: &[String]) -> Failure
        ensures { result.fault ≡ fault }
    {
        let more = match fault {
            Fault::Usage => told_of(alloc, words).unwrap_or_else(|_| Vec::new(alloc)),
            _ => Vec::new(alloc),
        };
        Failure { fault, more }
    }

    /// A replay ended by this fault.
    pub fn of_replay(alloc: Global, fault: Fault) -> Failure
        ensures { result.fault ≡ fault }
    {
        let reason = match fault {
            Fault::BadLine(_) => format!(in alloc; "{REPLAYED}").ok(),
            _ => None,
        };
        Failure::with_reason(alloc, fault, reason)
    }

    /// The listener couldn't be made.
    pub fn to_listen(alloc: Global, host: &str, port: u16, error: &io::Error) -> Failure
        ensures { result.fault ≡ ListenFault }
    {
        let reason = refused_at(alloc, "listen on", host, port, error);
        Failure::with_reason(alloc, Fault::ListenFault, reason)
    }

    /// No connection to a broker could be made.
    pub fn to_connect(alloc: Global, host: &str, port: u16, error: &io::Error) -> Failure
        ensures { result.fault ≡ ConnectFault }
    {
        let reason = refused_at(alloc, "connect to", host, port, error);
        Failure::with_reason(alloc, Fault::ConnectFault, reason)
    }

    /// A file that is to be published couldn't be opened.
    pub fn to_open(alloc: Global, path: &str, error: &io::Error) -> Failure
        ensures { result.fault ≡ FileFault }
    {
        let reason = format!(in alloc; "cannot open {path}: {error}");
        Failure::with_reason(alloc, Fault::FileFault, reason.ok())
    }

    /// An input, which is called so, couldn't be published as one argument.
    pub fn to_read(alloc: Global, name: &str, of: InputFault) -> Failure
        ensures { result.fault ≡ fault_of_input of }
    {
        let reason = match of {
            InputFault::ReadFault => format!(in alloc; "cannot read {name}").ok(),
            InputFault::TooLong => format!(in alloc; "{name} has more than 1048576 octets").ok(),
            _ => None,
        };
        Failure::with_reason(alloc, Fault::from(of), reason)
    }

    /// A client of this broker ended by this fault, and perhaps since an answer came too late.
    pub fn of_client(
        alloc: Global,
        of: client_commands::Fault,
        contact: &Contact,
        is_late: bool,
    ) -> Failure
        ensures in_time { is_late ≡ false → result.fault ≡ fault_of_client of }
        ensures late { is_late ≡ true → result.fault ≡ LateAnswer }
    {
        if is_late {
            let seconds = contact.timeout;
            let reason = format!(in alloc; "the broker didn't answer within {seconds} s");
            return Failure::with_reason(alloc, Fault::LateAnswer, reason.ok());
        }
        let reason = reason_of(alloc, &of, contact);
        Failure::with_reason(alloc, Fault::from(of), reason)
    }

    /// Serving ended by this fault, and accepting failed so the last time that it did.
    pub fn to_serve(alloc: Global, fault: Fault, failed: Option<&io::Error>) -> Failure
        ensures { result.fault ≡ fault }
    {
        match failed {
            Some(error) if fault == Fault::ListenFault => {
                let reason = format!(in alloc; "cannot accept connections: {error}");
                Failure::with_reason(alloc, fault, reason.ok())
            }
            _ => Failure::of(alloc, fault),
        }
    }

    /// A fault with its reason, where there was memory for one.
    fn with_reason(alloc: Global, fault: Fault, reason: Option<String>) -> Failure
        ensures { result.fault ≡ fault }
    {
        let more = match reason {
            Some(reason) => shown_line(alloc, reason.as_str()).unwrap_or_else(|_| Vec::new(alloc)),
            None => Vec::new(alloc),
        };
        Failure { fault, more }
    }
}

/// What the system refuses to do at a host's port. An address of IPv6 stands in brackets, so that its end can be told from the port.
fn refused_at(
    alloc: Global,
    what: &str,
    host: &str,
    port: u16,
    error: &io::Error,
) -> Option<String> {
    if host.contains(':') {
        format!(in alloc; "cannot {what} [{host}]:{port}: {error}").ok()
    } else {
        format!(in alloc; "cannot {what} {host}:{port}: {error}").ok()
    }
}

/// What is told of words that are refused.
fn told_of(alloc: Global, words: &[String]) -> Result<Vec<u8>, AllocError> {
    if words.is_empty() {
        return Ok(help(alloc)?.into_bytes());
    }
    shown_line(alloc, explain(alloc, words)?.as_str())
}

/// Why a client ended, for people: what the broker says, or how the connection failed. `None` where the fault's name tells all, or there is
/// no memory.
fn reason_of(alloc: Global, of: &client_commands::Fault, contact: &Contact) -> Option<String> {
    match of {
        client_commands::Fault::Refused(uri) if uri.as_str() == NO_REALM => {
            let realm = contact.realm.as_str();
            format!(in alloc; "the broker has no realm {realm}, and says {NO_REALM}").ok()
        }
        client_commands::Fault::Refused(uri) => {
            format!(in alloc; "the broker says {}", uri.as_str()).ok()
        }
        client_commands::Fault::Closed(uri) => {
            format!(in alloc; "the broker closed the session: {}", uri.as_str()).ok()
        }
        client_commands::Fault::Connection(fault) => {
            let advice = advice_on(fault);
            format!(in alloc; "{fault}{advice}").ok()
        }
        client_commands::Fault::Unexpected => {
            format!(in alloc; "the broker says what nothing asked for").ok()
        }
        client_commands::Fault::ForeignEvent => {
            format!(in alloc; "an event of no subscription came").ok()
        }
        client_commands::Fault::BadLine(_) => {
            format!(in alloc;
                "a line is a JSON value or a text, of at most 1048576 octets in UTF-8; {ARGUMENTS}"
            ).ok()
        }
        client_commands::Fault::Usage => format!(in alloc; "{ARGUMENTS}").ok(),
        _ => None,
    }
}

/// What to do where a connection failed so, if there is something.
fn advice_on(fault: &LinkFault) -> &'static str {
    match fault {
        LinkFault::Refused(1) => "; try it with --json, or without it",
        LinkFault::Refused(4) => "; try again when another client has gone",
        LinkFault::Ended => {
            "; it may have been cut, where more came at once than its outbox holds (serve --outbox)"
        }
        _ => "",
    }
}
