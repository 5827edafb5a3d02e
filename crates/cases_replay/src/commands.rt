//! Words of a command line, and faults as they are reported.
use crate::clients::{publish_line, subscribe_line};
use broker_config::{Config, Ids};
use command_line::{
    Command, Fault, Purpose, Serving, explain, read_command, report, report_failure, served_lines,
    shown_line, warn_of_exposure,
};
use rawsocket::MessageBound;
use rawsocket::devices::MemorySink;
use std::alloc::{AllocError, Global};
use std::io;
use std::net::IpAddr;

/// Words, which stand apart by spaces.
fn words_of(alloc: Global, text: &str) -> Result<Vec<String>, AllocError> {
    let mut words = Vec::new(alloc);
    for word in text.split(' ') {
        words.push(String::from_str(alloc, word)?)?;
    }
    Ok(words)
}

/// What is read of the words of a command line.
pub fn command(alloc: Global, text: &str) -> io::Result<String> {
    match read_command(alloc, &words_of(alloc, text)?) {
        Ok(Command::Help(help)) => help_line(alloc, help.as_str()),
        Ok(Command::Version(line)) => Ok(format!(in alloc; "version {line}")?),
        Ok(Command::Replay(config)) => {
            let start = String::from_str(alloc, "replay")?;
            config_line(start, &config)
        }
        Ok(
            Command::Serve {
                host,
                port,
                config,
                log,
                stats,
                bound,
                purpose,
            },
        ) => {
            let serving = Serving {
                purpose,
                host,
                port,
                config,
                log,
                stats,
                bound,
            };
            serve_line(alloc, &serving)
        }
        Ok(Command::Subscribe(command)) => subscribe_line(alloc, &command),
        Ok(Command::Publish(command)) => publish_line(alloc, &command),
        Ok(Command::PublishFile { path, command }) => {
            let path = path.as_str();
            let line = publish_line(alloc, &command)?;
            Ok(format!(in alloc; "file {path} {line}")?)
        }
        Err(fault) => Ok(format!(in alloc; "fault {fault}\n")?),
    }
}

/// What the program writes of the words of a command line that is refused.
pub fn explained(alloc: Global, text: &str) -> io::Result<String> {
    let words = words_of(alloc, text)?;
    let Err(fault) = read_command(alloc, &words) else {
        return Ok(String::from_str(alloc, "accepted\n")?);
    };
    let reason = explain(alloc, &words)?;
    failure(alloc, &fault, reason.as_str())
}

/// What is written of a fault with this reason, and the exit status.
pub fn failure(alloc: Global, fault: &Fault, reason: &str) -> io::Result<String> {
    let line = shown_line(alloc, reason)?;
    let mut sink = MemorySink::new(alloc);
    let status = report_failure(fault, &line, &mut sink);
    if !sink.octets().ends_with(&line) {
        return Err(AllocError)?;
    }
    let lines = std::str::from_utf8(sink.octets()).unwrap_or("");
    Ok(format!(in alloc; "status {status}: {lines}")?)
}

/// Whether the help names the commands.
fn help_line(alloc: Global, help: &str) -> io::Result<String> {
    let told = if help.contains("replay") && help.contains("serve") {
        "help that names replay and serve\n"
    } else {
        "help that doesn't name them\n"
    };
    Ok(String::from_str(alloc, told)?)
}

/// What a broker is served with, or checked.
fn serve_line(alloc: Global, serving: &Serving) -> io::Result<String> {
    let purpose = match serving.purpose {
        Purpose::Serve => "serve",
        Purpose::Check => "check",
        Purpose::CheckUnbound => "check unbound",
    };
    let ids = match serving.config.ids {
        Ids::Random => "random",
        Ids::Count => "count",
    };
    let mut line = log_words(alloc, serving)?;
    let host = serving.host.as_str();
    let port = serving.port;
    let outbox = serving.config.outbox;
    let place = format!(in alloc; "{purpose} {host} {port} outbox {outbox} ids {ids}")?;
    line.push_str(place.as_str())?;
    let octets = serving.bound.most_octets();
    if octets != MessageBound::largest().most_octets() {
        line.push_str(format!(in alloc; " longest {octets}")?.as_str())?;
    }
    config_line(line, &serving.config)
}

/// Whether there is a log, and how often it tells of each realm, if it does.
fn log_words(alloc: Global, serving: &Serving) -> io::Result<String> {
    let mut words = String::new(alloc);
    if serving.log {
        words.push_str("logged ")?;
    }
    if let Some(seconds) = serving.stats {
        words.push_str(format!(in alloc; "every {seconds} ")?.as_str())?;
    }
    Ok(words)
}

/// What a broker would serve by these words, as `--check` prints it.
pub fn served(alloc: Global, text: &str) -> io::Result<String> {
    let serving = match read_command(alloc, &words_of(alloc, text)?) {
        Ok(
            Command::Serve {
                host,
                port,
                config,
                log,
                stats,
                bound,
                purpose,
            },
        ) => Serving {
            purpose,
            host,
            port,
            config,
            log,
            stats,
            bound,
        },
        Err(Fault::NoMemory) => return Err(AllocError)?,
        _ => return Ok(String::from_str(alloc, "no broker\n")?),
    };
    let lines = served_lines(alloc, &serving)?;
    Ok(String::from_str(alloc, std::str::from_utf8(&lines).unwrap_or(""))?)
}

/// What is told where a broker listens at this address.
pub fn warned(alloc: Global, text: &str) -> io::Result<String> {
    let Ok(address) = text.parse::<IpAddr>() else {
        return Ok(String::from_str(alloc, "no address\n")?);
    };
    let mut sink = MemorySink::new(alloc);
    warn_of_exposure(address, &mut sink);
    if sink.octets().is_empty() {
        if address.is_unspecified() {
            // A sink without memory takes nothing.
            return Err(AllocError)?;
        }
        return Ok(String::from_str(alloc, "no warning\n")?);
    }
    Ok(String::from_str(alloc, std::str::from_utf8(sink.octets()).unwrap_or(""))?)
}

/// A line that goes on with the realms and the grants.
fn config_line(start: String, config: &Config) -> io::Result<String> {
    let mut line = start;
    for realm in &config.realms {
        line.push(' ')?;
        line.push_str(realm.text())?;
    }
    for (authid, role) in &config.grants {
        line.push_str(" with ")?;
        line.push_str(authid.as_str())?;
        line.push(':')?;
        line.push_str(role.as_str())?;
    }
    line.push('\n')?;
    Ok(line)
}

const FAULTS: [Fault; 12] = [
    Fault::NoMemory,
    Fault::ReadFault,
    Fault::WriteFault,
    Fault::Usage,
    Fault::BadLine(8),
    Fault::TooManyTurns,
    Fault::ListenFault,
    Fault::ConnectFault,
    Fault::Refused,
    Fault::ConnectionFault,
    Fault::LateAnswer,
    Fault::FileFault,
];

/// What is reported of each fault, and the exit status.
pub fn reports(alloc: Global) -> io::Result<String> {
    let mut told = String::new(alloc);
    for fault in &FAULTS {
        told.push_str(reported(alloc, fault)?.as_str())?;
    }
    Ok(told)
}

/// What is reported of a fault, and the exit status.
fn reported(alloc: Global, fault: &Fault) -> io::Result<String> {
    let mut sink = MemorySink::new(alloc);
    let status = report(fault, &mut sink);
    let line = std::str::from_utf8(sink.octets()).unwrap_or("");
    if !line.ends_with('\n') {
        return Err(AllocError)?;
    }
    Ok(format!(in alloc; "status {status}: {line}")?)
}
