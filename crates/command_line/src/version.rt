//! Which version this is.
ghost use Rattle.std.specs.Prelude.{◌≡◌, IfOk, IfErr, string_bytes};
ghost use Rattle.command_line.specs.Commands.{asks_for_version, version_line};

use std::alloc::{AllocError, Global};

/// The version, and the toolchain that its proofs are checked with, whose letter may be any. A build
/// has no way to put more in here: a package names commit and letter (`tools/package`), and refuses
/// another toolchain.
pub const VERSION: &str = "0.9.0 (rattle-kit-13)";

/// The line that says which version this is, in memory of its own.
pub fn version(alloc: Global) -> Result<String, AllocError>
    ensures { IfOk result (λ text. string_bytes text ≡ version_line) }
{
    format!(in alloc; "wampd {VERSION}\n")
}

/// Whether the first of these words asks for the version.
pub fn asks_for_version(words: &[String]) -> bool
    ensures { result ≡ asks_for_version words.now }
{
    if words.is_empty() {
        return false;
    }
    let word = words[0].as_str();
    word == "--version" || word == "-V"
}
