//! `clap`'s command of a program: its name, the project's version, and how its errors end it.

ghost use Rattle.argus_cli.specs.Usage.{EndsWith0Or2, IsBare, IsUsage};
ghost use Rattle.clap.specs.Words.{kind_of};

use crate::no_options::NoOptions;
use clap::error::ErrorKind;
use clap::{Command, Error};
use std::alloc::Global;

/// The version of the project, which both programs have.
pub const VERSION: &str = "0.1.0";

/// The command of a program that takes `--help` and `--version` and nothing else yet. Help begins
/// with `about` and ends with `details`.
///
/// ```text
/// let command = new_command(rt.alloc(), "replay", "Confirms a listing.", "It comes from ..");
/// ```
pub fn new_command<'a>(
    alloc: Global,
    name: &'a str,
    about: &'a str,
    details: &'a str,
) -> Command<'a>
    ensures { IsBare name.now result }
{
    Command::new(alloc, name)
        .version(VERSION)
        .about(about)
        .after_help(details)
}

/// How a program ends on an error of `clap`: with its text, and status 2 for a mistake, 0 for
/// `--help` and `--version`. `Memory`: that is the error, or there is no memory for its text.
pub fn usage(alloc: Global, error: &Error) -> NoOptions
    ensures status { EndsWith0Or2 result }
    ensures usage { IsUsage (kind_of error.now) result }
{
    if let ErrorKind::OutOfMemory = error.kind() {
        return NoOptions::Memory;
    }
    let status = if error.use_stderr() { 2 } else { 0 };
    match format!(in alloc; "{error}") {
        Ok(text) => NoOptions::Usage { status, text },
        Err(_) => NoOptions::Memory,
    }
}
