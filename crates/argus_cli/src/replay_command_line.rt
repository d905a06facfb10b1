//! `options_for_replay`: what the command line of a replay asks for.

ghost use Rattle.std.specs.Prelude.{IfErr, IfOk, map, option_map, string_bytes, ◌≡◌, ◌⊎◌};
ghost use Rattle.argus_cli.specs.ReplayCommandLine.{AskNoReplay, AsksReplay, IsReplayRefused};
ghost use Rattle.argus_cli.specs.ReplayCommandLine.{IsReplayProgram};
ghost use Rattle.argus_cli.specs.Usage.{EndsWith0Or2};
ghost use Rattle.clap.specs.Words.{kind_of};

use crate::arguments::{flag, list_option, text_option};
use crate::command::{new_command, usage};
use crate::command_line::listing_named;
use crate::no_options::NoOptions;
use crate::replay_options::{ReplayOptions, ReplayRequest};
use crate::words::with_name;
use clap::error::ErrorKind;
use clap::{Command, Error};
use std::alloc::{AllocError, Global};

const ABOUT: &str = "Checks a journal's listing from standard input, as `argus --list journal` \
    prints it, or a log's in a database: makes each call again, compares each reply, and lists the \
    guardian that comes of it.";

const DETAILS: &str = "\
The listing goes to standard output, with objects under their numbers. With --prefix the fault of
a text goes to standard error, and the status is 0.

With --database the listing is that of the log in this file and the WAL beside it. No process may
write it meanwhile, and nothing is written. First the rows are compared: each number and each sum.

Exit status:
  0  done
  2  a mistake in the command line
  3  the text is no journal's listing, or the file no log: on standard error `line N: KIND`,
     `table TABLE, row N: KIND`, `table TABLE, row N, line N: KIND` or `database: KIND`
  4  out of memory
  5  a read or a write failed, or there is no such file";

const PREFIX_HELP: &str = "Lists what a torn or faulty text gives up to its first faulty line";

const DATABASE_HELP: &str = "Reads the log in this SQLite database instead of standard input";

/// What the words after the program's name ask for. Without any, the bases are listed, and the text
/// has to be a listing to its end.
///
/// | Words | What they ask for |
/// |---|---|
/// | `--list bases`, `stacks`, `journal` or `audit` | this listing |
/// | `--database FILE` | the log in this database is listed, instead of standard input |
/// | `--prefix` | a text that is torn or has a faulty line is listed as far as it goes |
///
/// `Usage` comes if there is a mistake in the words, or they ask for `--help` or `--version`. It
/// has the text with which the program ends, and its status: 2 for a mistake, else 0. `Memory` may
/// come in place of any result.
///
/// ```text
/// let options = options_for_replay(rt.alloc(), words)?;       // of `replay --list audit`
/// ```
pub fn options_for_replay(alloc: Global, words: Vec<String>) -> Result<ReplayRequest, NoOptions>
    ensures status { IfErr result EndsWith0Or2 }
    ensures asked { IfOk result (AsksReplay (map string_bytes words.items)) }
    ensures refused { IfErr result (AskNoReplay (map string_bytes words.items)) }
{
    match asked(alloc, words.as_slice()) {
        Ok(options) => Ok(options),
        Err(error) => Err(usage(alloc, &error)),
    }
}

fn asked(alloc: Global, words: &[String]) -> Result<ReplayRequest, Error>
    ensures asked { IfOk result (AsksReplay (map string_bytes words.now)) }
    ensures refused { IfErr result (λ e. (kind_of e ≡ ErrorKind.OutOfMemory)
        ⊎ IsReplayRefused (map string_bytes words.now) (kind_of e)) }
{
    let all = with_name(alloc, "replay", words)?;
    let matches = command(alloc)?.try_get_matches_from(all.as_slice())?;
    let options = ReplayOptions {
        listing: listing_named(matches.get_str("list").unwrap_or("bases")),
        prefix: matches.get_one::<bool>("prefix").unwrap_or(false),
    };
    let database = kept(alloc, matches.get_str("database"))?;
    Ok(ReplayRequest { database, options })
}

// A copy of a text that is given.
fn kept(alloc: Global, given: Option<&str>) -> Result<Option<String>, AllocError>
    ensures { IfOk result (λ text. option_map string_bytes text
        ≡ option_map (λ s. s.now) given.entry) }
{
    match given {
        Some(text) => Ok(Some(String::from_str(alloc, text)?)),
        None => Ok(None),
    }
}

fn command<'a>(alloc: Global) -> Result<Command<'a>, AllocError>
    ensures { IfOk result IsReplayProgram }
{
    new_command(alloc, "replay", ABOUT, DETAILS)
        .arg(list_option(alloc))?
        .arg(flag(alloc, "prefix", PREFIX_HELP))?
        .arg(text_option(alloc, "database", "FILE", DATABASE_HELP))
}
