//! `options`: what a command line asks for.

ghost use Rattle.std.specs.Prelude.{IfErr, IfOk, codes, false, map, pos, string_bytes, ◌≡◌, ◌⊎◌};
ghost use Rattle.argus_cli.specs.CommandLine.{AskNothing, Asks, IsProgram, IsRefused};
ghost use Rattle.argus_cli.specs.CommandLine.{listing_named, option_of};
ghost use Rattle.argus_cli.specs.Ranges.{KeepsRanges};
ghost use Rattle.argus_cli.specs.declared.limits.TheConstants.{MAX_PATIENCE, MAX_WORKERS};
ghost use Rattle.argus_cli.specs.Usage.{EndsWith0Or2};
ghost use Rattle.clap.specs.Words.{IsPlainArg, kind_of, rule_of};
ghost use Rattle.clap.specs.declared.builder.value_parser.ValueParser.TheVariants as vp;

use crate::arguments::{flag, list_option, text_option};
use crate::command::{new_command, usage};
use crate::limits::{MAX_PATIENCE, MAX_WORKERS};
use crate::no_options::NoOptions;
use crate::run_options::Options;
use crate::words::with_name;
use argus_guardian::Listing;
use clap::error::ErrorKind;
use clap::{Arg, Command, Error, value_parser};
use std::alloc::{AllocError, Global};

const ABOUT: &str =
    "Runs a script from standard input on a new guardian, and lists what it then holds.";

const DETAILS: &str = "\
The listing goes to standard output. With several workers and --patience, an access waits for its
lock; one that would wait while all other workers wait is refused.

Exit status:
  0  done
  2  a mistake in the command line
  3  the script is refused: `line N: KIND` on standard error
  4  out of memory, or a worker couldn't be started
  5  a read or a write failed";

const WORKERS_HELP: &str = "How many workers run the arms of coenters, 8 at most";

const PATIENCE_HELP: &str =
    "With several workers: how many wake-ups an access waits for its lock, 1000 at most";

const CHECKPOINT_HELP: &str = "Folds the journal into its opening before it is listed";

/// What the words after the program's name ask for. Without any, one worker runs the script, the
/// bases are listed and no checkpoint is made.
///
/// | Words | What they ask for |
/// |---|---|
/// | `--workers 1` to `8` | this many workers |
/// | `--patience 0` to `1000` | with several workers: accesses wait for this many wake-ups |
/// | `--list bases`, `stacks`, `journal` or `audit` | this listing |
/// | `--checkpoint` | a checkpoint after the run |
///
/// On `Ok` there is no mistake in the words, and each option has the value that they give it, by
/// the matches of `clap`, or its default. Workers and patience are within their ranges.
///
/// `Usage` comes if there is a mistake in the words, or they ask for `--help` or `--version`. It
/// has the text with which the program ends, and its status: 2 for a mistake, else 0. `Memory` may
/// come in place of any result.
///
/// ```text
/// let options = options(rt.alloc(), words)?;       // of `argus --list bases`
/// ```
pub fn options(alloc: Global, words: Vec<String>) -> Result<Options, NoOptions>
    ensures ranges { IfOk result KeepsRanges }
    ensures status { IfErr result EndsWith0Or2 }
    ensures asked { IfOk result (Asks (map string_bytes words.items)) }
    ensures refused { IfErr result (AskNothing (map string_bytes words.items)) }
{
    match asked(alloc, words.as_slice()) {
        Ok(options) => Ok(options),
        Err(error) => Err(usage(alloc, &error)),
    }
}

fn asked(alloc: Global, words: &[String]) -> Result<Options, Error>
    ensures ranges { IfOk result KeepsRanges }
    ensures asked { IfOk result (Asks (map string_bytes words.now)) }
    ensures refused { IfErr result (λ e. (kind_of e ≡ ErrorKind.OutOfMemory)
        ⊎ IsRefused (map string_bytes words.now) (kind_of e)) }
{
    let all = with_name(alloc, "argus", words)?;
    let matches = command(alloc)?.try_get_matches_from(all.as_slice())?;
    Ok(Options {
        workers: matches.get_one::<u32>("workers").unwrap_or(1),
        patience: matches.get_one::<u32>("patience").unwrap_or(0),
        listing: listing_named(matches.get_str("list").unwrap_or("bases")),
        checkpoint: matches.get_one::<bool>("checkpoint").unwrap_or(false),
    })
}

// The listing with a name that the command takes.
pub(crate) fn listing_named(name: &str) -> Listing
    ensures { result ≡ listing_named name.now }
{
    match name {
        "stacks" => Listing::Stacks,
        "journal" => Listing::Journal,
        "audit" => Listing::Audit,
        // This is "bases": of `list_option` the command takes no fifth name.
        _ => Listing::Bases,
    }
}

fn command<'a>(alloc: Global) -> Result<Command<'a>, AllocError>
    ensures { IfOk result IsProgram }
{
    new_command(alloc, "argus", ABOUT, DETAILS)
        .arg(workers_option(alloc))?
        .arg(patience_option(alloc))?
        .arg(list_option(alloc))?
        .arg(flag(alloc, "checkpoint", CHECKPOINT_HELP))
}

fn workers_option<'a>(alloc: Global) -> Arg<'a>
    ensures rule { rule_of result
        ≡ option_of (codes "workers") (codes "1") (vp.Signed (pos 1) (pos MAX_WORKERS)) }
    ensures plain { IsPlainArg result × (result.global ≡ false) }
{
    text_option(alloc, "workers", "N", WORKERS_HELP)
        .value_parser(value_parser!(u32).range(1..=i64::from(MAX_WORKERS)))
        .default_value("1")
}

fn patience_option<'a>(alloc: Global) -> Arg<'a>
    ensures rule { rule_of result
        ≡ option_of (codes "patience") (codes "0") (vp.Signed (pos 0) (pos MAX_PATIENCE)) }
    ensures plain { IsPlainArg result × (result.global ≡ false) }
{
    text_option(alloc, "patience", "N", PATIENCE_HELP)
        .value_parser(value_parser!(u32).range(0..=i64::from(MAX_PATIENCE)))
        .default_value("0")
}
