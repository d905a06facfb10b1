//! The options of both programs, as `clap` takes them.

ghost use Rattle.std.specs.{Borrow.Bor, Prelude.{List, codes, false, ◌≡◌}};
ghost use Rattle.argus_cli.specs.CommandLine.{NamesListings, flag_of, option_of, text_option_of};
ghost use Rattle.clap.specs.Words.{IsPlainArg, Text, rule_of};
ghost use Rattle.clap.specs.declared.builder.value_parser.ValueParser.TheVariants as vp;

use clap::{Arg, ArgAction};
use std::alloc::Global;

/// An option without a value: `--checkpoint`.
pub(crate) fn flag<'a>(alloc: Global, name: &'a str, help: &'a str) -> Arg<'a>
    ensures rule { rule_of result ≡ flag_of name.now }
    ensures plain { IsPlainArg result × (result.global ≡ false) }
{
    Arg::new(alloc, name)
        .long(name)
        .action(ArgAction::SetTrue)
        .help(help)
}

/// An option with a value, which may be any text: `--database FILE`.
pub(crate) fn text_option<'a>(
    alloc: Global,
    name: &'a str,
    value: &'a str,
    help: &'a str,
) -> Arg<'a>
    ensures rule { rule_of result ≡ text_option_of name.now }
    ensures plain { IsPlainArg result × (result.global ≡ false) }
{
    Arg::new(alloc, name)
        .long(name)
        .action(ArgAction::Set)
        .value_name(value)
        .help(help)
}

/// Which listing is asked for: `--list bases`.
pub(crate) fn list_option<'a>(alloc: Global) -> Arg<'a>
    ensures rule { (listings : Bor (List (Bor Text))) × NamesListings listings
        × (rule_of result ≡ option_of (codes "list") (codes "bases") (vp.Names listings)) }
    ensures plain { IsPlainArg result × (result.global ≡ false) }
{
    text_option(alloc, "list", "LISTING", "What is listed after the run")
        .value_parser(["bases", "stacks", "journal", "audit"].as_slice())
        .default_value("bases")
}
