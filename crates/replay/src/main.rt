//! `replay`: checks the journal's listing that standard input or a log in a database has, and lists
//! its guardian to standard output.
//!
//! | Status | Meaning | On standard error |
//! |---|---|---|
//! | 0 | done; or help or the version was asked for | nothing; with `--prefix` the faulty line |
//! | 2 | a mistake in the command line | its text |
//! | 3 | the text isn't a journal's listing | `line N: KIND`; of a log `table TABLE, row N, line N: KIND` |
//! | 3 | the database has no log, or its rows don't follow | `database: KIND` or `table TABLE, row N: KIND` |
//! | 4 | out of memory | `out of memory` |
//! | 5 | a read or a write failed | `read fault` or `write fault`; without a file `database: NoFile` |
#![tactic(auto)]

mod database;
mod telling;

use argus_cli::{
    NoOptions, ReplayError, ReplayOptions, ReplayRequest, options_for_replay, replay, words_given,
};
use argus_commands::FailStop;
use argus_values::Heap;
use database::{LogListing, read_log};
use std::alloc::Global;
use std::io::{Read, Write};
use std::process::ExitCode;
use std::rt::Env;
use telling::{end_with_error, tell_database_fault, tell_line};

fn main(rt: HostRuntime) -> ExitCode {
    match options_given(&rt) {
        Ok(asked) => replay_asked(&rt, asked),
        Err(refused) => ExitCode::from(refused.show(&rt)),
    }
}

// What the words after the program's name ask for.
fn options_given(rt: &(impl Env + AllocGlobal)) -> Result<ReplayRequest, NoOptions> {
    options_for_replay(rt.alloc(), words_given(rt)?)
}

// Checks the listing of standard input, or the log in a database.
fn replay_asked(rt: &HostRuntime, asked: ReplayRequest) -> ExitCode {
    let ReplayRequest { database, options } = asked;
    match database {
        Some(path) => replay_database(rt, path.as_str(), options),
        None => replay_listing(rt, rt.alloc(), rt.stdin(), rt.stdout(), options, None),
    }
}

// Checks the log in a database, and lists its guardian to standard output.
fn replay_database(rt: &HostRuntime, path: &str, options: ReplayOptions) -> ExitCode {
    match read_log(rt, path) {
        Ok(log) => {
            let text = log.text.as_slice();
            replay_listing(rt, rt.alloc(), text, rt.stdout(), options, Some(&log))
        }
        Err(fault) => ExitCode::from(tell_database_fault(rt, &fault)),
    }
}

// Checks the listing that the reader has, and lists its guardian to the writer. A faulty line is
// told by its row, where the listing is that of a log.
fn replay_listing(
    rt: &impl Eprint,
    alloc: Global,
    reader: impl Read + Drop,
    writer: impl Write + Drop,
    options: ReplayOptions,
    log: Option<&LogListing>,
) -> ExitCode {
    let Ok(heap) = Heap::new(alloc) else {
        return end_with_error(rt, None, ReplayError::OutOfMemory, log);
    };
    match replay(
        heap,
        &mut FailStop::new(reader),
        &mut FailStop::new(writer),
        options,
    ) {
        Ok(None) => ExitCode::SUCCESS,
        Ok(Some(faulty)) => {
            tell_line(rt, heap, faulty, log);
            ExitCode::SUCCESS
        }
        Err(error) => end_with_error(rt, Some(heap), error, log),
    }
}
