//! `argus`: runs a script from standard input on a new guardian, and writes the listing asked for.
//!
//! | Status | Meaning | On standard error |
//! |---|---|---|
//! | 0 | done; or help or the version was asked for | nothing |
//! | 2 | a mistake in the command line | its text |
//! | 3 | the script is refused | `line N: KIND` |
//! | 4 | out of memory, or a worker couldn't be started | `out of memory` |
//! | 5 | a read or a write failed | `read fault` or `write fault` |
#![tactic(auto)]

ghost use Rattle.std.specs.Prelude.{IfOk};
ghost use Rattle.argus_cli.specs.Ranges.{KeepsRanges};

use argus_cli::{CliFault, NoOptions, Options, options, run, words_given};
use argus_commands::FailStop;
use argus_values::Heap;
use std::process::ExitCode;
use std::rt::Env;

fn main(rt: HostRuntime) -> ExitCode {
    let options = match options_given(&rt) {
        Ok(options) => options,
        Err(refused) => return ExitCode::from(refused.show(&rt)),
    };
    let Ok(heap) = Heap::new(rt.alloc()) else {
        return end_with_fault(&rt, CliFault::Memory);
    };
    let mut reader = FailStop::new(rt.stdin());
    let mut writer = FailStop::new(rt.stdout());
    match run(&rt, heap, &mut reader, &mut writer, options) {
        Ok(()) => ExitCode::SUCCESS,
        Err(fault) => end_with_fault(&rt, fault),
    }
}

// What the words after the program's name ask for.
fn options_given(rt: &(impl Env + AllocGlobal)) -> Result<Options, NoOptions>
    ensures { IfOk result KeepsRanges }
{
    options(rt.alloc(), words_given(rt)?)
}

// If standard error can't be written, only the status says so.
fn end_with_fault(rt: &impl Eprint, fault: CliFault) -> ExitCode {
    let _ = rt.eprintln(&fault);
    ExitCode::from(fault.status())
}
