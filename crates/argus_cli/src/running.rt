//! `run`: from the bytes of a script to the listing of the guardian on which it was run.

ghost use Rattle.std.specs.Prelude.{IfErr, IfOk, OnOk, false, ◌+◌, ◌<◌, ◌≡◌};
ghost use Rattle.argus_commands.specs.language_declared.limits.TheConstants.{MAX_SCRIPT_BYTES};
ghost use Rattle.argus_commands.specs.FailStop.{has_failed, inner_of};
ghost use Rattle.argus_cli.specs.{Ran.{Ran, RunFailed, checkpointed, new_journal}, Streams.streams};
ghost use Rattle.argus_cli.specs.{ByWorkers.IsLeftByWorkers, Ranges.KeepsRanges};
ghost use Rattle.argus_cli.specs.Status.{IsListingFault};
ghost use Rattle.argus_commands.specs.{Played.IsPlay, Script.plain_script};
ghost use Rattle.argus_guardian.specs.Listing.{Writes, listing_of};

use crate::cli_fault::CliFault;
use crate::listing::list;
use crate::run_options::Options;
use crate::running_by_workers::run_by_workers;
use argus_commands::limits::MAX_SCRIPT_BYTES;
use argus_commands::{
    FailStop, InputError, ParseError, Script, parse, read_up_to, run_without_output,
};
use argus_guardian::{CheckpointError, Guardian};
use argus_values::{Heap, Name, OutOfMemory};
use std::io::{Read, Write};
use std::sync::Wait;
use std::thread::Threads;

/// Reads a script, runs it on a new guardian and writes the listing that is asked for.
///
/// A script is read up to 16,777,217 bytes: one more than it may have. One worker runs the arms of
/// a coenter one after another. Several run those of an outermost coenter at once, each on a thread
/// of its own, and accesses wait for their locks as long as the patience lasts; what they did is
/// then checked against the script and the journal. Its entries, each once, are those of a run of
/// the script. Of two calls the one that comes earlier in the script was made earlier, unless two
/// arms of one outermost coenter made them. If the options ask for a checkpoint, one is
/// made after the run; if there can't be one (an action is live, or the next entry's number is too
/// great), the journal is listed as it is.
///
/// | Error | When | What was written |
/// |---|---|---|
/// | `Script` | this is the first faulty line of what was read | nothing |
/// | `Memory` | no memory, or a worker can't be started | nothing, or a prefix of the listing |
/// | `Read` | a read failed; it isn't tried again | nothing |
/// | `Write` | a write failed, or accepted nothing; it isn't tried again | a prefix of it |
///
/// The reader has failed exactly at `Read`, and the writer exactly at `Write`.
///
/// Condition: neither the reader nor the writer has failed before, and the options are within their
/// ranges. With several workers it may wait for other threads.
///
/// ```text
/// let mut reader = FailStop::new(rt.stdin());
/// let mut writer = FailStop::new(rt.stdout());
/// let asked = Options { workers: 2, patience: 9, listing: Listing::Bases, checkpoint: false };
/// run(&rt, heap, &mut reader, &mut writer, asked)?;
/// ```
pub fn run<T: Threads + Wait + Copy + Drop + Send + Sync, R: Read + Drop, W: Write + Drop>(
    rt: &T,
    heap: Heap,
    reader: &mut FailStop<R>,
    writer: &mut FailStop<W>,
    options: Options,
) -> Result<(), CliFault>
    requires options { KeepsRanges options }
    requires reader { has_failed reader.old ≡ false }
    requires writer { has_failed writer.old ≡ false }
    ensures ran { OnOk result (Ran options (MAX_SCRIPT_BYTES + 1)
        (streams R.remaining W.contents reader.old writer.old)
        (streams R.remaining W.contents reader.new writer.new)) }
    ensures failed { IfErr result (RunFailed options (MAX_SCRIPT_BYTES + 1)
        (streams R.remaining W.contents reader.old writer.old)
        (streams R.remaining W.contents reader.new writer.new)) }
{
    let bytes = match read_up_to(heap, reader, MAX_SCRIPT_BYTES + 1) {
        Ok(bytes) => bytes,
        Err(InputError::Read) => return Err(CliFault::Read),
        Err(InputError::OutOfMemory) => return Err(CliFault::Memory),
    };
    let script = match parse(heap, bytes.as_slice()) {
        Ok(script) => script,
        Err(ParseError::Fault(fault)) => return Err(CliFault::Script(fault)),
        Err(ParseError::Memory) => return Err(CliFault::Memory),
    };
    let mut guardian = run_on_new(rt, heap, &script, options)?;
    fold_and_list(heap, &mut guardian, script.names(), options, writer)
}

// Runs the script on a new guardian, by as many workers as the options say.
fn run_on_new<T: Threads + Wait + Copy + Drop + Send + Sync>(
    rt: &T,
    heap: Heap,
    script: &Script,
    options: Options,
) -> Result<Guardian, OutOfMemory>
    requires { KeepsRanges options }
    ensures alone { IfOk result (λ left. options.workers ≡ 1
        → IsPlay new_journal (plain_script script.now) left) }
    ensures together { IfOk result (λ left. 1 < options.workers
        → IsLeftByWorkers (plain_script script.now) left) }
{
    if options.workers > 1 {
        return run_by_workers(rt, heap, script, options.workers, options.patience);
    }
    let mut guardian = Guardian::new(heap);
    run_without_output(heap, &mut guardian, script)?;
    Ok(guardian)
}

// Lists the guardian, after a checkpoint if one is asked for.
fn fold_and_list<W: Write + Drop>(
    heap: Heap,
    guardian: &mut Guardian,
    names: &[Name],
    options: Options,
    writer: &mut FailStop<W>,
) -> Result<(), CliFault>
    requires { has_failed writer.old ≡ false }
    ensures written { Writes result (W.contents (inner_of writer.old))
        (W.contents (inner_of writer.new))
        (listing_of options.listing names.now (checkpointed options.checkpoint guardian.old)) }
    ensures fine { OnOk result (has_failed writer.new ≡ false) }
    ensures failed { IfErr result (λ e. IsListingFault e (has_failed writer.new)) }
{
    fold_if(options.checkpoint, guardian)?;
    list(heap, guardian, names, options.listing, writer)
}

// Makes a checkpoint if one is asked for; if there can't be one, the guardian is unchanged.
fn fold_if(asked: bool, guardian: &mut Guardian) -> Result<(), OutOfMemory>
    ensures { OnOk result (guardian.new ≡ checkpointed asked guardian.old) }
{
    if !asked {
        return Ok(());
    }
    match guardian.checkpoint() {
        Err(CheckpointError::Memory) => Err(OutOfMemory),
        Ok(()) | Err(CheckpointError::Busy | CheckpointError::Full) => Ok(()),
    }
}
