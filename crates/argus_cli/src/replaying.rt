//! `replay`: from the bytes of a journal's listing to a listing of its guardian.

ghost use Rattle.std.specs.Prelude.{IfErr, IfOk, OnOk, false, true, ◌↔◌, ◌≡◌, ◌≢◌, ◌⊎◌};
ghost use Rattle.argus_cli.specs.Streams.{streams};
ghost use Rattle.argus_cli.specs.Replayed.{IsFaultBehind, ReplayFailed, Replayed, numbered_listing};
ghost use Rattle.argus_cli.specs.declared.replay_error.ReplayError.TheVariants as error;
ghost use Rattle.argus_guardian.specs.resume_declared.read_end.ReadEnd.TheVariants as ends;
ghost use Rattle.argus_commands.specs.FailStop.{has_failed, inner_of};
ghost use Rattle.argus_guardian.specs.Listing.{Writes};
ghost use Rattle.argus_guardian.specs.listings_declared.list_error.ListError.TheVariants as list_error;

use crate::faulty_line::FaultyLine;
use crate::replay_error::ReplayError;
use crate::replay_options::ReplayOptions;
use crate::text_fault::TextFault;
use argus_commands::FailStop;
use argus_guardian::{
    Guardian, LineFault, ListError, Listing, ReadEnd, Resumed, numbered_names, resume,
    write_listing,
};
use argus_values::{Heap, OutOfMemory};
use std::io::{Read, Write};

/// Reads a journal's listing, and writes the listing that is asked for of the guardian whose
/// journal it is, its objects under their numbers (`o0`, `o1`). Each entry's call is made again,
/// and its reply compared with the line's. So what is listed is checked, wherever the text came
/// from.
///
/// `None`: the text is the listing of a journal, to its end. A faulty line comes only if the
/// options take a prefix: the listing is that of the longest prefix of whole lines that is a
/// journal's listing, and this is the line after those that were taken. (If the text ends within an
/// opening, only the longest prefix of the objects is listed in which none refers to one outside
/// it.)
///
/// | Error | When | What was written |
/// |---|---|---|
/// | `Line` | because of this line the text isn't a listing, and no prefix will do | nothing |
/// | `OutOfMemory` | there is no memory | nothing, or a prefix of the listing |
/// | `Read` | a read failed; it isn't tried again | nothing |
/// | `Write` | a write failed, or accepted nothing; it isn't tried again | a prefix of it |
///
/// The reader has failed exactly at `Read`, and the writer exactly at `Write`.
///
/// It holds the guardian, and of the text at most a line and 16 KiB; if a line has another reply
/// than its call gets, for a while a second guardian. Condition: neither the reader nor the writer
/// has failed before.
///
/// ```text
/// let mut reader = FailStop::new(rt.stdin());
/// let mut writer = FailStop::new(rt.stdout());
/// let asked = ReplayOptions { listing: Listing::Audit, prefix: false };
/// replay(heap, &mut reader, &mut writer, asked)?;
/// ```
pub fn replay<R: Read + Drop, W: Write + Drop>(
    heap: Heap,
    reader: &mut FailStop<R>,
    writer: &mut FailStop<W>,
    options: ReplayOptions,
) -> Result<Option<FaultyLine>, ReplayError>
    requires reader { has_failed reader.old ≡ false }
    requires writer { has_failed writer.old ≡ false }
    ensures replayed { IfOk result (Replayed options
        (streams R.remaining W.contents reader.old writer.old)
        (streams R.remaining W.contents reader.new writer.new)) }
    ensures failed { IfErr result (ReplayFailed options
        (streams R.remaining W.contents reader.old writer.old)
        (streams R.remaining W.contents reader.new writer.new)) }
{
    let resumed = match resume(heap, reader) {
        Ok(resumed) => resumed,
        Err(OutOfMemory) if reader.has_failed() => return Err(ReplayError::Read),
        Err(OutOfMemory) => return Err(ReplayError::OutOfMemory),
    };
    let Resumed {
        guardian,
        bytes: _,
        lines,
        dropped,
        end,
    } = resumed;
    let faulty = match fault_behind(lines, dropped, end) {
        Ok(None) => None,
        Ok(Some(faulty)) if options.prefix => Some(faulty),
        Ok(Some(faulty)) => return Err(ReplayError::Line(faulty)),
        Err(error) => return Err(error),
    };
    match list_numbered(heap, &guardian, options.listing, writer) {
        Ok(()) => Ok(faulty),
        Err(ListError::OutOfMemory) => Err(ReplayError::OutOfMemory),
        Err(ListError::Write) => Err(ReplayError::Write),
    }
}

// The line after the number of lines that were taken, if it is at fault, or if an opening of which
// bytes were dropped ends there. There is memory for fewer lines than 2^64.
fn fault_behind(lines: u64, dropped: u64, end: ReadEnd) -> Result<Option<FaultyLine>, ReplayError>
    ensures fault { IfOk result (IsFaultBehind lines dropped end) }
    ensures failed { IfErr result (λ e. ((e ≡ error.OutOfMemory) × (end ≢ ends.Read))
        ⊎ ((e ≡ error.Read) × (end ≡ ends.Read))) }
{
    let fault = match end {
        ReadEnd::Whole if dropped == 0 => return Ok(None),
        ReadEnd::Whole => TextFault::Line(LineFault::NotSound),
        ReadEnd::Torn => TextFault::Torn,
        ReadEnd::Fault(fault) => TextFault::Line(fault),
        ReadEnd::OutOfMemory => return Err(ReplayError::OutOfMemory),
        ReadEnd::Read => return Err(ReplayError::Read),
    };
    match lines.checked_add(1) {
        Some(line) => Ok(Some(FaultyLine { line, fault })),
        None => Err(ReplayError::OutOfMemory),
    }
}

// The listing with the objects under their numbers.
fn list_numbered<W: Write + Drop>(
    heap: Heap,
    guardian: &Guardian,
    listing: Listing,
    writer: &mut FailStop<W>,
) -> Result<(), ListError>
    requires { has_failed writer.old ≡ false }
    ensures written { Writes result (W.contents (inner_of writer.old))
        (W.contents (inner_of writer.new)) (numbered_listing listing guardian.now) }
    ensures fine { OnOk result (has_failed writer.new ≡ false) }
    ensures failed { IfErr result (λ e. (e ≡ list_error.Write) ↔ (has_failed writer.new ≡ true)) }
{
    let names = numbered_names(heap, guardian)?;
    write_listing(heap, guardian, names.as_slice(), listing, writer)
}
