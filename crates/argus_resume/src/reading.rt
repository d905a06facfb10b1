//! How a guardian is made from what a reader returns.

ghost use Rattle.std.specs.Prelude.{IfErr, IfOk, drop, false, length, take, ◌+◌, ◌++◌, ◌≡◌, ◌≤◌};
ghost use Rattle.argus_resume.specs.{JournalText.journal_text, Laws.IsListable, Resumed.IsResumed};
ghost use Rattle.argus_resume.specs.Taking.{EndsChunk, HasNoFeed, TakesFrom, early_end, end_behind};
ghost use Rattle.argus_resume.specs.Taking.{line_count};
ghost use Rattle.argus_streams.specs.FailStop.{has_failed, inner_of};

use crate::lines_taken::LinesTaken;
use crate::read_end::ReadEnd;
use crate::resumed::Resumed;
use crate::resumed_guardian::ResumedGuardian;
use crate::resuming::{Resuming, line_length};
use crate::taken_end::TakenEnd;
use crate::taken_from::TakenFrom;
use argus_memory::{Heap, OutOfMemory, Room};
use argus_streams::FailStop;
use std::io::Read;

// How much is read at once.
const CHUNK: usize = 16_384;

// At most this many reads, so that the bytes can be counted in 64 bits.
const MOST_READS: u64 = 562_949_953_421_312;

/// The guardian of the longest prefix of the reader's whole lines that is the listing of a journal:
/// each entry's call was made, and its reply is the line's. It says how many bytes and lines that
/// was, and why it took no more. Its listing can be taken again.
///
/// Besides the guardian it holds what was read and not taken yet, at most a line and 16 KiB, in a list
/// whose room is at most twice that; and 16 KiB on the stack. If a line has another reply than its call
/// gets, the guardian is made once more, without that call, while the first one still stands.
/// `OutOfMemory`: there was no memory for the guardian; to be able to try again, use `Resuming`.
///
/// ```text
/// let mut reader = FailStop::new(file);
/// let resumed = resume(heap, &mut reader)?;
/// ```
pub fn resume<R: Read + Drop>(heap: Heap, reader: &mut FailStop<R>) -> Result<Resumed, OutOfMemory>
    requires { has_failed reader.old ≡ false }
    ensures resumed { IfOk result (λ resumed. IsResumed (R.remaining (inner_of reader.old))
        (R.remaining (inner_of reader.new)) (has_failed reader.new) resumed) }
    ensures listable { IfOk result (λ resumed. IsListable resumed.guardian) }
{
    let mut resuming = Resuming::new(heap);
    let TakenFrom { bytes, lines, end } = resuming.take_from(reader);
    match resuming.into_guardian() {
        Ok(ResumedGuardian { guardian, dropped }) => Ok(Resumed {
            guardian,
            bytes,
            lines,
            dropped,
            end,
        }),
        Err(_) => Err(OutOfMemory),
    }
}

impl Resuming {
    /// Takes whole lines of what the reader has, up to the first that isn't the next one of the
    /// listing. The listing of the journal then grows by these bytes. It says how many bytes and
    /// lines these are, and why it took no more. What was read and not taken is dropped.
    ///
    /// It holds what was read and not taken yet, at most a line and 16 KiB, and 16 KiB on the stack.
    ///
    /// ```text
    /// let taken = resuming.take_from(&mut reader);
    /// ```
    pub fn take_from<R: Read + Drop>(&mut self, reader: &mut FailStop<R>) -> TakenFrom
        requires { has_failed reader.old ≡ false }
        ensures { TakesFrom self.old self.new (R.remaining (inner_of reader.old))
            (R.remaining (inner_of reader.new)) (has_failed reader.new) result }
    {
        let mut pending = Vec::new(self.heap().room());
        let mut chunk = [0u8; CHUNK];
        let mut bytes = 0;
        let mut lines = 0;
        for turn in 0..MOST_READS {
            let Some(n) = reader.read_once(&mut chunk) else {
                let end = ReadEnd::Read;
                return TakenFrom { bytes, lines, end };
            };
            if n == 0 {
                let end = end_behind(pending.as_slice());
                return TakenFrom { bytes, lines, end };
            }
            let taken = self.take_chunk(&mut pending, &chunk[..n]);
            bytes += taken.bytes as u64;
            lines += taken.lines as u64;
            if let Some(end) = early_end(taken.end) {
                return TakenFrom { bytes, lines, end };
            }
        }
        let end = ReadEnd::OutOfMemory;
        TakenFrom { bytes, lines, end }
    }

    /// Takes what is pending and the chunk as far as whole lines go; the rest is pending then.
    fn take_chunk(&mut self, pending: &mut Vec<u8, Room>, chunk: &[u8]) -> LinesTaken
        requires { HasNoFeed pending.old.items }
        ensures within { result.bytes ≤ length (pending.old.items ++ chunk.now) }
        ensures text { journal_text self.new
            ≡ journal_text self.old ++ take result.bytes (pending.old.items ++ chunk.now) }
        ensures lines { result.lines
            ≡ line_count (take result.bytes (pending.old.items ++ chunk.now)) }
        ensures end { EndsChunk result.end self.new pending.new.items
            (drop result.bytes (pending.old.items ++ chunk.now)) }
    {
        if pending.extend_from_slice(chunk).is_err() {
            return LinesTaken {
                bytes: 0,
                lines: 0,
                end: TakenEnd::OutOfMemory,
            };
        }
        if line_length(chunk).is_none() {
            return LinesTaken {
                bytes: 0,
                lines: 0,
                end: TakenEnd::Torn,
            };
        }
        let taken = self.take(pending.as_slice());
        remove_front(pending, taken.bytes);
        taken
    }
}

/// The end, if it comes before the reader's.
fn early_end(end: TakenEnd) -> Option<ReadEnd>
    ensures { result ≡ early_end end }
{
    match end {
        TakenEnd::Whole | TakenEnd::Torn => None,
        TakenEnd::Fault(fault) => Some(ReadEnd::Fault(fault)),
        TakenEnd::OutOfMemory => Some(ReadEnd::OutOfMemory),
    }
}

/// Why no more was taken if the reader has no more.
fn end_behind(pending: &[u8]) -> ReadEnd
    ensures { result ≡ end_behind pending.now }
{
    if pending.is_empty() {
        ReadEnd::Whole
    } else {
        ReadEnd::Torn
    }
}

/// Drops the first bytes.
fn remove_front(bytes: &mut Vec<u8, Room>, count: usize)
    requires { count ≤ length bytes.old.items }
    ensures { bytes.new.items ≡ drop count bytes.old.items }
{
    let left = bytes.len() - count;
    bytes.copy_within(count.., 0);
    bytes.truncate(left);
}
