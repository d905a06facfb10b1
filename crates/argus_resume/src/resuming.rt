//! `Resuming`: a guardian that is being made from the lines of its journal.

ghost use Rattle.std.specs.Prelude.{IfErr, IfOk, OnErr, OnOk, [], drop, length, position, take};
ghost use Rattle.std.specs.Prelude.{◌+◌, ◌++◌, ◌-◌, ◌==◌, ◌∷◌, ◌≡◌, ◌≢◌, ◌≤◌};
ghost use Rattle.argus_journal.specs.JournalView.{next_entry};
ghost use Rattle.argus_resume.specs.{FrontLine.end_of_error, Laws.IsListable, Lines.IsLineError};
ghost use Rattle.argus_resume.specs.JournalText.{IsReadableJournal, journal_text, no_journal};
ghost use Rattle.argus_resume.specs.SoundFront.{sound_front};
ghost use Rattle.argus_resume.specs.Stage.{IsCounted, lines_of, opened_alone, opening_read};
ghost use Rattle.argus_resume.specs.Taking.{EndsTaking, TakesLine, line_count};

use crate::entry_lines::EntryLines;
use crate::laws::guardians_are_listable;
use crate::line_error::LineError;
use crate::line_fault::LineFault;
use crate::lines_taken::LinesTaken;
use crate::opening_lines::OpeningLines;
use crate::resumed_guardian::ResumedGuardian;
use crate::stage::Stage;
use crate::staging::{next_number, take_frequent, take_text};
use crate::taken_end::TakenEnd;
use argus_core::Guardian;
use argus_memory::{Heap, OutOfMemory};
use std::marker::Model;
use std::str;

/// A guardian that is being made from the lines of its journal's listing, a piece of text at a
/// time: opening lines if entries went before it, then the line of each entry. Each entry's call is
/// made, and its reply compared with the line's. So the journal is legal, and its listing is what
/// was taken.
///
/// Contracts see the journal that was taken: its opening, and its entries, the newest first. The
/// objects of an opening come one by one, and may refer to later ones; the opening is sound when
/// all that it refers to are there.
///
/// ```text
/// let mut resuming = Resuming::new(heap);
/// resuming.take(b"0 begin_top -> a0\n1 commit a0 -> done\n");
/// let Ok(ResumedGuardian { guardian, .. }) = resuming.into_guardian() else { .. };
/// ```
#[derive(Drop)]
pub struct Resuming {
    heap: Heap,
    stage: Stage,
}

impl Model for Resuming {
    ghost use Rattle.argus_journal.specs.JournalView.{JournalView, journal_view_coded};
    ghost use Rattle.argus_resume.specs.Stage.{StageInvariant, journal_taken};

    ghost Value = { JournalView };

    ghost coded = { journal_view_coded };

    ghost view = { λ r. journal_taken r.stage };

    ghost invariant = { λ r. StageInvariant r.stage };
}

impl Resuming {
    /// With no line so far. It takes no memory.
    pub fn new(heap: Heap) -> Resuming
        ensures { result ≡ no_journal }
    {
        Resuming {
            heap,
            stage: Stage::Entries(EntryLines {
                guardian: Guardian::new(heap),
                is_ahead: false,
            }),
        }
    }

    /// A law for proofs; it does nothing. The journal that was taken is one that lines can spell.
    pub fn journal_is_readable(&self)
        ensures { IsReadableJournal self.now }
    {
        let _ = &self.stage;
    }

    /// The number of the entry that comes next: the line of another entry has the fault `NotNext`.
    ///
    /// ```text
    /// resuming.take_line(b"0 begin_top -> a0")?;
    /// assert_eq!(rt; resuming.next_entry(), 1);
    /// ```
    pub fn next_entry(&self) -> u64
        ensures { result ≡ next_entry self.now }
    {
        next_number(&self.stage)
    }

    pub(crate) fn heap(&self) -> Heap {
        self.heap
    }

    /// Takes one line, without its line feed. The listing of the journal then grows by it.
    ///
    /// `Fault`: it isn't the next line of the listing, for the reason in `LineFault`. `OutOfMemory`
    /// may come in place of any result, and comes after 2^64 bytes of an opening. After either
    /// nothing has changed.
    ///
    /// ```text
    /// resuming.take_line(b"0 begin_top -> a0")?;
    /// ```
    pub fn take_line(&mut self, line: &[u8]) -> Result<(), LineError>
        ensures text { OnOk result (journal_text self.new
            ≡ journal_text self.old ++ (line.now ++ 10 ∷ [])) }
        ensures fault { IfErr result (λ e. IsLineError e self.old line.now) }
        ensures err { OnErr result (self.new ≡ self.old) }
    {
        match str::from_utf8(line) {
            Ok(text) => take_text(self.heap, &mut self.stage, text),
            Err(error) => Err(LineError::Fault(LineFault::NoText {
                at: error.valid_up_to(),
            })),
        }
    }

    /// Takes whole lines from the front of the text, up to the first that isn't the next one of the
    /// listing. The listing of the journal then grows by these bytes. What is left may be passed in
    /// again, with more after it.
    ///
    /// ```text
    /// resuming.take(b"0 begin_top -> a0\n1 com");     // 18 bytes, 1 line, Torn
    /// resuming.take(b"1 commit a0 -> done\n");        // 20 bytes, 1 line, Whole
    /// ```
    pub fn take(&mut self, text: &[u8]) -> LinesTaken
        ensures within { result.bytes ≤ length text.now }
        ensures text { journal_text self.new
            ≡ journal_text self.old ++ take result.bytes text.now }
        ensures lines { result.lines ≡ line_count (take result.bytes text.now) }
        ensures end { EndsTaking result.end self.new (drop result.bytes text.now) }
    {
        let mut bytes = 0;
        let mut lines = 0;
        while bytes < text.len() {
            match self.take_next(&text[bytes..]) {
                Ok(count) => {
                    bytes += count;
                    lines += 1;
                }
                Err(end) => return LinesTaken { bytes, lines, end },
            }
        }
        LinesTaken {
            bytes,
            lines,
            end: TakenEnd::Whole,
        }
    }

    /// Takes the first line of the text, and returns how many bytes it has, with its line feed.
    fn take_next(&mut self, text: &[u8]) -> Result<usize, TakenEnd>
        requires { text.now ≢ [] }
        ensures taken { IfOk result (λ count. TakesLine count self.old self.new text.now) }
        ensures end { IfErr result (λ end. EndsTaking end self.new text.now) }
        ensures err { OnErr result (self.new ≡ self.old) }
    {
        match take_frequent(&mut self.stage, text) {
            Ok(Some(count)) => Ok(count),
            Ok(None) => self.take_any(text),
            Err(error) => Err(end_of_error(error)),
        }
    }

    /// Takes the first line of the text, whichever it is. Not inlined, so that the path of frequent
    /// lines doesn't have its locals.
    #[inline(never)]
    fn take_any(&mut self, text: &[u8]) -> Result<usize, TakenEnd>
        requires { text.now ≢ [] }
        ensures taken { IfOk result (λ count. TakesLine count self.old self.new text.now) }
        ensures end { IfErr result (λ end. EndsTaking end self.new text.now) }
        ensures err { OnErr result (self.new ≡ self.old) }
    {
        let Some(length) = line_length(text) else {
            return Err(TakenEnd::Torn);
        };
        match self.take_line(&text[..length]) {
            Ok(()) => Ok(length + 1),
            Err(error) => Err(end_of_error(error)),
        }
    }

    /// The guardian of what was taken. An opening without entries gives a guardian with as many of
    /// its objects as make a sound opening, and the number of bytes that were dropped with the
    /// others. Its listing can be taken again.
    ///
    /// `Err` is out of memory: it has what was passed in, unchanged.
    ///
    /// ```text
    /// let Ok(ResumedGuardian { guardian, dropped: 0 }) = resuming.into_guardian() else { .. };
    /// ```
    pub fn into_guardian(self) -> Result<ResumedGuardian, Resuming>
        ensures guardian { IfOk result (λ opened. opened.guardian ≡ sound_front self) }
        ensures front { IfOk result (λ opened. journal_text opened.guardian
            ≡ take (length (journal_text self) - opened.dropped) (journal_text self)) }
        ensures dropped { IfOk result (λ opened. opened.dropped
            + length (journal_text opened.guardian) ≡ length (journal_text self)) }
        ensures listable { IfOk result (λ opened. IsListable opened.guardian) }
        ensures err { IfErr result (λ resuming. resuming ≡ self) }
        ensures readable { IsReadableJournal self }
    {
        let Resuming { heap, stage } = self;
        match stage {
            Stage::Opening(lines) => match guardian_of(heap, &lines) {
                Ok(opened) => {
                    guardians_are_listable(&opened.guardian);
                    Ok(opened)
                }
                Err(OutOfMemory) => Err(Resuming {
                    heap,
                    stage: Stage::Opening(lines),
                }),
            },
            Stage::Entries(mut entries) => match entries.come_back(heap) {
                Ok(()) => {
                    entries.guardian.journal_is_legal();
                    let EntryLines {
                        guardian,
                        is_ahead: _,
                    } = entries;
                    guardians_are_listable(&guardian);
                    Ok(ResumedGuardian {
                        guardian,
                        dropped: 0,
                    })
                }
                Err(OutOfMemory) => Err(Resuming {
                    heap,
                    stage: Stage::Entries(entries),
                }),
            },
        }
    }
}

/// The guardian of an opening.
fn guardian_of(heap: Heap, lines: &OpeningLines) -> Result<ResumedGuardian, OutOfMemory>
    requires { IsCounted lines.now }
    ensures guardian { IfOk result (λ opened. opened.guardian
        ≡ sound_front (opened_alone (opening_read lines.now))) }
    ensures dropped { IfOk result (λ opened. opened.dropped
        ≡ length (lines_of (opening_read lines.now))
        - length (lines_of (sound_front (opened_alone (opening_read lines.now))).opening)) }
{
    let count = lines.sound_count();
    let guardian = lines.guardian(heap, count)?;
    Ok(ResumedGuardian {
        guardian,
        dropped: lines.end() - lines.end_of(count),
    })
}

/// The end of a text whose first line wasn't taken for this error.
fn end_of_error(error: LineError) -> TakenEnd
    ensures { result ≡ end_of_error error }
{
    match error {
        LineError::Fault(fault) => TakenEnd::Fault(fault),
        LineError::OutOfMemory => TakenEnd::OutOfMemory,
    }
}

/// How many bytes stand before the first line feed.
pub(crate) fn line_length(text: &[u8]) -> Option<usize>
    ensures { result ≡ position (λ b. b == 10) text.now }
{
    text.iter().position(|byte| *byte == b'\n')
}
