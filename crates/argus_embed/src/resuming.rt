//! How a guardian is made again from the lines of a journal.

ghost use Rattle.std.specs.Prelude.{IfErr, IfOk, OnErr, OnOk, ◌≡◌};
ghost use Rattle.argus_guardian.specs.JournalText.{IsReadableJournal};
ghost use Rattle.argus_embed.specs.Resuming.{EndsText, IsDropped, IsTextTaken, after_resumption};
ghost use Rattle.argus_embed.specs.declared.embed_error.EmbedError.TheVariants.{OutOfMemory};

use crate::embed_error::EmbedError;
use crate::embedded::Embedded;
use crate::kept_answer::KeptAnswer;
use crate::text_end::TextEnd;
use crate::text_taken::TextTaken;
use argus_guardian::{LineFault, LinesTaken, ResumedGuardian, Resuming, TakenEnd};
use std::mem::replace;

impl Embedded {
    /// Takes whole lines of a journal's listing from the front of the text, up to the first that
    /// isn't the next one. They add to what was taken before; `resumed` makes a guardian of it. The
    /// guardian that is held is unchanged until then.
    ///
    /// What is left of the text may be passed in again, with more after it. What was kept stays,
    /// except at `NotTheReply`: then the journal's reply is kept, as its line has it.
    ///
    /// ```text
    /// bank.resume(b"0 begin_top -> a0\n1 com");       // 18 bytes, 1 line, Torn
    /// bank.resume(b"1 commit a0 -> done\n");          // 20 bytes, 1 line, Whole
    /// bank.resumed()?;                                // the guardian of these two entries
    /// ```
    pub fn resume(&mut self, text: &[u8]) -> TextTaken
        ensures { IsTextTaken self.old self.new text.now result }
    {
        let LinesTaken { bytes, lines, end } = self.taken.take(text);
        let end = self.text_end(end);
        self.taken_is_readable();
        TextTaken { bytes, lines, end }
    }

    /// Replaces the guardian that is held by the one of what was taken, and starts over with
    /// nothing taken and no text kept. From an opening without entries it has as many objects as
    /// make a sound one. It returns how many bytes were dropped with the others.
    ///
    /// `OutOfMemory`: nothing has changed.
    pub fn resumed(&mut self) -> Result<u64, EmbedError>
        ensures ok { OnOk result (self.new ≡ after_resumption self.old) }
        ensures dropped { IfOk result (λ dropped. IsDropped dropped self.old self.new) }
        ensures error { IfErr result (λ e. e ≡ OutOfMemory) }
        ensures err { OnErr result (self.new ≡ self.old) }
    {
        match replace(&mut self.taken, Resuming::new(self.heap)).into_guardian() {
            Ok(ResumedGuardian { guardian, dropped }) => {
                let _before = replace(&mut self.guardian, guardian);
                let _text = replace(&mut self.kept, KeptAnswer::Nothing);
                Ok(dropped)
            }
            Err(taken) => {
                let _none = replace(&mut self.taken, taken);
                Err(EmbedError::OutOfMemory)
            }
        }
    }

    /// A law for proofs; it does nothing. What was taken is a journal that lines can spell.
    fn taken_is_readable(&self)
        ensures { IsReadableJournal self.now.taken }
    {
        self.taken.journal_is_readable();
    }

    /// The end as the host gets it; the reply of a fault is kept.
    fn text_end(&mut self, end: TakenEnd) -> TextEnd
        ensures { EndsText end self.old self.new result }
    {
        match end {
            TakenEnd::Whole => TextEnd::Whole,
            TakenEnd::Torn => TextEnd::Torn,
            TakenEnd::OutOfMemory => TextEnd::OutOfMemory,
            TakenEnd::Fault(LineFault::NoText { at }) => TextEnd::NoText(at),
            TakenEnd::Fault(LineFault::NotAnOpening) => TextEnd::NotAnOpening,
            TakenEnd::Fault(LineFault::NoLine { at }) => TextEnd::NoLine(at),
            TakenEnd::Fault(LineFault::NotNext) => TextEnd::NotNext(self.taken.next_entry()),
            TakenEnd::Fault(LineFault::NotSound) => TextEnd::NotSound,
            TakenEnd::Fault(LineFault::NotTheReply(reply)) => {
                let _before = replace(&mut self.kept, KeptAnswer::Given(reply));
                TextEnd::NotTheReply
            }
        }
    }
}
