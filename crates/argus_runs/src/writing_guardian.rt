//! `WritingGuardian`: a guardian that is called in turn, and where its calls are written.

ghost use Rattle.std.specs.Prelude.{OnErr, OnOk, false, string_bytes, take, ℕ, ◌++◌, ◌≡◌};
ghost use Rattle.std.specs.Io.KnownBytes.{Appends};
ghost use Rattle.argus_journal.specs.Journal.{entries_of, entry_at, opening_of};
ghost use Rattle.argus_journal.specs.JournalView.{next_entry};
ghost use Rattle.argus_runs.specs.Lines.{line_at, line_if};
ghost use Rattle.argus_streams.specs.FailStop.{has_failed, inner_of};

use crate::caller::Caller;
use crate::stopped::Stopped;
use argus_actions::ActionId;
use argus_contents::ObjId;
use argus_core::Guardian;
use argus_entries::{Call, Reply, write_entry};
use argus_journal::Journal;
use argus_language::Step;
use argus_memory::{Heap, OutOfMemory, Room};
use argus_streams::{FailStop, write_whole};
use std::io::Write;
use std::mem::drop;

/// A guardian that is called in turn, and where the line of each call is written. After a line that
/// could not be written whole, nothing more is called.
#[derive(Drop)]
pub(crate) struct WritingGuardian<W: Write + Drop> {
    pub(crate) guardian: Guardian,
    pub(crate) writer: FailStop<W>,
    pub(crate) line: String<Room>,
    // A line was not written whole.
    pub(crate) cut: bool,
}

impl<W: Write + Drop> Caller for WritingGuardian<W> {
    ghost use Rattle.std.specs.Prelude.{None, false, refl, true, ◌≡◌};
    ghost use Rattle.argus_journal.specs.JournalView.{JournalView};
    ghost use Rattle.argus_runs.specs.Adding.{asked_grows, prefix_refl, prefix_trans};
    ghost use Rattle.argus_runs.specs.Lines.{KeepsText};
    ghost use Rattle.argus_runs.specs.Played.{reply_from_journal};
    ghost use Rattle.argus_runs.specs.Texts.{preserved_refl, preserved_trans};
    ghost use Rattle.argus_runs.specs.RunPrefix.{IsJournalPrefix};
    ghost use Rattle.argus_streams.specs.FailStop.{has_failed, inner_of};

    ghost State = { JournalView };

    ghost state = { λ s. s.guardian };

    ghost reply = { reply_from_journal };

    ghost arm_runner = { None };

    ghost ready = { λ s. s.cut ≡ false → has_failed s.writer ≡ false };

    ghost preserved = { λ a b. KeepsText a.cut a.guardian (W.contents (inner_of a.writer))
        b.cut b.guardian (W.contents (inner_of b.writer)) };

    ghost is_determined = { true };

    ghost is_prefix = { IsJournalPrefix };

    ghost calls_extend = { true };

    ghost no_arm_runner = { λ _. refl };

    ghost prefix_refl = { λ _. prefix_refl };

    ghost prefix_trans = { λ _. prefix_trans };

    ghost call_extends = { λ _. asked_grows };

    ghost preserved_refl = { λ x. preserved_refl x.cut x.guardian (W.contents
        (inner_of x.writer)) };

    ghost preserved_trans = { λ x y z p q. preserved_trans x.cut y.cut z.cut x.guardian y.guardian
        z.guardian
        (W.contents (inner_of x.writer)) (W.contents (inner_of y.writer))
        (W.contents (inner_of z.writer)) p q };

    fn call(&mut self, call: Call) -> Result<Reply, Stopped> {
        if self.cut {
            drop(call);
            return Err(Stopped);
        }
        let at = next_entry(&self.guardian);
        match self.guardian.call(call) {
            Err(_) => Err(Stopped),
            Ok(reply) => match write_line(&self.guardian, at, &mut self.line, &mut self.writer) {
                Ok(()) => Ok(reply),
                Err(stopped) => {
                    drop(reply);
                    self.cut = true;
                    Err(stopped)
                }
            },
        }
    }

    fn arms(
        &mut self,
        _heap: Heap,
        _numbers: &[ObjId],
        _arms: &[Step],
        _begun: &[Option<ActionId>],
    ) -> Result<bool, Stopped> {
        Ok(false)
    }
}

// The number that the guardian's next entry gets.
fn next_entry(guardian: &Guardian) -> u64
    ensures { result ≡ next_entry guardian.now }
{
    guardian.journal().journal().len()
}

// Writes the line of the entry with this number; the text is built in `line`.
fn write_line<W: Write + Drop>(
    guardian: &Guardian,
    at: u64,
    line: &mut String<Room>,
    writer: &mut FailStop<W>,
) -> Result<(), Stopped>
    requires { has_failed writer.old ≡ false }
    ensures ok { OnOk result (Appends (W.contents (inner_of writer.old))
        (W.contents (inner_of writer.new)) (line_at guardian.now at)) }
    ensures fine { OnOk result (has_failed writer.new ≡ false) }
    ensures cut { OnErr result ((n : ℕ) × Appends (W.contents (inner_of writer.old))
        (W.contents (inner_of writer.new)) (take n (line_at guardian.now at))) }
{
    line.clear();
    append_line(guardian.journal().journal(), at, line)?;
    match write_whole(writer, line.as_bytes()) {
        Ok(()) => Ok(()),
        Err(_) => Err(Stopped),
    }
}

fn append_line(journal: &Journal, at: u64, line: &mut String<Room>) -> Result<(), OutOfMemory>
    ensures { OnOk result (string_bytes line.new ≡ string_bytes line.old
        ++ line_if at (entry_at (opening_of journal.now) (entries_of journal.now) at)) }
{
    let Some(entry) = journal.get(at) else {
        return Ok(());
    };
    write_entry(at, entry, line)?;
    line.push_str("\n")?;
    Ok(())
}
