//! `run_serial`: a script, run on a guardian, with the line of each call written.

ghost use Rattle.std.specs.Prelude.{IfErr, OnErr, OnOk, false, true, ◌↔◌, ◌≡◌};
ghost use Rattle.argus_language.specs.Script.{plain_script};
ghost use Rattle.argus_runs.specs.{Lines.{Written, WrittenAlmost}, Played.{IsPlay, play}};
ghost use Rattle.argus_runs.specs.RunPrefix.{IsJournalPrefix, IsRunPrefix};
ghost use Rattle.argus_runs.specs.declared.run_fault.RunFault.TheVariants.{Write};
ghost use Rattle.argus_streams.specs.FailStop.{has_failed, inner_of};

use crate::run_fault::RunFault;
use crate::sources::run_from_sources;
use crate::writing_guardian::WritingGuardian;
use argus_core::Guardian;
use argus_language::Script;
use argus_memory::Heap;
use argus_streams::FailStop;
use core::mem::{replace, replace_with};
use std::io::Write;

/// Runs a script on the guardian, the arms of a coenter one after another, and writes the line of
/// each call that it makes, with a line feed. Nothing is tried again after a failure.
///
/// On `Ok` the journal is the one that the script's run leaves after the journal before (`played`),
/// what was written is the lines of the entries made (`written`), and the writer hasn't failed
/// (`fine`). After a fault the journal is a prefix of that one (`early`), and what was written are
/// the lines of the entries made, except that the last line may be cut short or missing (`cut`).
///
/// | Error | When |
/// |---|---|
/// | `Memory` | there is no memory, for a call, for its line or for the run |
/// | `Write` | the writer failed or accepted nothing: then, and only then |
///
/// Condition: the writer hasn't failed before.
///
/// ```text
/// let script = parse(heap, b"declare x atomic_record[n:int]\n")?;
/// let mut guardian = Guardian::new(heap);
/// let mut writer = FailStop::new(rt.stdout());
/// run_serial(heap, &mut guardian, &script, &mut writer)?;
/// // 0 declare atomic_record[n:int] -> o0
/// ```
pub fn run_serial<W: Write + Drop>(
    heap: Heap,
    guardian: &mut Guardian,
    script: &Script,
    writer: &mut FailStop<W>,
) -> Result<(), RunFault>
    requires { has_failed writer.old ≡ false }
    ensures played { OnOk result (IsPlay guardian.old (plain_script script.now) guardian.new) }
    ensures written { OnOk result (Written guardian.old (W.contents (inner_of writer.old))
        guardian.new (W.contents (inner_of writer.new))) }
    ensures fine { OnOk result (has_failed writer.new ≡ false) }
    ensures early { OnErr result (IsRunPrefix IsJournalPrefix guardian.new
        (play (plain_script script.now) guardian.old)) }
    ensures cut { OnErr result (WrittenAlmost guardian.old (W.contents (inner_of writer.old))
        guardian.new (W.contents (inner_of writer.new))) }
    ensures failed { IfErr result (λ e. (e ≡ Write) ↔ (has_failed writer.new ≡ true)) }
{
    let owned = replace(guardian, Guardian::new(heap));
    let (owned, result) = run_lent(heap, owned, script, writer);
    *guardian = owned;
    result
}

// The same, with the guardian passed in and returned.
fn run_lent<W: Write + Drop>(
    heap: Heap,
    guardian: Guardian,
    script: &Script,
    writer: &mut FailStop<W>,
) -> (Guardian, Result<(), RunFault>)
    requires { has_failed writer.old ≡ false }
    ensures played { OnOk result.1 (IsPlay guardian (plain_script script.now) result.0) }
    ensures written { OnOk result.1 (Written guardian (W.contents (inner_of writer.old))
        result.0 (W.contents (inner_of writer.new))) }
    ensures fine { OnOk result.1 (has_failed writer.new ≡ false) }
    ensures early { OnErr result.1 (IsRunPrefix IsJournalPrefix result.0
        (play (plain_script script.now) guardian)) }
    ensures cut { OnErr result.1 (WrittenAlmost guardian (W.contents (inner_of writer.old))
        result.0 (W.contents (inner_of writer.new))) }
    ensures failed { IfErr result.1 (λ e. (e ≡ Write) ↔ (has_failed writer.new ≡ true)) }
{
    replace_with(
        writer,
        (heap, (guardian, script)),
        |writer, rest|
            requires { has_failed writer ≡ false }
        {
            let (heap, (guardian, script)) = rest;
            let (guardian, (writer, result)) = run_owned(heap, guardian, script, writer);
            (writer, (guardian, result))
        },
    )
}

// The same, with the writer too.
fn run_owned<W: Write + Drop>(
    heap: Heap,
    guardian: Guardian,
    script: &Script,
    writer: FailStop<W>,
) -> (Guardian, (FailStop<W>, Result<(), RunFault>))
    requires { has_failed writer ≡ false }
    ensures played { OnOk result.1.1 (IsPlay guardian (plain_script script.now) result.0) }
    ensures written { OnOk result.1.1 (Written guardian (W.contents (inner_of writer))
        result.0 (W.contents (inner_of result.1.0))) }
    ensures fine { OnOk result.1.1 (has_failed result.1.0 ≡ false) }
    ensures early { OnErr result.1.1 (IsRunPrefix IsJournalPrefix result.0
        (play (plain_script script.now) guardian)) }
    ensures cut { OnErr result.1.1 (WrittenAlmost guardian (W.contents (inner_of writer))
        result.0 (W.contents (inner_of result.1.0))) }
    ensures failed { IfErr result.1.1 (λ e. (e ≡ Write) ↔ (has_failed result.1.0 ≡ true)) }
{
    let mut serial = WritingGuardian {
        guardian,
        writer,
        line: String::new(heap.room()),
        cut: false,
    };
    let result = run_whole(heap, &mut serial, script);
    let WritingGuardian {
        guardian,
        writer,
        line: _,
        cut: _,
    } = serial;
    (guardian, (writer, result))
}

fn run_whole<W: Write + Drop>(
    heap: Heap,
    serial: &mut WritingGuardian<W>,
    script: &Script,
) -> Result<(), RunFault>
    requires fine { has_failed serial.old.writer ≡ false }
    requires whole { serial.old.cut ≡ false }
    ensures played { OnOk result (IsPlay serial.old.guardian (plain_script script.now)
        serial.new.guardian) }
    ensures written { OnOk result (Written serial.old.guardian
        (W.contents (inner_of serial.old.writer)) serial.new.guardian
        (W.contents (inner_of serial.new.writer))) }
    ensures fine { OnOk result (has_failed serial.new.writer ≡ false) }
    ensures early { OnErr result (IsRunPrefix IsJournalPrefix serial.new.guardian
        (play (plain_script script.now) serial.old.guardian)) }
    ensures cut { OnErr result (WrittenAlmost serial.old.guardian
        (W.contents (inner_of serial.old.writer)) serial.new.guardian
        (W.contents (inner_of serial.new.writer))) }
    ensures failed { IfErr result (λ e. (e ≡ Write) ↔ (has_failed serial.new.writer ≡ true)) }
{
    match run_from_sources(serial, script, &heap) {
        Err(_) => Err(fault_of(&serial.writer)),
        Ok(_) => {
            if serial.cut {
                Err(fault_of(&serial.writer))
            } else {
                Ok(())
            }
        }
    }
}

// Why a run with this writer came to a stop.
fn fault_of<W: Write + Drop>(writer: &FailStop<W>) -> RunFault
    ensures { (result ≡ Write) ↔ (has_failed writer.now ≡ true) }
{
    if writer.has_failed() {
        RunFault::Write
    } else {
        RunFault::Memory
    }
}
