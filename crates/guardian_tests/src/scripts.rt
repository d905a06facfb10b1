//! Scripts of tests: runs by one thread or by seats, and receipts that may show a run.

ghost use Rattle.argus_commands.specs.FailStop.{has_failed};

use crate::call_reading::read_receipt;
use crate::host::Host;
use crate::row_fault::Result;
use crate::setting::Setting;
use crate::telling::{tell, tell_derived, tell_reply};
use crate::turns::Turns;
use crate::word_reading::first_word;
use argus_commands::{
    ArmOutcome, FailStop, RunFault, RunReport, Script, check_run, run_serial, run_shared,
};
use argus_guardian::{Guardian, Receipt, Seat, Shared, Sharing};
use argus_values::Room;
use std::str::from_utf8;

/// Runs the test's script on the guardian, and tells the lines that the run writes.
pub(crate) fn run_alone(
    guardian: &mut Guardian,
    setting: Setting<'_>,
    out: &mut String<Room>,
) -> Result<()> {
    let script = setting.script()?;
    let mut writer = FailStop::new(Vec::new(setting.texts.room()));
    match run_serial(setting.heap, guardian, &script, &mut writer) {
        Ok(()) => tell_lines(from_utf8(writer.get_ref()).unwrap_or("no text"), out),
        Err(fault) => tell(fault, out),
    }
}

fn tell_lines(lines: &str, out: &mut String<Room>) -> Result<()> {
    for line in lines.lines() {
        tell(line, out)?;
    }
    Ok(())
}

/// What the test's receipts show of a run of its script: how each arm ended, or nothing.
pub(crate) fn tell_shown(setting: Setting<'_>, out: &mut String<Room>) -> Result<()> {
    let script = setting.script()?;
    let receipts = receipts_in(setting)?;
    match check_run(setting.heap, &script, receipts.as_slice())? {
        Some(outcomes) => tell_arms(outcomes.as_slice(), out),
        None => tell("nothing", out),
    }
}

// Those that are spelled as lines of a journal: `: 6 commit a2 -> done`.
fn receipts_in(setting: Setting<'_>) -> Result<Vec<Receipt, Room>> {
    let mut receipts = Vec::new(setting.texts.room());
    for line in setting.lines.lines() {
        if let Some(line) = line.strip_prefix(": ") {
            receipts.push(read_receipt(setting.texts, line)?)?;
        }
    }
    Ok(receipts)
}

/// The test's script, run under the test's gate by so many workers, whose accesses wait for so many
/// wake-ups: `2 1000`. There has to be one seat more.
pub(crate) fn run_by_seats<N: Sharing + Send + Sync, R: Host>(
    rt: &R,
    setting: Setting<'_>,
    shared: &Shared<N, R>,
    seats: &mut [Seat<N>],
    words: &str,
) -> Result<std::result::Result<RunReport, RunFault>> {
    let (workers, patience) = first_word(words);
    let (workers, patience) = (workers.parse::<u8>()?, patience.parse::<u32>()?);
    let gate = Turns::new(setting)?;
    let script = setting.script()?;
    Ok(run_seats(
        rt, setting, shared, seats, &script, &gate, workers, patience,
    ))
}

fn run_seats<N: Sharing + Send + Sync, R: Host>(
    rt: &R,
    setting: Setting<'_>,
    shared: &Shared<N, R>,
    seats: &mut [Seat<N>],
    script: &Script,
    gate: &Turns,
    workers: u8,
    patience: u32,
) -> std::result::Result<RunReport, RunFault> {
    if workers > 0 && seats.len() == usize::from(workers) + 1 {
        let workers = u32::from(workers);
        run_shared(
            rt,
            setting.heap,
            shared,
            seats,
            script,
            gate,
            workers,
            patience,
        )
    } else {
        Err(RunFault::Memory)
    }
}

/// The replies to all calls in script order, and how each arm ended.
pub(crate) fn tell_run(
    receipts: &[Receipt],
    outcomes: &[ArmOutcome],
    out: &mut String<Room>,
) -> Result<()> {
    for receipt in receipts {
        tell_reply(&receipt.reply, out)?;
    }
    tell_arms(outcomes, out)
}

fn tell_arms(outcomes: &[ArmOutcome], out: &mut String<Room>) -> Result<()> {
    for outcome in outcomes {
        tell_derived(outcome.ended, out)?;
    }
    Ok(())
}
