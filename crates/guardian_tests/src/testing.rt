//! Runs the tests of rows.

use crate::alone::answer_rows;
use crate::call_reading::is_call;
use crate::host::Host;
use crate::row::asked_in;
use crate::row_fault::{Result, RowFault};
use crate::setting::Setting;
use crate::sharing::share;
use argus_guardian::Guardian;
use argus_values::{Heap, Room};
use std::fmt::Write;
use std::fs;
use std::rt::Files;

// The files. Their tests are run as they stand, alone or by guardians that they share. Or their calls,
// each with this before it, are made by one seat of a new guardian, at once or by calls that may wait,
// without patience; the guardian is then settled with all receipts.
const FILES: [(&str, Option<&str>); 17] = [
    ("replays.rows", None),
    ("lookers.rows", None),
    ("lists.rows", None),
    ("settling.rows", None),
    ("waiting.rows", None),
    ("locks.rows", Some("")),
    ("ends.rows", Some("")),
    ("contents.rows", Some("answer ")),
    ("questions.rows", Some("answer ")),
    ("locks.rows", Some("wait 0 ")),
    ("ends.rows", Some("wait 0 ")),
    ("contents.rows", Some("answer wait 0 ")),
    ("questions.rows", Some("answer wait 0 ")),
    ("standing.rows", None),
    ("shown.rows", None),
    ("worked_scripts.rows", None),
    ("gates.rows", None),
];

// Nothing here takes this many allocations.
const MOST: u64 = 10_000;

/// Whether all rows of all files get the answers that they say.
pub(crate) fn test_rows<R: Host + Files + Alloc>(rt: R, setting: Setting<'_>) -> Result<bool> {
    let mut wrong = 0u32;
    for (name, by_seat) in &FILES {
        test_file(rt, setting, *name, *by_seat, &mut wrong)?;
    }
    println!(rt; "{wrong} wrong answers")?;
    Ok(wrong == 0)
}

fn test_file<R: Host + Files + Alloc>(
    rt: R,
    setting: Setting<'_>,
    name: &str,
    by_seat: Option<&str>,
    wrong: &mut u32,
) -> Result<()> {
    let text = fs::read_to_string(&rt, name)?;
    let tests = test_text(rt, setting, text.as_str(), by_seat, wrong)?;
    Ok(println!(rt; "{name}: {tests} tests")?)
}

// Runs each test of the text, and counts those with a wrong answer. The rows under the text's first
// heading come first in each test; no test stands above it. Returns how many tests there are.
fn test_text<R: Host>(
    rt: R,
    setting: Setting<'_>,
    text: &str,
    by_seat: Option<&str>,
    wrong: &mut u32,
) -> Result<u32> {
    let (_, below) = text.split_once("before each test\n").unwrap_or(("", text));
    let (before, tests) = below.split_once("\n\n").unwrap_or((below, ""));
    let mut count = 0u32;
    for block in tests.split("\n\n") {
        count = count.saturating_add(1);
        if let Err(fault) = test_block(rt, setting, before, block, by_seat) {
            *wrong = wrong.saturating_add(1);
            println!(rt; "{}: {block}", fault.as_str())?;
        }
    }
    Ok(count)
}

// A heading and rows. With ample memory; and, except for large tests, with each allocation refused in
// turn: with none, one, two and so on, until none is refused.
fn test_block<R: Host>(
    rt: R,
    setting: Setting<'_>,
    before: &str,
    block: &str,
    by_seat: Option<&str>,
) -> Result<()> {
    let (heading, lines) = block.split_once('\n').unwrap_or((block, ""));
    let rows = rows_of(setting.texts, before, lines, by_seat)?;
    let setting = Setting { lines, ..setting };
    setting.budget.lift();
    if by_seat.is_some() || heading.starts_with("large ") {
        return run_test(rt, setting, rows.as_str());
    }
    for allowed in 0..MOST {
        setting.budget.allow(allowed);
        run_test(rt, setting, rows.as_str())?;
        if matches!(setting.budget.left(), Some(1..)) {
            return Ok(());
        }
    }
    Err(RowFault::OutOfMemory)
}

// All rows of both texts; or those of a sharing with one seat: their calls, and a settlement.
fn rows_of(texts: Heap, before: &str, lines: &str, by_seat: Option<&str>) -> Result<String<Room>> {
    let Some(word) = by_seat else {
        return Ok(format!(in texts.room(); "{before}\n{lines}")?);
    };
    let mut rows = String::from_str(texts.room(), "share 1 0\n")?;
    for row in before.lines().chain(lines.lines()) {
        if is_call(texts, asked_in(row)) {
            writeln!(rows, "{word}{row}")?;
        }
    }
    rows.push_str("settle all -> done")?;
    Ok(rows)
}

fn run_test<R: Host>(rt: R, setting: Setting<'_>, rows: &str) -> Result<()> {
    let mut guardian = Guardian::new(setting.heap);
    let (alone, shared) = rows.split_once("share ").unwrap_or((rows, ""));
    answer_rows(&rt, setting, &mut guardian, alone)?;
    for section in shared.split("share ") {
        run_section(rt, setting, &mut guardian, section)?;
    }
    Ok(())
}

// The rows of a sharing, and those that the guardian answers after it.
fn run_section<R: Host>(
    rt: R,
    setting: Setting<'_>,
    guardian: &mut Guardian,
    section: &str,
) -> Result<()> {
    let (heading, rows) = section.split_once('\n').unwrap_or((section, ""));
    let (rows, after) = rows.split_once("alone\n").unwrap_or((rows, ""));
    if let Some((seats, lookers)) = heading.split_once(' ') {
        let (seats, lookers) = (seats.parse::<u8>()?, lookers.parse::<u8>()?);
        share(rt, Setting { rows, ..setting }, guardian, seats, lookers)?;
    }
    answer_rows(&rt, setting, guardian, after)
}
