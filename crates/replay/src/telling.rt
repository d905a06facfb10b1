//! What the program writes to standard error, and the status that goes with it. If standard error
//! can't be written, only the status says what was wrong.

use crate::database::{DatabaseFault, LogListing};
use argus_cli::{FaultyLine, ReplayError};
use argus_store::{FaultyRow, RowFault, RowLine, Table};
use argus_values::Heap;
use std::process::ExitCode;

/// Ends a replay that has no listing, or not all of it.
pub fn end_with_error(
    rt: &impl Eprint,
    heap: Option<Heap>,
    error: ReplayError,
    log: Option<&LogListing>,
) -> ExitCode {
    let status = error.status();
    match (error, heap) {
        (ReplayError::Line(faulty), Some(heap)) => tell_line(rt, heap, faulty, log),
        (ReplayError::Line(_), None) => {}
        (ReplayError::OutOfMemory, _) => tell(rt, "out of memory"),
        (ReplayError::Read, _) => tell(rt, "read fault"),
        (ReplayError::Write, _) => tell(rt, "write fault"),
    }
    ExitCode::from(status)
}

/// Tells a faulty line; of a log also its row. Without memory for the text of the fault, `out of
/// memory` is written in its place.
pub fn tell_line(rt: &impl Eprint, heap: Heap, mut faulty: FaultyLine, log: Option<&LogListing>) {
    let mut text = String::new(heap.room());
    if let Some(log) = log {
        let place = place_in(log, faulty.line);
        faulty.line = place.line;
        if write!(text, "table {}, row {}, ", name_of(place.table), place.row).is_err() {
            tell(rt, "out of memory");
            return;
        }
    }
    if faulty.write(&mut text).is_ok() {
        tell(rt, &text);
    } else {
        tell(rt, "out of memory");
    }
}

// Where a log has this line of its listing. A line behind all others would have been in the row of
// `log`, which says where they end.
fn place_in(log: &LogListing, line: u64) -> RowLine {
    match RowLine::of_listing(log.opening.as_slice(), log.batches.as_slice(), line) {
        Some(place) => place,
        None => RowLine {
            table: Table::Log,
            row: 0,
            line,
        },
    }
}

/// Tells what is wrong with a database, and returns the status.
pub fn tell_database_fault(rt: &impl Eprint, fault: &DatabaseFault) -> u8 {
    let (text, status) = match fault {
        DatabaseFault::NoFile => ("database: NoFile", 5),
        DatabaseFault::OtherFormat => ("database: OtherFormat", 3),
        DatabaseFault::WalMissing => ("database: WalMissing", 3),
        DatabaseFault::HotJournal => ("database: HotJournal", 3),
        DatabaseFault::Unsound => ("database: Unsound", 3),
        DatabaseFault::NoLog => ("database: NoLog", 3),
        DatabaseFault::OutOfMemory => ("out of memory", 4),
        DatabaseFault::Read => ("read fault", 5),
        DatabaseFault::Row(faulty) => {
            tell_row(rt, faulty);
            return 3;
        }
    };
    tell(rt, text);
    status
}

fn tell_row(rt: &impl Eprint, faulty: &FaultyRow) {
    let FaultyRow { table, row, fault } = *faulty;
    let _ = eprintln!(rt;
        "table {}, row {row}: {}",
        name_of(table),
        fault_name(fault)
    );
}

fn name_of(table: Table) -> &'static str {
    match table {
        Table::Log => "log",
        Table::Opening => "opening",
        Table::Batch => "batch",
    }
}

fn fault_name(fault: RowFault) -> &'static str {
    match fault {
        RowFault::Number => "Number",
        RowFault::Kind => "Kind",
        RowFault::TooLarge => "TooLarge",
        RowFault::Sum => "Sum",
    }
}

fn tell(rt: &impl Eprint, text: &str) {
    let _ = rt.eprintln(text);
}
