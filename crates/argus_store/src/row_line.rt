//! `RowLine`: a line of a log's listing, in the row that has it.

ghost use Rattle.std.specs.Prelude.{◌≡◌, ◌∷◌, ℕ, List, map};
ghost use Rattle.sqlite.specs.declared.types.Value.{Value};
ghost use Rattle.sqlite.specs.declared.types.Value.TheVariants.{Text as Words};
ghost use Rattle.argus_store.specs.Journal.{Journal, OpeningLine, shown_batch, shown_line};
ghost use Rattle.argus_store.specs.RowLine.{HaveLines, among, place_in};
ghost use Rattle.argus_store.specs.{Summing.entries_in};

use crate::end::entries_in;
use crate::faulty_row::Table;
use crate::rows::{key_of, text_of};
use sqlite::Row;

/// A line of a row: its table, the row's number, and which of the row's lines it is, from 1 on.
#[derive(Clone, Copy, Debug, PartialEq, Eq)]
pub struct RowLine {
    pub table: Table,
    pub row: i64,
    pub line: u64,
}

impl RowLine {
    /// Where rows have this line of their listing, from 1 on. `None`: the listing has fewer.
    pub fn of_listing(opening: &[Row], batches: &[Row], line: u64) -> Option<RowLine>
        ensures { (j : Journal) → opening.now ≡ map shown_line j.opening
            → batches.now ≡ map shown_batch j.batches → result ≡ place_in j line }
    {
        match line_among(Table::Opening, opening, line) {
            Ok(found) => Some(found),
            Err(behind) => line_among(Table::Batch, batches, behind).ok(),
        }
    }
}

// The row that has this line of a table's; or which line behind all of them it is.
fn line_among(table: Table, rows: &[Row], line: u64) -> Result<RowLine, u64>
    ensures { (ls : List OpeningLine) → HaveLines rows.now ls → result ≡ among table ls line }
{
    let mut left = line;
    let mut rest = rows;
    while let [row, more @ ..] = rest {
        let lines = lines_of(row);
        if left <= lines {
            return Ok(RowLine {
                table,
                row: key_of(row),
                line: left,
            });
        }
        left -= lines;
        rest = more;
    }
    Err(left)
}

fn lines_of(row: &Row) -> u64
    ensures { (key : Value) (t : List ℕ) (more : List Value) → row.now ≡ key ∷ (Words t ∷ more)
        → result ≡ entries_in t }
{
    match text_of(row) {
        Some(text) => entries_in(text),
        None => 0,
    }
}
