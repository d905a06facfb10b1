//! What the rows that a store shows have in their columns.

ghost use Rattle.std.specs.Prelude.{◌≡◌, ◌∷◌, ◌↔◌, ℕ, ℤ, pos, option_map, List, [], Some};
ghost use Rattle.std.specs.Prelude.{IsTrue, MatchOption};
ghost use Rattle.sqlite.specs.declared.types.Value.{Value};
ghost use Rattle.sqlite.specs.declared.types.Value.TheVariants.{Int, Text as Words};

use sqlite::Row;
use sqlite::types::ValueRef;

/// The row's number, by which its table has it; 0 if it has none.
pub(crate) fn key_of(row: &Row) -> i64
    ensures { (z : ℤ) (more : List Value) → row.now ≡ Int z ∷ more → result ≡ z }
{
    if let Ok(ValueRef::Int(number)) = row.get_ref(0) {
        number
    } else {
        0
    }
}

/// The same, if it isn't negative.
pub(crate) fn number_of(row: &Row) -> Option<u64>
    ensures { (z : ℤ) (more : List Value) → row.now ≡ Int z ∷ more
        → (n : ℕ) → (result ≡ Some n) ↔ (z ≡ pos n) }
{
    if let Ok(ValueRef::Int(number)) = row.get_ref(0) {
        u64::try_from(number).ok()
    } else {
        None
    }
}

/// Whether the row has this number.
pub(crate) fn has_number(row: &Row, number: u64) -> bool
    ensures { (z : ℤ) (more : List Value) → row.now ≡ Int z ∷ more
        → IsTrue result ↔ (z ≡ pos number) }
{
    match number_of(row) {
        Some(found) => found == number,
        None => false,
    }
}

/// The text in the row's second column.
pub(crate) fn text_of(row: &Row) -> Option<&[u8]>
    ensures { (key : Value) (t : List ℕ) (more : List Value) → row.now ≡ key ∷ (Words t ∷ more)
        → option_map (λ text. text.now) result ≡ Some t }
{
    if let Ok(ValueRef::Text(text)) = row.get_ref(1) {
        Some(text)
    } else {
        None
    }
}

/// Whether this sum is in the row's third column.
pub(crate) fn has_sum(row: &Row, sum: u32) -> bool
    ensures { (key text : Value) (z : ℤ) (more : List Value)
        → row.now ≡ key ∷ (text ∷ (Int z ∷ more))
        → IsTrue result ↔ (z ≡ pos sum) }
{
    if let Ok(ValueRef::Int(found)) = row.get_ref(2) {
        found == i64::from(sum)
    } else {
        false
    }
}

/// The first row, and those behind it.
pub(crate) fn split(rows: &[Row]) -> Option<(&Row, &[Row])>
    ensures { MatchOption result (rows.now ≡ []) (λ parts. rows.now ≡ parts.0.now ∷ parts.1.now) }
{
    rows.split_first()
}
