//! Reads whose a log is, and where it ends, from the row that shows it.

ghost use Rattle.std.specs.Prelude.{◌≡◌, ◌∷◌, [], IfOk, IfSome, IsSomeAnd};
ghost use Rattle.argus_store.specs.{Journal.{Journal, shown_end}, Head.{IsHeadOf, SaysIfOpen}};

use crate::end::End;
use crate::head::Head;
use sqlite::{Error, Row};

/// What the row of a log says.
pub(crate) fn head_in(rows: &[Row]) -> Result<Option<Head>, Error>
    ensures found { (j : Journal) → rows.now ≡ shown_end j ∷ []
        → IfOk result (λ found. IsSomeAnd found (IsHeadOf j)) }
    ensures open { (j : Journal) → rows.now ≡ shown_end j ∷ []
        → IfOk result (λ found. IfSome found (SaysIfOpen j)) }
{
    let [row] = rows else {
        return Ok(None);
    };
    Ok(Some(Head {
        name: row.get(0)?,
        end: End {
            next: row.get(1)?,
            sum: row.get(2)?,
        },
        is_open: row.get(3)?,
    }))
}
