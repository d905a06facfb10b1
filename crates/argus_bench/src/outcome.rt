//! `Outcome`: what a run took, and what it read and left.

use crate::figure::Figure;

/// What a run took, and the sum of what it read and left. The sum shows that two programs have done
/// the same. If only one part is timed, the second figure counts nothing.
#[derive(Clone, Copy)]
pub(crate) struct Outcome {
    pub(crate) first: Figure,
    pub(crate) second: Figure,
    pub(crate) sum: i64,
}
