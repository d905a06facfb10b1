//! `CallsMade`: how far a list of calls came.

use crate::list_end::ListEnd;

/// How far a list of calls came: how many were made, and why no more were.
#[derive(Clone, Copy, Debug)]
pub struct CallsMade {
    pub count: usize,
    pub end: ListEnd,
}
