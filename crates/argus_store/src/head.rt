//! `Head`: whose a log is, where it ends, and whether it is open.

use crate::end::End;

/// Whose a log is, and where it ends: what its row in the database says. It is open from a host's
/// opening on until it is closed, and then has a WAL: if that isn't there, work is lost.
///
/// ```text
/// let Some(head) = store.head()? else { return Ok(None) };
/// store.append(&head.name, head.end, "0 begin_top -> a0")?;
/// ```
#[derive(Debug, Drop)]
pub struct Head {
    pub name: String,
    pub end: End,
    pub is_open: bool,
}
