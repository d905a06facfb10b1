//! `ScriptFault`: the first faulty line of a script.

use crate::fault_kind::FaultKind;
use thiserror::Error;

/// The first faulty line of a script, numbered from 1, and why it is refused.
///
/// ```text
/// line 3: BadValue
/// ```
#[derive(Clone, Copy, Debug, PartialEq, Eq, Error)]
#[error("line {line}: {kind}")]
pub struct ScriptFault {
    pub line: u32,
    pub kind: FaultKind,
}
