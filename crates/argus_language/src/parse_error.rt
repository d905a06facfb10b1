//! `ParseError`: why there is no script.

use crate::script_fault::ScriptFault;
use thiserror::Error;

/// Why there is no script: the first fault of its lines, or `Memory`, which may come in place of
/// any other result.
///
/// ```text
/// match parse(heap, b"foo") {
///     Err(ParseError::Fault(fault)) => ..,        // line 1: BadWord
///     ..
/// }
/// ```
#[derive(Clone, Copy, Debug, PartialEq, Eq, Error)]
pub enum ParseError {
    #[error("{0}")]
    Fault(ScriptFault),
    #[error("out of memory")]
    Memory,
}
