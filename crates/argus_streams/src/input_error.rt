//! `InputError`: why an input was not read.

use thiserror::Error;

/// Why an input was not read.
///
/// | Error | Text | When |
/// |---|---|---|
/// | `OutOfMemory` | `out of memory` | there is no memory for the bytes |
/// | `Read` | `read fault` | a read failed, and only then |
///
/// ```text
/// match read_up_to(heap, &mut reader, 4_096) {
///     Ok(bytes) => ..,
///     Err(InputError::Read) => ..,            // the reader has failed
///     Err(InputError::OutOfMemory) => ..,
/// }
/// ```
#[derive(Clone, Copy, Debug, PartialEq, Eq, Error)]
pub enum InputError {
    #[error("out of memory")]
    OutOfMemory,
    /// A read failed.
    #[error("read fault")]
    Read,
}
