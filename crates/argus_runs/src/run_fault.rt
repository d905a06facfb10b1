//! `RunFault`: why a run came to a stop before its end.

use thiserror::Error;

/// Why a run came to a stop before its end.
///
/// | Fault | Text | When |
/// |---|---|---|
/// | `Memory` | `out of memory` | there is no memory, for a call, for its line or for the run |
/// | `Write` | `write fault` | the writer failed, or accepted nothing |
///
/// ```text
/// run_serial(heap, &mut guardian, &script, &mut writer)?;
/// ```
#[derive(Clone, Copy, Debug, PartialEq, Eq, Error)]
pub enum RunFault {
    #[error("out of memory")]
    Memory,
    /// A write failed, or accepted nothing.
    #[error("write fault")]
    Write,
}
