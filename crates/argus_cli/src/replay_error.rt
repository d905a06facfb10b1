//! `ReplayError`: why a replay has no listing, or not all of it.

ghost use Rattle.std.specs.Prelude.{◌≡◌};
ghost use Rattle.argus_cli.specs.Status.{replay_status_of};

use crate::faulty_line::FaultyLine;

/// Why a replay has no listing, or not all of it.
///
/// | Error | Status | When |
/// |---|---|---|
/// | `Line` | 3 | the text isn't a journal's listing, because of this line |
/// | `OutOfMemory` | 4 | there is no memory |
/// | `Read` | 5 | a read failed |
/// | `Write` | 5 | a write failed, or accepted nothing |
///
/// ```text
/// if let Err(error) = replay(heap, &mut reader, &mut writer, options) {
///     return ExitCode::from(error.status());
/// }
/// ```
#[derive(Debug, Drop)]
pub enum ReplayError {
    Line(FaultyLine),
    OutOfMemory,
    Read,
    Write,
}

impl ReplayError {
    /// The status with which the program ends.
    pub fn status(&self) -> u8
        ensures { result ≡ replay_status_of self.now }
    {
        match self {
            ReplayError::Line(_) => 3,
            ReplayError::OutOfMemory => 4,
            ReplayError::Read | ReplayError::Write => 5,
        }
    }
}
