//! `CliFault`: why a run has no listing, or not all of it.

ghost use Rattle.std.specs.Prelude.{◌≡◌};
ghost use Rattle.argus_cli.specs.Status.{status_of};

use argus_commands::ScriptFault;
use argus_values::OutOfMemory;
use thiserror::Error;

/// Why a run has no listing, or not all of it. Its text is what the program writes to standard
/// error.
///
/// | Fault | Text | Status |
/// |---|---|---|
/// | `Script` | `line 3: BadValue` | 3 |
/// | `Memory` | `out of memory` | 4 |
/// | `Read` | `read fault` | 5 |
/// | `Write` | `write fault` | 5 |
///
/// ```text
/// if let Err(fault) = run(&rt, heap, &mut reader, &mut writer, options) {
///     return ExitCode::from(fault.status());
/// }
/// ```
#[derive(Clone, Copy, Debug, PartialEq, Eq, Error)]
pub enum CliFault {
    /// The script has a fault.
    #[error("{0}")]
    Script(ScriptFault),
    /// There is no memory, or a worker couldn't be started.
    #[error("out of memory")]
    Memory,
    /// A read failed.
    #[error("read fault")]
    Read,
    /// A write failed, or accepted nothing.
    #[error("write fault")]
    Write,
}

impl CliFault {
    /// The status with which the program ends.
    pub fn status(&self) -> u8
        ensures { result ≡ status_of self.now }
    {
        match self {
            CliFault::Script(_) => 3,
            CliFault::Memory => 4,
            CliFault::Read | CliFault::Write => 5,
        }
    }
}

impl From<OutOfMemory> for CliFault {
    ghost use Rattle.std.specs.Prelude.{◌≡◌};
    ghost use Rattle.argus_cli.specs.declared.cli_fault.CliFault.TheVariants.{Memory};

    ghost from_gives = { λ _ e. e ≡ Memory };

    fn from(_refused: OutOfMemory) -> CliFault {
        CliFault::Memory
    }
}
