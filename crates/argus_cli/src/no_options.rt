//! `NoOptions`: why there are no options from a command line.

ghost use Rattle.std.specs.Prelude.{◌≡◌, ◌⊎◌};
ghost use Rattle.argus_cli.specs.Usage.{MayEndWith};

use std::alloc::AllocError;

/// Why there are no options from a command line.
///
/// ```text
/// match options(rt.alloc(), words) {
///     Ok(options) => ..,
///     Err(refused) => return ExitCode::from(refused.show(&rt)),     // of `argus --list locks`: 2
/// }
/// ```
#[derive(Debug, Drop)]
pub enum NoOptions {
    /// The program ends with this text and this status: 2 for a mistake in the command line, 0 for
    /// `--help` and `--version`.
    Usage { status: u8, text: String },
    /// There was no memory to read the command line.
    Memory,
}

impl NoOptions {
    /// Writes the text with which the program ends: help and the version to standard output, a
    /// mistake or `out of memory` to standard error. Returns the status with which it ends: that of
    /// `Usage`, 4 for out of memory, and 5 if the text of `Usage` can't be written.
    pub fn show(&self, rt: &(impl Print + Eprint)) -> u8
        ensures { MayEndWith self.now result }
    {
        match self {
            NoOptions::Usage { status, text } => show_text(rt, *status, text),
            NoOptions::Memory => {
                let _ = rt.eprintln("out of memory");
                4
            }
        }
    }
}

// If standard error can't be written, only the status says so.
fn show_text(rt: &(impl Print + Eprint), status: u8, text: &String) -> u8
    ensures { (result ≡ status) ⊎ (result ≡ 5) }
{
    let shown = if status == 0 {
        rt.print(text)
    } else {
        rt.eprint(text)
    };
    match shown {
        Ok(()) => status,
        Err(_) => {
            let _ = rt.eprintln("write fault");
            5
        }
    }
}

impl From<AllocError> for NoOptions {
    ghost use Rattle.std.specs.Prelude.{◌≡◌};
    ghost use Rattle.argus_cli.specs.declared.no_options.NoOptions.TheVariants.{Memory};

    ghost from_gives = { λ _ e. e ≡ Memory };

    fn from(_refused: AllocError) -> NoOptions {
        NoOptions::Memory
    }
}
