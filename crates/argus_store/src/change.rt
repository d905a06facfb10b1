//! `Change`: what lines are to a log, and where it ends with them.

ghost use Rattle.std.specs.Prelude.{◌≡◌, IfSome, None};
ghost use Rattle.argus_store.specs.Changing.{Suits, end_with};

use crate::end::End;

/// What lines are to a log: a batch behind the others, or an opening in place of all its rows.
#[derive(Clone, Copy)]
pub(crate) enum Change {
    Append,
    Fold,
}

impl Change {
    /// Where the log of this name that ends here ends with the lines. `None`: they don't suit it.
    pub(crate) fn end_with(self, name: &str, end: End, lines: &str) -> Option<End>
        ensures some { IfSome result (λ after. (after ≡ end_with self name.now end lines.now)
            × Suits self name.now end lines.now) }
        ensures none { result ≡ None → ¬ Suits self name.now end lines.now }
    {
        match self {
            Change::Append => end.after(name, lines),
            Change::Fold => end.after_fold(name, lines),
        }
    }
}
