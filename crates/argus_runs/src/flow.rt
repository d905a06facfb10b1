//! `Flow`: how a block goes on after a step.

use argus_entries::Refusal;

/// How a block goes on after a step.
///
/// | Flow | What comes next |
/// |---|---|
/// | `On` | the next step, or the block's end, which commits |
/// | `Leave` | the block's end, which commits |
/// | `AbortLeave` | the block's end, which aborts |
/// | `LeaveAll` | the arm's end, which ends all its siblings and commits |
/// | `Refused` | the block's end: it aborts, unless its action is over |
///
/// ```text
/// assert!(rt; Flow::On.goes_on());
/// ```
#[derive(Clone, Copy, Debug, PartialEq, Eq)]
pub enum Flow {
    On,
    Leave,
    AbortLeave,
    LeaveAll,
    Refused(Refusal),
}

impl Flow {
    ghost use Rattle.std.specs.Prelude.{◌≡◌};
    ghost use Rattle.argus_runs.specs.Replies.{goes_on};

    /// Whether the block's next step comes.
    pub fn goes_on(self) -> bool
        ensures { result ≡ goes_on self }
    {
        match self {
            Flow::On => true,
            Flow::Leave | Flow::AbortLeave | Flow::LeaveAll | Flow::Refused(_) => false,
        }
    }
}
