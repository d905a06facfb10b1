//! How a host prepares a commit.

ghost use Rattle.std.specs.Prelude.{IfErr, IfOk, ◌≡◌};

use crate::embedded::Embedded;
use crate::ready_embedded::ReadyEmbedded;
use argus_actions::ActionId;
use argus_guardian::Guardian;
use std::mem::replace;

impl Embedded {
    /// Prepares the commit of the action with this number, so that a host can log it before anybody
    /// sees what it leaves. A commit that will be refused is prepared, too. `Err`: out of memory,
    /// and the guardian is unchanged.
    ///
    /// ```text
    /// match bank.ready_commit(0) {
    ///     Ok(ready) => ..,                            // ready.line(&mut room)?, then ready.make()
    ///     Err(bank) => ..,
    /// }
    /// ```
    pub fn ready_commit(mut self, action: u32) -> Result<ReadyEmbedded, Embedded>
        ensures guardian { IfOk result (λ ready. ready.guardian ≡ self) }
        ensures action { IfOk result (λ ready. ready.action ≡ action) }
        ensures err { IfErr result (λ guardian. guardian ≡ self) }
    {
        let empty = Guardian::new(self.heap);
        let guardian = replace(&mut self.guardian, empty);
        match guardian.ready_commit(ActionId(action)) {
            Ok(commit) => Ok(ReadyEmbedded { commit, rest: self }),
            Err(guardian) => {
                self.guardian = guardian;
                Err(self)
            }
        }
    }
}
