//! How a host aborts all live actions.

ghost use Rattle.std.specs.Prelude.{IfErr, OnErr, OnOk, ◌≡◌};
ghost use Rattle.argus_embed.specs.Embedded.{IsAbortedInPart, IsBusy, after_abort_live};
ghost use Rattle.argus_embed.specs.declared.embed_error.EmbedError.TheVariants.{OutOfMemory};

use crate::embed_error::EmbedError;
use crate::embedded::Embedded;

impl Embedded {
    /// Aborts all live actions: makes the call `abort` for each live topaction, nested ones too, in
    /// increasing number. Each is an entry of the journal. What is kept for the host stays.
    ///
    /// `OutOfMemory`: the first ones were aborted, and the others, at least one, are still live;
    /// another call aborts these.
    pub fn abort_live(&mut self) -> Result<(), EmbedError>
        ensures ok { OnOk result (self.new ≡ after_abort_live self.old) }
        ensures quiet { OnOk result (IsBusy self.new → ⊥) }
        ensures err { OnErr result (IsAbortedInPart self.old self.new) }
        ensures error { IfErr result (λ error. error ≡ OutOfMemory) }
    {
        self.guardian.journal_is_legal();
        self.guardian.abort_live()?;
        Ok(())
    }
}
