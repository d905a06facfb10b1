//! How a host folds the journal's past.

ghost use Rattle.std.specs.{Prelude.{IfErr, OnErr, OnOk, Some, ◌↔◌, ◌≡◌, ◌⊎◌}, Result.result_err};
ghost use Rattle.argus_embed.specs.Embedded.{IsBusy, IsFull, after_fold};
ghost use Rattle.argus_embed.specs.declared.embed_error.EmbedError.TheVariants.{Busy, Full};
ghost use Rattle.argus_embed.specs.declared.embed_error.EmbedError.TheVariants.{OutOfMemory};

use crate::embed_error::EmbedError;
use crate::embedded::Embedded;
use argus_guardian::CheckpointError;
use argus_guardian::resume_laws::{guardians_are_listable, journals_stay_listable};

impl Embedded {
    /// Folds the journal's past into its opening: objects keep their bases, entries and actions
    /// their numbers. What is kept for the host stays.
    ///
    /// Errors, in this order: `Busy` if an action is live, `Full` if the next entry's number is
    /// above the greatest that a first entry may have, `OutOfMemory`. After an error nothing has
    /// changed.
    pub fn checkpoint(&mut self) -> Result<(), EmbedError>
        ensures ok { OnOk result (self.new ≡ after_fold self.old) }
        ensures busy { (result_err result ≡ Some Busy) ↔ IsBusy self.old }
        ensures full { (result_err result ≡ Some Full) ↔ IsFull self.old }
        ensures error { IfErr result (λ error. (error ≡ Busy) ⊎ (error ≡ Full)
            ⊎ (error ≡ OutOfMemory)) }
        ensures err { OnErr result (self.new ≡ self.old) }
    {
        guardians_are_listable(&self.guardian);
        journals_stay_listable();
        match self.guardian.checkpoint() {
            Ok(()) => Ok(()),
            Err(CheckpointError::Busy) => Err(EmbedError::Busy),
            Err(CheckpointError::Full) => Err(EmbedError::Full),
            Err(CheckpointError::Memory) => Err(EmbedError::OutOfMemory),
        }
    }
}
