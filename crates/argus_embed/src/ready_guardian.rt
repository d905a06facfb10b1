//! `ReadyGuardian`: a guardian with a commit that is ready, and the box from which it came.

ghost use Rattle.std.specs.Prelude.{IfErr, IfOk, OnErr, length, ◌≡◌};
ghost use Rattle.argus_embed.specs.Kept.{IsPut};
ghost use Rattle.argus_embed.specs.ReadyEmbedded.{after_commit, commit_line, commit_outcome};

use crate::embedded::Embedded;
use crate::outcome::Outcome;
use crate::ready_embedded::ReadyEmbedded;
use argus_values::OutOfMemory;
use std::alloc::Global;
use std::marker::Model;

/// A guardian with a commit that is ready. Its box is kept, so that it goes back to a slot without
/// memory. Contracts see what is ready.
#[derive(Drop)]
pub struct ReadyGuardian {
    commit: ReadyEmbedded,
    // The one in it is empty meanwhile.
    home: Box<Embedded, Global>,
}

impl Model for ReadyGuardian {
    ghost use Rattle.argus_embed.specs.ReadyEmbedded.{ReadyState, ready_state_coded};

    ghost Value = { ReadyState };

    ghost coded = { ready_state_coded };

    ghost view = { λ r. r.commit };
}

impl ReadyGuardian {
    /// A guardian in which the commit of the action with this number is ready. `Err`: out of
    /// memory, and the guardian is unchanged.
    pub fn boxed(
        alloc: Global,
        guardian: Box<Embedded, Global>,
        action: u32,
    ) -> Result<Box<ReadyGuardian, Global>, Box<Embedded, Global>>
        ensures guardian { IfOk result (λ ready. ready.value.guardian ≡ guardian.value) }
        ensures action { IfOk result (λ ready. ready.value.action ≡ action) }
        ensures err { IfErr result (λ same. same.value ≡ guardian.value) }
    {
        match Box::new(alloc, ReadyGuardian::of(guardian, action)?) {
            Ok(ready) => Ok(ready),
            Err(refused) => Err(refused.value.cancel()),
        }
    }

    fn of(
        mut home: Box<Embedded, Global>,
        action: u32,
    ) -> Result<ReadyGuardian, Box<Embedded, Global>>
        ensures guardian { IfOk result (λ ready. ready.guardian ≡ home.value) }
        ensures action { IfOk result (λ ready. ready.action ≡ action) }
        ensures err { IfErr result (λ same. same.value ≡ home.value) }
    {
        let empty = home.beside();
        let guardian = Box::replace(&mut home, empty);
        match guardian.ready_commit(action) {
            Ok(commit) => Ok(ReadyGuardian { commit, home }),
            Err(guardian) => Err(put_back(home, guardian)),
        }
    }

    /// The size of the line that the commit will make, which is put at the front of the room if it
    /// fits.
    pub fn line(&self, room: &mut [u8]) -> Result<usize, OutOfMemory>
        ensures size { IfOk result (λ size. size ≡ length (commit_line self.now)) }
        ensures put { IfOk result (λ _. IsPut (commit_line self.now) room.old room.new) }
        ensures room { length room.new ≡ length room.old }
        ensures err { OnErr result (room.new ≡ room.old) }
    {
        self.commit.line(room)
    }

    /// Commits. It takes no memory.
    pub fn make(self) -> (Box<Embedded, Global>, Outcome)
        ensures guardian { result.0.value ≡ after_commit self }
        ensures outcome { result.1 ≡ commit_outcome self }
    {
        let ReadyGuardian { commit, home } = self;
        let (guardian, outcome) = commit.make();
        (put_back(home, guardian), outcome)
    }

    /// Returns the guardian unchanged. It takes no memory.
    pub fn cancel(self) -> Box<Embedded, Global>
        ensures { result.value ≡ self.guardian }
    {
        let ReadyGuardian { commit, home } = self;
        put_back(home, commit.cancel())
    }
}

/// Puts the guardian into the box in place of the one in it.
fn put_back(mut home: Box<Embedded, Global>, guardian: Embedded) -> Box<Embedded, Global>
    ensures { result.value ≡ guardian }
{
    let _empty = Box::replace(&mut home, guardian);
    home
}
