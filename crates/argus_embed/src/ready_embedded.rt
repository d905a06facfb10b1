//! `ReadyEmbedded`: an embedded guardian with a prepared commit.

ghost use Rattle.std.specs.Prelude.{IfOk, OnErr, length, string_bytes, ◌≡◌};
ghost use Rattle.argus_embed.specs.Kept.{IsPut};
ghost use Rattle.argus_embed.specs.ReadyEmbedded.{after_commit, commit_line, commit_outcome};

use crate::embedded::Embedded;
use crate::outcome::Outcome;
use crate::replying::put;
use argus_guardian::ReadyCommit;
use argus_journal::write_entry;
use argus_values::{OutOfMemory, Room};
use std::marker::Model;

/// An embedded guardian with a prepared commit, which can't fail any more. Contracts see the
/// guardian as it is before the commit, and the action.
///
/// ```text
/// let size = ready.line(&mut room)?;              // 4 commit a0 -> done: to be logged now
/// let (bank, outcome) = ready.make();             // Outcome::Done
/// ```
#[derive(Drop)]
pub struct ReadyEmbedded {
    pub(crate) commit: ReadyCommit,
    // What is kept besides the guardian. The one in its place is empty.
    pub(crate) rest: Embedded,
}

impl Model for ReadyEmbedded {
    ghost use Rattle.std.specs.Prelude.{◌<◌, ◌^◌};
    ghost use Rattle.argus_embed.specs.Listed.{CanBeRead};
    ghost use Rattle.argus_embed.specs.ReadyEmbedded.{ReadyState, ready_state_coded};

    ghost Value = { ReadyState };

    ghost coded = { ready_state_coded };

    ghost view = { λ r. record {
      guardian = record {
        journal = r.commit.journal;
        text = r.rest.text;
        taken = r.rest.taken;
      };
      action = r.commit.action;
    } };

    ghost invariant = { λ r. CanBeRead r.commit.journal × (r.commit.action < 2 ^ 32) };
}

impl ReadyEmbedded {
    /// The size of the journal's line that the commit will make, with its line feed. The line is
    /// put at the front of the room if it fits; a room that is too small is unchanged.
    /// `OutOfMemory`: there was none for the line, and the room is unchanged.
    pub fn line(&self, room: &mut [u8]) -> Result<usize, OutOfMemory>
        ensures size { IfOk result (λ size. size ≡ length (commit_line self.now)) }
        ensures put { IfOk result (λ _. IsPut (commit_line self.now) room.old room.new) }
        ensures room { length room.new ≡ length room.old }
        ensures err { OnErr result (room.new ≡ room.old) }
    {
        let line = self.line_text()?;
        Ok(put(room, line.as_bytes()))
    }

    fn line_text(&self) -> Result<String<Room>, OutOfMemory>
        ensures { IfOk result (λ line. string_bytes line ≡ commit_line self.now) }
    {
        let (at, entry) = self.commit.entry();
        let mut line = String::new(self.rest.heap.room());
        write_entry(at, &entry, &mut line)?;
        line.push_str("\n")?;
        Ok(line)
    }

    /// Makes the commit, and says what came of it; the text of its reply is kept. It takes no
    /// memory.
    pub fn make(self) -> (Embedded, Outcome)
        ensures guardian { result.0 ≡ after_commit self }
        ensures outcome { result.1 ≡ commit_outcome self }
    {
        let ReadyEmbedded { commit, mut rest } = self;
        let (guardian, reply) = commit.make();
        rest.guardian = guardian;
        let outcome = rest.keep_reply(reply);
        (rest, outcome)
    }

    /// Returns the guardian unchanged; nothing was journalled.
    pub fn cancel(self) -> Embedded
        ensures { result ≡ self.guardian }
    {
        let ReadyEmbedded { commit, mut rest } = self;
        rest.guardian = commit.cancel();
        rest
    }
}
