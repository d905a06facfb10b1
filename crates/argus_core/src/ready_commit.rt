//! `ReadyCommit`: a guardian with a prepared commit.

ghost use Rattle.std.specs.{Option.{option_map, option_to_list}, Prelude.{IfErr, IfOk, ◌≡◌}};
ghost use Rattle.argus_entries.specs.{Call.commit, Entry.plain_entry, Reply.plain_reply};
ghost use Rattle.argus_core.specs.ReadyCommit.{added_by_call};
ghost use Rattle.argus_contents.specs.Effect.{plain_effect};
ghost use Rattle.argus_journal.specs.JournalView.{after, entry_of, next_entry, reply_to};

use crate::effect::effect_in;
use crate::engine::commit_step::CommitStep;
use crate::engine::ending::{make_commit, ready_commit};
use crate::engine::guardian_state::GuardianState;
use crate::guardian::Guardian;
use argus_actions::ActionId;
use argus_contents::{Answer, Content, ObjId};
use argus_entries::{Call, Entry, Reply};
use argus_memory::{OutOfMemory, Room};
use std::marker::Model;

/// A guardian with a prepared commit, which can't fail any more: for a caller that has its own work
/// to do before the commit, which may fail. Contracts see the journal as it is before the commit,
/// and the action.
///
/// ```text
/// let ready = guardian.ready_commit(a)?;
/// let (at, entry) = ready.entry();                 // what the journal is going to have
/// let effect = ready.effect()?;                    // what a topaction leaves for good
/// let (guardian, reply) = ready.make();
/// ```
#[derive(Drop)]
pub struct ReadyCommit {
    state: GuardianState,
    step: CommitStep,
    action: ActionId,
}

impl Model for ReadyCommit {
    ghost use Rattle.argus_core.specs.ReadyCommit.{Committing, committing_coded};
    ghost use Rattle.argus_core.specs.GuardianState.{StateInvariant, journal_view_of};
    ghost use Rattle.argus_core.specs.CommitStep.{CanCommit};

    ghost Value = { Committing };

    ghost coded = { committing_coded };

    ghost view = { λ r. record { journal = journal_view_of r.state; action = r.action.0 } };

    ghost invariant = { λ r. StateInvariant r.state × CanCommit r.state r.action r.step };
}

impl Guardian {
    /// Does all that `commit` does for an action, up to the commit itself. `Err`: out of memory,
    /// and the guardian is unchanged.
    pub fn ready_commit(self, a: ActionId) -> Result<ReadyCommit, Guardian>
        ensures journal { IfOk result (λ ready. ready.journal ≡ self) }
        ensures action { IfOk result (λ ready. ready.action ≡ a.0) }
        ensures err { IfErr result (λ guardian. guardian ≡ self) }
    {
        let mut state = self.into_parts();
        match ready_commit(&mut state, a) {
            Ok(step) => Ok(ReadyCommit {
                state,
                step,
                action: a,
            }),
            Err(OutOfMemory) => Err(Guardian { state }),
        }
    }
}

impl ReadyCommit {
    /// What the commit will leave for good: for a topaction each object that it has written, in
    /// increasing number, with its content; `None` for a subaction, and if the commit is refused.
    /// `OutOfMemory`: there was no memory for the list or for the copies in it.
    pub fn effect(&self) -> Result<Option<Vec<(ObjId, Option<Content>), Room>>, OutOfMemory>
        ensures { IfOk result (λ effect. option_to_list (option_map (λ pairs.
            plain_effect pairs.items) effect)
            ≡ added_by_call self.now.journal (commit self.now.action)) }
    {
        match self.state.tree.commit_refusal(self.action) {
            Some(_) => return Ok(None),
            None => {}
        }
        match self.state.tree.parent(self.action) {
            Some(_) => Ok(None),
            None => effect_in(&self.state, self.action),
        }
    }

    /// The journal's entry that the commit will make, with its number, so that a log can have it
    /// before anybody sees what the commit leaves. It takes no memory.
    ///
    /// ```text
    /// let (at, entry) = ready.entry();
    /// write_entry(at, &entry, &mut line)?;             // 4 commit a0 -> done
    /// ```
    pub fn entry(&self) -> (u64, Entry)
        ensures number { result.0 ≡ next_entry self.now.journal }
        ensures entry { plain_entry result.1
            ≡ entry_of self.now.journal (commit self.now.action) }
    {
        let call = Call::Commit(self.action);
        let reply = match self.step {
            CommitStep::Refused(why) => Reply::Refused(why),
            CommitStep::Inherit(_) | CommitStep::Settle => Reply::Answered(Answer::Done),
        };
        (self.state.journal.journal().len(), Entry { call, reply })
    }

    /// Commits. It takes no memory.
    pub fn make(self) -> (Guardian, Reply)
        ensures journal { result.0 ≡ after self.journal (commit self.action) }
        ensures reply { plain_reply result.1 ≡ reply_to self.journal (commit self.action) }
    {
        let ReadyCommit {
            mut state,
            step,
            action,
        } = self;
        let reply = make_commit(&mut state, action, step);
        (Guardian { state }, reply)
    }

    /// Returns the guardian, unchanged.
    pub fn cancel(self) -> Guardian
        ensures { result ≡ self.journal }
    {
        let ReadyCommit {
            state,
            step: _,
            action: _,
        } = self;
        Guardian { state }
    }
}
