//! `PublishingGuardian`: a guardian with the board that shows what its commits leave.

ghost use Rattle.std.specs.Prelude.{◌++◌, ◌≡◌, IfOk, OnErr, OnOk};
ghost use Rattle.argus_entries.specs.{Call.{commit, plain_call}, Reply.plain_reply};
ghost use Rattle.argus_core.specs.ReadyCommit.{added_by_call};
ghost use Rattle.argus_journal.specs.JournalView.{after, reply_to};
ghost use Rattle.argus_sharing.specs.Following.{IsNoCommit, IsPublished};

use crate::ghost_commit::{Added, GhostCommit};
use crate::sharing::Sharing;
use argus_actions::ActionId;
use argus_board::BoardWriter;
use argus_core::Guardian;
use argus_entries::{Call, Reply};
use argus_memory::OutOfMemory;
use core::mem::replace_with;
use std::snapshot::Snapshot;
use std::sync::Wait;

/// A guardian with the board that shows what its commits leave.
#[derive(Drop)]
pub struct PublishingGuardian<N: Sharing, R: Wait + Drop> {
    pub(crate) guardian: Guardian,
    pub(crate) board: BoardWriter<N, R>,
}

impl<N: Sharing, R: Wait + Drop> PublishingGuardian<N, R> {
    /// Makes a call, and tries to publish what the commit of a topaction leaves. If that finds no
    /// memory, it stays pending. At `OutOfMemory` nothing has changed.
    #[inline(always)]
    pub(crate) fn answer(&mut self, call: Call) -> Result<Reply, OutOfMemory>
        ensures reply { IfOk result (λ reply. plain_reply reply
            ≡ reply_to self.old.guardian (plain_call call)) }
        ensures made { OnOk result (IsPublished self.old self.new (plain_call call)) }
        ensures err { OnErr result ((self.new.guardian ≡ self.old.guardian)
            × (self.new.board ≡ self.old.board)) }
    {
        match call {
            Call::Commit(a) => self.commit_and_publish(a),
            Call::Declare(_)
            | Call::BeginTop
            | Call::BeginSub(_)
            | Call::BeginNested(_)
            | Call::Abort(_)
            | Call::AbortOthers(_)
            | Call::Ask(_, _, _)
            | Call::Alter(_, _, _)
            | Call::TestRead(_, _)
            | Call::TestWrite(_, _) => self.answer_other(call),
        }
    }

    // A call that isn't a commit leaves nothing for the board.
    #[inline(always)]
    fn answer_other(&mut self, call: Call) -> Result<Reply, OutOfMemory>
        requires { IsNoCommit (plain_call call) }
        ensures reply { IfOk result (λ reply. plain_reply reply
            ≡ reply_to self.old.guardian (plain_call call)) }
        ensures made { OnOk result (IsPublished self.old self.new (plain_call call)) }
        ensures err { OnErr result ((self.new.guardian ≡ self.old.guardian)
            × (self.new.board ≡ self.old.board)) }
    {
        self.guardian.call(call)
    }

    #[inline(never)]
    fn commit_and_publish(&mut self, a: ActionId) -> Result<Reply, OutOfMemory>
        ensures reply { IfOk result (λ reply. plain_reply reply
            ≡ reply_to self.old.guardian (commit a.0)) }
        ensures made { OnOk result (IsPublished self.old self.new (commit a.0)) }
        ensures err { OnErr result ((self.new.guardian ≡ self.old.guardian)
            × (self.new.board ≡ self.old.board)) }
    {
        let reply = self.commit(a)?;
        let _published = self.board.publish();
        Ok(reply)
    }

    /// Commits, after what a topaction leaves is pending on the board. Without places for lookers
    /// only contracts see what it leaves. At `OutOfMemory` nothing has changed.
    fn commit(&mut self, a: ActionId) -> Result<Reply, OutOfMemory>
        ensures published { self.new.board.published ≡ self.old.board.published }
        ensures reply { IfOk result (λ reply. plain_reply reply
            ≡ reply_to self.old.guardian (commit a.0)) }
        ensures ok { OnOk result ((self.new.guardian ≡ after self.old.guardian (commit a.0))
            × (self.new.board.pending
            ≡ self.old.board.pending ++ added_by_call self.old.guardian (commit a.0))) }
        ensures err { OnErr result ((self.new.guardian ≡ self.old.guardian)
            × (self.new.board ≡ self.old.board)) }
    {
        if self.board.has_places() {
            return replace_with(self, a, |publishing, a| publishing.committed(a));
        }
        let PublishingGuardian { guardian, board } = self;
        let made = GhostCommit {
            before: Snapshot::of(&*guardian),
            action: a,
        };
        let reply = guardian.commit(a)?;
        board.append_told::<GhostCommit, Added>(&made);
        Ok(reply)
    }

    fn committed(self, a: ActionId) -> (PublishingGuardian<N, R>, Result<Reply, OutOfMemory>)
        ensures published { result.0.board.published ≡ self.board.published }
        ensures reply { IfOk result.1 (λ reply. plain_reply reply
            ≡ reply_to self.guardian (commit a.0)) }
        ensures ok { OnOk result.1 ((result.0.guardian ≡ after self.guardian (commit a.0))
            × (result.0.board.pending
            ≡ self.board.pending ++ added_by_call self.guardian (commit a.0))) }
        ensures err { OnErr result.1 ((result.0.guardian ≡ self.guardian)
            × (result.0.board ≡ self.board)) }
    {
        let PublishingGuardian { guardian, board } = self;
        let mut board = board;
        let (guardian, reply) = committed::<N, R>(guardian, &mut board, a);
        (PublishingGuardian { guardian, board }, reply)
    }
}

fn committed<N: Sharing, R: Wait + Drop>(
    guardian: Guardian,
    board: &mut BoardWriter<N, R>,
    a: ActionId,
) -> (Guardian, Result<Reply, OutOfMemory>)
    ensures published { board.new.published ≡ board.old.published }
    ensures reply { IfOk result.1 (λ reply. plain_reply reply ≡ reply_to guardian (commit a.0)) }
    ensures ok { OnOk result.1 ((result.0 ≡ after guardian (commit a.0))
        × (board.new.pending ≡ board.old.pending ++ added_by_call guardian (commit a.0))) }
    ensures err { OnErr result.1 ((result.0 ≡ guardian) × (board.new ≡ board.old)) }
{
    let ready = match guardian.ready_commit(a) {
        Ok(ready) => ready,
        Err(guardian) => return (guardian, Err(OutOfMemory)),
    };
    let effect = match ready.effect() {
        Ok(effect) => effect,
        Err(OutOfMemory) => return (ready.cancel(), Err(OutOfMemory)),
    };
    if let Some(effect) = effect {
        if board.append(effect).is_err() {
            return (ready.cancel(), Err(OutOfMemory));
        }
    }
    let (guardian, reply) = ready.make();
    (guardian, Ok(reply))
}
