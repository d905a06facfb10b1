//! How actions end.

ghost use Rattle.std.specs.Prelude.{IfOk, ◌≡◌};
ghost use Rattle.argus_entries.specs.{Call.{abort, abort_others, commit}, Reply.plain_reply};
ghost use Rattle.argus_core.specs.GuardianState.{IsAnswered, StateInvariant, journal_view_of};
ghost use Rattle.argus_core.specs.CommitStep.{CanCommit, CanInherit, CanSettle};
ghost use Rattle.argus_journal.specs.JournalView.{after, reply_to};

use crate::engine::commit_step::CommitStep;
use crate::engine::discarding::{discard_others, discard_under};
use crate::engine::guardian_state::GuardianState;
use crate::engine::inheriting::{inherit_list, reserve_inherit};
use crate::engine::moving::settle_all;
use crate::engine::refusing::{record_refusal, refusal_of, refuse};
use argus_actions::ActionId;
use argus_contents::Answer;
use argus_entries::{Call, Entry, Reply};
use argus_memory::OutOfMemory;

/// Commits an action, or records the refusal.
///
/// `OutOfMemory` may come in place of any reply: the journal is unchanged.
pub(crate) fn commit(state: &mut GuardianState, a: ActionId) -> Result<Reply, OutOfMemory>
    requires { StateInvariant state.old }
    ensures kept { StateInvariant state.new }
    ensures answered { IsAnswered state.old state.new (commit a.0) result }
{
    let step = ready_commit(state, a)?;
    Ok(make_commit(state, a, step))
}

/// Prepares a commit: finds out how it goes on, and makes room. The journal is unchanged, whatever
/// is returned.
///
/// `OutOfMemory`: there was no memory for its entry or, for a subaction, on its parent's list.
#[inline(always)]
pub(crate) fn ready_commit(
    state: &mut GuardianState,
    a: ActionId,
) -> Result<CommitStep, OutOfMemory>
    requires { StateInvariant state.old }
    ensures kept { StateInvariant state.new }
    ensures journal { journal_view_of state.new ≡ journal_view_of state.old }
    ensures ready { IfOk result (λ step. CanCommit state.new a step) }
{
    state.journal.reserve()?;
    match state.tree.commit_refusal(a) {
        Some(why) => return Ok(CommitStep::Refused(refusal_of(why))),
        None => {}
    }
    match state.tree.parent(a) {
        Some(parent) => {
            reserve_inherit(&mut state.holdings, a, parent)?;
            Ok(CommitStep::Inherit(parent))
        }
        None => Ok(CommitStep::Settle),
    }
}

/// Makes a prepared commit, and returns its reply. It takes no memory.
#[inline(always)]
pub(crate) fn make_commit(state: &mut GuardianState, a: ActionId, step: CommitStep) -> Reply
    requires kept { StateInvariant state.old }
    requires ready { CanCommit state.old a step }
    ensures kept { StateInvariant state.new }
    ensures reply { plain_reply result ≡ reply_to (journal_view_of state.old) (commit a.0) }
    ensures journal { journal_view_of state.new ≡ after (journal_view_of state.old) (commit a.0) }
{
    match step {
        CommitStep::Refused(why) => return record_refusal(state, Call::Commit(a), why),
        CommitStep::Inherit(parent) => inherit(state, a, parent),
        CommitStep::Settle => settle(state, a),
    }
    Reply::Answered(Answer::Done)
}

// Commits a subaction, and records it.
#[inline(always)]
fn inherit(state: &mut GuardianState, a: ActionId, parent: ActionId)
    requires kept { StateInvariant state.old }
    requires ready { CanInherit state.old a parent }
    ensures kept { StateInvariant state.new }
    ensures journal { journal_view_of state.new ≡ after (journal_view_of state.old) (commit a.0) }
{
    inherit_list(
        state.objects.as_mut_slice(),
        &mut state.holdings,
        &state.tree,
        a,
        parent,
    );
    state.tree.commit_ready(a);
    state.journal.push(Entry {
        call: Call::Commit(a),
        reply: Reply::Answered(Answer::Done),
    });
}

// Commits a topaction, and records it.
#[inline(always)]
fn settle(state: &mut GuardianState, a: ActionId)
    requires kept { StateInvariant state.old }
    requires ready { CanSettle state.old a }
    ensures kept { StateInvariant state.new }
    ensures journal { journal_view_of state.new ≡ after (journal_view_of state.old) (commit a.0) }
{
    settle_all(
        state.objects.as_mut_slice(),
        state.holdings.of(a),
        &state.tree,
        a,
    );
    state.holdings.clear(a);
    state.tree.commit_ready(a);
    state.journal.push(Entry {
        call: Call::Commit(a),
        reply: Reply::Answered(Answer::Done),
    });
}

/// Aborts an action with all actions under it, or records the refusal.
///
/// `OutOfMemory` may come in place of any reply: the journal is unchanged.
pub(crate) fn abort(state: &mut GuardianState, a: ActionId) -> Result<Reply, OutOfMemory>
    requires { StateInvariant state.old }
    ensures kept { StateInvariant state.new }
    ensures answered { IsAnswered state.old state.new (abort a.0) result }
{
    match state.tree.abort_refusal(a) {
        Some(why) => return refuse(state, Call::Abort(a), refusal_of(why)),
        None => {}
    }
    state.journal.reserve()?;
    state.tree.rows_are_sound();
    discard_under(
        state.objects.as_mut_slice(),
        &mut state.holdings,
        &state.tree,
        a,
    );
    state.tree.abort_ready(a);
    state.journal.push(Entry {
        call: Call::Abort(a),
        reply: Reply::Answered(Answer::Done),
    });
    Ok(Reply::Answered(Answer::Done))
}

/// Aborts all live siblings of an action, or records the refusal.
///
/// `OutOfMemory` may come in place of any reply: the journal is unchanged.
pub(crate) fn abort_others(state: &mut GuardianState, a: ActionId) -> Result<Reply, OutOfMemory>
    requires { StateInvariant state.old }
    ensures kept { StateInvariant state.new }
    ensures answered { IsAnswered state.old state.new (abort_others a.0) result }
{
    match state.tree.abort_others_refusal(a) {
        Some(why) => return refuse(state, Call::AbortOthers(a), refusal_of(why)),
        None => {}
    }
    state.journal.reserve()?;
    state.tree.rows_are_sound();
    discard_others(
        state.objects.as_mut_slice(),
        &mut state.holdings,
        &state.tree,
        a,
    );
    state.tree.abort_others_ready(a);
    state.journal.push(Entry {
        call: Call::AbortOthers(a),
        reply: Reply::Answered(Answer::Done),
    });
    Ok(Reply::Answered(Answer::Done))
}
