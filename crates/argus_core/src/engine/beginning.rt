//! How actions begin.

ghost use Rattle.std.specs.Prelude.{OnOk, ◌<◌, ◌≡◌};
ghost use Rattle.argus_entries.specs.Call.{begin_nested, begin_sub, begin_top};
ghost use Rattle.argus_core.specs.GuardianState.{IsAnswered, StateInvariant, journal_view_of};
ghost use Rattle.argus_journal.specs.LegalJournal.{room_in};

use crate::engine::guardian_state::GuardianState;
use crate::engine::refusing::{refusal_of, refuse};
use argus_actions::ActionId;
use argus_entries::{Call, Entry, Reply};
use argus_memory::OutOfMemory;

/// Begins a topaction, or records the refusal.
///
/// `OutOfMemory` may come in place of any reply: the journal is unchanged.
pub(crate) fn begin_top(state: &mut GuardianState) -> Result<Reply, OutOfMemory>
    requires { StateInvariant state.old }
    ensures kept { StateInvariant state.new }
    ensures answered { IsAnswered state.old state.new begin_top result }
{
    match state.tree.begin_top_refusal() {
        Some(why) => return refuse(state, Call::BeginTop, refusal_of(why)),
        None => {}
    }
    reserve_begin(state)?;
    let a = state.tree.begin_top_reserved();
    state.journal.push(Entry {
        call: Call::BeginTop,
        reply: Reply::Begun(a),
    });
    Ok(Reply::Begun(a))
}

/// Begins a subaction of this parent, or records the refusal.
///
/// `OutOfMemory` may come in place of any reply: the journal is unchanged.
pub(crate) fn begin_sub(state: &mut GuardianState, parent: ActionId) -> Result<Reply, OutOfMemory>
    requires { StateInvariant state.old }
    ensures kept { StateInvariant state.new }
    ensures answered { IsAnswered state.old state.new (begin_sub parent.0) result }
{
    match state.tree.begin_sub_refusal(parent) {
        Some(why) => return refuse(state, Call::BeginSub(parent), refusal_of(why)),
        None => {}
    }
    reserve_begin(state)?;
    let a = state.tree.begin_sub_reserved(parent);
    state.journal.push(Entry {
        call: Call::BeginSub(parent),
        reply: Reply::Begun(a),
    });
    Ok(Reply::Begun(a))
}

/// Begins a nested topaction of this creator, or records the refusal.
///
/// `OutOfMemory` may come in place of any reply: the journal is unchanged.
pub(crate) fn begin_nested(
    state: &mut GuardianState,
    creator: ActionId,
) -> Result<Reply, OutOfMemory>
    requires { StateInvariant state.old }
    ensures kept { StateInvariant state.new }
    ensures answered { IsAnswered state.old state.new (begin_nested creator.0) result }
{
    match state.tree.begin_nested_refusal(creator) {
        Some(why) => return refuse(state, Call::BeginNested(creator), refusal_of(why)),
        None => {}
    }
    reserve_begin(state)?;
    let a = state.tree.begin_nested_reserved(creator);
    state.journal.push(Entry {
        call: Call::BeginNested(creator),
        reply: Reply::Begun(a),
    });
    Ok(Reply::Begun(a))
}

// Makes room for one more entry and one more action.
#[inline(always)]
fn reserve_begin(state: &mut GuardianState) -> Result<(), OutOfMemory>
    requires { StateInvariant state.old }
    ensures kept { StateInvariant state.new }
    ensures journal { journal_view_of state.new ≡ journal_view_of state.old }
    ensures place { OnOk result (0 < room_in state.new.journal) }
    ensures room { OnOk result (0 < state.new.tree.room) }
{
    state.journal.reserve()?;
    state.tree.reserve()
}
