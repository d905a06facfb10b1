//! How actions test read locks.

ghost use Rattle.argus_entries.specs.Call.{test_read};
ghost use Rattle.argus_core.specs.GuardianState.{IsAnswered, StateInvariant};

use crate::engine::answering::is_readable;
use crate::engine::granting::{grant_read, reserve_granted_read};
use crate::engine::guardian_state::GuardianState;
use crate::engine::refusing::{refuse, test_refusal};
use argus_actions::ActionId;
use argus_contents::{Answer, ObjId};
use argus_entries::{Call, Entry, Reply};
use argus_memory::OutOfMemory;

/// Tests whether the action may read the object, and makes it a reader if so; or records the
/// refusal.
///
/// `OutOfMemory` may come in place of any reply: the journal is unchanged.
pub(crate) fn test_read(
    state: &mut GuardianState,
    a: ActionId,
    o: ObjId,
) -> Result<Reply, OutOfMemory>
    requires { StateInvariant state.old }
    ensures kept { StateInvariant state.new }
    ensures answered { IsAnswered state.old state.new (test_read a.0 o.0) result }
{
    match test_refusal(state.objects.as_slice(), &state.tree, a, o) {
        Some(why) => return refuse(state, Call::TestRead(a, o), why),
        None => {}
    }
    if !is_readable(state.objects.as_slice(), &state.tree, a, o) {
        state.journal.reserve()?;
        state.journal.push(Entry {
            call: Call::TestRead(a, o),
            reply: Reply::Answered(Answer::Flag(false)),
        });
        return Ok(Reply::Answered(Answer::Flag(false)));
    }
    let is_new = reserve_granted_read(state, a, o)?;
    let objects = state.objects.as_mut_slice();
    grant_read(objects, &mut state.holdings, &state.tree, a, o, is_new);
    state.journal.push(Entry {
        call: Call::TestRead(a, o),
        reply: Reply::Answered(Answer::Flag(true)),
    });
    Ok(Reply::Answered(Answer::Flag(true)))
}
