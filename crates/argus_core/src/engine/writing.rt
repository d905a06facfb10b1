//! How actions write objects: in place if the action has a version.

ghost use Rattle.std.specs.Prelude.{None, true, ◌≡◌};
ghost use Rattle.argus_contents.specs.Change.{gives_value, plain_change};
ghost use Rattle.argus_entries.specs.Call.{alter, test_write};
ghost use Rattle.argus_core.specs.GuardianState.{IsAnswered, StateInvariant, journal_view_of};
ghost use Rattle.argus_journal.specs.JournalView.{refusal_to};

use crate::engine::answering::{answer_of_removal, is_writable, reply_twice};
use crate::engine::granting::{grant_change, grant_removal};
use crate::engine::guardian_state::GuardianState;
use crate::engine::refusing::{alter_refusal, refuse, test_refusal};
use argus_actions::ActionId;
use argus_contents::{Answer, Change, ObjId};
use argus_entries::{Call, Entry, Reply};
use argus_memory::OutOfMemory;

/// Changes the object for the action, and makes it a writer; or records the refusal.
///
/// `OutOfMemory` may come in place of any reply: the journal is unchanged, and the change is
/// consumed.
pub(crate) fn alter(
    state: &mut GuardianState,
    a: ActionId,
    o: ObjId,
    change: Change,
) -> Result<Reply, OutOfMemory>
    requires { StateInvariant state.old }
    ensures kept { StateInvariant state.new }
    ensures answered { IsAnswered state.old state.new (alter a.0 o.0 (plain_change change)) result }
{
    match alter_refusal(state.objects.as_slice(), &state.tree, a, o, &change) {
        Some(why) => return refuse(state, Call::Alter(a, o, change), why),
        None => {}
    }
    if change.gives_value() {
        return alter_with_value(state, a, o, change);
    }
    state.journal.reserve()?;
    let objects = state.objects.as_mut_slice();
    match grant_change(objects, &mut state.holdings, &state.tree, a, o, &change)? {
        None => {
            state.journal.push(Entry {
                call: Call::Alter(a, o, change),
                reply: Reply::Answered(Answer::Done),
            });
            Ok(Reply::Answered(Answer::Done))
        }
        Some(signal) => {
            state.journal.push(Entry {
                call: Call::Alter(a, o, change),
                reply: Reply::Answered(Answer::Signal(signal)),
            });
            Ok(Reply::Answered(Answer::Signal(signal)))
        }
    }
}

// A granted change that removes an item. Its answer is copied first, since both the caller and the
// entry get it.
#[inline(never)]
fn alter_with_value(
    state: &mut GuardianState,
    a: ActionId,
    o: ObjId,
    change: Change,
) -> Result<Reply, OutOfMemory>
    requires kept { StateInvariant state.old }
    requires gives { gives_value (plain_change change) ≡ true }
    requires free { refusal_to (journal_view_of state.old) (alter a.0 o.0 (plain_change change))
        ≡ None }
    ensures kept { StateInvariant state.new }
    ensures answered { IsAnswered state.old state.new (alter a.0 o.0 (plain_change change)) result }
{
    let seen = state.objects.as_slice();
    let answer = answer_of_removal(state.heap, seen, &state.tree, a, o, &change)?;
    let (reply, again) = reply_twice(state.heap, answer)?;
    state.journal.reserve()?;
    let objects = state.objects.as_mut_slice();
    grant_removal(objects, &mut state.holdings, &state.tree, a, o, &change)?;
    state.journal.push(Entry {
        call: Call::Alter(a, o, change),
        reply: again,
    });
    Ok(reply)
}

/// Tests whether the action may write the object, and makes it a writer if so; or records the
/// refusal.
///
/// `OutOfMemory` may come in place of any reply: the journal is unchanged.
pub(crate) fn test_write(
    state: &mut GuardianState,
    a: ActionId,
    o: ObjId,
) -> Result<Reply, OutOfMemory>
    requires { StateInvariant state.old }
    ensures kept { StateInvariant state.new }
    ensures answered { IsAnswered state.old state.new (test_write a.0 o.0) result }
{
    match test_refusal(state.objects.as_slice(), &state.tree, a, o) {
        Some(why) => return refuse(state, Call::TestWrite(a, o), why),
        None => {}
    }
    if !is_writable(state.objects.as_slice(), &state.tree, a, o) {
        state.journal.reserve()?;
        state.journal.push(Entry {
            call: Call::TestWrite(a, o),
            reply: Reply::Answered(Answer::Flag(false)),
        });
        return Ok(Reply::Answered(Answer::Flag(false)));
    }
    state.journal.reserve()?;
    let objects = state.objects.as_mut_slice();
    let _ = grant_change(
        objects,
        &mut state.holdings,
        &state.tree,
        a,
        o,
        &Change::Touch,
    )?;
    state.journal.push(Entry {
        call: Call::TestWrite(a, o),
        reply: Reply::Answered(Answer::Flag(true)),
    });
    Ok(Reply::Answered(Answer::Flag(true)))
}
