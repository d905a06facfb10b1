//! How actions read objects.

ghost use Rattle.std.specs.Prelude.{◌≡◌, ◌<◌, None};
ghost use Rattle.argus_contents.specs.{Query.reply, SmallAnswer.plain_small};
ghost use Rattle.argus_core.specs.declared.engine.atomic_object.AtomicObject.{AtomicObject};
ghost use Rattle.argus_core.specs.Accessing.{HasReadRoom, seen_at};
ghost use Rattle.argus_core.specs.GuardianState.{IsAnswered, StateInvariant, journal_view_of};
ghost use Rattle.argus_entries.specs.{Call.ask, Reply.plain_reply};
ghost use Rattle.argus_journal.specs.JournalView.{after, refusal_to, reply_to};
ghost use Rattle.argus_journal.specs.LegalJournal.{room_in};

use crate::engine::answering::{query_answer, reply_twice, small_answer};
use crate::engine::granting::{grant_read, reserve_granted_read};
use crate::engine::guardian_state::GuardianState;
use crate::engine::refusing::{ask_refusal, refuse};
use argus_actions::ActionId;
use argus_contents::{ObjId, Query, SmallAnswer};
use argus_entries::{Call, Entry, Reply};
use argus_memory::OutOfMemory;

/// Answers a query at what the action sees, and makes it a reader; or records the refusal.
///
/// `OutOfMemory` may come in place of any reply: the journal is unchanged, and the query is
/// consumed.
pub(crate) fn ask(
    state: &mut GuardianState,
    a: ActionId,
    o: ObjId,
    query: Query,
) -> Result<Reply, OutOfMemory>
    requires { StateInvariant state.old }
    ensures kept { StateInvariant state.new }
    ensures answered { IsAnswered state.old state.new (ask a.0 o.0 query) result }
{
    match ask_refusal(state.objects.as_slice(), &state.tree, a, o, &query) {
        Some(why) => return refuse(state, Call::Ask(a, o, query), why),
        None => {}
    }
    let is_new = reserve_granted_read(state, a, o)?;
    match small_answer(state.objects.as_slice(), &state.tree, a, o, &query) {
        Some(answer) => Ok(record_answer(state, a, o, query, answer, is_new)),
        None => answer_with_memory(state, a, o, query, is_new),
    }
}

// A granted query for which there is room, and whose answer takes no memory.
#[inline(always)]
fn record_answer(
    state: &mut GuardianState,
    a: ActionId,
    o: ObjId,
    query: Query,
    answer: SmallAnswer,
    is_new: bool,
) -> Reply
    requires kept { StateInvariant state.old }
    requires free { refusal_to (journal_view_of state.old) (ask a.0 o.0 query) ≡ None }
    requires right { (d : AtomicObject) → plain_small answer
        ≡ reply query (seen_at state.old.tree a state.old.objects.items o.0 d) }
    requires place { 0 < room_in state.old.journal }
    requires room { HasReadRoom state.old.objects.items state.old.holdings a o is_new }
    ensures kept { StateInvariant state.new }
    ensures reply { plain_reply result
        ≡ reply_to (journal_view_of state.old) (ask a.0 o.0 query) }
    ensures journal { journal_view_of state.new
        ≡ after (journal_view_of state.old) (ask a.0 o.0 query) }
{
    grant_read(
        state.objects.as_mut_slice(),
        &mut state.holdings,
        &state.tree,
        a,
        o,
        is_new,
    );
    state.journal.push(Entry {
        call: Call::Ask(a, o, query),
        reply: Reply::Answered(answer.answer()),
    });
    Reply::Answered(answer.answer())
}

// A granted query for which there is room. Its answer may take memory.
#[inline(never)]
fn answer_with_memory(
    state: &mut GuardianState,
    a: ActionId,
    o: ObjId,
    query: Query,
    is_new: bool,
) -> Result<Reply, OutOfMemory>
    requires kept { StateInvariant state.old }
    requires free { refusal_to (journal_view_of state.old) (ask a.0 o.0 query) ≡ None }
    requires place { 0 < room_in state.old.journal }
    requires room { HasReadRoom state.old.objects.items state.old.holdings a o is_new }
    ensures kept { StateInvariant state.new }
    ensures answered { IsAnswered state.old state.new (ask a.0 o.0 query) result }
{
    let seen = state.objects.as_slice();
    let answer = query_answer(state.heap, seen, &state.tree, a, o, &query)?;
    let (reply, again) = reply_twice(state.heap, answer)?;
    let objects = state.objects.as_mut_slice();
    grant_read(objects, &mut state.holdings, &state.tree, a, o, is_new);
    state.journal.push(Entry {
        call: Call::Ask(a, o, query),
        reply: again,
    });
    Ok(reply)
}
