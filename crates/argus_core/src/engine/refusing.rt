//! Why calls are refused, and how a refusal is recorded.

ghost use Rattle.std.specs.Prelude.{length, true, ◌<◌, ◌≡◌, ◌≤◌};
ghost use Rattle.argus_contents.specs.{Change.plain_change, Fitting.{change_suits, query_suits}};
ghost use Rattle.argus_contents.specs.declared.limits.TheConstants.{MAX_OBJECTS};
ghost use Rattle.argus_core.specs.{Accessing.access_refusal, Moving.AreLawful};
ghost use Rattle.argus_core.specs.GuardianState.{IsAnswered, StateInvariant, journal_view_of};
ghost use Rattle.argus_entries.specs.{Call.plain_call, Reply.{plain_reply, refused}};
ghost use Rattle.argus_journal.specs.{JournalView.{after, reply_to}, LegalJournal.room_in};
ghost use Rattle.argus_refinement.specs.TreeRefinement.{journal_refusal};
ghost use Rattle.argus_objects.specs.Rules.{may_read, may_write};

use crate::engine::atomic_object::AtomicObject;
use crate::engine::guardian_state::GuardianState;
use argus_actions::{ActionId, ActionRefusal, ActionTree};
use argus_contents::{Change, ObjId, Query, change_fits, query_fits};
use argus_entries::{Call, Entry, Refusal, Reply};
use argus_memory::OutOfMemory;

/// Refuses a call, and records it. It is rare, so it isn't inlined into the calls.
///
/// `OutOfMemory`: there was no memory for its entry. The journal is unchanged, and the call is
/// consumed.
#[cold]
#[inline(never)]
pub(crate) fn refuse(
    state: &mut GuardianState,
    call: Call,
    why: Refusal,
) -> Result<Reply, OutOfMemory>
    requires kept { StateInvariant state.old }
    requires right { reply_to (journal_view_of state.old) (plain_call call) ≡ refused why }
    ensures kept { StateInvariant state.new }
    ensures answered { IsAnswered state.old state.new (plain_call call) result }
{
    state.journal.reserve()?;
    Ok(record_refusal(state, call, why))
}

/// Records a refused call, in the reserved room, and returns its reply. It takes no memory.
pub(crate) fn record_refusal(state: &mut GuardianState, call: Call, why: Refusal) -> Reply
    requires kept { StateInvariant state.old }
    requires place { 0 < room_in state.old.journal }
    requires right { reply_to (journal_view_of state.old) (plain_call call) ≡ refused why }
    ensures kept { StateInvariant state.new }
    ensures reply { plain_reply result
        ≡ reply_to (journal_view_of state.old) (plain_call call) }
    ensures journal { journal_view_of state.new
        ≡ after (journal_view_of state.old) (plain_call call) }
{
    state.journal.push(Entry {
        call,
        reply: Reply::Refused(why),
    });
    Reply::Refused(why)
}

/// The refusal of a call that the tree refuses.
#[inline(always)]
pub(crate) fn refusal_of(refusal: ActionRefusal) -> Refusal
    ensures { result ≡ journal_refusal refusal }
{
    match refusal {
        ActionRefusal::NoAction => Refusal::NoAction,
        ActionRefusal::Over => Refusal::Over,
        ActionRefusal::ChildrenLive => Refusal::Suspended,
        ActionRefusal::TooDeep => Refusal::TooDeep,
        ActionRefusal::TooMany => Refusal::TooMany,
        ActionRefusal::NoSiblings => Refusal::NoSiblings,
    }
}

/// Why a query is refused, if it is.
#[inline(always)]
pub(crate) fn ask_refusal(
    objects: &[AtomicObject],
    tree: &ActionTree,
    a: ActionId,
    o: ObjId,
    query: &Query,
) -> Option<Refusal>
    requires lawful { AreLawful tree.now objects.now }
    ensures { result ≡ access_refusal tree.now objects.now a.0 o.0
        (λ shape. query_suits shape query.now) (λ cell. may_read tree.now cell a) }
{
    match tree.commit_refusal(a) {
        Some(refusal) => return Some(refusal_of(refusal)),
        None => {}
    }
    match objects.get(o.0 as usize) {
        None => Some(Refusal::NoObject),
        Some(object) => {
            if !query_fits(&object.shape, query) {
                Some(Refusal::IllTyped)
            } else if !object.cell.is_readable(tree, a) {
                Some(Refusal::Conflict)
            } else {
                None
            }
        }
    }
}

/// Why a change is refused, if it is.
#[inline(always)]
pub(crate) fn alter_refusal(
    objects: &[AtomicObject],
    tree: &ActionTree,
    a: ActionId,
    o: ObjId,
    change: &Change,
) -> Option<Refusal>
    requires lawful { AreLawful tree.now objects.now }
    requires declared { length objects.now ≤ MAX_OBJECTS }
    ensures { result ≡ access_refusal tree.now objects.now a.0 o.0
        (λ shape. change_suits shape (length objects.now) (plain_change change.now))
        (λ cell. may_write tree.now cell a) }
{
    match tree.commit_refusal(a) {
        Some(refusal) => return Some(refusal_of(refusal)),
        None => {}
    }
    match objects.get(o.0 as usize) {
        None => Some(Refusal::NoObject),
        Some(object) => {
            if !change_fits(&object.shape, objects.len() as u32, change) {
                Some(Refusal::IllTyped)
            } else if !object.cell.is_writable(tree, a) {
                Some(Refusal::Conflict)
            } else {
                None
            }
        }
    }
}

/// Why a test of a lock is refused, if it is.
#[inline(always)]
pub(crate) fn test_refusal(
    objects: &[AtomicObject],
    tree: &ActionTree,
    a: ActionId,
    o: ObjId,
) -> Option<Refusal>
    ensures { result ≡ access_refusal tree.now objects.now a.0 o.0 (λ shape. true) (λ cell. true) }
{
    match tree.commit_refusal(a) {
        Some(refusal) => return Some(refusal_of(refusal)),
        None => {}
    }
    match objects.get(o.0 as usize) {
        None => Some(Refusal::NoObject),
        Some(_) => None,
    }
}
