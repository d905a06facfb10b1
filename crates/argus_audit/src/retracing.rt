//! The tree of a journal's actions, made again by its begins and ends.

ghost use Rattle.std.specs.Prelude.{IfOk, OnOk, length, ◌+◌, ◌<◌, ◌≡◌, ◌≢◌, Err};
ghost use Rattle.argus_actions.specs.declared.action_error.ActionError.TheVariants as error;
ghost use Rattle.argus_audit.specs.{Retracing.Retraced, Places.first_entries};
ghost use Rattle.argus_entries.specs.Call.{plain_call};
ghost use Rattle.argus_journal.specs.{Events.history, Journal.{entries_of, opening_of}};
ghost use Rattle.argus_journal.specs.Legal.{Legal};
ghost use Rattle.argus_refinement.specs.TreeRefinement.{IsTree};

use crate::reading::{count, entry_at};
use argus_actions::{ActionError, ActionId, ActionTree};
use argus_entries::Call;
use argus_journal::Journal;
use argus_memory::{Heap, OutOfMemory};

/// A tree in which each begin, commit and abort of the journal was called again. `OutOfMemory`:
/// there was no memory for its actions.
pub(crate) fn retrace(heap: Heap, journal: &Journal) -> Result<ActionTree, OutOfMemory>
    requires { Legal (opening_of journal.now) (entries_of journal.now) }
    ensures { IfOk result (λ tree. IsTree tree
        (history (opening_of journal.now) (entries_of journal.now))) }
{
    let mut tree = ActionTree::starting_at(heap, journal.first_action());
    for place in 0..count(journal) {
        retrace_entry(journal, place, &mut tree)?;
    }
    Ok(tree)
}

// The tree, with what the entry at this place did to the actions.
fn retrace_entry(journal: &Journal, place: usize, tree: &mut ActionTree) -> Result<(), OutOfMemory>
    requires legal { Legal (opening_of journal.now) (entries_of journal.now) }
    requires there { place < length (entries_of journal.now) }
    requires tree { IsTree tree.old
        (history (opening_of journal.now) (first_entries (entries_of journal.now) place)) }
    ensures { OnOk result (IsTree tree.new
        (history (opening_of journal.now) (first_entries (entries_of journal.now) (place + 1)))) }
{
    match entry_at(journal, place) {
        Some(entry) => call_again(&entry.call, tree),
        None => Ok(()),
    }
}

// Makes a call again, if it is a begin or an end. What the journal refused the tree refuses.
fn call_again(call: &Call, tree: &mut ActionTree) -> Result<(), OutOfMemory>
    ensures { OnOk result (Retraced (plain_call call.now) tree.old tree.new) }
{
    match call {
        Call::BeginTop => unless_memory(tree.begin_top()),
        Call::BeginSub(parent) => unless_memory(tree.begin_sub(*parent)),
        Call::BeginNested(creator) => unless_memory(tree.begin_nested(*creator)),
        Call::Commit(a) => {
            let _ = tree.commit(*a);
            Ok(())
        }
        Call::Abort(a) => {
            let _ = tree.abort(*a);
            Ok(())
        }
        Call::AbortOthers(a) => {
            let _ = tree.abort_others(*a);
            Ok(())
        }
        Call::Declare(_) | Call::Ask(_, _, _) | Call::Alter(_, _, _) => Ok(()),
        Call::TestRead(_, _) | Call::TestWrite(_, _) => Ok(()),
    }
}

// Whether there was memory for a begin, refused or not.
fn unless_memory(begun: Result<ActionId, ActionError>) -> Result<(), OutOfMemory>
    ensures { OnOk result (begun ≢ Err error.OutOfMemory) }
{
    match begun {
        Ok(_) | Err(ActionError::Refused(_)) => Ok(()),
        Err(ActionError::OutOfMemory) => Err(OutOfMemory),
    }
}
