//! Whose work counts, by a tree of the journal's actions.

ghost use Rattle.std.specs.Prelude.{◌≡◌};
ghost use Rattle.argus_journal.specs.{Events.history, Journal.{entries_of, opening_of}};
ghost use Rattle.argus_journal.specs.{JournalFacts.owner_in, Legal.Legal};
ghost use Rattle.argus_journal.specs.Replaying.{counts_by_entries};
ghost use Rattle.argus_refinement.specs.TreeRefinement.{IsTree};

use argus_actions::{ActionId, ActionTree, Status};
use argus_journal::{Journal, Owner};

/// Whether what the action did counts for the reader; without a reader, whether it is there for
/// good. It climbs from the action to the first ancestor that hasn't committed.
pub(crate) fn counts(
    journal: &Journal,
    tree: &ActionTree,
    reader: Option<ActionId>,
    a: ActionId,
) -> bool
    requires legal { Legal (opening_of journal.now) (entries_of journal.now) }
    requires tree { IsTree tree.now (history (opening_of journal.now) (entries_of journal.now)) }
    ensures { result ≡ counts_by_entries (opening_of journal.now).first_action
        (entries_of journal.now) reader a.0 }
{
    match owner_of(journal, tree, a) {
        Some(Owner::Base) => true,
        Some(Owner::Held(x)) => match reader {
            Some(h) => tree.is_ancestor(x, h),
            None => false,
        },
        Some(Owner::Folded) => false,
        Some(Owner::Gone) => false,
        None => false,
    }
}

// The owner of what the action did.
fn owner_of(journal: &Journal, tree: &ActionTree, a: ActionId) -> Option<Owner>
    requires legal { Legal (opening_of journal.now) (entries_of journal.now) }
    requires tree { IsTree tree.now (history (opening_of journal.now) (entries_of journal.now)) }
    ensures { result ≡ owner_in (opening_of journal.now) (entries_of journal.now) a.0 }
{
    let mut at = a;
    loop {
        match tree.status(at) {
            Some(Status::Committed) => match tree.parent(at) {
                Some(parent) => at = parent,
                None => return Some(Owner::Base),
            },
            Some(Status::Live) => return Some(Owner::Held(at)),
            Some(Status::Aborted) => return Some(Owner::Gone),
            Some(Status::Folded) => return Some(Owner::Folded),
            None => return None,
        }
    }
}
