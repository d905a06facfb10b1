//! `Guardian`: the objects of one guardian, the actions on them, and the journal of its calls.

ghost use Rattle.std.specs.Prelude.{◌≡◌, []};
ghost use Rattle.argus_journal.specs.{LegalJournal.{entries_in, opening_in}, Opening.empty};

use crate::engine::guardian_state::GuardianState;
use argus_actions::ActionTree;
use argus_journal::LegalJournal;
use argus_memory::Heap;
use argus_objects::Holdings;
use std::marker::Model;

/// A guardian: atomic objects, the actions that use them, and the journal of all calls.
///
/// Contracts see it as its journal: the opening, and the entries, the newest first. The reply to
/// each call follows from the journal before it, and each call adds one entry. Or it returns
/// `OutOfMemory`, and nothing has changed.
///
/// Source: guardians, atomic objects and actions of the Argus Reference Manual (MIT/LCS/TR-400,
/// 1987); nested actions and their locks of Moss, Nested Transactions (MIT/LCS/TR-260, 1981).
///
/// ```text
/// let mut guardian = Guardian::new(heap);
/// assert_eq!(rt; guardian.begin_top()?, Reply::Begun(ActionId(0)));
/// assert_eq!(rt; guardian.commit(ActionId(0))?, Reply::Answered(Answer::Done));
/// ```
pub struct Guardian {
    pub(crate) state: GuardianState,
}

// Written by hand, so that dropping a guardian is one call; a derived `Drop` is expanded at each
// place.
impl Drop for Guardian {
    fn drop(self) {
        let Guardian { state: _ } = self;
    }
}

impl Model for Guardian {
    ghost use Rattle.argus_core.specs.GuardianState.{StateInvariant, journal_view_of};
    ghost use Rattle.argus_journal.specs.JournalView.{JournalView, journal_view_coded};

    ghost Value = { JournalView };

    ghost coded = { journal_view_coded };

    ghost view = { λ g. journal_view_of g.state };

    ghost invariant = { λ g. StateInvariant g.state };
}

impl Guardian {
    ghost use Rattle.argus_core.specs.GuardianState.{StateInvariant, journal_view_of};

    /// A guardian without objects, actions or entries. It takes no memory.
    pub fn new(heap: Heap) -> Guardian
        ensures opening { result.opening ≡ empty }
        ensures entries { result.entries ≡ [] }
    {
        Guardian {
            state: GuardianState {
                heap,
                tree: ActionTree::new(heap),
                objects: Vec::new(heap.room()),
                holdings: Holdings::new(heap),
                journal: LegalJournal::new(heap),
            },
        }
    }

    /// The guardian's state, for the caller to put together again.
    pub(crate) fn into_parts(self) -> GuardianState
        ensures keeps { StateInvariant result }
        ensures journal { journal_view_of result ≡ self }
    {
        let Guardian { state } = self;
        state
    }

    /// The journal, for reading: all calls since the opening, in order, each with its reply.
    pub fn journal(&self) -> &LegalJournal
        ensures opening { opening_in result.now ≡ self.now.opening }
        ensures entries { entries_in result.now ≡ self.now.entries }
    {
        &self.state.journal
    }
}
