//! `GuardianState`: all that a guardian keeps.

use crate::engine::atomic_object::AtomicObject;
use argus_actions::ActionTree;
use argus_journal::LegalJournal;
use argus_memory::{Heap, Room};
use argus_objects::Holdings;

/// What a guardian keeps: the actions, the objects, what each action holds, and the journal.
///
/// `StateInvariant` says that all of it agrees with the journal; each call requires it.
///
/// ```text
/// let mut state = GuardianState {
///     heap,
///     tree: ActionTree::new(heap),
///     objects: Vec::new(heap.room()),
///     holdings: Holdings::new(heap),
///     journal: LegalJournal::new(heap),
/// };
/// ```
#[derive(Drop)]
pub(crate) struct GuardianState {
    pub(crate) heap: Heap,
    pub(crate) tree: ActionTree,
    pub(crate) objects: Vec<AtomicObject, Room>,
    pub(crate) holdings: Holdings,
    pub(crate) journal: LegalJournal,
}
