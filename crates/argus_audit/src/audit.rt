//! `Audit`: what is found once of a journal, for all of its objects.

ghost use Rattle.std.specs.Prelude.{IfOk, ◌≡◌};
ghost use Rattle.argus_audit.specs.Audit.{IsAudit, tree_of, writes_of};
ghost use Rattle.argus_contents.specs.Content.{plain_option};
ghost use Rattle.argus_journal.specs.{Journal.{entries_of, opening_of}, Legal.Legal};
ghost use Rattle.argus_journal.specs.JournalFacts.{base_of, visible_to};

use crate::retracing::retrace;
use crate::visiting::replay;
use crate::writes::Writes;
use argus_actions::{ActionId, ActionTree};
use argus_contents::{Content, ObjId};
use argus_journal::Journal;
use argus_memory::{Heap, OutOfMemory};

/// What is found once of a journal: what became of its actions, and where each object is written.
/// What the writes leave in an object is then found by a visit to each.
///
/// ```text
/// let audit = Audit::of(heap, journal, guardian.objects())?;
/// let base = audit.base(heap, journal, ObjId(0))?;
/// ```
#[derive(Drop)]
pub struct Audit {
    tree: ActionTree,
    writes: Writes,
}

impl Audit {
    /// Walks over the journal twice. The journal has to be legal, as a guardian's is. Objects whose
    /// numbers are below this are found at once; for another one all entries are visited.
    ///
    /// `OutOfMemory`: there was no memory for the actions, or for the places of writes.
    pub fn of(heap: Heap, journal: &Journal, objects: u32) -> Result<Audit, OutOfMemory>
        requires { Legal (opening_of journal.now) (entries_of journal.now) }
        ensures { IfOk result (λ audit. IsAudit audit
            (opening_of journal.now) (entries_of journal.now)) }
    {
        let tree = retrace(heap, journal)?;
        let writes = Writes::of(heap, journal, objects)?;
        Ok(Audit { tree, writes })
    }

    /// The object's base. Absent if the object isn't declared.
    ///
    /// The audit has to be of this journal. `OutOfMemory`: there was no memory for a copy of what
    /// the opening or a change has, or for a longer array.
    pub fn base(
        &self,
        heap: Heap,
        journal: &Journal,
        o: ObjId,
    ) -> Result<Option<Content>, OutOfMemory>
        requires legal { Legal (opening_of journal.now) (entries_of journal.now) }
        requires audit { IsAudit self.now (opening_of journal.now) (entries_of journal.now) }
        ensures { IfOk result (λ content. plain_option content
            ≡ base_of (opening_of journal.now) (entries_of journal.now) o.0) }
    {
        replay(heap, journal, self, None, o)
    }

    /// What the action sees in the object: what was written for good, and what was written by
    /// actions whose owner is the action or an ancestor of it. Absent if the object isn't declared.
    ///
    /// The audit has to be of this journal. `OutOfMemory`: there was no memory for a copy of what
    /// the opening or a change has, or for a longer array.
    pub fn seen(
        &self,
        heap: Heap,
        journal: &Journal,
        h: ActionId,
        o: ObjId,
    ) -> Result<Option<Content>, OutOfMemory>
        requires legal { Legal (opening_of journal.now) (entries_of journal.now) }
        requires audit { IsAudit self.now (opening_of journal.now) (entries_of journal.now) }
        ensures { IfOk result (λ content. plain_option content
            ≡ visible_to (opening_of journal.now) (entries_of journal.now) h.0 o.0) }
    {
        replay(heap, journal, self, Some(h), o)
    }

    pub(crate) fn tree(&self) -> &ActionTree
        ensures { result.now ≡ tree_of self.now }
    {
        &self.tree
    }

    pub(crate) fn writes(&self) -> &Writes
        ensures { result.now ≡ writes_of self.now }
    {
        &self.writes
    }
}
