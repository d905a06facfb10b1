//! A guardian made again from a journal, without its newest entry.

ghost use Rattle.std.specs.Prelude.{IfOk, [], ◌≡◌, ◌≢◌};
ghost use Rattle.argus_journal.specs.Journal.{opening_of};
ghost use Rattle.argus_resume.specs.Without.{without_newest};

use argus_contents::{Content, ObjId};
use argus_core::Guardian;
use argus_journal::Journal;
use argus_memory::{Heap, OutOfMemory};

/// A guardian with the journal of this one, except for its newest entry.
pub(crate) fn without_newest(heap: Heap, guardian: &Guardian) -> Result<Guardian, OutOfMemory>
    requires { guardian.now.entries ≢ [] }
    ensures { IfOk result (λ again. again ≡ without_newest guardian.now) }
{
    let journal = guardian.journal().journal();
    let mut again = reopened(heap, journal)?;
    for at in journal.first_entry()..journal.len() - 1 {
        let Some(entry) = journal.get(at) else {
            return Ok(again);
        };
        let call = entry.call.duplicate(heap)?;
        again.call(call)?;
    }
    Ok(again)
}

/// A guardian with the opening of this journal, and no entry.
fn reopened(heap: Heap, journal: &Journal) -> Result<Guardian, OutOfMemory>
    ensures opening { IfOk result (λ again. again.opening ≡ opening_of journal.now) }
    ensures entries { IfOk result (λ again. again.entries ≡ []) }
{
    let mut objects = Vec::new(heap.room());
    let mut o = 0;
    while let Some((shape, content)) = journal.opening(ObjId(o)) {
        let shape = shape.duplicate(heap)?;
        let content = Content::duplicate_option(heap, content)?;
        objects.push((shape, content))?;
        o += 1;
    }
    Guardian::starting_at(heap, objects, journal.first_action(), journal.first_entry())
}
