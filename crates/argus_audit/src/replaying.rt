//! `replay_for` and `replay_base`: what the journal's writes leave in one object.

ghost use Rattle.std.specs.Prelude.{IfOk, ◌≡◌};
ghost use Rattle.argus_contents.specs.Content.{plain_option};
ghost use Rattle.argus_journal.specs.{Journal.{entries_of, opening_of}, Legal.Legal};
ghost use Rattle.argus_journal.specs.JournalFacts.{base_of, visible_to};

use crate::audit::Audit;
use argus_actions::ActionId;
use argus_contents::{Content, ObjId};
use argus_journal::Journal;
use argus_memory::{Heap, OutOfMemory};

/// What the action sees in the object: what was written for good, and what was written by actions
/// whose owner is the action or an ancestor of it. Absent if the object isn't declared.
///
/// The journal has to be legal, as a guardian's is. It visits each entry a few times; for several
/// objects make one `Audit`. `OutOfMemory`: there was no memory for the actions, for places in the
/// journal, for a copy of what the opening or a change has, or for a longer array.
pub fn replay_for(
    heap: Heap,
    journal: &Journal,
    h: ActionId,
    o: ObjId,
) -> Result<Option<Content>, OutOfMemory>
    requires { Legal (opening_of journal.now) (entries_of journal.now) }
    ensures { IfOk result (λ content. plain_option content
        ≡ visible_to (opening_of journal.now) (entries_of journal.now) h.0 o.0) }
{
    Audit::of(heap, journal, 0)?.seen(heap, journal, h, o)
}

/// The object's base. Absent if the object isn't declared.
///
/// The journal has to be legal, as a guardian's is. It visits each entry a few times; for several
/// objects make one `Audit`. `OutOfMemory`: as for `replay_for`.
pub fn replay_base(heap: Heap, journal: &Journal, o: ObjId) -> Result<Option<Content>, OutOfMemory>
    requires { Legal (opening_of journal.now) (entries_of journal.now) }
    ensures { IfOk result (λ content. plain_option content
        ≡ base_of (opening_of journal.now) (entries_of journal.now) o.0) }
{
    Audit::of(heap, journal, 0)?.base(heap, journal, o)
}
