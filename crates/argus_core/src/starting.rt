//! How a guardian goes on where another ended.

ghost use Rattle.std.specs.Prelude.{All, IfOk, [], length, map, true, ◌≡◌, ◌≤◌};
ghost use Rattle.argus_contents.specs.declared.limits.TheConstants.{MAX_ACTIONS, MAX_OBJECTS};
ghost use Rattle.argus_core.specs.Checkpoint.{is_quiet, opened_objects};
ghost use Rattle.argus_core.specs.declared.engine.atomic_object.AtomicObject.{AtomicObject};
ghost use Rattle.argus_journal.specs.Opening.{is_sound, opening_with, plain_object};
ghost use Rattle.argus_journal.specs.declared.limits.TheConstants.{MAX_FIRST_ENTRY};

use crate::engine::atomic_object::AtomicObject;
use crate::engine::guardian_state::GuardianState;
use crate::guardian::Guardian;
use argus_actions::ActionTree;
use argus_contents::{Content, Shape};
use argus_journal::LegalJournal;
use argus_memory::{Heap, OutOfMemory, Room};
use argus_objects::{Cell, Holdings};

/// Objects with copies of these shapes and contents, which no action holds.
fn objects_of(
    heap: Heap,
    opened: &[(Shape, Option<Content>)],
) -> Result<Vec<AtomicObject, Room>, OutOfMemory>
    ensures opened { IfOk result (λ objects. opened_objects objects.items
        ≡ map plain_object opened.now) }
    ensures free { IfOk result (λ objects. All (λ (object : AtomicObject).
        (object.cell.readers ≡ []) × (object.cell.versions ≡ [])) objects.items) }
{
    let mut objects = Vec::new(heap.room());
    for (shape, content) in opened {
        let shape = shape.duplicate(heap)?;
        let base = Content::duplicate_option(heap, content)?;
        objects.push(AtomicObject {
            shape,
            cell: Cell::new(heap, base),
        })?;
    }
    Ok(objects)
}

impl Guardian {
    /// A guardian without entries that goes on where another ended: with these objects, in the
    /// order of their numbers, each with its shape and its base, and with this many actions and
    /// entries before it. No action is live. It keeps a second copy of the objects: one is the
    /// opening, the other is what is in them now.
    ///
    /// At most `MAX_OBJECTS` objects, at most `MAX_ACTIONS` actions, at most `MAX_FIRST_ENTRY`
    /// entries; each content fits its shape, with all these objects declared. `OutOfMemory`: there
    /// was no memory for the copies, and the objects that were passed in are dropped.
    ///
    /// The listing of its journal begins with an opening: these objects and both numbers. If
    /// `first_entry` is 0, a listing has no opening, and neither the objects nor `first_action` can
    /// be read back from it.
    ///
    /// Source: the stable state that a guardian is restored from, Argus Reference Manual
    /// (MIT/LCS/TR-400, 1987).
    ///
    /// ```text
    /// let mut objects = Vec::new(heap.room());
    /// objects.push((Shape::arr(Ty::Int)?, None))?;
    /// let mut guardian = Guardian::starting_at(heap, objects, 3, 7)?;
    /// assert_eq!(rt; guardian.begin_top()?, Reply::Begun(ActionId(3)));   // the entry 7
    /// ```
    pub fn starting_at(
        heap: Heap,
        objects: Vec<(Shape, Option<Content>), Room>,
        first_action: u32,
        first_entry: u64,
    ) -> Result<Guardian, OutOfMemory>
        requires few_objects { length objects.items ≤ MAX_OBJECTS }
        requires few_actions { first_action ≤ MAX_ACTIONS }
        requires numbered { first_entry ≤ MAX_FIRST_ENTRY }
        requires sound { is_sound (opening_with objects.items first_action first_entry) ≡ true }
        ensures opening { IfOk result (λ guardian. guardian.opening
            ≡ opening_with objects.items first_action first_entry) }
        ensures entries { IfOk result (λ guardian. guardian.entries ≡ []) }
        ensures quiet { IfOk result (λ guardian. is_quiet guardian ≡ true) }
    {
        let copies = objects_of(heap, objects.as_slice())?;
        Ok(Guardian {
            state: GuardianState {
                heap,
                tree: ActionTree::starting_at(heap, first_action),
                objects: copies,
                holdings: Holdings::starting_at(heap, first_action),
                journal: LegalJournal::starting_at(heap, objects, first_action, first_entry),
            },
        })
    }
}
