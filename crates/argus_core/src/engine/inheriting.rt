//! What becomes of the list of a subaction that commits: if its parent has none, the whole list is
//! handed up; otherwise the parent's list takes the objects that the parent doesn't hold yet.

ghost use Rattle.std.specs.Prelude.{◌≡◌, ◌≢◌, ◌<◌, ◌==◌, ◌≤◌, length, None, OnOk, Some};
ghost use Rattle.argus_actions.specs.{Refusals.commit_refusal, Tree.parent_of};
ghost use Rattle.argus_contents.specs.declared.obj_id.ObjId.{ObjId};
ghost use Rattle.argus_core.specs.{Accessing.IsListedIfHeld, CommitStep.CanPass};
ghost use Rattle.argus_core.specs.Moving.{AreChanged, AreLawful, AreThere, IsInherited};
ghost use Rattle.argus_objects.specs.Holdings.{Lists, PassedOn, SameLists, holdings_room_of};
ghost use Rattle.argus_objects.specs.Holdings.{objects_held_by, passed};

use crate::engine::atomic_object::AtomicObject;
use crate::engine::granting::note_if;
use crate::engine::moving::inherit_all;
use argus_actions::{ActionId, ActionTree};
use argus_memory::OutOfMemory;
use argus_objects::Holdings;

/// Makes room for what a subaction holds on its parent's list.
#[inline(always)]
pub(crate) fn reserve_inherit(
    holdings: &mut Holdings,
    a: ActionId,
    parent: ActionId,
) -> Result<(), OutOfMemory>
    ensures same { SameLists holdings.old holdings.new }
    ensures ok { OnOk result (CanPass holdings.new a parent) }
{
    if holdings.of(parent).is_empty() {
        return holdings.reserve_hand_up(parent);
    }
    holdings.reserve_pass(a, parent)
}

/// Hands what a subaction holds to its parent: in each object on its list, and the list.
#[inline(always)]
pub(crate) fn inherit_list(
    objects: &mut [AtomicObject],
    holdings: &mut Holdings,
    tree: &ActionTree,
    a: ActionId,
    parent: ActionId,
)
    requires lawful { AreLawful tree.now objects.old }
    requires there { AreThere (objects_held_by holdings.old a) (length objects.old) }
    requires listed { (o : ObjId) → o.0 < length objects.old
        → IsListedIfHeld objects.old holdings.old parent o }
    requires parent { parent_of tree.now a.0 ≡ Some parent }
    requires free { commit_refusal tree.now a.0 ≡ None }
    requires other { a.0 ≢ parent.0 }
    requires room { CanPass holdings.old a parent }
    ensures objects { AreChanged (IsInherited tree.now a parent) (objects_held_by holdings.old a)
        objects.old objects.new }
    ensures lists { PassedOn holdings.old a parent holdings.new }
{
    if holdings.of(parent).is_empty() {
        inherit_all(objects, holdings.of(a), tree, a, parent);
        holdings.hand_up(a, parent);
    } else {
        note_missing(objects, holdings, a, parent);
        inherit_all(objects, holdings.of(a), tree, a, parent);
        holdings.clear(a);
    }
}

// Puts the objects of a subaction on its parent's list, each unless the parent holds it already.
fn note_missing(objects: &[AtomicObject], holdings: &mut Holdings, a: ActionId, parent: ActionId)
    requires there { AreThere (objects_held_by holdings.old a) (length objects.now) }
    requires listed { (o : ObjId) → o.0 < length objects.now
        → IsListedIfHeld objects.now holdings.old parent o }
    requires other { a.0 ≢ parent.0 }
    requires room { length (objects_held_by holdings.old a)
        ≤ holdings_room_of holdings.old parent }
    ensures { Lists holdings.old parent (passed (objects_held_by holdings.old a)
        (objects_held_by holdings.old parent)) holdings.new }
{
    for place in 0..holdings.of(a).len() {
        let o = holdings.of(a)[place];
        let is_new = !objects[o.0 as usize].cell.has_holder(parent);
        note_if(is_new, holdings, parent, o);
    }
}
