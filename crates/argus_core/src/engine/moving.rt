//! What becomes of the objects on an action's list when it commits, or when an action above it is
//! aborted.

ghost use Rattle.std.specs.Prelude.{◌≡◌, ◌==◌, None, Some};
ghost use Rattle.argus_actions.specs.{Refusals.commit_refusal, Tree.parent_of};
ghost use Rattle.argus_core.specs.Moving.{AreChanged, CanVisit, IsEnded, IsInherited, IsSettled};

use crate::engine::atomic_object::AtomicObject;
use argus_actions::{ActionId, ActionTree};
use argus_contents::ObjId;

/// Hands what a subaction holds to its parent, in each object on the list.
#[inline(always)]
pub(crate) fn inherit_all(
    objects: &mut [AtomicObject],
    listed: &[ObjId],
    tree: &ActionTree,
    a: ActionId,
    parent: ActionId,
)
    requires ready { CanVisit tree.now objects.old listed.now }
    requires parent { parent_of tree.now a.0 ≡ Some parent }
    requires free { commit_refusal tree.now a.0 ≡ None }
    ensures { AreChanged (IsInherited tree.now a parent) listed.now objects.old objects.new }
{
    for o in listed {
        let object = &mut objects[o.0 as usize];
        object.cell.inherit(tree, a, parent);
    }
}

/// Makes a topaction's versions the bases, in each object on the list.
#[inline(always)]
pub(crate) fn settle_all(
    objects: &mut [AtomicObject],
    listed: &[ObjId],
    tree: &ActionTree,
    a: ActionId,
)
    requires ready { CanVisit tree.now objects.old listed.now }
    requires free { commit_refusal tree.now a.0 ≡ None }
    ensures { AreChanged (IsSettled tree.now a) listed.now objects.old objects.new }
{
    for o in listed {
        let object = &mut objects[o.0 as usize];
        object.cell.settle_top(tree, a);
    }
}

/// Discards what an action holds, in each object on the list.
pub(crate) fn release_all(
    objects: &mut [AtomicObject],
    listed: &[ObjId],
    tree: &ActionTree,
    a: ActionId,
)
    requires { CanVisit tree.now objects.old listed.now }
    ensures { AreChanged (IsEnded tree.now (λ x. x == a.0)) listed.now objects.old objects.new }
{
    for o in listed {
        let object = &mut objects[o.0 as usize];
        object.cell.release(tree, a);
    }
}
