//! What an abort does to the objects that the ended actions hold: it visits only the objects on
//! their lists.

ghost use Rattle.std.specs.{Prelude.{◌≡◌, ◌<◌, ◌≤◌, true, None, Some}, Option.option_map};
ghost use Rattle.argus_actions.specs.Refusals.{abort_others_refusal};
ghost use Rattle.argus_actions.specs.Rows.{has_ancestor, is_live_at, under_at};
ghost use Rattle.argus_actions.specs.Tree.{is_ancestor, is_live_sibling, next};
ghost use Rattle.argus_actions.specs.declared.action_id.ActionId.{ActionId};
ghost use Rattle.argus_core.specs.Sweeping.{AreEnded, CanSweep};

use crate::engine::atomic_object::AtomicObject;
use crate::engine::moving::release_all;
use argus_actions::{ActionId, ActionTree, Status};
use argus_objects::Holdings;

/// Discards what an action and all actions under it hold, and clears their lists. Each list says
/// where its action is among the holders. The newest actions go first, since a cell has its newest
/// holders last.
pub(crate) fn discard_under(
    objects: &mut [AtomicObject],
    holdings: &mut Holdings,
    tree: &ActionTree,
    a: ActionId,
)
    requires ready { CanSweep tree.now objects.old holdings.old }
    requires held { tree.now.folded ≤ a.0 }
    requires begun { a.0 < next tree.now }
    ensures { AreEnded tree.now (is_ancestor tree.now a.0)
        objects.old objects.new holdings.old holdings.new }
{
    let mut sub = tree.newest_sub(a);
    while let Some(below) = sub {
        discard_under(objects, holdings, tree, below);
        sub = tree.older_sub(below);
    }
    release_all(objects, holdings.of(a), tree, a);
    holdings.clear(a);
}

/// For a live action that was begun under this one: discards what its live siblings and all actions
/// under them hold, and clears their lists. It goes no further than the oldest of them.
fn discard_siblings(
    objects: &mut [AtomicObject],
    holdings: &mut Holdings,
    tree: &ActionTree,
    a: ActionId,
    under: ActionId,
)
    requires ready { CanSweep tree.now objects.old holdings.old }
    requires live { is_live_at tree.now.folded tree.now.rows a.0 ≡ true }
    requires under { under_at tree.now.folded tree.now.rows a.0 ≡ Some under.0 }
    ensures { AreEnded tree.now
        (has_ancestor (is_live_sibling tree.now a.0) tree.now.folded tree.now.rows)
        objects.old objects.new holdings.old holdings.new }
{
    let mut child = tree.newest_child(under);
    // The action itself is one of the live ones.
    let mut others = tree.live_children(under) - 1;
    while let Some(sibling) = child {
        if others == 0 {
            return;
        }
        if sibling.0 != a.0 && is_live(tree, sibling) {
            discard_under(objects, holdings, tree, sibling);
            others -= 1;
        }
        child = tree.older_sibling(sibling);
    }
}

/// Discards what the live siblings of an action and all actions under them hold, if it may end
/// them, and clears their lists.
pub(crate) fn discard_others(
    objects: &mut [AtomicObject],
    holdings: &mut Holdings,
    tree: &ActionTree,
    a: ActionId,
)
    requires ready { CanSweep tree.now objects.old holdings.old }
    requires accepted { abort_others_refusal tree.now a.0 ≡ None }
    ensures { AreEnded tree.now
        (has_ancestor (is_live_sibling tree.now a.0) tree.now.folded tree.now.rows)
        objects.old objects.new holdings.old holdings.new }
{
    match begun_under(tree, a) {
        Some(under) => discard_siblings(objects, holdings, tree, a, under),
        None => {}
    }
}

/// The action that this one was begun under: its parent or its creator; `None` for a topaction that
/// isn't nested.
fn begun_under(tree: &ActionTree, a: ActionId) -> Option<ActionId>
    ensures { option_map (λ (x : ActionId). x.0) result
        ≡ under_at tree.now.folded tree.now.rows a.0 }
{
    match tree.parent(a) {
        Some(parent) => Some(parent),
        None => tree.creator(a),
    }
}

/// Whether the action is live.
pub(crate) fn is_live(tree: &ActionTree, a: ActionId) -> bool
    ensures { result ≡ is_live_at tree.now.folded tree.now.rows a.0 }
{
    match tree.status(a) {
        Some(Status::Live) => true,
        Some(Status::Committed) => false,
        Some(Status::Aborted) => false,
        Some(Status::Folded) => false,
        None => false,
    }
}
