//! `ActionTree`: the actions that were begun.

ghost use Rattle.std.specs.Prelude.{◌≡◌, ℕ, ◌<◌, ◌≤◌, ◌+◌, ◌-◌, false, true, [], None, Some, OnOk};
ghost use Rattle.std.specs.{Prelude.{OnErr, IfSome}, Option.option_and_then, Result.result_err};
ghost use Rattle.argus_actions.specs.declared.origin.Origin.TheVariants.{Top, Sub, Nested};
ghost use Rattle.argus_actions.specs.{declared.status.Status.TheVariants.Live, Row.at_parent};
ghost use Rattle.argus_actions.specs.Rows.{depth_at, under_at, is_live_at, is_sub_at, is_child_of};
ghost use Rattle.argus_actions.specs.{Rows.AreInStep, Tree.after_abort_others};
ghost use Rattle.argus_actions.specs.Tree.{Tree, next, status_of, parent_of, creator_of};
ghost use Rattle.argus_actions.specs.Tree.{newest_sub_of, older_sub_of, newest_child_of};
ghost use Rattle.argus_actions.specs.Tree.{older_sibling_of, is_ancestor, has_live_child};
ghost use Rattle.argus_actions.specs.Tree.{live_children, depth_of, IsGreatestBelow, SameActions};
ghost use Rattle.argus_actions.specs.Tree.{after_begin, after_commit, after_abort};
ghost use Rattle.argus_actions.specs.Nodes.{IsNodeOf, AreLinked, IsBegunBetween, link_end};
ghost use Rattle.argus_actions.specs.Refusals.{begin_top_refusal, begin_sub_refusal};
ghost use Rattle.argus_actions.specs.Refusals.{begin_nested_refusal, commit_refusal, abort_refusal};
ghost use Rattle.argus_actions.specs.Refusals.{abort_others_refusal};

use crate::action_id::ActionId;
use crate::action_refusal::ActionRefusal;
use crate::node::{NONE, Node};
use crate::origin::Origin;
use crate::status::Status;
use crate::walk::{abort_siblings, abort_under, climbs, finish, push_begun};
use argus_contents::limits::{MAX_ACTION_DEPTH, MAX_ACTIONS};
use argus_memory::{Heap, OutOfMemory, Room};
use std::marker::Model;

/// The actions that were begun, numbered from 0.
///
/// Contracts see it as the list of its rows: how each action was begun, and what became of it. Only
/// the `begin_` calls and `reserve` take memory.
///
/// ```text
/// let mut tree = ActionTree::new(heap);
/// let top = tree.begin_top()?;
/// let sub = tree.begin_sub(top)?;
/// tree.commit(sub)?;                       // relative to the parent
/// tree.abort(top)?;                        // which takes it back
/// assert_eq!(rt; tree.status(sub), Some(Status::Aborted));
/// ```
#[derive(Drop)]
pub struct ActionTree {
    // The number of the first action that has a node; those below are folded.
    first: u32,
    nodes: Vec<Node, Room>,
}

impl Model for ActionTree {
    ghost use Rattle.std.specs.Prelude.{◌-◌, vec_len};
    ghost use Rattle.std.specs.Vec.{vec_capacity};
    ghost use Rattle.argus_actions.specs.Tree.{Tree};

    ghost Value = { Tree };

    ghost use Rattle.argus_actions.specs.Nodes.{rows_of, AreKept};

    ghost view = { λ t. record {
      folded = t.first;
      rows = rows_of t.nodes.items;
      room =
          vec_capacity t.nodes - vec_len t.nodes;
    } };

    ghost invariant = { λ t. AreKept t.first t.nodes.items };
}

// The action that a link leads to.
fn linked(link: u32) -> Option<ActionId>
    ensures { result ≡ link_end link }
{
    if link == NONE {
        None
    } else {
        Some(ActionId(link))
    }
}

impl ActionTree {
    /// A tree in which no action was begun. It takes no memory.
    pub fn new(heap: Heap) -> Self
        ensures rows { result.rows ≡ [] }
        ensures folded { result.folded ≡ 0 }
    {
        ActionTree::starting_at(heap, 0)
    }

    /// A tree whose actions begin with this number, at most 1,000,000: those below are folded, and
    /// no other was begun. It takes no memory.
    pub fn starting_at(heap: Heap, first: u32) -> Self
        requires { first ≤ MAX_ACTIONS }
        ensures rows { result.rows ≡ [] }
        ensures folded { result.folded ≡ first }
    {
        ActionTree {
            first,
            nodes: Vec::new(heap.room()),
        }
    }

    /// How many actions were begun, folded ones included: the number of the next one.
    pub fn len(&self) -> u32
        ensures { result ≡ next self.now }
    {
        self.first + self.nodes.len() as u32
    }

    /// What became of an action; `None` if it was not begun.
    pub fn status(&self, a: ActionId) -> Option<Status>
        ensures { result ≡ status_of self.now a.0 }
    {
        if a.0 < self.first {
            return Some(Status::Folded);
        }
        self.node(a).map(|node| node.status)
    }

    /// The parent of a subaction; `None` for all others, and for a folded one.
    pub fn parent(&self, a: ActionId) -> Option<ActionId>
        ensures { result ≡ parent_of self.now a.0 }
    {
        match self.node(a)?.origin {
            Origin::Sub(parent) => Some(ActionId(parent)),
            Origin::Top | Origin::Nested(_) => None,
        }
    }

    /// The creator of a nested topaction; `None` for all others, and for a folded one.
    pub fn creator(&self, a: ActionId) -> Option<ActionId>
        ensures { result ≡ creator_of self.now a.0 }
    {
        match self.node(a)?.origin {
            Origin::Nested(creator) => Some(ActionId(creator)),
            Origin::Top | Origin::Sub(_) => None,
        }
    }

    /// The subaction that was begun last under the action, whatever became of it; `None` if there
    /// is none.
    ///
    /// From there `older_sub` leads to every subaction of this one, and to no other. Followed
    /// through their subactions too, it leads to every action that an abort of this one also ends.
    pub fn newest_sub(&self, a: ActionId) -> Option<ActionId>
        ensures { result ≡ newest_sub_of self.now a.0 }
    {
        linked(self.node(a)?.newest_sub)
    }

    /// The subaction of the same parent that was begun next before this one; `None` for the first,
    /// and for topactions.
    pub fn older_sub(&self, a: ActionId) -> Option<ActionId>
        ensures { result ≡ older_sub_of self.now a.0 }
    {
        linked(self.node(a)?.older_sub)
    }

    /// The action that was begun last under this one, as its subaction or as its nested topaction;
    /// `None` if there is none.
    ///
    /// From there `older_sibling` leads to every action that was begun under this one. So from an
    /// action's parent or creator it leads to all its siblings.
    pub fn newest_child(&self, a: ActionId) -> Option<ActionId>
        ensures { result ≡ newest_child_of self.now a.0 }
    {
        linked(self.node(a)?.newest_child)
    }

    /// The action of the same parent or creator that was begun next before this one; `None` for the
    /// first, and for a topaction that isn't nested.
    pub fn older_sibling(&self, a: ActionId) -> Option<ActionId>
        ensures { result ≡ older_sibling_of self.now a.0 }
    {
        linked(self.node(a)?.older_child)
    }

    /// The number of the action's ancestors, itself included: 1 to 64. `None` if it was not begun,
    /// or is folded.
    pub fn depth(&self, a: ActionId) -> Option<u32>
        ensures value { result ≡ depth_of self.now a.0 }
        ensures least { IfSome result (λ depth. 1 ≤ depth) }
        ensures greatest { IfSome result (λ depth. depth ≤ MAX_ACTION_DEPTH) }
    {
        self.node(a).map(|node| u32::from(node.depth))
    }

    /// How many live subactions and live nested topactions the action has; 0 if it was not begun or
    /// is folded.
    pub fn live_children(&self, a: ActionId) -> u32
        ensures value { result ≡ live_children self.now a.0 }
        ensures folded { a.0 < self.now.folded → result ≡ 0 }
        ensures unbegun { next self.now ≤ a.0 → result ≡ 0 }
    {
        match self.node(a) {
            Some(node) => node.live_children,
            None => 0,
        }
    }

    /// Whether a live subaction has the action as its parent, or a live nested topaction as its
    /// creator; false if it was not begun or is folded.
    pub fn has_live_child(&self, a: ActionId) -> bool
        ensures value { result ≡ has_live_child self.now a.0 }
        ensures folded { a.0 < self.now.folded → result ≡ false }
        ensures unbegun { next self.now ≤ a.0 → result ≡ false }
    {
        self.live_children(a) > 0
    }

    /// Whether `x` is an ancestor of `y`; false if either was not begun or is folded.
    ///
    /// An action is its own ancestor; the other ancestors of a subaction are those of its parent.
    pub fn is_ancestor(&self, x: ActionId, y: ActionId) -> bool
        ensures { result ≡ is_ancestor self.now x.0 y.0 }
    {
        if y.0 < self.first {
            return false;
        }
        y.0 < self.len() && climbs(self.nodes.as_slice(), self.first, x.0, y.0)
    }

    /// A law for proofs; it does nothing. The parent of an action is one of its ancestors, since an
    /// action is begun under one that was begun before.
    pub fn parent_is_ancestor(&self, parent: ActionId, a: ActionId)
        requires { parent_of self.now a.0 ≡ Some parent }
        ensures { is_ancestor self.now parent.0 a.0 ≡ true }
    {
        let _ = self.nodes.len();
    }

    /// A law for proofs; it does nothing. An ancestor of a live action is live.
    pub fn ancestor_is_live(&self, x: ActionId, a: ActionId)
        requires above { is_ancestor self.now x.0 a.0 ≡ true }
        requires live { status_of self.now a.0 ≡ Some Live }
        ensures { status_of self.now x.0 ≡ Some Live }
    {
        let _ = self.nodes.len();
    }

    /// A law for proofs; it does nothing. Each action was begun under an older one, if under any,
    /// and a subaction is over no later than its parent.
    pub fn rows_are_sound(&self)
        ensures linked { AreLinked self.now.folded self.now.rows }
        ensures in_step { AreInStep self.now.folded self.now.rows }
    {
        let _ = self.nodes.len();
    }

    /// A law for proofs; it does nothing. From `newest_sub` on, `older_sub` leads to every
    /// subaction of an action, and to no other.
    pub fn subs_in_turn(&self, a: ActionId)
        ensures newest { IsGreatestBelow (next self.now)
            (is_sub_at self.now.folded self.now.rows a.0) (newest_sub_of self.now a.0) }
        ensures older { (x : ℕ) → is_sub_at self.now.folded self.now.rows a.0 x ≡ true
            → IsGreatestBelow x (is_sub_at self.now.folded self.now.rows a.0)
            (older_sub_of self.now x) }
    {
        let _ = self.nodes.len();
    }

    /// A law for proofs; it does nothing. From `newest_child` on, `older_sibling` leads to every
    /// action that was begun under this one, and to no other.
    pub fn children_in_turn(&self, a: ActionId)
        ensures newest { IsGreatestBelow (next self.now)
            (is_child_of self.now.folded self.now.rows a.0) (newest_child_of self.now a.0) }
        ensures older { (x : ℕ) → is_child_of self.now.folded self.now.rows a.0 x ≡ true
            → IsGreatestBelow x (is_child_of self.now.folded self.now.rows a.0)
            (older_sibling_of self.now x) }
    {
        let _ = self.nodes.len();
    }

    /// Makes room for one more action, so that the next begin can't run out of memory. After
    /// `OutOfMemory` the tree is unchanged.
    #[inline(always)]
    pub fn reserve(&mut self) -> Result<(), OutOfMemory>
        ensures same { SameActions self.old self.new }
        ensures ok { OnOk result (0 < self.new.room) }
        ensures err { OnErr result (self.new ≡ self.old) }
    {
        if self.nodes.len() < self.nodes.capacity() {
            return Ok(());
        }
        self.grow()
    }

    // The same if there is no room; it is rare, so it isn't inlined.
    #[inline(never)]
    fn grow(&mut self) -> Result<(), OutOfMemory>
        ensures same { SameActions self.old self.new }
        ensures ok { OnOk result (0 < self.new.room) }
        ensures err { OnErr result (self.new ≡ self.old) }
    {
        match self.nodes.reserve(1) {
            Ok(()) => Ok(()),
            Err(refused) => Err(OutOfMemory::from(refused)),
        }
    }

    /// Begins a topaction that nothing refuses, in the room that `reserve` has made.
    pub fn begin_top_reserved(&mut self) -> ActionId
        requires room { 0 < self.old.room }
        requires accepted { begin_top_refusal self.old ≡ None }
        ensures number { result.0 ≡ next self.old }
        ensures tree { self.new ≡ after_begin self.old Top }
    {
        self.begin(Origin::Top)
    }

    /// Begins a subaction that nothing refuses, in the room that `reserve` has made.
    pub fn begin_sub_reserved(&mut self, parent: ActionId) -> ActionId
        requires room { 0 < self.old.room }
        requires accepted { begin_sub_refusal self.old parent.0 ≡ None }
        ensures number { result.0 ≡ next self.old }
        ensures tree { self.new ≡ after_begin self.old (Sub parent.0) }
    {
        self.begin(Origin::Sub(parent.0))
    }

    /// Begins a nested topaction that nothing refuses, in the room that `reserve` has made.
    pub fn begin_nested_reserved(&mut self, creator: ActionId) -> ActionId
        requires room { 0 < self.old.room }
        requires accepted { begin_nested_refusal self.old creator.0 ≡ None }
        ensures number { result.0 ≡ next self.old }
        ensures tree { self.new ≡ after_begin self.old (Nested creator.0) }
    {
        self.begin(Origin::Nested(creator.0))
    }

    /// Commits an action. A subaction's commit is relative to its parent.
    ///
    /// Refusals: `NoAction`, `Over`, then `ChildrenLive`.
    pub fn commit(&mut self, a: ActionId) -> Result<(), ActionRefusal>
        ensures refused { result_err result ≡ commit_refusal self.old a.0 }
        ensures ok { OnOk result (self.new ≡ after_commit self.old a.0) }
        ensures err { OnErr result (self.new ≡ self.old) }
    {
        match self.commit_refusal(a) {
            Some(refusal) => Err(refusal),
            None => {
                self.commit_ready(a);
                Ok(())
            }
        }
    }

    /// Commits an action that is live and has no live child, without testing that again.
    pub fn commit_ready(&mut self, a: ActionId)
        requires { commit_refusal self.old a.0 ≡ None }
        ensures { self.new ≡ after_commit self.old a.0 }
    {
        finish(
            self.nodes.as_mut_slice(),
            self.first,
            a.0,
            Status::Committed,
        );
    }

    /// Aborts an action with all its subactions, theirs, and so on, whether they have committed or
    /// not. Nested topactions that were begun under any of them go on.
    ///
    /// Refusals: `NoAction`, then `Over`.
    pub fn abort(&mut self, a: ActionId) -> Result<(), ActionRefusal>
        ensures refused { result_err result ≡ abort_refusal self.old a.0 }
        ensures ok { OnOk result (self.new ≡ after_abort self.old a.0) }
        ensures err { OnErr result (self.new ≡ self.old) }
    {
        match self.abort_refusal(a) {
            Some(refusal) => Err(refusal),
            None => {
                self.abort_ready(a);
                Ok(())
            }
        }
    }

    /// Aborts a live action, as `abort` does, without testing that again.
    pub fn abort_ready(&mut self, a: ActionId)
        requires { abort_refusal self.old a.0 ≡ None }
        ensures { self.new ≡ after_abort self.old a.0 }
    {
        abort_under(self.nodes.as_mut_slice(), self.first, a.0);
    }

    /// Aborts all live siblings of an action, each with its subactions, theirs, and so on. A
    /// sibling is another action with the same parent or creator, of either kind. Committed
    /// siblings are untouched, as are those that begin after this call, and nested topactions
    /// begun under a sibling go on. It visits no sibling that is older than the oldest live one.
    ///
    /// Refusals: `NoAction`, `Over`, `ChildrenLive`, then `NoSiblings`.
    pub fn abort_others(&mut self, a: ActionId) -> Result<(), ActionRefusal>
        ensures refused { result_err result ≡ abort_others_refusal self.old a.0 }
        ensures ok { OnOk result (self.new ≡ after_abort_others self.old a.0) }
        ensures err { OnErr result (self.new ≡ self.old) }
    {
        match self.abort_others_refusal(a) {
            Some(refusal) => Err(refusal),
            None => {
                self.abort_others_ready(a);
                Ok(())
            }
        }
    }

    /// Aborts all live siblings of an action, as `abort_others` does if nothing refuses it.
    pub fn abort_others_ready(&mut self, a: ActionId)
        requires { abort_others_refusal self.old a.0 ≡ None }
        ensures { self.new ≡ after_abort_others self.old a.0 }
    {
        if let Some(under) = self.under(a) {
            abort_siblings(self.nodes.as_mut_slice(), self.first, a.0, under);
        }
    }

    /// The parent or creator of an action.
    pub(crate) fn under(&self, a: ActionId) -> Option<u32>
        ensures { result ≡ under_at self.now.folded self.now.rows a.0 }
    {
        self.node(a)?.origin.under()
    }

    // The node of an action; `None` if it was not begun, or is folded.
    fn node(&self, a: ActionId) -> Option<Node>
        ensures node { IsNodeOf self.now a.0 result }
        ensures newest { option_and_then (λ node. link_end node.newest_sub) result
            ≡ newest_sub_of self.now a.0 }
        ensures older { option_and_then (λ node. link_end node.older_sub) result
            ≡ older_sub_of self.now a.0 }
        ensures newest_child { option_and_then (λ node. link_end node.newest_child) result
            ≡ newest_child_of self.now a.0 }
        ensures older_child { option_and_then (λ node. link_end node.older_child) result
            ≡ older_sibling_of self.now a.0 }
    {
        if a.0 < self.first {
            return None;
        }
        let at = (a.0 - self.first) as usize;
        if at < self.nodes.len() {
            Some(self.nodes[at])
        } else {
            None
        }
    }

    // Begins an action of this origin in the room that is reserved.
    fn begin(&mut self, origin: Origin) -> ActionId
        requires room { 0 < self.old.room }
        requires few { next self.old < MAX_ACTIONS }
        requires between { IsBegunBetween self.old.folded (next self.old) origin }
        requires live { at_parent true origin (is_live_at self.old.folded self.old.rows) ≡ true }
        requires shallow { at_parent 0 origin (depth_at self.old.folded self.old.rows) <
            MAX_ACTION_DEPTH }
        ensures number { result.0 ≡ next self.old }
        ensures tree { self.new ≡ after_begin self.old origin }
    {
        ActionId(push_begun(&mut self.nodes, self.first, origin))
    }
}
