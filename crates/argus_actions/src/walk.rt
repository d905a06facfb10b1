//! What is done to the nodes of a tree, oldest first: the climb to an ancestor, one action's begin
//! and end, and aborts. The action `first` has the first of the nodes; those below it are folded.

ghost use Rattle.std.specs.Prelude.{◌≡◌, ℕ, ◌+◌, ◌<◌, ◌≤◌, ◌==◌, false, true, ◌∷◌, Some, length};
ghost use Rattle.std.specs.{Prelude.{slice_index_or, vec_len}, Vec.vec_capacity};
ghost use Rattle.argus_actions.specs.{declared.node.Node.Node, Row.{at_parent, is_live}};
ghost use Rattle.argus_actions.specs.declared.status.Status.TheVariants.{Live, Aborted};
ghost use Rattle.argus_actions.specs.Rows.{is_above, depth_at, mark, has_ancestor, is_live_at};
ghost use Rattle.argus_actions.specs.Rows.{is_live_sibling_of, under_at};
ghost use Rattle.argus_actions.specs.Nodes.{rows_of, AreLinked, AreNodes, IsBegunBetween, adopted};
ghost use Rattle.argus_actions.specs.Nodes.{fresh, older_sub_link, older_child_link};

use crate::node::{NONE, Node};
use crate::origin::Origin;
use crate::status::Status;
use argus_contents::limits::{MAX_ACTION_DEPTH, MAX_ACTIONS};
use argus_memory::Room;

/// Whether `x` is `y`, or an ancestor of it. A parent is older than its subactions, so the climb
/// stops below `x`.
pub(crate) fn climbs(nodes: &[Node], first: u32, x: u32, y: u32) -> bool
    requires linked { AreLinked first (rows_of nodes.now) }
    requires held { first ≤ y }
    requires begun { y < first + length nodes.now }
    ensures { result ≡ is_above first (rows_of nodes.now) x y }
{
    let mut at = y;
    while x < at {
        match nodes[(at - first) as usize].origin {
            Origin::Sub(parent) => at = parent,
            Origin::Top | Origin::Nested(_) => return false,
        }
    }
    x == at
}

/// The node of an action of this origin that is begun next.
pub(crate) fn begun_node(nodes: &[Node], first: u32, origin: Origin) -> Node
    requires nodes { AreNodes first nodes.now }
    requires between { IsBegunBetween first (first + length nodes.now) origin }
    requires shallow { at_parent 0 origin (depth_at first (rows_of nodes.now)) < MAX_ACTION_DEPTH }
    ensures { let rows = rows_of nodes.now in result
        ≡ fresh origin (older_sub_link first rows origin) (older_child_link first rows origin)
        (at_parent 0 origin (depth_at first rows) + 1) }
{
    let (older_sub, older_child, depth) = match origin {
        Origin::Top => (NONE, NONE, 1),
        Origin::Sub(parent) => {
            let above = nodes[(parent - first) as usize];
            (above.newest_sub, above.newest_child, above.depth + 1)
        }
        Origin::Nested(creator) => (NONE, nodes[(creator - first) as usize].newest_child, 1),
    };
    Node {
        origin,
        newest_sub: NONE,
        older_sub,
        newest_child: NONE,
        older_child,
        live_children: 0,
        status: Status::Live,
        depth,
    }
}

/// Enters the action that is begun next in the links and the count of its parent or creator.
pub(crate) fn adopt(nodes: &mut [Node], first: u32, origin: Origin, number: u32)
    requires nodes { AreNodes first nodes.old }
    requires between { IsBegunBetween first (first + length nodes.old) origin }
    ensures { (a k : ℕ) (d : Node) → a ≡ first + k → k < length nodes.old
        → slice_index_or nodes.new k d ≡ adopted origin number a (slice_index_or nodes.old k d) }
{
    match origin {
        Origin::Top => {}
        Origin::Sub(parent) => {
            let above = &mut nodes[(parent - first) as usize];
            above.newest_sub = number;
            above.newest_child = number;
            above.live_children += 1;
        }
        Origin::Nested(creator) => {
            let above = &mut nodes[(creator - first) as usize];
            above.newest_child = number;
            above.live_children += 1;
        }
    }
}

/// Begins an action of this origin in the room that is reserved, and returns its number.
pub(crate) fn push_begun(nodes: &mut Vec<Node, Room>, first: u32, origin: Origin) -> u32
    requires nodes { AreNodes first nodes.old.items }
    requires few { first + vec_len nodes.old < MAX_ACTIONS }
    requires room { vec_len nodes.old < vec_capacity nodes.old }
    requires between { IsBegunBetween first (first + vec_len nodes.old) origin }
    requires shallow { at_parent 0 origin (depth_at first (rows_of nodes.old.items)) <
        MAX_ACTION_DEPTH }
    ensures number { result ≡ first + vec_len nodes.old }
    ensures nodes { AreNodes first nodes.new.items }
    ensures rows { rows_of nodes.new.items ≡ record { origin = origin; status = Live }
        ∷ rows_of nodes.old.items }
    ensures len { vec_len nodes.new ≡ vec_len nodes.old + 1 }
    ensures capacity { vec_capacity nodes.new ≡ vec_capacity nodes.old }
{
    let number = first + nodes.len() as u32;
    let node = begun_node(nodes.as_slice(), first, origin);
    adopt(nodes.as_mut_slice(), first, origin, number);
    nodes.push_reserved(node);
    number
}

/// Ends one action: sets its status, and takes one from the live children of its parent or creator.
pub(crate) fn finish(nodes: &mut [Node], first: u32, a: u32, status: Status)
    requires nodes { AreNodes first nodes.old }
    requires held { first ≤ a }
    requires begun { a < first + length nodes.old }
    requires over { is_live status ≡ false }
    ensures nodes { AreNodes first nodes.new }
    ensures rows { rows_of nodes.new ≡ mark first (λ k. k == a) status (rows_of nodes.old) }
{
    let at = (a - first) as usize;
    let node = nodes[at];
    if node.status.is_live() {
        if let Some(under) = node.origin.under() {
            let above = (under - first) as usize;
            nodes[above].live_children -= 1;
        }
    }
    nodes[at].status = status;
}

/// Aborts an action with all its subactions, theirs, and so on, and visits no other.
pub(crate) fn abort_under(nodes: &mut [Node], first: u32, a: u32)
    requires nodes { AreNodes first nodes.old }
    requires held { first ≤ a }
    requires begun { a < first + length nodes.old }
    ensures nodes { AreNodes first nodes.new }
    ensures rows { let rows = rows_of nodes.old in
        rows_of nodes.new ≡ mark first (is_above first rows a) Aborted rows }
{
    finish(nodes, first, a, Status::Aborted);
    let mut sub = nodes[(a - first) as usize].newest_sub;
    while sub != NONE {
        abort_under(nodes, first, sub);
        sub = nodes[(sub - first) as usize].older_sub;
    }
}

/// Aborts the live siblings of a live action that was begun under this one, each with its
/// subactions, theirs, and so on. Of the other siblings it visits only those that are newer than
/// the oldest live one.
pub(crate) fn abort_siblings(nodes: &mut [Node], first: u32, a: u32, under: u32)
    requires nodes { AreNodes first nodes.old }
    requires live { is_live_at first (rows_of nodes.old) a ≡ true }
    requires under { under_at first (rows_of nodes.old) a ≡ Some under }
    ensures nodes { AreNodes first nodes.new }
    ensures rows { let rows = rows_of nodes.old in
        rows_of nodes.new ≡ mark first (has_ancestor (is_live_sibling_of first rows a) first rows)
        Aborted rows }
{
    let above = (under - first) as usize;
    let mut child = nodes[above].newest_child;
    // The action itself is one of the live ones.
    let mut others = nodes[above].live_children - 1;
    while others > 0 {
        let at = (child - first) as usize;
        if child != a && nodes[at].status.is_live() {
            abort_under(nodes, first, child);
            others -= 1;
        }
        child = nodes[at].older_child;
    }
}
