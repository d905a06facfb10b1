//! Calls that no guardian makes: tests of locks that need no lawful cell, a write lock's grant with its
//! content, an object that is noted on a list and passed on, laws of a tree of actions, an entry that
//! is copied, and a reply taken out of its receipt.

use crate::row_fault::{Result, RowFault};
use argus_actions::{ActionId, ActionTree, Status};
use argus_guardian::Receipt;
use argus_journal::{Call, Entry, Reply};
use argus_objects::{Cell, Holdings};
use argus_values::{Heap, ObjId};

const TOP: ActionId = ActionId(0);

const SUB: ActionId = ActionId(1);

const OTHER: ActionId = ActionId(2);

/// Makes each. Whether all comes out as it should.
pub(crate) fn are_parts_right(heap: Heap) -> Result<bool> {
    let tree = tree_of(heap)?;
    walk(&tree);
    Ok(are_locks_exclusive(heap, &tree)? && is_passed_on(heap)? && are_copied_and_taken(heap)?)
}

// A topaction with a subaction, and another topaction.
fn tree_of(heap: Heap) -> Result<ActionTree> {
    let mut tree = ActionTree::new(heap);
    let begun = tree.begin_top() == Ok(TOP) && tree.begin_sub(TOP) == Ok(SUB);
    if begun && tree.begin_top() == Ok(OTHER) {
        Ok(tree)
    } else {
        Err(RowFault::Other)
    }
}

fn walk(tree: &ActionTree) {
    tree.subs_in_turn(TOP);
    tree.children_in_turn(TOP);
    if tree.is_ancestor(TOP, SUB) && tree.status(SUB) == Some(Status::Live) {
        tree.ancestor_is_live(TOP, SUB);
    }
}

// Whether an object that the other topaction reads may be read, and not written, by the subaction; and
// one that the subaction writes may be written by it, and not read by others.
fn are_locks_exclusive(heap: Heap, tree: &ActionTree) -> Result<bool> {
    let read = locked(heap, tree, OTHER, false)?;
    let is_shared = read.may_read(tree, SUB) && !read.may_write(tree, SUB);
    let written = locked(heap, tree, SUB, true)?;
    Ok(is_shared && written.may_write(tree, SUB) && !written.may_read(tree, OTHER))
}

// An object with a read lock, or a write lock, in room that is made first.
fn locked(heap: Heap, tree: &ActionTree, a: ActionId, is_write: bool) -> Result<Cell> {
    let mut cell = Cell::new(heap, None);
    cell.reserve_grant()?;
    match tree.commit_refusal(a) {
        None if is_write && cell.lawful(tree) && cell.may_write(tree, a) => {
            cell.grant_write(tree, a, None);
        }
        None if !is_write && cell.lawful(tree) && cell.may_read(tree, a) => {
            cell.grant_read(tree, a);
        }
        Some(_) | None => return Err(RowFault::Other),
    }
    Ok(cell)
}

// Whether the topaction has the one object of the subaction's list, once that is passed on.
fn is_passed_on(heap: Heap) -> Result<bool> {
    let mut lists = Holdings::new(heap);
    lists.reserve(SUB)?;
    lists.note(SUB, ObjId(5));
    lists.reserve_pass(SUB, TOP)?;
    lists.pass(SUB, TOP);
    Ok(lists.of(SUB).is_empty() && lists.of(TOP) == [ObjId(5)].as_slice())
}

fn are_copied_and_taken(heap: Heap) -> Result<bool> {
    let entry = Entry {
        call: Call::BeginTop,
        reply: Reply::Begun(TOP),
    };
    let is_copied = entry.duplicate(heap)? == entry;
    let receipt = Receipt {
        at: 0,
        call: Call::BeginTop,
        reply: Reply::Begun(TOP),
    };
    Ok(receipt.into_reply() == entry.reply && is_copied)
}
