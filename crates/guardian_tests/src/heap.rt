//! What no clause says: that a heap has memory, that a used-up budget refuses, and in which places.

use argus_values::{Budget, Heap, OutOfMemory, Room};
use std::alloc::{AllocError, Global};

/// Takes memory from heaps without a limit and with a budget. Whether it comes, and is refused, where
/// it should. That a budget refuses in other threads, too, is told by the scripts of gates.rows.
pub(crate) fn do_budgets_refuse(alloc: Global) -> Result<bool, AllocError> {
    let budget = Budget::new(alloc)?;
    let heap = Heap::with_budget(alloc, budget);
    let has_memory = list(Heap::new(alloc)?).is_ok() && budget.left().is_none();
    Ok(has_memory && counts_until_lifted(budget, heap) && counts_outside(budget, heap))
}

// A list takes two allocations: it is made and grown, and shrinking takes nothing.
fn counts_until_lifted(budget: Budget, heap: Heap) -> bool {
    budget.allow(3);
    let takes_two = list(heap).is_ok() && budget.left() == Some(1);
    let is_used_up = list(heap).is_err() && budget.left() == Some(0) && list(heap).is_err();
    budget.lift();
    takes_two && is_used_up && budget.left().is_none() && list(heap).is_ok()
}

// A room is of its heap, and what is made outside of rooms is asked for.
fn counts_outside(budget: Budget, heap: Heap) -> bool {
    budget.allow(1);
    let is_asked = heap.ask().is_ok() && heap.ask().is_err() && budget.left() == Some(0);
    let room: Room = heap.room();
    let is_of_heap = list(room.heap()).is_err();
    let is_copy_of_heap = match room.clone() {
        Ok(copy) => list(copy.heap()).is_err(),
        Err(_) => false,
    };
    is_asked && is_of_heap && is_copy_of_heap
}

// A list of two that grew by itself.
fn list(heap: Heap) -> Result<(), OutOfMemory> {
    let mut list = Vec::with_capacity(heap.room(), 1)?;
    list.push(1u64)?;
    list.push(2u64)?;
    list.shrink_to_fit();
    Ok(())
}
