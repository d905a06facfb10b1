//! Receipts of several workers' arms, put into script order.

use crate::arm_receipts::ArmReceipts;
use argus_memory::{Heap, Room};
use argus_runs::Stopped;
use argus_sharing::Receipt;
use std::alloc::AllocError;
use std::vec::IntoIter;

/// Adds the receipts of this many arms, arm after arm, of which arm k was run by worker k mod
/// workers. `Stopped`: one was stopped, or wasn't run, or there is no memory.
pub(crate) fn gather(
    heap: Heap,
    left: Vec<ArmReceipts, Room>,
    arms: usize,
    receipts: &mut Vec<Receipt, Room>,
) -> Result<(), Stopped> {
    receipts.reserve_exact(count_whole(left.as_slice())?)?;
    let mut rests = rests_of(heap, left)?;
    let workers = rests.len();
    for k in 0..arms {
        if workers == 0 {
            return Err(Stopped);
        }
        rests[k % workers].move_arm(receipts)?;
    }
    Ok(())
}

// How many receipts there are, if no arm was stopped.
fn count_whole(left: &[ArmReceipts]) -> Result<usize, Stopped> {
    let mut count: usize = 0;
    for one in left {
        one.outcome?;
        count = count.saturating_add(one.receipts.len());
    }
    Ok(count)
}

fn rests_of(heap: Heap, left: Vec<ArmReceipts, Room>) -> Result<Vec<Rest, Room>, AllocError> {
    let mut rests = Vec::with_capacity(heap.room(), left.len())?;
    for one in left {
        let ArmReceipts { receipts, ends, .. } = one;
        rests.push(Rest {
            receipts: receipts.into_iter(),
            ends: ends.into_iter(),
            taken: 0,
        })?;
    }
    Ok(rests)
}

// What wasn't taken yet of the receipts of one worker's arms.
#[derive(Drop)]
struct Rest {
    receipts: IntoIter<Receipt, Room>,
    ends: IntoIter<usize, Room>,
    taken: usize,
}

impl Rest {
    // Moves the receipts of the next arm.
    fn move_arm(&mut self, to: &mut Vec<Receipt, Room>) -> Result<(), Stopped> {
        let Some(end) = self.ends.next() else {
            return Err(Stopped);
        };
        for _ in self.taken..end {
            if let Some(receipt) = self.receipts.next() {
                to.push(receipt)?;
            }
        }
        self.taken = end;
        Ok(())
    }
}
