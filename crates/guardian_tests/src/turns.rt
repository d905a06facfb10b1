//! `Turns`: a gate that does what a test says when arms come to steps.

use crate::hold::{Hold, HoldKind};
use crate::row_fault::Result;
use crate::setting::Setting;
use crate::waiting::{YIELDS, take_turns};
use argus_commands::Gate;
use argus_values::{Budget, Room};
use std::sync::atomic::{AtomicU64, Ordering};
use std::thread::yield_now;

// How often an arm that is held up yields before the gate gives up.
const MOST: u32 = 20_000_000;

/// Holds arms up, and refuses memory, as a test says; an arm that isn't held up at a step takes its
/// time there. No arm is held up for ever: after twenty million turns, each of which yields, no
/// allocation is allowed any more, so that the run fails.
///
/// ```text
/// let gate = Turns::new(setting)?;
/// let report = run_shared(rt, heap, shared, seats, &script, &gate, 2, 0)?;
/// ```
#[derive(Drop)]
pub(crate) struct Turns {
    holds: Vec<Hold, Room>,
    // A byte for each arm, of the first eight: to how many of its steps it has come.
    come: AtomicU64,
    budget: Budget,
}

impl Turns {
    /// The gate of a test with these lines: `: 1 0 until 0 1`.
    pub(crate) fn new(setting: Setting<'_>) -> Result<Turns> {
        let mut holds = Vec::new(setting.texts.room());
        for line in setting.lines.lines() {
            if let Some(words) = line.strip_prefix(": ") {
                holds.push(Hold::of_words(words)?)?;
            }
        }
        Ok(Turns {
            holds,
            come: AtomicU64::new(0),
            budget: setting.budget,
        })
    }

    // What the arm meets there, in this order: refused memory before anybody sees that it has come.
    fn hold_at(&self, arm: u32, step: u32) -> Option<HoldKind> {
        for hold in self.holds.as_slice() {
            if hold.arm == arm && hold.step == step {
                return Some(hold.kind);
            }
        }
        None
    }

    fn hold_up(&self, arm: u32, step: u32) {
        for _turn in 0..MOST {
            let come = self
                .come
                .load(Ordering::SeqCst)
                .wrapping_shr(arm.wrapping_mul(8));
            if come & 255 > u64::from(step) {
                return;
            }
            yield_now();
        }
        self.budget.allow(0);
    }
}

impl Gate for Turns {
    fn pass(&self, arm: u32, step: u32) {
        let hold = self.hold_at(arm, step);
        match hold {
            Some(HoldKind::Refuse) => self.budget.allow(0),
            Some(HoldKind::Allow) => self.budget.lift(),
            Some(HoldKind::Until(..)) | None => {}
        }
        let one = 1u64.wrapping_shl(arm.wrapping_mul(8));
        self.come.fetch_add(one, Ordering::SeqCst);
        match hold {
            Some(HoldKind::Until(other, to)) => self.hold_up(other, to),
            _ => take_turns(YIELDS),
        }
    }
}
