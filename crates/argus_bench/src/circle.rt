//! `Circle`: which records a thread's topactions count in.

use crate::draws::Draws;
use argus_values::ObjId;

/// This many records from the first on, in a circle, and how far after one of them three others
/// are: together they are the four that a topaction counts in.
///
/// ```text
/// let records = Circle::hot().four(&mut draws);           // as o1, o4, o6, o9
/// ```
#[derive(Clone, Copy)]
pub(crate) struct Circle {
    first: u32,
    count: u16,
    second: u32,
    third: u32,
    fourth: u32,
}

impl Circle {
    /// The ten records that all threads choose from.
    pub(crate) fn hot() -> Circle {
        Circle {
            first: 0,
            count: 10,
            second: 3,
            third: 5,
            fourth: 8,
        }
    }

    /// The 250 records of the thread of this number.
    pub(crate) fn own(thread: u32) -> Circle {
        Circle {
            first: thread.wrapping_mul(250),
            count: 250,
            second: 63,
            third: 126,
            fourth: 189,
        }
    }

    /// Four pseudo-random records, in the order of their numbers: if all lock in that order, no two
    /// wait for each other.
    pub(crate) fn four(self, draws: &mut Draws) -> [ObjId; 4] {
        let start = draws.below(self.count);
        let (a, b) = ordered(start, self.behind(start, self.second));
        let (c, d) = ordered(
            self.behind(start, self.third),
            self.behind(start, self.fourth),
        );
        let (a, c) = ordered(a, c);
        let (b, d) = ordered(b, d);
        let (b, c) = ordered(b, c);
        [self.at(a), self.at(b), self.at(c), self.at(d)]
    }

    fn behind(self, start: u32, steps: u32) -> u32 {
        let place = start.wrapping_add(steps);
        place.checked_rem(u32::from(self.count)).unwrap_or(0)
    }

    fn at(self, place: u32) -> ObjId {
        ObjId(self.first.wrapping_add(place))
    }
}

fn ordered(one: u32, other: u32) -> (u32, u32) {
    (one.min(other), one.max(other))
}
