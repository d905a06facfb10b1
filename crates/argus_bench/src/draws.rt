//! `Draws`: pseudo-random numbers, the same at each run.

ghost use Rattle.std.specs.Prelude.{◌<◌};

/// Pseudo-random numbers, the same at each run: a linear congruential generator, of which the upper
/// 31 bits are used. Its factor is Knuth's for words of 64 bits.
///
/// ```text
/// let mut draws = Draws::seeded(42);
/// let o = ObjId(draws.below(1000));
/// ```
#[derive(Drop)]
pub(crate) struct Draws {
    state: u64,
}

impl Draws {
    /// Other numbers for each seed.
    pub(crate) fn seeded(seed: u64) -> Draws {
        Draws { state: seed }
    }

    /// The next number, which is below `count`; 0 if that is 0.
    pub(crate) fn below(&mut self, count: u16) -> u32
        ensures { 0 < count → result < count }
    {
        if count == 0 {
            return 0;
        }
        self.state = self
            .state
            .wrapping_mul(6364136223846793005)
            .wrapping_add(1442695040888963407);
        ((self.state >> 33) % u64::from(count)) as u32
    }
}
