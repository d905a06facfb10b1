//! `Demand`: what an outcome must be for the calls after it to be made.

ghost use Rattle.std.specs.Prelude.{◌≡◌};
ghost use Rattle.argus_embed.specs.CallEach.{demand_of, meets};

use crate::outcome::Outcome;

/// What an outcome must be for the calls after it to be made.
#[derive(Clone, Copy, Debug)]
pub(crate) enum Demand {
    NoRefusal,
    Nothing,
    NoSignal,
}

impl Demand {
    /// The demand with this number.
    pub(crate) fn of(number: u32) -> Option<Demand>
        ensures { result ≡ demand_of number }
    {
        match number {
            0 => Some(Demand::NoRefusal),
            1 => Some(Demand::Nothing),
            2 => Some(Demand::NoSignal),
            _ => None,
        }
    }

    /// Whether the outcome meets it.
    pub(crate) fn is_met(self, outcome: Outcome) -> bool
        ensures { result ≡ meets self outcome }
    {
        match self {
            Demand::NoRefusal => !matches!(outcome, Outcome::Refused(_)),
            Demand::Nothing => true,
            Demand::NoSignal => !matches!(outcome, Outcome::Refused(_) | Outcome::Signal(_)),
        }
    }
}
