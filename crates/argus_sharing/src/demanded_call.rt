//! `DemandedCall`: a call, and what its reply must be.

use crate::demand::Demand;
use argus_entries::Call;

/// A call, and what its reply must be for the calls after it to be made.
///
/// ```text
/// let first = DemandedCall { call: Call::BeginTop, demand: Demand::NoRefusal };
/// let same = DemandedCall::from(Call::BeginTop);
/// ```
#[derive(Debug, Drop)]
pub struct DemandedCall {
    pub call: Call,
    pub demand: Demand,
}

impl From<Call> for DemandedCall {
    ghost use Rattle.std.specs.Prelude.{◌≡◌};
    ghost use Rattle.argus_sharing.specs.declared.demand.Demand.TheVariants.{NoRefusal};

    ghost from_gives = { λ call demanded. (demanded.call ≡ call) × (demanded.demand ≡ NoRefusal) };

    /// The call, whose reply mustn't be a refusal.
    fn from(call: Call) -> DemandedCall {
        DemandedCall {
            call,
            demand: Demand::NoRefusal,
        }
    }
}
