//! `Seat`: the right to call a shared guardian.

ghost use Rattle.std.specs.Prelude.{◌≡◌};

use crate::sharing::Sharing;
use std::marker::Model;
use std::sync::ledger::Share;

/// The right to call a shared guardian, with a count of the calls that were journalled, which is
/// all that contracts see of it.
///
/// ```text
/// let receipt = shared.call(&rt, &mut seat, Call::BeginTop)?;
/// assert_eq!(rt; seat.made(), 1);
/// ```
#[derive(Drop)]
pub struct Seat<N: Sharing> {
    pub(crate) made: u64,
    pub(crate) share: Share<N>,
}

impl<N: Sharing> Model for Seat<N> {
    ghost use Rattle.std.specs.Prelude.{◌≡◌};
    ghost use Rattle.argus_sharing.specs.Seat.{SeatView, seat_view_coded};

    ghost Value = { SeatView };

    ghost coded = { seat_view_coded };

    ghost view = { λ s. record { made = s.made } };

    ghost invariant = { λ s. (s.share.amount ≡ s.made) × (s.share.parts ≡ 1) };
}

impl<N: Sharing> Seat<N> {
    /// A seat that has made no call.
    pub(crate) fn over(share: Share<N>) -> Seat<N>
        requires { (share.amount ≡ 0) × (share.parts ≡ 1) }
        ensures { result.made ≡ 0 }
    {
        Seat { made: 0, share }
    }

    /// How many calls of this seat were journalled.
    pub fn made(&self) -> u64
        ensures { result ≡ self.now.made }
    {
        self.made
    }
}
