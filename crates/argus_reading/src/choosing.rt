//! Where reading stops if a text may go on in several ways.

ghost use Rattle.std.specs.Prelude.{◌≡◌};
ghost use Rattle.argus_reading.specs.Farther.{farther};

use argus_texts::front::Stop;

/// Where reading stops if a text may go on in two ways: where the later of them stops.
pub(crate) fn farther(one: Stop, other: Stop) -> Stop
    ensures { result ≡ farther one other }
{
    let Stop::Left(a) = one else {
        return Stop::Memory;
    };
    let Stop::Left(b) = other else {
        return Stop::Memory;
    };
    if a < b {
        return Stop::Left(a);
    }
    Stop::Left(b)
}
