//! The numbers of signals, refusals, statuses and sizes, as a host gets them.

ghost use Rattle.std.specs.Prelude.{◌≡◌};
ghost use Rattle.argus_embed.specs.Codes.{as_number, refusal_code, signal_code, status_code};

use argus_actions::Status;
use argus_journal::Refusal;
use argus_values::Signal;

pub(crate) fn signal_code(signal: Signal) -> i64
    ensures { result ≡ signal_code signal }
{
    match signal {
        Signal::Absent => 1,
        Signal::Exists => 2,
        Signal::Bounds => 3,
        Signal::WrongTag => 4,
        Signal::NegativeSize => 5,
        Signal::Limits => 6,
    }
}

pub(crate) fn refusal_code(refusal: Refusal) -> i64
    ensures { result ≡ refusal_code refusal }
{
    match refusal {
        Refusal::NoAction => 1,
        Refusal::Over => 2,
        Refusal::Suspended => 3,
        Refusal::NoObject => 4,
        Refusal::IllTyped => 5,
        Refusal::Conflict => 6,
        Refusal::TooDeep => 7,
        Refusal::TooMany => 8,
        Refusal::NoSiblings => 9,
    }
}

pub(crate) fn status_code(status: Status) -> i64
    ensures { result ≡ status_code status }
{
    match status {
        Status::Live => 1,
        Status::Committed => 2,
        Status::Aborted => 3,
        Status::Folded => 4,
    }
}

/// The number as a signed one; anything greater becomes the greatest of these.
pub(crate) fn as_number(number: u64) -> i64
    ensures { result ≡ as_number number }
{
    if number < 9_223_372_036_854_775_808 {
        number as i64
    } else {
        i64::MAX
    }
}
