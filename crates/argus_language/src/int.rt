//! The ints of a line.

ghost use Rattle.std.specs.Prelude.{◌≡◌};
ghost use Rattle.argus_language.specs.Int.{above_zero, below_zero, digits_behind, int_of};
ghost use Rattle.argus_language.specs.Int.{positive_of, with_digit};

/// The int that the bytes spell; `None` if they don't spell one of 64 bits.
pub(crate) fn int_in(bytes: &[u8]) -> Option<i64>
    ensures { result ≡ int_of bytes.now }
{
    let (first, others) = bytes.split_first()?;
    if *first == b'-' {
        return below_zero(positive_in(others)?);
    }
    if *first == b'0' {
        return if others.is_empty() { Some(0) } else { None };
    }
    above_zero(positive_in(bytes)?)
}

fn above_zero(number: u64) -> Option<i64>
    ensures { result ≡ above_zero number }
{
    if number < 9_223_372_036_854_775_808 {
        return Some(number as i64);
    }
    None
}

fn below_zero(number: u64) -> Option<i64>
    ensures { result ≡ below_zero number }
{
    if 0 < number && number <= 9_223_372_036_854_775_808 {
        return Some(-1 - (number - 1) as i64);
    }
    None
}

/// The number above 0 that the bytes spell, up to 2^63.
fn positive_in(bytes: &[u8]) -> Option<u64>
    ensures { result ≡ positive_of bytes.now }
{
    let first = bytes.first()?;
    if *first == b'0' {
        return None;
    }
    number_in(bytes)
}

/// The number that the digits spell, up to 2^63.
fn number_in(digits: &[u8]) -> Option<u64>
    ensures { result ≡ digits_behind 0 digits.now }
{
    let mut number = 0;
    for digit in digits {
        number = with_digit(number, *digit)?;
    }
    Some(number)
}

/// The number with one more digit; `None` if the byte isn't a digit, and past 2^63.
fn with_digit(number: u64, byte: u8) -> Option<u64>
    ensures { result ≡ with_digit number byte }
{
    if byte < b'0' || byte > b'9' || number > 922_337_203_685_477_580 {
        return None;
    }
    let more = 10 * number + u64::from(byte - b'0');
    if more > 9_223_372_036_854_775_808 {
        return None;
    }
    Some(more)
}
