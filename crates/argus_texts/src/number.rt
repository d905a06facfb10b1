//! The numbers of a text: digits without a leading zero, with a sign for an integer.

ghost use Rattle.std.specs.Prelude.{◌≡◌, negsuc, ◌<◌, ◌≤◌, ◌+◌, ◌-◌, ◌*◌, ◌⊎◌, IfOk, IfErr, IfSome};
ghost use Rattle.std.specs.Prelude.{IfNone, ◌≢◌};
ghost use Rattle.argus_texts.specs.{Language.{OnLeft, Reads, Stops}, Languages.{Ints, Numbers}};
ghost use Rattle.argus_texts.specs.declared.stop.Stop.TheVariants as stop;

use crate::scan::{split_ascii, strip};
use crate::stop::Stop;

/// The integer at the front, and what comes after it.
///
/// `Left`: the text stops being the beginning of an integer where so many bytes are left. It takes
/// no memory.
pub fn int(text: &str) -> Result<(i64, &str), Stop>
    ensures read { IfOk result (λ r. Reads Ints text.now r.0 r.1.now) }
    ensures stops { IfErr result (λ e. OnLeft e (λ left. Stops Ints text.now left)) }
    ensures no_memory { IfErr result (λ e. e ≢ stop.Memory) }
{
    let Some(others) = strip(text, b'-') else {
        let (number, rest) = number(text, 0, 9_223_372_036_854_775_807)?;
        return Ok((number as i64, rest));
    };
    let (number, rest) = number(others, 1, 9_223_372_036_854_775_808)?;
    Ok((negative(number), rest))
}

fn negative(number: u64) -> i64
    requires { (0 < number) × (number ≤ 9223372036854775808) }
    ensures { result ≡ negsuc (number - 1) }
{
    -1 - (number - 1) as i64
}

/// The number at the front, from least (0 or 1) to most (9 or greater), and what comes after it.
///
/// `Left`: the text stops being the beginning of such a number where so many bytes are left. It
/// takes no memory.
pub fn number(text: &str, least: u8, most: u64) -> Result<(u64, &str), Stop>
    requires { (least ≤ 1) × (9 ≤ most) }
    ensures read { IfOk result (λ r. Reads (Numbers least most) text.now r.0 r.1.now) }
    ensures stops { IfErr result
        (λ e. OnLeft e (λ left. Stops (Numbers least most) text.now left)) }
    ensures no_memory { IfErr result (λ e. e ≢ stop.Memory) }
{
    let Some((first, others)) = split_ascii(text) else {
        return Err(Stop::Left(text.len()));
    };
    if first < b'0' + least {
        return Err(Stop::Left(text.len()));
    }
    if first > b'9' {
        return Err(Stop::Left(text.len()));
    }
    let mut number = u64::from(first - b'0');
    let mut rest = others;
    while let Some((next, others)) = split_ascii(rest) {
        if next < b'0' || next > b'9' {
            return Ok((number, rest));
        }
        let Some(more) = with_digit(number, next - b'0', most) else {
            return Err(Stop::Left(rest.len()));
        };
        number = more;
        rest = others;
    }
    Ok((number, rest))
}

/// The number with one more digit, if that has a form and isn't above the most.
fn with_digit(number: u64, digit: u8, most: u64) -> Option<u64>
    requires { (digit < 10) × (number ≤ most) }
    ensures some { IfSome result
        (λ more. (0 < number) × (more ≡ 10 * number + digit) × (more ≤ most)) }
    ensures none { IfNone result ((number ≡ 0) ⊎ (most < 10 * number + digit)) }
{
    if number == 0 {
        return None;
    }
    let tens = number.checked_mul(10)?;
    let more = tens.checked_add(u64::from(digit))?;
    if more > most {
        return None;
    }
    Some(more)
}
