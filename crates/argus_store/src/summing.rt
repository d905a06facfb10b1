//! `log_sum`: the sum of a batch, by which a changed, a missing or another log's row is seen.

ghost use Rattle.std.specs.Prelude.{◌≡◌, fold};
ghost use Rattle.argus_store.specs.Summing.{after_byte, log_sum, shifted};

use itoa::Buffer;

const POLYNOMIAL: u32 = 0xedb8_8320;

#[tactic(auto, unfolding(crate::specs::Summing::shifted))]
fn shifted(rest: u32) -> u32
    ensures { result ≡ shifted rest }
{
    if rest % 2 == 1 {
        rest / 2 ^ POLYNOMIAL
    } else {
        rest / 2
    }
}

fn with_byte(rest: u32, byte: u8) -> u32
    ensures { result ≡ after_byte rest byte }
{
    let half = shifted(shifted(shifted(shifted(rest ^ u32::from(byte)))));
    shifted(shifted(shifted(shifted(half))))
}

fn with_bytes(mut rest: u32, mut bytes: &[u8]) -> u32
    ensures { result ≡ fold after_byte rest bytes.now }
{
    while let [byte, more @ ..] = bytes {
        rest = with_byte(rest, *byte);
        bytes = more;
    }
    rest
}

/// The sum of a batch in the log of this name: of its lines from entry `first` on, after the sum
/// before it. The sum of an opening has 0 before it.
///
/// ```text
/// let opening = log_sum("0123", 0, 0, "");
/// log_sum("0123", 0, opening, "0 begin_top -> a0")        // 0xf401_020e
/// ```
pub fn log_sum(name: &str, first: u64, before: u32, lines: &str) -> u32
    ensures { result ≡ log_sum name.now first before lines.now }
{
    sum_of(name.as_bytes(), first, before, lines.as_bytes())
}

/// The same of a name and lines that needn't be UTF-8.
pub(crate) fn sum_of(name: &[u8], first: u64, before: u32, lines: &[u8]) -> u32
    ensures { result ≡ log_sum name.now first before lines.now }
{
    let mut digits = Buffer::new();
    let mut rest = with_bytes(u32::MAX, name);
    rest = with_bytes(rest, b" ");
    rest = with_bytes(rest, digits.format(first).as_bytes());
    rest = with_bytes(rest, b" ");
    rest = with_bytes(rest, digits.format(before).as_bytes());
    rest = with_bytes(rest, b"\n");
    with_bytes(rest, lines) ^ u32::MAX
}
