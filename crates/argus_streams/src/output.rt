//! Writing a text.

ghost use Rattle.std.specs.Prelude.{◌≡◌, ◌≤◌, ℕ, length, take, true, false, OnOk, OnErr};
ghost use Rattle.std.specs.Io.KnownBytes.{Appends};
ghost use Rattle.argus_streams.specs.FailStop.{has_failed, inner_of};

use crate::fail_stop::FailStop;
use std::io::Write;

/// The writer failed.
///
/// ```text
/// if let Err(NotWritten) = write_whole(&mut writer, b"x absent\n") {
///     ..                              // the front of it was written
/// }
/// ```
#[derive(Clone, Copy)]
pub struct NotWritten;

/// Writes all the bytes. A write that fails or accepts nothing isn't tried again.
///
/// `NotWritten` comes exactly if there was such a write; then a prefix of the bytes was written.
///
/// Condition: the writer hasn't failed before.
pub fn write_whole<W: Write + Drop>(
    writer: &mut FailStop<W>,
    bytes: &[u8],
) -> Result<(), NotWritten>
    requires { has_failed writer.old ≡ false }
    ensures ok { OnOk result (Appends (W.contents (inner_of writer.old))
        (W.contents (inner_of writer.new)) bytes.now) }
    ensures fine { OnOk result (has_failed writer.new ≡ false) }
    ensures cut { OnErr result ((n : ℕ) × (n ≤ length bytes.now)
        × Appends (W.contents (inner_of writer.old)) (W.contents (inner_of writer.new))
        (take n bytes.now)) }
    ensures failed { OnErr result (has_failed writer.new ≡ true) }
{
    let mut at = 0;
    while at < bytes.len() {
        match writer.write_once(&bytes[at..]) {
            Some(n) => at += n,
            None => return Err(NotWritten),
        }
    }
    Ok(())
}
