//! Reading a bounded input.

ghost use Rattle.std.specs.Prelude.{◌≡◌, ◌↔◌, true, false, IfOk, IfErr, OnErr, OnOk};
ghost use Rattle.argus_streams.specs.Input.{ReadAtMost, ReadUpTo};
ghost use Rattle.argus_streams.specs.FailStop.{has_failed, inner_of};
ghost use Rattle.argus_streams.specs.declared.input_error.InputError.TheVariants as InputError;

use crate::fail_stop::FailStop;
use crate::input_error::InputError;
use argus_memory::{Heap, Room};
use std::io::Read;

// How much is read at once.
const CHUNK: usize = 16_384;

/// All that the reader has, at most `limit` bytes of it. A read that fails isn't tried again.
///
/// `Read`: a read failed. `OutOfMemory`: there is no memory for the bytes. After either, what was
/// read is lost; it was no more than `limit` bytes.
///
/// Condition: the reader hasn't failed before.
///
/// ```text
/// let mut reader = FailStop::new(rt.stdin());
/// let bytes = read_up_to(heap, &mut reader, 4_096)?;
/// ```
pub fn read_up_to<R: Read + Drop>(
    heap: Heap,
    reader: &mut FailStop<R>,
    limit: usize,
) -> Result<Vec<u8, Room>, InputError>
    requires { has_failed reader.old ≡ false }
    ensures read { IfOk result (λ bytes. ReadUpTo limit (R.remaining (inner_of reader.old))
        (R.remaining (inner_of reader.new)) bytes.items) }
    ensures fine { OnOk result (has_failed reader.new ≡ false) }
    ensures failed { IfErr result (λ e. (e ≡ InputError.Read) ↔ (has_failed reader.new ≡ true)) }
    ensures bounded { OnErr result (ReadAtMost limit (R.remaining (inner_of reader.old))
        (R.remaining (inner_of reader.new))) }
{
    let mut all = Vec::new(heap.room());
    let mut chunk = [0u8; CHUNK];
    while all.len() < limit {
        let size = CHUNK.min(limit - all.len());
        match reader.read_once(&mut chunk[..size]) {
            None => return Err(InputError::Read),
            Some(0) => return Ok(all),
            Some(n) => {
                if all.extend_from_slice(&chunk[..n]).is_err() {
                    return Err(InputError::OutOfMemory);
                }
            }
        }
    }
    Ok(all)
}
