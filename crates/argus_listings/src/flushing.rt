//! A text that is written out and emptied whenever it has grown long.

ghost use Rattle.std.specs.Prelude.{[], ◌≡◌, ◌↔◌, IfErr, OnErr, OnOk, false, string_bytes, true};
ghost use Rattle.argus_listings.specs.Flushing.{Added, Cut};
ghost use Rattle.argus_listings.specs.declared.list_error.ListError.TheVariants.{Write};
ghost use Rattle.argus_streams.specs.FailStop.{has_failed, inner_of};

use crate::list_error::ListError;
use argus_memory::Room;
use argus_streams::{FailStop, write_whole};
use std::io::Write;

// At this many bytes the text is written out.
const LONG: usize = 65_536;

/// Writes the text out if it is long.
pub(crate) fn flush_long<W: Write + Drop>(
    text: &mut String<Room>,
    writer: &mut FailStop<W>,
) -> Result<(), ListError>
    requires { has_failed writer.old ≡ false }
    ensures ok { OnOk result (Added (W.contents (inner_of writer.old)) (string_bytes text.old)
        (W.contents (inner_of writer.new)) (string_bytes text.new) []) }
    ensures fine { OnOk result (has_failed writer.new ≡ false) }
    ensures cut { OnErr result (Cut (W.contents (inner_of writer.old)) (string_bytes text.old)
        (W.contents (inner_of writer.new)) []) }
    ensures failed { IfErr result (λ e. (e ≡ Write) ↔ (has_failed writer.new ≡ true)) }
{
    if text.len() < LONG {
        return Ok(());
    }
    flush(text, writer)
}

/// Writes the text out, and empties it.
pub(crate) fn flush<W: Write + Drop>(
    text: &mut String<Room>,
    writer: &mut FailStop<W>,
) -> Result<(), ListError>
    requires { has_failed writer.old ≡ false }
    ensures ok { OnOk result (Added (W.contents (inner_of writer.old)) (string_bytes text.old)
        (W.contents (inner_of writer.new)) (string_bytes text.new) []) }
    ensures empty { OnOk result (string_bytes text.new ≡ []) }
    ensures fine { OnOk result (has_failed writer.new ≡ false) }
    ensures cut { OnErr result (Cut (W.contents (inner_of writer.old)) (string_bytes text.old)
        (W.contents (inner_of writer.new)) []) }
    ensures failed { IfErr result (λ e. (e ≡ Write) ↔ (has_failed writer.new ≡ true)) }
{
    match write_whole(writer, text.as_bytes()) {
        Ok(()) => {
            text.clear();
            Ok(())
        }
        Err(_) => Err(ListError::Write),
    }
}
