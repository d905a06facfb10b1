//! `list`: what is asked of a guardian, written.

ghost use Rattle.std.specs.Prelude.{IfErr, OnOk, false, ◌≡◌};
ghost use Rattle.argus_guardian.specs.Listing.{Writes, listing_of};
ghost use Rattle.argus_cli.specs.Status.{IsListingFault};
ghost use Rattle.argus_commands.specs.FailStop.{has_failed, inner_of};

use crate::cli_fault::CliFault;
use argus_commands::FailStop;
use argus_guardian::{Guardian, ListError, Listing};
use argus_values::{Heap, Name};
use std::io::Write;

/// Writes a listing of the guardian, its objects under these names, as
/// `argus_guardian::write_listing` does. The two errors are faults of the program.
///
/// | Error | When | What was written |
/// |---|---|---|
/// | `Memory` | there is no memory | a prefix of the listing |
/// | `Write` | a write failed, or accepted nothing; it isn't tried again | a prefix of it |
///
/// The writer has failed exactly at `Write`. Condition: the writer hasn't failed before.
///
/// ```text
/// let mut writer = FailStop::new(rt.stdout());
/// list(heap, &guardian, script.names(), Listing::Stacks, &mut writer)?;
/// ```
pub fn list<W: Write + Drop>(
    heap: Heap,
    guardian: &Guardian,
    names: &[Name],
    listing: Listing,
    writer: &mut FailStop<W>,
) -> Result<(), CliFault>
    requires { has_failed writer.old ≡ false }
    ensures written { Writes result (W.contents (inner_of writer.old))
        (W.contents (inner_of writer.new)) (listing_of listing names.now guardian.now) }
    ensures fine { OnOk result (has_failed writer.new ≡ false) }
    ensures failed { IfErr result (λ e. IsListingFault e (has_failed writer.new)) }
{
    match argus_guardian::write_listing(heap, guardian, names, listing, writer) {
        Ok(()) => Ok(()),
        Err(ListError::OutOfMemory) => Err(CliFault::Memory),
        Err(ListError::Write) => Err(CliFault::Write),
    }
}
