//! `write_listing`: a listing of a guardian, written.

ghost use Rattle.std.specs.Prelude.{IfErr, OnErr, OnOk, false, string_bytes, true, ◌↔◌, ◌≡◌};
ghost use Rattle.argus_listings.specs.{Listing.{Writes, listing_of}, Flushing.{Added, Cut}};
ghost use Rattle.argus_listings.specs.declared.list_error.ListError.TheVariants.{Write};
ghost use Rattle.argus_streams.specs.FailStop.{has_failed, inner_of};

use crate::auditing::append_length;
use crate::flushing::flush;
use crate::journal_listing::{write_entries, write_opening};
use crate::list_error::ListError;
use crate::listing::Listing;
use crate::object_listing::{write_audits, write_objects};
use argus_contents::Name;
use argus_core::Guardian;
use argus_memory::{Heap, Room};
use argus_streams::FailStop;
use std::io::Write;

/// Writes a listing of the guardian. The first name is that of object 0, and so on; objects are
/// listed as far as there are both a name and a declared object.
///
/// The listing is made in the heap in pieces of some 64 KiB, each written as soon as it is made.
/// Nothing is tried again after a failure; what was written by then is a prefix of the listing.
///
/// | Error | When |
/// |---|---|
/// | `OutOfMemory` | there is no memory |
/// | `Write` | the writer failed or accepted nothing, and only then |
///
/// Condition: the writer hasn't failed before. An audit walks over the journal twice, and
/// then visits each object's writes, and again for each of its versions.
///
/// ```text
/// let mut writer = FailStop::new(rt.stdout());
/// write_listing(heap, &guardian, script.names(), Listing::Bases, &mut writer)?;
/// // acct {7}
/// ```
pub fn write_listing<W: Write + Drop>(
    heap: Heap,
    guardian: &Guardian,
    names: &[Name],
    listing: Listing,
    writer: &mut FailStop<W>,
) -> Result<(), ListError>
    requires { has_failed writer.old ≡ false }
    ensures written { Writes result (W.contents (inner_of writer.old))
        (W.contents (inner_of writer.new)) (listing_of listing names.now guardian.now) }
    ensures fine { OnOk result (has_failed writer.new ≡ false) }
    ensures failed { IfErr result (λ e. (e ≡ Write) ↔ (has_failed writer.new ≡ true)) }
{
    let mut text = String::new(heap.room());
    write_lines(heap, guardian, names, listing, &mut text, writer)?;
    flush(&mut text, writer)
}

// Writes the listing except for what is then left in the text.
fn write_lines<W: Write + Drop>(
    heap: Heap,
    guardian: &Guardian,
    names: &[Name],
    listing: Listing,
    text: &mut String<Room>,
    writer: &mut FailStop<W>,
) -> Result<(), ListError>
    requires { has_failed writer.old ≡ false }
    ensures ok { OnOk result (Added (W.contents (inner_of writer.old)) (string_bytes text.old)
        (W.contents (inner_of writer.new)) (string_bytes text.new)
        (listing_of listing names.now guardian.now)) }
    ensures fine { OnOk result (has_failed writer.new ≡ false) }
    ensures cut { OnErr result (Cut (W.contents (inner_of writer.old)) (string_bytes text.old)
        (W.contents (inner_of writer.new)) (listing_of listing names.now guardian.now)) }
    ensures failed { IfErr result (λ e. (e ≡ Write) ↔ (has_failed writer.new ≡ true)) }
{
    match listing {
        Listing::Bases | Listing::Stacks => {
            write_objects(heap, guardian, names, listing, None, text, writer)
        }
        Listing::Journal => {
            let journal = guardian.journal().journal();
            write_opening(journal, text, writer)?;
            write_entries(journal, text, writer)
        }
        Listing::Audit => {
            write_audits(heap, guardian, names, text, writer)?;
            append_length(guardian, text)?;
            Ok(())
        }
    }
}
