//! The lines of objects, in the order of their numbers.

ghost use Rattle.std.specs.Prelude.{◌≡◌, ◌<◌, ◌^◌, ◌++◌, IfErr, IfOk, OnErr, OnOk, false, length};
ghost use Rattle.std.specs.Prelude.{string_bytes, true, ◌↔◌};
ghost use Rattle.argus_audit.specs.Audit.{IsAudit};
ghost use Rattle.argus_journal.specs.Objects.{declared};
ghost use Rattle.argus_listings.specs.{Auditing.HasAudit, Flushing.{Added, Cut}};
ghost use Rattle.argus_listings.specs.Listing.{names_within, object_text, objects_text};
ghost use Rattle.argus_listings.specs.declared.list_error.ListError.TheVariants.{Write};
ghost use Rattle.argus_listings.specs.declared.listing.Listing.TheVariants as kinds;
ghost use Rattle.argus_streams.specs.FailStop.{has_failed, inner_of};

use crate::auditing::append_audit;
use crate::flushing::flush_long;
use crate::list_error::ListError;
use crate::listing::Listing;
use crate::stacking::{append_base, append_stack};
use argus_audit::Audit;
use argus_contents::{Name, ObjId};
use argus_core::Guardian;
use argus_memory::{Heap, OutOfMemory, Room};
use argus_streams::FailStop;
use std::io::Write;

/// The lines of each object, as far as there are both a name and a declared object.
pub(crate) fn write_objects<W: Write + Drop>(
    heap: Heap,
    guardian: &Guardian,
    names: &[Name],
    listing: Listing,
    audit: Option<&Audit>,
    text: &mut String<Room>,
    writer: &mut FailStop<W>,
) -> Result<(), ListError>
    requires fine { has_failed writer.old ≡ false }
    requires audit { HasAudit listing audit guardian.now }
    ensures ok { OnOk result (Added (W.contents (inner_of writer.old)) (string_bytes text.old)
        (W.contents (inner_of writer.new)) (string_bytes text.new)
        (objects_text listing names.now guardian.now)) }
    ensures fine { OnOk result (has_failed writer.new ≡ false) }
    ensures cut { OnErr result (Cut (W.contents (inner_of writer.old)) (string_bytes text.old)
        (W.contents (inner_of writer.new)) (objects_text listing names.now guardian.now)) }
    ensures failed { IfErr result (λ e. (e ≡ Write) ↔ (has_failed writer.new ≡ true)) }
{
    let mut o = 0;
    for name in declared_names(guardian, names) {
        append_object(heap, guardian, ObjId(o), name, listing, audit, text)?;
        flush_long(text, writer)?;
        o += 1;
    }
    Ok(())
}

/// The lines of each object in an audit, which is made of the journal first.
pub(crate) fn write_audits<W: Write + Drop>(
    heap: Heap,
    guardian: &Guardian,
    names: &[Name],
    text: &mut String<Room>,
    writer: &mut FailStop<W>,
) -> Result<(), ListError>
    requires { has_failed writer.old ≡ false }
    ensures ok { OnOk result (Added (W.contents (inner_of writer.old)) (string_bytes text.old)
        (W.contents (inner_of writer.new)) (string_bytes text.new)
        (objects_text kinds.Audit names.now guardian.now)) }
    ensures fine { OnOk result (has_failed writer.new ≡ false) }
    ensures cut { OnErr result (Cut (W.contents (inner_of writer.old)) (string_bytes text.old)
        (W.contents (inner_of writer.new)) (objects_text kinds.Audit names.now guardian.now)) }
    ensures failed { IfErr result (λ e. (e ≡ Write) ↔ (has_failed writer.new ≡ true)) }
{
    let audit = audit_of(heap, guardian)?;
    let listing = Listing::Audit;
    write_objects(heap, guardian, names, listing, Some(&audit), text, writer)
}

// What is found once of the guardian's journal.
fn audit_of(heap: Heap, guardian: &Guardian) -> Result<Audit, OutOfMemory>
    ensures { IfOk result (λ audit. IsAudit audit guardian.now.opening guardian.now.entries) }
{
    Audit::of(heap, guardian.journal().journal(), guardian.objects())
}

// The names of declared objects.
fn declared_names<'a>(guardian: &Guardian, names: &'a [Name]) -> &'a [Name]
    ensures within { result.now ≡ names_within guardian.now names.now }
    ensures few { length result.now < 2 ^ 32 }
{
    let count = (guardian.objects() as usize).min(names.len());
    &names[..count]
}

// The lines of one object.
fn append_object(
    heap: Heap,
    guardian: &Guardian,
    o: ObjId,
    name: &Name,
    listing: Listing,
    audit: Option<&Audit>,
    text: &mut String<Room>,
) -> Result<(), OutOfMemory>
    requires there { o.0 < declared guardian.now.opening guardian.now.entries }
    requires audit { HasAudit listing audit guardian.now }
    ensures { OnOk result (string_bytes text.new
        ≡ string_bytes text.old ++ object_text listing guardian.now o.0 name.now) }
{
    match listing {
        Listing::Bases => append_base(guardian, o, name, " ", text),
        Listing::Stacks => append_stack(guardian, o, name, text),
        Listing::Journal => Ok(()),
        Listing::Audit => match audit {
            Some(audit) => append_audit(heap, guardian, audit, o, name, text),
            None => Ok(()),
        },
    }
}
