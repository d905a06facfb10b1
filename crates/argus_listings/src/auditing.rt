//! An object's lines in the audit: what the journal's writes leave when they are run again.

ghost use Rattle.std.specs.Prelude.{◌≡◌, ◌<◌, ◌++◌, OnOk, map, string_bytes};
ghost use Rattle.argus_audit.specs.Audit.{IsAudit};
ghost use Rattle.argus_journal.specs.{Journal.{entries_of, opening_of}, Legal.Legal};
ghost use Rattle.argus_journal.specs.{Objects.declared, JournalFacts.{base_of, visible_to}};
ghost use Rattle.argus_listings.specs.Listing.{audit_text, base_line, length_line, version_lines};

use crate::appending::{append, append_number, append_object_line, append_version_line};
use argus_audit::Audit;
use argus_contents::{Name, ObjId};
use argus_core::Guardian;
use argus_journal::Journal;
use argus_memory::{Heap, OutOfMemory, Room};
use argus_objects::Version;

/// The lines of a declared object: its base, and the version of each write holder. The contents are
/// those that the journal's writes leave.
pub(crate) fn append_audit(
    heap: Heap,
    guardian: &Guardian,
    audit: &Audit,
    o: ObjId,
    name: &Name,
    text: &mut String<Room>,
) -> Result<(), OutOfMemory>
    requires there { o.0 < declared guardian.now.opening guardian.now.entries }
    requires audit { IsAudit audit.now guardian.now.opening guardian.now.entries }
    ensures { OnOk result (string_bytes text.new
        ≡ string_bytes text.old ++ audit_text guardian.now o.0 name.now) }
{
    let journal = guardian.journal().journal();
    append_base_again(heap, journal, audit, o, name, text)?;
    match guardian.versions(o) {
        Some(versions) => append_versions_again(heap, journal, audit, o, name, versions, text),
        None => Ok(()),
    }
}

fn append_base_again(
    heap: Heap,
    journal: &Journal,
    audit: &Audit,
    o: ObjId,
    name: &Name,
    text: &mut String<Room>,
) -> Result<(), OutOfMemory>
    requires legal { Legal (opening_of journal.now) (entries_of journal.now) }
    requires audit { IsAudit audit.now (opening_of journal.now) (entries_of journal.now) }
    ensures { OnOk result (string_bytes text.new ≡ string_bytes text.old
        ++ base_line name.now (base_of (opening_of journal.now) (entries_of journal.now) o.0)) }
{
    let base = audit.base(heap, journal, o)?;
    append_object_line(name, " base ", &base, text)
}

// The version of each of these holders.
fn append_versions_again(
    heap: Heap,
    journal: &Journal,
    audit: &Audit,
    o: ObjId,
    name: &Name,
    versions: &[Version],
    text: &mut String<Room>,
) -> Result<(), OutOfMemory>
    requires legal { Legal (opening_of journal.now) (entries_of journal.now) }
    requires audit { IsAudit audit.now (opening_of journal.now) (entries_of journal.now) }
    ensures { OnOk result (string_bytes text.new ≡ string_bytes text.old
        ++ version_lines name.now (map (λ v. (
          v.holder.0,
          visible_to (opening_of journal.now) (entries_of journal.now) v.holder.0 o.0,
        ))
        versions.now)) }
{
    for version in versions {
        let content = audit.seen(heap, journal, version.holder, o)?;
        append_version_line(name, version.holder, &content, text)?;
    }
    Ok(())
}

/// The last line of an audit.
pub(crate) fn append_length(guardian: &Guardian, text: &mut String<Room>) -> Result<(), OutOfMemory>
    ensures { OnOk result (string_bytes text.new
        ≡ string_bytes text.old ++ length_line guardian.now) }
{
    append_number("entries ", guardian.journal().journal().len(), text)?;
    append("\n", text)
}
