//! An object's lines as the guardian keeps it: its base, its readers and its versions.

ghost use Rattle.std.specs.Prelude.{◌≡◌, ◌<◌, ◌++◌, OnOk, map, string_bytes};
ghost use Rattle.argus_core.specs.Objects.{version_pair};
ghost use Rattle.argus_journal.specs.Objects.{declared};
ghost use Rattle.argus_journal.specs.JournalFacts.{base_of, readers_of, versions_of};
ghost use Rattle.argus_listings.specs.Listing.{object_line, readers_line, stacks_text};
ghost use Rattle.argus_listings.specs.Listing.{version_lines};

use crate::appending::{append_object_line, append_readers_line, append_version_line};
use argus_contents::{Name, ObjId};
use argus_core::Guardian;
use argus_memory::{OutOfMemory, Room};
use argus_objects::Version;

/// The lines of a declared object: its base, its readers and its versions.
pub(crate) fn append_stack(
    guardian: &Guardian,
    o: ObjId,
    name: &Name,
    text: &mut String<Room>,
) -> Result<(), OutOfMemory>
    requires { o.0 < declared guardian.now.opening guardian.now.entries }
    ensures { OnOk result (string_bytes text.new
        ≡ string_bytes text.old ++ stacks_text guardian.now o.0 name.now) }
{
    append_base(guardian, o, name, " base ", text)?;
    append_readers(guardian, o, name, text)?;
    append_versions(guardian, o, name, text)
}

/// A line with the base of a declared object.
pub(crate) fn append_base(
    guardian: &Guardian,
    o: ObjId,
    name: &Name,
    words: &str,
    text: &mut String<Room>,
) -> Result<(), OutOfMemory>
    requires { o.0 < declared guardian.now.opening guardian.now.entries }
    ensures { OnOk result (string_bytes text.new ≡ string_bytes text.old
        ++ object_line name.now words.now
        (base_of guardian.now.opening guardian.now.entries o.0)) }
{
    match guardian.base(o) {
        Some(content) => append_object_line(name, words, content, text),
        None => Ok(()),
    }
}

fn append_readers(
    guardian: &Guardian,
    o: ObjId,
    name: &Name,
    text: &mut String<Room>,
) -> Result<(), OutOfMemory>
    requires { o.0 < declared guardian.now.opening guardian.now.entries }
    ensures { OnOk result (string_bytes text.new ≡ string_bytes text.old
        ++ readers_line name.now (readers_of guardian.now.opening guardian.now.entries o.0)) }
{
    match guardian.holders(o) {
        Some(readers) => append_readers_line(name, readers, text),
        None => Ok(()),
    }
}

fn append_versions(
    guardian: &Guardian,
    o: ObjId,
    name: &Name,
    text: &mut String<Room>,
) -> Result<(), OutOfMemory>
    requires { o.0 < declared guardian.now.opening guardian.now.entries }
    ensures { OnOk result (string_bytes text.new ≡ string_bytes text.old
        ++ version_lines name.now (versions_of guardian.now.opening guardian.now.entries o.0)) }
{
    match guardian.versions(o) {
        Some(versions) => append_each_version(name, versions, text),
        None => Ok(()),
    }
}

fn append_each_version(
    name: &Name,
    versions: &[Version],
    text: &mut String<Room>,
) -> Result<(), OutOfMemory>
    ensures { OnOk result (string_bytes text.new ≡ string_bytes text.old
        ++ version_lines name.now (map version_pair versions.now)) }
{
    for version in versions {
        append_version_line(name, version.holder, &version.content, text)?;
    }
    Ok(())
}
