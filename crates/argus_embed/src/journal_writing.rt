//! An entry's line, and the listings, as texts.

ghost use Rattle.std.specs.{Option.option_map, Prelude.{IfOk, None, OnErr, ◌≡◌, ◌≢◌}};
ghost use Rattle.argus_embed.specs.Questions.{object_name, object_names, text_to};
ghost use Rattle.argus_embed.specs.declared.question.Question.TheVariants as question;
ghost use Rattle.argus_journal.specs.Objects.{declared};
ghost use Rattle.argus_guardian.specs.Listing.{listing_of};

use crate::object_writing::append_number;
use argus_guardian::{FailStop, Guardian, Listing, write_listing};
use argus_journal::write_entry;
use argus_values::{Heap, Name, OutOfMemory, Room};

/// The line of the entry with this number; `None` if the journal doesn't have it.
pub(crate) fn entry_text(
    heap: Heap,
    guardian: &Guardian,
    at: u64,
) -> Result<Option<Vec<u8, Room>>, OutOfMemory>
    ensures text { IfOk result (λ told. option_map (λ t. t.items) told
        ≡ text_to guardian.now (question.Entry at)) }
    ensures there { OnErr result (text_to guardian.now (question.Entry at) ≢ None) }
{
    let Some(entry) = guardian.journal().journal().get(at) else {
        return Ok(None);
    };
    let mut text = String::new(heap.room());
    write_entry(at, entry, &mut text)?;
    Ok(Some(text.into_bytes()))
}

/// The listing, in which objects have their numbers as names.
pub(crate) fn listing_text(
    heap: Heap,
    guardian: &Guardian,
    listing: Listing,
) -> Result<Vec<u8, Room>, OutOfMemory>
    ensures { IfOk result (λ text. text.items ≡ listing_of listing
        (object_names (declared guardian.now.opening guardian.now.entries)) guardian.now) }
{
    let names = object_names(heap, guardian.objects())?;
    let mut writer = FailStop::new(Vec::new(heap.room()));
    // A write to a list fails only if there is no memory.
    match write_listing(heap, guardian, names.as_slice(), listing, &mut writer) {
        Ok(()) => {}
        Err(_) => return Err(OutOfMemory),
    }
    match writer.into_inner() {
        Some(text) => Ok(text),
        None => Err(OutOfMemory),
    }
}

/// The names of this many objects.
fn object_names(heap: Heap, count: u32) -> Result<Vec<Name, Room>, OutOfMemory>
    ensures { IfOk result (λ names. names.items ≡ object_names count) }
{
    let mut names = Vec::new(heap.room());
    for o in 0..count {
        let name = object_name(heap, o)?;
        names.push(name)?;
    }
    Ok(names)
}

/// The name of an object: a letter and its number. It has a name's form, so that making it fails
/// for lack of memory only.
fn object_name(heap: Heap, o: u32) -> Result<Name, OutOfMemory>
    ensures { IfOk result (λ name. name ≡ object_name o) }
{
    let mut text = String::new(heap.room());
    append_number("o", o, &mut text)?;
    match Name::new(heap, text.as_str()) {
        Ok(name) => Ok(name),
        Err(_) => Err(OutOfMemory),
    }
}
