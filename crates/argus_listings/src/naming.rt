//! `numbered_names`: names for objects that have none.

ghost use Rattle.std.specs.Prelude.{IfOk, ◌≡◌};
ghost use Rattle.argus_journal.specs.Objects.{declared};
ghost use Rattle.argus_listings.specs.Listing.{numbered_name, numbered_names};

use crate::appending::append_number;
use argus_contents::Name;
use argus_core::Guardian;
use argus_memory::{Heap, OutOfMemory, Room};

/// Names for all objects of the guardian by their numbers: `o0`, `o1` and so on. They are listed
/// under these if nobody has named them.
///
/// `OutOfMemory`: there was no memory for the names.
///
/// ```text
/// let names = numbered_names(heap, &guardian)?;
/// write_listing(heap, &guardian, names.as_slice(), Listing::Bases, &mut writer)?;   // o0 {7}
/// ```
pub fn numbered_names(heap: Heap, guardian: &Guardian) -> Result<Vec<Name, Room>, OutOfMemory>
    ensures { IfOk result (λ names. names.items
        ≡ numbered_names (declared guardian.now.opening guardian.now.entries)) }
{
    let mut names = Vec::new(heap.room());
    for o in 0..guardian.objects() {
        names.push(numbered_name(heap, o)?)?;
    }
    Ok(names)
}

fn numbered_name(heap: Heap, o: u32) -> Result<Name, OutOfMemory>
    ensures { IfOk result (λ name. name ≡ numbered_name o) }
{
    let mut text = String::new(heap.room());
    append_number("o", u64::from(o), &mut text)?;
    match Name::new(heap, &text) {
        Ok(name) => Ok(name),
        // The text has the form of a name, so only memory can be lacking.
        Err(_) => Err(OutOfMemory),
    }
}
