//! `fold`: a log begins again with what its guardian's objects hold.

use argus_guardian::{FailStop, Guardian, Listing, numbered_names, write_listing};
use argus_store::{End, KeepError, Store};
use argus_values::{Heap, OutOfMemory, Room};
use sqlite::Alter;

/// Folds the guardian's journal, and puts the opening in place of all lines of the log of this name,
/// which ends there.
pub(crate) fn fold<S: Alter>(
    heap: Heap,
    mut guardian: Guardian,
    store: &mut Store<S>,
    name: &str,
    end: End,
) -> Result<(), KeepError> {
    // While an action is live, say, the log just goes on.
    if guardian.checkpoint().is_err() {
        return Ok(());
    }
    let opening = opening_of(heap, &guardian)?;
    match store.fold(name, end, opening.as_str())? {
        Some(_) => Ok(()),
        None => Err(KeepError::OtherLog),
    }
}

// The opening's lines, without the last line feed: a folded journal has no others.
fn opening_of(heap: Heap, guardian: &Guardian) -> Result<String<Room>, OutOfMemory> {
    let names = numbered_names(heap, guardian)?;
    let mut writer = FailStop::new(Vec::new(heap.room()));
    // A write to a list fails only if there is no memory.
    match write_listing(
        heap,
        guardian,
        names.as_slice(),
        Listing::Journal,
        &mut writer,
    ) {
        Ok(()) => {}
        Err(_) => return Err(OutOfMemory),
    }
    let Some(mut text) = writer.into_inner() else {
        return Err(OutOfMemory);
    };
    text.pop();
    match String::from_utf8(text) {
        Ok(text) => Ok(text),
        Err(_) => Err(OutOfMemory),
    }
}
