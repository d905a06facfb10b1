//! The laws of lines that are read back. The functions do nothing: their contracts are the laws.

ghost use Rattle.argus_reading.specs.Laws.{EntriesAreReadBack, TextsHaveOneError};

/// The line of an entry has no fault, and is the line of no other entry, if the entry's numbers are
/// in range, its values have depth at most 16 and its shape can be made. So
/// [`read_entry`](crate::read_entry) reads back what `write_entry` of `argus_entries` wrote, given
/// memory.
pub fn entries_are_read_back()
    ensures { EntriesAreReadBack }
{}

/// The text alone decides why it isn't read, and where: of the errors `Fault` and `Shape`, at most
/// one, with one position, is [`read_entry`](crate::read_entry)'s for it.
pub fn texts_have_one_error()
    ensures { TextsHaveOneError }
{}
