//! The laws of lines. Each function does nothing: its contract is the law.

ghost use Rattle.argus_entries.specs.Laws.{EntryLinesAreUnambiguous, SuitingChangesKeepTheDepth};

/// Two lines that [`write_entry`](crate::write_entry) wrote are the same only if both the numbers
/// and the entries are the same.
pub fn entry_lines_are_unambiguous()
    ensures { EntryLinesAreUnambiguous }
{}

/// A change that suits a shape which can be made has a depth of at most 16, and so is no deeper
/// than what is read back from a line. That a shape can be made follows from its type
/// ([`limits_are_kept`](argus_contents::Shape::limits_are_kept)).
pub fn suiting_changes_keep_the_depth()
    ensures { SuitingChangesKeepTheDepth }
{}
