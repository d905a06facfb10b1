//! Each law can be called: it does nothing. Those of a call that was made are called by rows.

use crate::{journal_laws, model_laws};
use argus_commands::{checked_runs_are_runs, levels_tell_unmatched_lines, lines_spell_one_script};
use argus_entries::laws::{entry_lines_are_unambiguous, suiting_changes_keep_the_depth};
use argus_guardian::reading_laws::{entries_are_read_back, texts_have_one_error};
use argus_guardian::resume_laws::{
    listings_are_resumed, listings_are_taken_back, listings_have_no_fault,
    longest_listing_is_resumed, no_longer_front_is_a_listing, openings_are_readable,
};
use argus_objects::laws::{ancestors_stay, lawful_stays, members_after_inherit};
use argus_values::{
    content_texts_are_unambiguous, contents_are_read_back, fitting_contents_are_read_back,
    shape_texts_are_unambiguous, shapes_are_read_back, value_texts_are_unambiguous,
    values_are_read_back,
};

/// Calls each law.
pub(crate) fn call_laws() {
    values_are_read_back();
    contents_are_read_back();
    fitting_contents_are_read_back();
    shapes_are_read_back();
    value_texts_are_unambiguous();
    content_texts_are_unambiguous();
    shape_texts_are_unambiguous();
    ancestors_stay();
    lawful_stays();
    members_after_inherit();
    entry_lines_are_unambiguous();
    suiting_changes_keep_the_depth();
    entries_are_read_back();
    texts_have_one_error();
    no_longer_front_is_a_listing();
    openings_are_readable(&[]);
    listings_have_no_fault();
    listings_are_taken_back();
    listings_are_resumed();
    longest_listing_is_resumed();
    lines_spell_one_script();
    levels_tell_unmatched_lines();
    checked_runs_are_runs();
    journal_laws::of_legal_journals();
    journal_laws::of_worked_journals();
    model_laws::of_histories();
}
