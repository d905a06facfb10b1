//! The laws of journals, and journals that were worked out by hand.

use argus_journal::folding::{
    a_fold_goes_on, a_fold_is_an_opening, effects_go_on, what_makes_a_fold,
};
use argus_journal::laws::{
    base_is_serial, committed_work_is_complete, committed_work_runs_again, contents_fit, exclusion,
    history_is_lawful, live_work_runs_again, numbers_stay_within_limits, references_are_all,
    table_of_effects, what_fits,
};
use argus_journal::next_entry::{a_begin, a_commit, an_abort, an_access, nothing_happens};
use argus_journal::worked::{
    a_nested_topaction_outlives_its_creator, a_reference_waits_for_its_object,
    a_signal_keeps_its_lock, a_subaction_aborts, a_subaction_commits, all_others_wait,
    limits_are_kept, readers_are_inherited, refusals_come_in_order, tests_take_locks,
    turns_are_taken, what_suits_no_shape_is_refused,
};
use argus_journal::worked_openings::the_past_is_folded;
use argus_journal::worked_orders::{
    a_reader_leaves_an_empty_effect, a_run_goes_up_to_a_live_action, a_signalled_question_reads,
    a_test_copies_what_an_ancestor_wrote, ill_typed_before_conflict, over_before_suspended,
    suspended_before_no_object, tests_are_refused_in_order, the_last_action_begins,
    the_last_object_is_declared,
};
use argus_journal::worked_siblings::{
    a_nested_topaction_ends_others, both_kinds_are_ended, no_other_is_left, others_are_ended,
};

/// Calls the laws of legal journals, of folds and of one more entry.
pub(crate) fn of_legal_journals() {
    history_is_lawful();
    exclusion();
    base_is_serial();
    committed_work_runs_again();
    committed_work_is_complete();
    live_work_runs_again();
    contents_fit();
    what_fits();
    references_are_all();
    table_of_effects();
    numbers_stay_within_limits();
    a_fold_is_an_opening();
    a_fold_goes_on();
    effects_go_on();
    what_makes_a_fold();
    nothing_happens();
    a_begin();
    an_access();
    a_commit();
    an_abort();
}

/// Calls those of journals that were worked out by hand, of which refusal comes first, and of the
/// ends of limits.
pub(crate) fn of_worked_journals() {
    a_subaction_aborts();
    a_subaction_commits();
    readers_are_inherited();
    a_nested_topaction_outlives_its_creator();
    refusals_come_in_order();
    a_signal_keeps_its_lock();
    what_suits_no_shape_is_refused();
    a_reference_waits_for_its_object();
    tests_take_locks();
    turns_are_taken();
    all_others_wait();
    limits_are_kept();
    the_past_is_folded();
    others_are_ended();
    both_kinds_are_ended();
    no_other_is_left();
    a_nested_topaction_ends_others();
    ill_typed_before_conflict();
    over_before_suspended();
    suspended_before_no_object();
    tests_are_refused_in_order();
    a_signalled_question_reads();
    a_test_copies_what_an_ancestor_wrote();
    a_reader_leaves_an_empty_effect();
    a_run_goes_up_to_a_live_action();
    the_last_action_begins();
    the_last_object_is_declared();
}
