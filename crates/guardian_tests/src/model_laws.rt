//! The laws of every lawful history, at types of their own, and histories that were worked out by
//! hand.

use argus_model::locks::{exclusion, holders, lock_rules, views};
use argus_model::next_event::{abort, access, base_sees, begin, commit};
use argus_model::one_after_another::{
    base_is_serial, committed_work_runs_again, live_work_runs_again, work_is_complete,
    work_is_final,
};
use argus_model::second_forms::{content_forms, holder_forms, owner_forms};
use argus_model::tables::{checkpoint, effect_of_commit, table_of_effects};
use argus_model::trees::{
    ancestors, begins, begun, rows_say_what_happened, rows_tell_ancestors_and_children, siblings,
};
use argus_model::what_counts::{
    committed_topactions_stay, nothing_comes_back, owners, owners_are_live,
};
use argus_model::worked::{
    nested_under_aborted_creator, parallel_pair, rules_refuse, siblings_are_aborted,
    turns_are_taken,
};

/// Calls each law, and each history that was worked out by hand.
pub(crate) fn of_histories() {
    exclusion::<u8, u32, bool>();
    holders::<u8, u32, bool>();
    lock_rules::<u8, u32, bool>();
    views::<u8, u32, bool>();
    owners::<u8, u32, bool>();
    owners_are_live::<u8, u32, bool>();
    nothing_comes_back::<u8, u32, bool>();
    committed_topactions_stay::<u8, u32, bool>();
    base_is_serial::<u8, u32, bool>();
    committed_work_runs_again::<u8, u32, bool>();
    live_work_runs_again::<u8, u32, bool>();
    work_is_complete::<u8, u32, bool>();
    work_is_final::<u8, u32, bool>();
    table_of_effects::<u8, u32, bool>();
    effect_of_commit::<u8, u32, bool>();
    checkpoint::<u8, u32, bool>();
    ancestors::<u8, u32, bool>();
    begins::<u8>();
    begun::<u8>();
    rows_say_what_happened::<u8, u32, bool>();
    rows_tell_ancestors_and_children::<u8, u32, bool>();
    siblings::<u8, u32, bool>();
    begin::<u8, u32, bool>();
    base_sees::<u8, u32, bool>();
    access::<u8, u32, bool>();
    commit::<u8, u32, bool>();
    abort::<u8, u32, bool>();
    owner_forms::<u8, u32, bool>();
    holder_forms::<u8, u32, bool>();
    content_forms::<u8, u32, bool>();
    parallel_pair();
    nested_under_aborted_creator();
    siblings_are_aborted();
    turns_are_taken();
    rules_refuse();
}
