//! What a rulebase means, what a change reaches, the kinds of values and states of goals: for all that finds values.
#![tactic(auto)]

mod alike;
mod calendar_day;
mod declared;
mod determine;
mod evaluate;
mod folds;
mod gathering;
pub mod goals;
mod held;
pub mod kinds;
mod laws;
mod look;
mod operations;
mod places;
mod plain;
mod quantifiers;
mod questions;
pub mod reached;
mod read;
mod same_trees;
mod slot_laws;
mod slots;
mod spans;
mod windows;

pub use declared::{is_every, is_money, owner_of, source_of, target_of};
pub use determine::value_on;
pub use evaluate::within;
pub use folds::number_of;
pub use goals::{
    Frees, GoalState, are_all_known, asked_is_declared, free_is_found, goal_state,
    next_is_declared, open_goal, states_are_exact,
};
pub use held::{Held, HeldLook, tree_value};
pub use kinds::{
    conditions_are_truths, for_stands_to_one, members_count, memberships_count, values_have_kinds,
};
pub use laws::{
    asked, clean_stays, determination, finished, monotone, of_the_case_alone, reads_fix, relevant,
    supported, uses_fix,
};
pub use look::Look;
pub use operations::{op_of_one, op_of_two};
pub use places::{place_in, place_of};
pub use plain::{Derive, Plain};
pub use questions::{alone, gathered_over, reads, reads_over};
pub use reached::{
    Readers, Slot, answers_differ, dirty_by_new_reads, dirty_by_old_reads, fresh_or_reads,
    held_can_tell, laid_are_current, laid_stay_current, lists_begin, new_can_tell, new_is_dirty,
    nothing_is_fresh, readers_stay, readers_then, reads_are_lower, reads_stay,
    relisted_is_by_lists, settled_stays,
};
pub use same_trees::same_tree;
pub use slot_laws::{
    changes_are, cone_lies, held_is_fresh, instances_once, line_is_one, nothing_changes,
    nothing_is_dirty, owned_are_members, sameness_is_exact, slots_are_live, slots_counted,
    slots_in_order, slots_once, uses_lie,
};
pub use slots::{has_list_place, has_place, is_slot};
