//! A case over a rulebase with the line of each conclusion, changed by what each change reaches: for all programs.
#![tactic(auto)]

pub mod infer;
pub mod readers;
pub mod settlement;
pub mod store;
pub mod telling;

pub use infer::Session;
pub use readers::{
    Index, Renewal, are_by_answers, begin, begin_answers, begin_list, fresh_slots, given_changes,
    lists_told, same_are_readers,
};
pub use settlement::{
    Reading, Task, Tasks, mark, mark_live, mark_one, mark_set, same_are_current, settle,
    settle_answer, start_answer, start_change,
};
pub use store::{
    Answered, Next, Owners, Relisted, Slot, Store, dropped_are_current, has_slot, lines_differ,
    owners_of,
};
pub use telling::{
    Lined, answer_differs, changes, changes_among, changes_over, dirty_have_changes, dirty_slots,
    is_fresh, list_differs, live_slots, same_names, slot_count, slots, told_once,
};
