// What a change of the case reaches and what is told of it, computed from two held states.

mod among;
mod attrs;
mod by_places;
mod instances;
mod laws;
mod lined;
mod lines;
mod lists;
mod marks;
mod name_marks;
mod nested;
mod one_list;
mod order;
mod reach;
mod sought;
mod tell;
mod told_attrs;
mod walk;
mod wanted;

pub use among::{changes_among, changes_over};
pub use laws::{dirty_have_changes, told_once};
pub use lined::Lined;
pub use lines::answer_differs;
pub use lists::{list_differs, same_names};
pub(crate) use one_list::LONG;
pub use reach::{dirty_slots, is_fresh};
pub use tell::changes;
pub use walk::{live_slots, slot_count, slots};
