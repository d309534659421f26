//! What is held of one claimant: answers, known lists, and the instances that they make live: for all that uses cases.
#![tactic(auto)]

mod answer_faults;
mod case;
mod change;
mod changed;
mod changes;
mod comparing;
mod contained;
mod copies;
mod counts;
mod declared;
mod dropping;
mod every;
mod going_names;
mod homes;
mod index;
mod instances;
mod laws;
mod list_faults;
mod listed;
mod lists_naming;
mod living;
mod moves;
mod names;
mod planning;
mod question;
mod refused;
mod relist;
mod relisted;
mod relisted_looks;
mod slots;
mod standing;
mod touched;
mod turn;
mod whole_walk;
mod writing;

pub use answer_faults::{answer_fault, has_kind, is_unknown_answer};
pub use case::Case;
pub use change::{ChangeCommand, Refusal};
pub use counts::Counted;
pub use instances::{instances_of, live_instances};
pub use laws::{
    empty_fits, forget_loses, forget_takes, live_by_lists, models_are_shapes, relisted_answers,
    set_replaces, step_fits, step_is_clean, step_is_whole, step_keeps_containers, withdraw_loses,
    withdraw_undoes,
};
pub use list_faults::list_fault;
pub use moves::Moves;
pub use opa_cells::InstanceId;
pub use question::Question;
pub use relisted::Relisted;
pub use slots::is_full;
pub use standing::Standing;
