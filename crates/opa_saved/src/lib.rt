//! Cases as they are saved in files, and as such files are loaded: for the commands `save` and `load`.
#![tactic(auto)]

mod answer_refusals;
mod answers;
mod build;
mod declared;
mod digest;
mod entries;
mod fault;
mod laws;
mod list_refusals;
mod lists;
mod living;
mod loaded;
mod loading;
mod maps;
mod order;
mod parts;
mod points;
mod printed;
mod put_answers;
mod read_entries;
mod read_file;
mod read_lines;
mod refusals;
mod saved;
mod texts;
mod values;

pub use fault::LoadFault;
pub use laws::{any_order, first_is_raised, one_outcome, saved_loads};
pub use loaded::{Loaded, Origin};
pub use loading::load;
pub use saved::saved_text;
