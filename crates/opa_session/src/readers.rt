// Which slots of a case read each line and each list, and which slots and questions another case makes new.

mod add;
mod asked;
mod asking;
mod beginning;
mod build;
mod difference;
mod fill;
mod fresh;
mod given;
mod index;
mod laws;
mod listing;
mod put;
mod readers;
mod renew;
mod renewal;
mod take;
mod told;
mod touched;

pub use beginning::{are_by_answers, begin, begin_answers};
pub(crate) use difference::has_others;
pub use fresh::fresh_slots;
pub use given::given_changes;
pub use index::Index;
pub use laws::same_are_readers;
pub use listing::begin_list;
pub use renewal::Renewal;
pub use told::lists_told;
