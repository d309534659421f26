// Kept and staged lines of conclusions.

mod differ;
mod dropping;
mod entry;
mod gone;
mod laws;
mod next;
mod owners;
mod places;
mod relisted;
mod store;

pub use differ::lines_differ;
pub use dropping::has_slot;
pub use laws::dropped_are_current;
pub use next::{Answered, Next};
pub use opa_case::Relisted;
pub use opa_mean::Slot;
pub use owners::{Owners, owners_of};
pub use store::Store;
