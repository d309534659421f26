//! A caseload, the lines of many cases in one input, kept by their names, with suppositions: for the desk.
#![tactic(auto)]

mod answering;
mod calling;
mod carrying;
mod caseload;
mod changes;
mod kept;
pub mod name_map;
mod naming;
mod orders;
mod replying;
mod serving;
mod supposing;
mod texts;
mod turning;

pub use calling::serve_cases;
pub use caseload::Caseload;
pub use kept::{Current, KeptCase, OpenCase};
pub use name_map::Named;
pub use orders::{Asked, Order};
