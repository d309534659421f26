//! Many cases from a table, each record with what the goals are where its cells alone are known: for the desk.
#![tactic(auto)]

mod aim;
mod calling;
mod carrying;
mod cells;
mod columns;
mod csv_rows;
mod faults;
mod head;
mod heading;
mod kept;
mod laws;
mod lines;
mod making;
mod records;
mod rows;
mod said;
mod same;
mod serving;

pub use calling::batch;
pub use head::{Head, HeadFault, Sort};
pub use laws::parts_are_the_whole;
