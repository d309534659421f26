// Tables: the records of a file of comma-separated values, and the rules that they spell.

mod cells;
mod columns;
mod conditions;
mod copies;
mod heads;
mod laws;
mod records;
mod rows;
mod taking;
mod values;
mod whole;
mod words;

pub use cells::{Case, Cased, Found, Heading, Heads, Last, Table, Test};
pub use laws::one_table;
pub use taking::{read_table, take_table};
pub use whole::{TableFile, read_all_rules, take_tables};
pub use words::Words;
