// A rulebase as one JSON document: what it declares, what is asked, and what each conclusion mentions.

mod attributes;
mod bounds;
mod describing;
mod laws;
mod names;
mod objects;
mod origins;
mod parts;
mod printed;
pub(crate) mod ranges;
mod relations;
mod sentences;
mod things;
mod whole;

pub use describing::description;
pub use laws::one_description;
pub(crate) use origins::file_name;
pub(crate) use parts::{list_json, text_json};
pub(crate) use printed::text_of;
