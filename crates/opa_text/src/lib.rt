//! The texts of values, lines, points, names and questions, their readers, and screens: for what is read or printed.
#![tactic(auto)]

mod changes;
mod fault;
mod laws;
mod lines;
mod names;
mod pointed;
mod points;
mod questions;
mod reading;
pub mod screen;
mod values;
mod whole;

pub use changes::{first_day, first_value, line_of};
pub use fault::ReadFault;
pub use laws::{lines_read_back, names_read_back, one_reading};
pub use lines::line_text;
pub use names::{first_name, names_of, names_text};
pub use pointed::{Point, before_date, first_point, point_of};
pub use points::point_text;
pub use questions::question_text;
pub use screen::{screen_of, screen_text};
pub use values::{date_text, value_text};
pub use whole::{read_line, read_names};
