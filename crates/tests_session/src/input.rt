// Sessions that are told lines of input, and what they hold as it is printed: for test crates alone.

pub mod counted;
pub mod points;
pub mod printed;
pub mod told;
