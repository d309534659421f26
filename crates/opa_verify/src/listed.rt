// Listed evaluation: the value of a tree over what a report lists, or that it is missing; its laws, and how it is found
// over whole lines.

mod alike;
mod holding;
mod joins;
mod kept;
mod laws;
mod members;
mod ones;
mod parts;
mod places;
mod runs;
mod shade;
mod sheet;
mod steady;
mod walk;
mod windows;

pub use holding::concluded_line;
pub use joins::{decided_line, joined_line, strict_line, taken_line};
pub use laws::seen_by_shades;
pub use members::{item_shades, quantified_shades};
pub use ones::{certain_shades, dated_shades, known_shades, not_shades};
pub use parts::{Part, part_line, part_lines};
pub use places::{Containers, is_rooted, place_by};
pub use runs::{Run, listed_line};
pub use shade::Shade;
pub use sheet::{Listed, Sheet};
pub use steady::is_steady;
pub use walk::shade_line;
pub use windows::{date_shades, rolling_shades, span_shades};
