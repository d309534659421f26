//! Whether a report's text holds up its value: what it spells, what it lists, the verdict: for who has no case.
#![tactic(auto)]

pub mod listed;
pub mod spelling;
pub mod support;
pub mod verdict;

pub use listed::{
    Containers, Listed, Part, Run, Shade, Sheet, certain_shades, concluded_line, date_shades,
    dated_shades, decided_line, is_rooted, is_steady, item_shades, joined_line, known_shades,
    listed_line, not_shades, part_line, part_lines, place_by, quantified_shades, rolling_shades,
    seen_by_shades, shade_line, span_shades, strict_line, taken_line,
};
pub use spelling::{
    Origin, Printed, Reading, Spelled, Spot, one_first_fault, one_spelling, origin_text,
    read_report, spelled_has_none, texts_are_spelled,
};
pub use support::{
    first_fault, held_up_fixes, held_up_supports, is_listed, report_is_held_up,
    reports_are_held_up, rules_are_single,
};
pub use verdict::{Told, Verdict, one_verdict, reports_are_upheld, reports_get_yes, tell, verify};
