// What is told of a case: goals, questions, screens, reports and counts.

mod asking;
mod goal_lines;
mod laws;
mod prompting;
mod reporting;
mod shown;
mod stats;

pub use asking::{next_told, screen_told};
pub use goal_lines::goals_told;
pub use laws::one_report_told;
pub use prompting::{Prompt, prompt_asking, prompt_told};
pub use reporting::report_told;
pub use shown::{names_told, value_told};
pub use stats::stats_told;
