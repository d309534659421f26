// Screens: which one a question lies on, and what one shows.

mod numbers;
mod table;
mod texts;

pub use numbers::screen_of;
pub use texts::screen_text;
