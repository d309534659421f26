// Rule files of the tests, and rulebases that are loaded from their texts: for test crates alone.

mod loaded;
pub mod texts;

pub use loaded::{load, load_text};
