// A finite map from names.

mod map;

pub use map::Named;
