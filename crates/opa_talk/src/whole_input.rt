// What programs share that take a rulebase, read an input and write an output: a whole input is read, a text is told, and what is
// told of the outside before and after.

mod reading;
mod stop;
mod telling;

pub use reading::read_all;
pub use stop::Stop;
pub use telling::tell;
