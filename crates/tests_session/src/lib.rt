//! Tests alone, by tables of rows: loading, commands, meaning and sessions, and the rule files that these take.
#![tactic(auto)]

#[cfg(test)]
mod generated;
#[cfg(test)]
pub mod infer;
#[cfg(test)]
pub mod input;
#[cfg(test)]
pub mod language;
#[cfg(test)]
mod lines;
#[cfg(test)]
pub mod meaning;
#[cfg(test)]
pub mod samples;
