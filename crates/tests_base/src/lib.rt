//! Tests alone: the calls of the crates of the outside, of numbers, dates, lines, words and layouts, by tables of rows.
#![tactic(auto)]

#[cfg(test)]
mod dates;
#[cfg(test)]
mod layouts;
#[cfg(test)]
mod lines;
#[cfg(test)]
mod numbers;
#[cfg(test)]
mod outside;
#[cfg(test)]
mod words;
