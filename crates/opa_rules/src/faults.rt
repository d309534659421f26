// Every error of a rulebase that can be found: the first one as in loading, and then, over and over, the first one of what is
// left when the block with the last one is left out.

mod blocks;
mod brackets;
mod finding;
mod joints;
mod known;
mod listing;
mod marks;
mod nearest;
mod printed;
mod signs;
mod slip;
mod slips;
mod telling;
mod told;
mod unknown;
mod unread;
mod words;

pub(crate) use nearest::difference;
pub(crate) use telling::faults;
