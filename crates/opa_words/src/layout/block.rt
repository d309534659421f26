// What a text is laid out into.
use opa_io::{List, Txt};

/// A line that is neither blank nor a comment. Its number is counted from 1 over all lines, and its text begins after
/// its indentation.
#[derive(Debug, Drop)]
pub struct BlockLine {
    pub level: u32,
    pub line: u32,
    pub text: Txt,
}

/// A line of level 0 with the deeper lines after it.
#[derive(Debug, Drop)]
pub struct Block {
    pub file: u32,
    pub lines: List<BlockLine>,
}
