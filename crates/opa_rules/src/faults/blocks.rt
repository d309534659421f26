// The block in which an error is, whether others can be read without it, and what is left.
ghost use Rattle.std.specs.Prelude.{◌≡◌, filter, find};
ghost use Rattle.std.specs.List.{list_any};
ghost use Rattle.std.specs.Option.{option_copied};
ghost use Rattle.opa_rules.specs.Faults.Blocks.{declares as declares_of, has_line as has_line_of, has_number, is_declaration as is_declaration_of, line_at as line_at_of, reads_phrases as reads_phrases_of, without as without_block};

use opa_io::List;
use opa_words::{Block, BlockLine};

/// Whether a block has a line of a file.
fn has_line(block: &Block, file: u32, line: u32) -> bool
    ensures { result ≡ has_line_of file line block.now }
{
    block.file == file && has_number_in(block.lines.as_slice(), line)
}

fn has_number_in(lines: &[BlockLine], line: u32) -> bool
    ensures { result ≡ list_any (has_number line) lines.now }
{
    lines.iter().any(|laid| laid.line == line)
}

pub(crate) fn line_in(lines: &[BlockLine], line: u32) -> Option<&BlockLine>
    ensures { option_copied result ≡ find (has_number line) lines.now }
{
    lines.iter().find(|laid| laid.line == line)
}

/// The block that has a line of a file.
pub(crate) fn block_with(blocks: &[Block], file: u32, line: u32) -> Option<&Block>
    ensures { option_copied result ≡ find (has_line_of file line) blocks.now }
{
    blocks.iter().find(|block| has_line(block, file, line))
}

/// A line of a file, if it is laid out in one of the blocks.
pub(crate) fn line_at(blocks: &[Block], file: u32, line: u32) -> Option<&BlockLine>
    ensures { option_copied result ≡ line_at_of file line blocks.now }
{
    match block_with(blocks, file, line) {
        None => None,
        Some(block) => line_in(block.lines.as_slice(), line),
    }
}

/// Whether a block with this first line says what other blocks speak of.
fn is_declaration(text: &str) -> bool
    ensures { result ≡ is_declaration_of text.now }
{
    match text {
        "global" => true,
        _ => {
            let bytes = text.as_bytes();
            bytes.starts_with(b"entity ")
                || bytes.starts_with(b"verb ")
                || bytes.starts_with(b"members ")
                || bytes.starts_with(b"include ")
                || bytes.starts_with(b"table ")
        }
    }
}

/// Whether a block says what other blocks speak of.
pub(crate) fn declares(block: &Block) -> bool
    ensures { result ≡ declares_of block.now }
{
    match block.lines.as_slice() {
        [] => false,
        [first, ..] => is_declaration(first.text.as_str()),
    }
}

/// Whether phrases are read in a line of a block.
pub(crate) fn reads_phrases(lines: &[BlockLine], line: u32) -> bool
    ensures { result ≡ reads_phrases_of line lines.now }
{
    match lines {
        [] => false,
        [first, ..] => {
            let text = first.text.as_str();
            !is_declaration(text)
                || (text.as_bytes().starts_with(b"members ") && first.line != line)
        }
    }
}

/// The blocks that say what other blocks speak of.
pub(crate) fn declaring(blocks: List<Block>) -> List<Block>
    ensures { result ≡ filter declares_of blocks }
{
    let mut left = blocks.into_vec();
    left.retain(|block| declares(block));
    List::from_vec(left)
}

/// The blocks without those that have a line of a file.
pub(crate) fn without(blocks: List<Block>, file: u32, line: u32) -> List<Block>
    ensures { result ≡ without_block file line blocks }
{
    let mut left = blocks.into_vec();
    left.retain(|block| !has_line(block, file, line));
    List::from_vec(left)
}
