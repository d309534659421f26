// Lines are laid out in blocks.
ghost use Rattle.std.specs.Prelude.{ℕ, ◌≡◌, ◌<◌, ◌≤◌, ◌^◌, ◌∷◌, ◌++◌, [], length, IfOk, IfErr, IfSome, OnOk, vec_len, Option, ◌⊎◌};
ghost use Rattle.std.specs.List.{All};
ghost use Rattle.opa_words.specs.Layout.Lines.{rows, Row};
ghost use Rattle.opa_words.specs.Layout.Indents.{level, is_passed};
ghost use Rattle.opa_words.specs.Layout.Faults.{fault_of, next_most, layout_faults, IsCause, IsOnly};
ghost use Rattle.opa_words.specs.Layout.Blocks.{AreBlocks, block_lines, lines_of, line_kept, kept};

use crate::layout::indent::{indent_of, is_void};
use crate::layout::lines::{Line, first_line, text_of, without_mark};
use crate::layout::{Block, BlockLine, LayoutFault};
use opa_io::limits::{MOST_LEVEL, MOST_LINE};
use opa_io::{List, Txt};
use std::alloc::Global;

/// A line at this place, if it isn't passed over, where it may have so many levels at most.
fn read_line(
    alloc: Global,
    most: u32,
    number: u32,
    size: usize,
    text: &str,
) -> Result<Option<BlockLine>, LayoutFault>
    requires { length text.now < 2 ^ 32 }
    ensures sound { IfOk result (λ _. fault_of most (record { number = number; size = size; text = text.now }) ≡ []) }
    ensures level { IfOk result (λ line. IfSome line (λ l. (l.level ≤ most) × (l.level ≤ 64))) }
    ensures line { IfOk result (λ line. line ≡ line_kept (record { number = number; size = size; text = text.now })) }
    ensures fault { IfErr result (IsOnly (fault_of most (record { number = number; size = size; text = text.now }))) }
{
    let indent = indent_of(text);
    let passed = is_void(indent.text);
    if size > MOST_LINE {
        return Err(LayoutFault::Limit(number));
    }
    if passed {
        return Ok(None);
    }
    if indent.level > MOST_LEVEL {
        return Err(LayoutFault::Limit(number));
    }
    if indent.level > most || indent.odd {
        return Err(LayoutFault::Indent(number));
    }
    Ok(Some(BlockLine {
        level: indent.level,
        line: number,
        text: Txt::from_str(alloc, indent.text)?,
    }))
}

/// Puts a line at the end of the blocks: one of level 0 begins a block.
fn put(
    alloc: Global,
    file: u32,
    blocks: &mut Vec<Block>,
    line: BlockLine,
) -> Result<(), LayoutFault>
    requires begun { (line.level ≡ 0) ⊎ (0 < vec_len blocks.old) }
    requires blocks { AreBlocks file blocks.old.items }
    ensures lines { OnOk result (lines_of blocks.new.items ≡ lines_of blocks.old.items ++ line ∷ []) }
    ensures blocks { OnOk result (AreBlocks file blocks.new.items) }
    ensures begun { OnOk result (0 < vec_len blocks.new) }
    ensures err { IfErr result (λ e. e ≡ LayoutFault.NoMemory) }
{
    if line.level == 0 {
        begin(alloc, file, blocks, line)
    } else {
        go_on(blocks, line)?;
        Ok(())
    }
}

/// Begins a block.
fn begin(
    alloc: Global,
    file: u32,
    blocks: &mut Vec<Block>,
    line: BlockLine,
) -> Result<(), LayoutFault>
    requires level { line.level ≡ 0 }
    requires blocks { AreBlocks file blocks.old.items }
    ensures lines { OnOk result (lines_of blocks.new.items ≡ lines_of blocks.old.items ++ line ∷ []) }
    ensures blocks { OnOk result (AreBlocks file blocks.new.items) }
    ensures begun { OnOk result (0 < vec_len blocks.new) }
    ensures err { IfErr result (λ e. e ≡ LayoutFault.NoMemory) }
{
    let mut lines = List::new(alloc);
    lines.push(line)?;
    blocks.push(Block { file, lines })?;
    Ok(())
}

/// Puts a line into the last block.
fn go_on(blocks: &mut Vec<Block>, line: BlockLine) -> Result<(), LayoutFault>
    requires level { 0 < line.level }
    requires begun { 0 < vec_len blocks.old }
    ensures lines { OnOk result (lines_of blocks.new.items ≡ lines_of blocks.old.items ++ line ∷ []) }
    ensures blocks { OnOk result ((file : ℕ) → AreBlocks file blocks.old.items → AreBlocks file blocks.new.items) }
    ensures begun { OnOk result (0 < vec_len blocks.new) }
    ensures err { IfErr result (λ e. e ≡ LayoutFault.NoMemory) }
{
    match blocks.pop() {
        None => unreachable!(),
        Some(mut block) => {
            block.lines.push(line)?;
            blocks.push(block)?;
            Ok(())
        }
    }
}

/// Takes a line, where it may have so many levels at most, and says how many the next one may have.
fn take_line(
    alloc: Global,
    file: u32,
    blocks: &mut Vec<Block>,
    most: u32,
    number: u32,
    size: usize,
    text: &str,
) -> Result<u32, LayoutFault>
    requires short { length text.now < 2 ^ 32 }
    requires blocks { AreBlocks file blocks.old.items }
    requires begun { (most ≡ 0) ⊎ (0 < vec_len blocks.old) }
    ensures sound { IfOk result (λ _. fault_of most (record { number = number; size = size; text = text.now }) ≡ []) }
    ensures next { IfOk result (λ next. next ≡ next_most most (record { number = number; size = size; text = text.now })) }
    ensures lines { OnOk result (lines_of blocks.new.items ≡ lines_of blocks.old.items ++ kept (record { number = number; size = size; text = text.now } ∷ [])) }
    ensures blocks { OnOk result (AreBlocks file blocks.new.items) }
    ensures begun { IfOk result (λ next. (next ≡ 0) ⊎ (0 < vec_len blocks.new)) }
    ensures fault { IfErr result (IsOnly (fault_of most (record { number = number; size = size; text = text.now }))) }
{
    match read_line(alloc, most, number, size, text)? {
        None => Ok(most),
        Some(line) => {
            let next = line.level + 1;
            put(alloc, file, blocks, line)?;
            Ok(next)
        }
    }
}

/// The blocks of a file.
#[tactic(auto, using(crate::proofs::layout::LayLaws::laws))]
pub fn blocks(alloc: Global, file: u32, text: &str) -> Result<Vec<Block>, LayoutFault>
    requires { length text.now < 2 ^ 32 }

    // The blocks have the lines that are neither blank nor comments, in order, and no line is at fault.
    ensures lines { IfOk result (λ blocks. lines_of blocks.items ≡ block_lines text.now) }
    ensures blocks { IfOk result (λ blocks. AreBlocks file blocks.items) }
    ensures sound { IfOk result (λ _. layout_faults text.now ≡ []) }

    // The lines may be cut into tokens, and counted.
    ensures within { IfOk result (λ blocks. All (λ line. line.level ≤ 64) (lines_of blocks.items)) }
    ensures short { IfOk result (λ blocks. All (λ line. length line.text < 2 ^ 32) (lines_of blocks.items)) }
    ensures few { IfOk result (λ blocks. length (lines_of blocks.items) < 2 ^ 32) }

    // A refusal is the first fault of the file.
    ensures fault { IfErr result (IsCause text.now) }
{
    let mut laid = Vec::new(alloc);
    let mut most = 0;
    let mut count = 0;
    let mut rest = without_mark(text);
    while let Some((line, later)) = first_line(rest) {
        most = take_line(
            alloc,
            file,
            &mut laid,
            most,
            count + 1,
            line.bytes.len(),
            text_of(line),
        )?;
        count += 1;
        rest = later;
    }
    Ok(laid)
}
