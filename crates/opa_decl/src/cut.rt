// The lines of declaration blocks, cut into tokens.
ghost use Rattle.std.specs.Prelude.{◌≡◌, ◌<◌, ◌^◌, length, map, filter, IfOk};
ghost use Rattle.std.specs.List.{All};
ghost use Rattle.opa_words.specs.Layout.Blocks.{lines_of};
ghost use Rattle.opa_decl.specs.Heads.{is_declaration};
ghost use Rattle.opa_decl.specs.Cutting.{HasTokens, HaveTokens, AreCut, line_of, block_of, IsShort};

use crate::head::head_in;
use opa_io::{List, NoMemory, Txt, front};
use opa_words::{Block, BlockLine, Token, WordFault, tokens};
use std::alloc::Global;

/// A line with its tokens: none where some character begins no token.
#[derive(Debug, Drop)]
pub struct CutLine {
    pub level: u32,
    pub line: u32,
    pub text: Txt,
    pub tokens: Option<List<Token>>,
}

/// A declaration block.
#[derive(Debug, Drop)]
pub struct CutBlock {
    pub file: u32,
    pub lines: List<CutLine>,
}

/// The tokens of a text, if it has any at each place.
fn tokens_of(alloc: Global, text: &str) -> Result<Option<List<Token>>, NoMemory>
    requires { length text.now < 2 ^ 32 }
    ensures { IfOk result (HasTokens text.now) }
{
    match tokens(alloc, text) {
        Ok(found) => Ok(Some(List::from_vec(found))),
        Err(WordFault::Place(_)) => Ok(None),
        Err(WordFault::NoMemory) => Err(NoMemory),
    }
}

fn cut_line(alloc: Global, line: &BlockLine) -> Result<CutLine, NoMemory>
    requires { IsShort line.now }
    ensures same { IfOk result (λ cut. line_of cut ≡ line.now) }
    ensures tokens { IfOk result (λ cut. HasTokens cut.text cut.tokens) }
{
    Ok(CutLine {
        level: line.level,
        line: line.line,
        text: line.text.copy(alloc)?,
        tokens: tokens_of(alloc, line.text.as_str())?,
    })
}

fn cut_lines(alloc: Global, lines: &[BlockLine]) -> Result<List<CutLine>, NoMemory>
    requires { All IsShort lines.now }
    ensures same { IfOk result (λ cuts. map line_of cuts ≡ lines.now) }
    ensures tokens { IfOk result (All (λ cut. HasTokens cut.text cut.tokens)) }
{
    let mut cuts = List::new(alloc);
    for line in lines {
        cuts.push(cut_line(alloc, line)?)?;
    }
    Ok(cuts)
}

/// Whether the block is a declaration.
fn is_declaration(block: &Block) -> bool
    ensures { result ≡ is_declaration block.now }
{
    head_in(block.lines.as_slice()).is_some()
}

fn cut_block(alloc: Global, block: &Block) -> Result<CutBlock, NoMemory>
    requires { All IsShort block.now.lines }
    ensures same { IfOk result (λ cut. block_of cut ≡ block.now) }
    ensures tokens { IfOk result HaveTokens }
{
    Ok(CutBlock {
        file: block.file,
        lines: cut_lines(alloc, block.lines.as_slice())?,
    })
}

/// The declaration blocks, with the tokens of their lines.
pub fn declaration_blocks(alloc: Global, blocks: &[Block]) -> Result<List<CutBlock>, NoMemory>
    requires { All IsShort (lines_of blocks.now) }
    ensures { IfOk result (AreCut blocks.now) }
{
    let mut cuts = List::new(alloc);
    let mut rest = blocks;
    while let Some((block, later)) = front(rest) {
        if is_declaration(block) {
            cuts.push(cut_block(alloc, block)?)?;
        }
        rest = later;
    }
    Ok(cuts)
}
