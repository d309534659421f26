// All that declaration blocks say.
ghost use Rattle.std.specs.Prelude.{◌≡◌, ◌++◌, flat_map, length, IfOk, OnOk};
ghost use Rattle.std.specs.List.{All};
ghost use Rattle.opa_tree.specs.FirstFaults.{first_fault};
ghost use Rattle.opa_decl.specs.Cutting.{HaveTokens};
ghost use Rattle.opa_decl.specs.Declarations.{first_place, items_in, items_of, syntax_faults};
ghost use Rattle.opa_decl.specs.Spelling.{spelled};

use crate::cut::{CutBlock, CutLine};
use crate::faults::fault_at;
use crate::items::{Item, Place};
use crate::spelling::spelled;
use opa_io::{List, NoMemory, front};
use opa_tree::{RbFault, RbKind, first_of};
use std::alloc::Global;

/// What blocks say, and the first of them that isn't spelled.
#[derive(Drop)]
pub struct Reading {
    pub items: List<Item>,
    pub fault: Option<RbFault>,
}

/// The first line of a block.
fn first_place(file: u32, lines: &[CutLine]) -> Place
    ensures { result ≡ first_place file lines.now }
{
    match front(lines) {
        None => Place { file, line: 0 },
        Some((first, _)) => Place {
            file,
            line: first.line,
        },
    }
}

fn add_all(items: &mut List<Item>, more: List<Item>) -> Result<(), NoMemory>
    ensures { OnOk result (items.new ≡ items.old ++ more) }
{
    for item in more.into_vec() {
        items.push(item)?;
    }
    Ok(())
}

/// Adds what a block says, or gives its fault.
fn read_block(
    alloc: Global,
    block: &CutBlock,
    items: &mut List<Item>,
) -> Result<Option<RbFault>, NoMemory>
    requires { HaveTokens block.now }
    ensures items { OnOk result (items.new ≡ items.old ++ items_in block.now) }
    ensures fault { IfOk result (λ fault. fault ≡ first_fault (syntax_faults block.now)) }
{
    match spelled(alloc, block)? {
        None => {
            let place = first_place(block.file, block.lines.as_slice());
            Ok(Some(fault_at(alloc, RbKind::Syntax, place)))
        }
        Some(more) => {
            add_all(items, more)?;
            Ok(None)
        }
    }
}

/// What the blocks say, and the first of them that isn't spelled.
#[tactic(auto, using(opa_tree::proofs::FirstFaultLaws::first_faults))]
pub fn read(alloc: Global, blocks: &[CutBlock]) -> Result<Reading, NoMemory>
    requires { All HaveTokens blocks.now }
    ensures items { IfOk result (λ r. r.items ≡ items_of blocks.now) }
    ensures fault { IfOk result (λ r. r.fault ≡ first_fault (flat_map syntax_faults blocks.now)) }
{
    let mut items = List::new(alloc);
    let mut fault = None;
    let mut rest = blocks;
    while let Some((block, later)) = front(rest) {
        fault = first_of(fault, read_block(alloc, block, &mut items)?);
        rest = later;
    }
    Ok(Reading { items, fault })
}
