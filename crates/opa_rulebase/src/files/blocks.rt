// The blocks of rule files.
ghost use Rattle.std.specs.Prelude.{◌≡◌, ◌<◌, ◌^◌, ◌∷◌, ◌++◌, [], length, All, IfOk, IfErr, OnOk};
ghost use Rattle.opa_words.specs.Layout.Blocks.{lines_of};
ghost use Rattle.opa_tree.specs.declared.faults.RbError.TheVariants.{Refused};
ghost use Rattle.opa_tree.specs.declared.faults.RbFault.{RbFault as FaultView};
ghost use Rattle.opa_rulebase.specs.declared.files.source.SourceFile.{SourceFile as FileView};
ghost use Rattle.opa_rulebase.specs.Files.Layouts.{AreBlocksOf, AreLaid, IsShort, told, faults_in, faults_from, Begins};

use crate::files::SourceFile;
use opa_io::{List, NoMemory, front};
use opa_tree::{RbError, RbFault, RbKind};
use opa_words::{Block, LayoutFault, blocks};
use std::alloc::Global;

/// A fault of layout as one of a rulebase.
fn refused(alloc: Global, file: u32, fault: LayoutFault) -> RbError
    ensures { (f : FaultView) → result ≡ Refused f → told file fault ≡ f ∷ [] }
{
    let (kind, line) = match fault {
        LayoutFault::Limit(line) => (RbKind::Limit, line),
        LayoutFault::Indent(line) => (RbKind::Syntax, line),
        LayoutFault::NoMemory => return RbError::NoMemory,
    };
    RbError::Refused(RbFault {
        file,
        line,
        kind,
        cycle: List::new(alloc),
    })
}

/// The blocks of the file that has this place; a table has none.
fn blocks_of(alloc: Global, place: u32, file: &SourceFile) -> Result<Vec<Block>, RbError>
    requires { length file.now.text < 2 ^ 32 }
    ensures laid { IfOk result (λ bs. AreBlocksOf place file.now bs.items) }
    ensures sound { IfOk result (λ _. faults_in place file.now ≡ []) }
    ensures fault { IfErr result (λ e. (f : FaultView) → e ≡ Refused f → Begins f (faults_in place file.now)) }
    ensures placed { IfOk result (λ bs. All (λ b. b.file ≡ place) bs.items) }
    ensures short { IfOk result (λ bs. All IsShort (lines_of bs.items)) }
{
    if file.is_table {
        return Ok(Vec::new(alloc));
    }
    match blocks(alloc, place, file.text.as_str()) {
        Ok(laid) => Ok(laid),
        Err(fault) => Err(refused(alloc, place, fault)),
    }
}

/// Adds blocks behind others.
fn join(blocks: &mut List<Block>, more: Vec<Block>) -> Result<(), NoMemory>
    ensures { OnOk result (blocks.new ≡ blocks.old ++ more.items) }
{
    for block in more {
        blocks.push(block)?;
    }
    Ok(())
}

/// The blocks of the rule files in order, or the first fault of their layout.
pub fn lay_out(alloc: Global, files: &[SourceFile]) -> Result<List<Block>, RbError>
    requires texts { All (λ (f : FileView). length f.text < 2 ^ 32) files.now }
    requires few { length files.now < 2 ^ 32 }
    ensures laid { IfOk result (λ bs. AreLaid 0 files.now bs) }
    ensures sound { IfOk result (λ _. faults_from 0 files.now ≡ []) }
    ensures fault { IfErr result (λ e. (f : FaultView) → e ≡ Refused f → Begins f (faults_from 0 files.now)) }

    // Each block stands in one of the files, and its lines may be cut into tokens.
    ensures placed { IfOk result (λ bs. All (λ b. b.file < length files.now) bs) }
    ensures short { IfOk result (λ bs. All IsShort (lines_of bs)) }
    ensures short_blocks { IfOk result (λ bs. All (λ b. All IsShort b.lines) bs) }
{
    let mut all = List::new(alloc);
    let mut place = 0;
    let mut rest = files;
    while let Some((file, later)) = front(rest) {
        let laid = blocks_of(alloc, place, file)?;
        join(&mut all, laid)?;
        place += 1;
        rest = later;
    }
    Ok(all)
}
