// The model that blocks declare, or their first fault.
ghost use Rattle.std.specs.Prelude.{◌≡◌, [], None, Some, IfOk, IfErr};
ghost use Rattle.std.specs.List.{All};
ghost use Rattle.opa_words.specs.Layout.Blocks.{lines_of};
ghost use Rattle.opa_model.specs.Models.{IsModel};
ghost use Rattle.opa_tree.specs.declared.faults.RbError.TheVariants.{Refused};
ghost use Rattle.opa_tree.specs.declared.faults.RbFault.{RbFault as FaultView};
ghost use Rattle.opa_tree.specs.FirstFaults.{IsFirst};
ghost use Rattle.opa_decl.specs.Cutting.{HaveTokens, IsShort};
ghost use Rattle.opa_decl.specs.Declarations.{faults_of, items_of, model_of, Declares, IsFirstFault};
ghost use Rattle.opa_verbs.specs.Phrasing.{IsReadable};

use crate::cut::{CutBlock, declaration_blocks};
use crate::judging::{Judged, judge};
use crate::reading::{Reading, read};
use opa_io::NoMemory;
use opa_model::{Lists, Model};
use opa_tree::{RbError, RbFault, first_of};
use opa_words::Block;
use std::alloc::Global;

/// The numbers of items have 32 bits. Blocks of fewer than 2^32 lines have fewer items.
const MOST_ITEMS: usize = 4_294_967_295;

/// The lists, where there is no fault.
fn decided(lists: Lists, fault: Option<RbFault>) -> Result<Lists, RbError>
    ensures ok { IfOk result (λ l. (l ≡ lists) × (fault ≡ None)) }
    ensures err { IfErr result (λ e. (f : FaultView) → e ≡ Refused f → fault ≡ Some f) }
{
    match fault {
        None => Ok(lists),
        Some(fault) => Err(RbError::Refused(fault)),
    }
}

/// The lists that blocks declare whose lines are cut into tokens, or their first fault.
fn read_cut(alloc: Global, cuts: &[CutBlock]) -> Result<Lists, RbError>
    requires { All HaveTokens cuts.now }
    ensures accepted { IfOk result (λ l. (faults_of cuts.now ≡ []) × (l ≡ model_of (items_of cuts.now))) }
    ensures form { IfOk result IsModel }
    ensures readable { IfOk result IsReadable }
    ensures refused { IfErr result (λ e. (f : FaultView) → e ≡ Refused f → IsFirst (faults_of cuts.now) (Some f)) }
{
    let Reading { items, fault } = read(alloc, cuts)?;
    if items.len() >= MOST_ITEMS {
        return Err(RbError::NoMemory);
    }
    let Judged {
        lists,
        fault: later,
    } = judge(alloc, items)?;
    decided(lists, first_of(fault, later))
}

/// The lists of the model that the declarations among the blocks spell, or the first of their faults.
fn read_lists(alloc: Global, blocks: &[Block]) -> Result<Lists, RbError>
    requires { All IsShort (lines_of blocks.now) }
    ensures accepted { IfOk result (Declares blocks.now) }
    ensures form { IfOk result IsModel }
    ensures readable { IfOk result IsReadable }
    ensures refused { IfErr result (λ e. (fault : FaultView) → e ≡ Refused fault → IsFirstFault blocks.now fault) }
{
    let cuts = declaration_blocks(alloc, blocks)?;
    read_cut(alloc, cuts.as_slice())
}

/// The model of these lists.
fn modelled(alloc: Global, lists: Lists) -> Result<Model, NoMemory>
    requires { IsModel lists }
    ensures { IfOk result (λ m. m ≡ lists) }
{
    let Lists {
        entities,
        attributes,
        relations,
        verbs,
        screens,
        goals,
    } = lists;
    Model::from_lists(
        alloc, entities, attributes, relations, verbs, screens, goals,
    )
}

/// The model that the declarations among the blocks spell, or the first of their faults: by kind (spelling, limits, names,
/// scopes, what stands twice), then by file and line. Rule blocks and membership blocks are passed over.
pub fn read_declarations(alloc: Global, blocks: &[Block]) -> Result<Model, RbError>
    requires { All IsShort (lines_of blocks.now) }
    ensures accepted { IfOk result (Declares blocks.now) }
    ensures readable { IfOk result IsReadable }
    ensures refused { IfErr result (λ e. (fault : FaultView) → e ≡ Refused fault → IsFirstFault blocks.now fault) }
{
    let lists = read_lists(alloc, blocks)?;
    let model = modelled(alloc, lists)?;
    Ok(model)
}
