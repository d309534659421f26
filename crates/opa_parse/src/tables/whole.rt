// The rules of a whole rulebase.
ghost use Rattle.std.specs.Prelude.{◌≡◌, ◌≤◌, length, All, IfOk, IfErr};
ghost use Rattle.opa_tree.specs.declared.faults.RbError.TheVariants.{Refused};
ghost use Rattle.opa_tree.specs.declared.faults.RbFault.{RbFault as FaultView};
ghost use Rattle.opa_tree.specs.Accepted.{HaveForm, AreShallow};
ghost use Rattle.opa_parse.specs.Fronts.{AreShort};
ghost use Rattle.opa_parse.specs.Handed.{AreFormed, AreDeclared};
ghost use Rattle.opa_parse.specs.Tables.Whole.{TakesTables, AreAllRules, AreAllRefused, AllAreFiledAs};

use crate::tables::taking::take_table;
use crate::{Taken, inferred_nodes, names_of, take_blocks};
use opa_io::{List, NoMemory, front};
use opa_model::Model;
use opa_sentence::Names;
use opa_tree::{Inferences, RbError, Rules};
use opa_words::Block;
use std::alloc::Global;

/// The bytes of a table, and its place in the rulebase's files.
#[derive(Drop)]
pub struct TableFile {
    pub file: u32,
    pub bytes: List<u8>,
}

/// Takes the rules of tables, one table after another.
pub fn take_tables(
    alloc: Global,
    model: &Model,
    names: &Names,
    tables: &[TableFile],
    taken: Taken,
) -> Result<Taken, NoMemory>
    ensures { IfOk result (TakesTables model.now names.now tables.now taken) }
{
    let mut next = taken;
    let mut rest = tables;
    while let Some((table, later)) = front(rest) {
        next = take_table(
            alloc,
            model,
            names,
            table.file,
            table.bytes.as_slice(),
            next,
        )?;
        rest = later;
    }
    Ok(next)
}

/// The rules of blocks in their order, and then those of tables in theirs. Blocks of declarations and of members are passed
/// over.
pub fn read_all_rules(
    alloc: Global,
    model: &Model,
    inferences: &Inferences,
    blocks: &[Block],
    tables: &[TableFile],
) -> Result<Rules, RbError>
    requires short { All (λ b. AreShort b.lines) blocks.now }
    ensures rules { IfOk result (AreAllRules model.now inferences.now blocks.now tables.now) }
    ensures refused { IfErr result (λ e. (fault : FaultView) → e ≡ Refused fault →
        AreAllRefused model.now inferences.now blocks.now tables.now fault) }
    // What is asked of rules that are checked, and of a rulebase.
    ensures formed { IfOk result (λ rules. AreFormed inferences.now → HaveForm rules) }
    ensures shallow { IfOk result (λ rules. AreFormed inferences.now → AreShallow rules) }
    ensures declared { IfOk result (AreDeclared model.now) }
    ensures filed { IfOk result (AllAreFiledAs blocks.now tables.now) }
    ensures few { IfOk result (λ rules. length rules ≤ 4000) }
{
    let names = names_of(alloc, model, inferences)?;
    let none = Taken::none(alloc, inferred_nodes(names.members.as_slice()));
    let before = take_blocks(alloc, model, &names, blocks, none)?;
    let taken = take_tables(alloc, model, &names, tables, before)?;
    let Taken { first, rules, .. } = taken;
    match first {
        None => Ok(Rules::from_list(rules)),
        Some(fault) => Err(RbError::Refused(fault)),
    }
}
