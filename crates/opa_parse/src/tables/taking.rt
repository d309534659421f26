// The rules of a table are taken after those of rule files.
ghost use Rattle.std.specs.Prelude.{◌≡◌, ◌≤◌, length, IfOk, IfErr};
ghost use Rattle.opa_tree.specs.declared.faults.RbError.TheVariants.{Refused};
ghost use Rattle.opa_tree.specs.declared.faults.RbFault.{RbFault as FaultView};
ghost use Rattle.opa_tree.specs.Accepted.{HaveForm, AreShallow};
ghost use Rattle.opa_parse.specs.Handed.{AreFormed, AreDeclared};
ghost use Rattle.opa_parse.specs.Tables.Columns.{column_block as column_block_of, blocks_from, blocks_of};
ghost use Rattle.opa_parse.specs.Tables.Reading.{TakesBlocks, TakesTable, AreTableRules, IsTableRefused, AreIn};

use crate::tables::columns::column;
use crate::tables::records::records_of;
use crate::tables::rows::found;
use crate::tables::{Found, Table};
use crate::{RuleBlock, Statement, Taken, inferred_nodes, names_of};
use opa_io::{NoMemory, front};
use opa_model::{AttrId, Model};
use opa_sentence::Names;
use opa_tree::{Inferences, RbError, Rule};
use std::alloc::Global;

/// The rule of a column.
fn column_block(
    alloc: Global,
    file: u32,
    table: &Table,
    place: usize,
    attr: Option<AttrId>,
) -> Result<RuleBlock, NoMemory>
    ensures { IfOk result (λ b. b ≡ column_block_of file table.now place attr) }
{
    let said = column(alloc, table, place)?;
    Ok(RuleBlock {
        file,
        line: 1,
        statement: Some(Statement {
            attr,
            by_if: false,
            said,
        }),
    })
}

/// Takes the rules of the columns.
fn take_columns(alloc: Global, file: u32, table: &Table, taken: Taken) -> Result<Taken, NoMemory>
    ensures { IfOk result (TakesBlocks (blocks_from file table.now 0 table.now.heads.conclusions) taken) }
{
    let mut next = taken;
    let mut place = 0;
    let mut rest = table.heads.conclusions.as_slice();
    while let Some((attr, later)) = front(rest) {
        let block = column_block(alloc, file, table, place, *attr)?;
        next = next.take(alloc, block)?;
        place += 1;
        rest = later;
    }
    Ok(next)
}

/// Takes what the records of a table spell.
fn take_found(alloc: Global, file: u32, found: Found, taken: Taken) -> Result<Taken, NoMemory>
    ensures { IfOk result (TakesBlocks (blocks_of file found) taken) }
{
    match found {
        Found::Table(table) => take_columns(alloc, file, &table, taken),
        Found::Unspelled(line) => {
            let block = RuleBlock {
                file,
                line,
                statement: None,
            };
            let next = taken.take(alloc, block)?;
            Ok(next)
        }
    }
}

/// Takes the rules of a table after what was read before it: those of rule files and of tables that stand before. So many
/// records that they can't be counted aren't held either.
pub fn take_table(
    alloc: Global,
    model: &Model,
    names: &Names,
    file: u32,
    csv_bytes: &[u8],
    taken: Taken,
) -> Result<Taken, NoMemory>
    ensures { IfOk result (TakesTable model.now names.now file csv_bytes.now taken) }
{
    let records = records_of(alloc, csv_bytes)?;
    if records.len() >= 4_294_967_290 {
        return Err(NoMemory);
    }
    let said = found(alloc, model, names, records.as_slice())?;
    let next = take_found(alloc, file, said, taken)?;
    Ok(next)
}

/// The rules of a table alone: one for each conclusion column, in their order.
pub fn read_table(
    alloc: Global,
    model: &Model,
    inferences: &Inferences,
    file: u32,
    csv_bytes: &[u8],
) -> Result<Vec<Rule>, RbError>
    ensures rules { IfOk result (λ v. AreTableRules model.now inferences.now file csv_bytes.now v.items) }
    ensures refused { IfErr result (λ e. (fault : FaultView) → e ≡ Refused fault →
        IsTableRefused model.now inferences.now file csv_bytes.now fault) }
    // What is asked of rules that are checked, and of a rulebase.
    ensures formed { IfOk result (λ v. AreFormed inferences.now → HaveForm v.items) }
    ensures shallow { IfOk result (λ v. AreFormed inferences.now → AreShallow v.items) }
    ensures declared { IfOk result (λ v. AreDeclared model.now v.items) }
    ensures filed { IfOk result (λ v. AreIn file v.items) }
    ensures few { IfOk result (λ v. length v.items ≤ 4000) }
{
    let names = names_of(alloc, model, inferences)?;
    let none = Taken::none(alloc, inferred_nodes(names.members.as_slice()));
    let taken = take_table(alloc, model, &names, file, csv_bytes, none)?;
    let Taken { first, rules, .. } = taken;
    match first {
        None => Ok(rules.into_vec()),
        Some(fault) => Err(RbError::Refused(fault)),
    }
}
