// The line of a cell is carried out over the case of its record.
ghost use Rattle.std.specs.Prelude.{◌≡◌, ◌≢◌, Some, Ok, Err, IfOk, IfErr, IfSome, OnOk, OnErr};
ghost use Rattle.opa_case.specs.Laws.{IsDeclared};
ghost use Rattle.opa_case.specs.Shapes.{shape_of};
ghost use Rattle.opa_case.specs.declared.change.Refusal.TheVariants as refusals;
ghost use Rattle.opa_session.specs.Infer.Sessions.{reached};
ghost use Rattle.opa_mean.specs.Rulebases.{IsOf};
ghost use Rattle.opa_script.specs.Laws.{IsInRange};
ghost use Rattle.opa_batch.specs.Aims.{IsAimed};
ghost use Rattle.opa_batch.specs.Counting.{IsAtMost, ChangeReaches, LineReaches, CellReaches};
ghost use Rattle.opa_batch.specs.Numbered.{left_by};
ghost use Rattle.opa_batch.specs.Rows.{change_in as change_of, stepped, in_column, line_of, IsCarriedOut, IsCell};

use crate::aim::Aim;
use crate::faults::{change_fault, command_fault};
use crate::head::Head;
use crate::lines::asked_of;
use opa_case::{Case, ChangeCommand, Refusal};
use opa_io::{NoMemory, Txt};
use opa_script::Command;
use opa_tree::Rulebase;
use std::alloc::Global;

/// Makes a change of a case whole, or refuses it with the case as it was.
fn change_case(base: &Rulebase, case: &mut Case, change: ChangeCommand) -> Result<(), Refusal>
    requires fits { IsOf base.now case.old }
    requires declared { IsDeclared (shape_of base.now.model) change }
    ensures ok { OnOk result (stepped base.now case.old (Some change) ≡ Ok case.new) }
    ensures err { IfErr result (λ e. e ≢ refusals.NoMemory → stepped base.now case.old (Some change) ≡ Err e) }
    ensures fits { OnOk result (IsOf base.now case.new) }
    ensures unchanged { OnErr result (case.new ≡ case.old) }
{
    match change {
        ChangeCommand::Answer(attr, inst, line) => {
            case.answer(&base.model, &base.ruled, attr, &inst, line)
        }
        ChangeCommand::Withdraw(attr, inst) => {
            case.withdraw(&base.model, &base.ruled, attr, &inst)
        }
        ChangeCommand::SetList(rel, inst, names) => {
            case.set_list(&base.model, &base.ruled, rel, &inst, names)
        }
        ChangeCommand::Forget(rel, inst) => case.forget(&base.model, &base.ruled, rel, &inst),
    }
}

/// Makes a change, or tells its fault.
fn take_change(
    alloc: Global,
    base: &Rulebase,
    case: &mut Case,
    column: usize,
    change: ChangeCommand,
) -> Result<Option<Txt>, NoMemory>
    requires fits { IsOf base.now case.old }
    requires declared { IsDeclared (shape_of base.now.model) change }
    ensures ok { IfOk result (λ fault. left_by fault case.new ≡ in_column column (stepped base.now case.old (Some change))) }
    ensures fits { IfOk result (λ _. IsOf base.now case.new) }
    ensures reaches { IfOk result (λ _. IsAtMost (ChangeReaches base.now case.old (Some change)) (reached base.now case.old case.new)) }
{
    match change_case(base, case, change) {
        Ok(()) => Ok(None),
        Err(Refusal::NoMemory) => Err(NoMemory),
        Err(refusal) => {
            let text = change_fault(alloc, column, refusal)?;
            Ok(Some(text))
        }
    }
}

/// The change that a command is.
fn change_in(command: Command) -> Option<ChangeCommand>
    ensures { result ≡ change_of command }
{
    match command {
        Command::Change(change) => Some(change),
        Command::Nothing
        | Command::ShowAttr(_, _)
        | Command::ShowMembers(_, _)
        | Command::Save(_)
        | Command::Load(_)
        | Command::Goals
        | Command::Next
        | Command::Screen
        | Command::Report(_, _, _)
        | Command::Stats
        | Command::Dismiss(_) => None,
    }
}

/// Carries out a command: a change alone does something.
fn take_command(
    alloc: Global,
    base: &Rulebase,
    case: &mut Case,
    column: usize,
    command: Command,
) -> Result<Option<Txt>, NoMemory>
    requires fits { IsOf base.now case.old }
    requires command { IsInRange base.now.model command }
    ensures ok { IfOk result (λ fault. left_by fault case.new ≡ in_column column (stepped base.now case.old (change_of command))) }
    ensures fits { IfOk result (λ _. IsOf base.now case.new) }
    ensures reaches { IfOk result (λ _. IsAtMost (ChangeReaches base.now case.old (change_of command)) (reached base.now case.old case.new)) }
{
    match change_in(command) {
        None => Ok(None),
        Some(change) => {
            let fault = take_change(alloc, base, case, column, change)?;
            Ok(fault)
        }
    }
}

/// Reads the line of a cell and carries it out, and answers its fault if it has one.
fn take_line(
    alloc: Global,
    base: &Rulebase,
    case: &mut Case,
    column: usize,
    head: &Head,
    aim: &Option<Aim>,
    cell: &[u8],
) -> Result<Option<Txt>, NoMemory>
    requires fits { IsOf base.now case.old }
    requires aimed { IfSome aim.now (IsAimed base.now.model head.now) }
    ensures ok { IfOk result (λ fault. IsCarriedOut base.now column case.old (line_of head.now cell.now) (left_by fault case.new)) }
    ensures fits { IfOk result (λ _. IsOf base.now case.new) }
    ensures reaches { IfOk result (λ _. IsAtMost (LineReaches base.now case.old (line_of head.now cell.now)) (reached base.now case.old case.new)) }
{
    match asked_of(alloc, &base.model, head, aim, cell) {
        Ok(command) => {
            let fault = take_command(alloc, base, case, column, command)?;
            Ok(fault)
        }
        Err(fault) => {
            let text = command_fault(alloc, column, fault)?;
            Ok(Some(text))
        }
    }
}

/// Carries out the cell of a column, and answers its fault if it has one. An empty cell does nothing.
pub(crate) fn take_cell(
    alloc: Global,
    base: &Rulebase,
    case: &mut Case,
    column: usize,
    head: &Head,
    aim: &Option<Aim>,
    cell: &[u8],
) -> Result<Option<Txt>, NoMemory>
    requires fits { IsOf base.now case.old }
    requires aimed { IfSome aim.now (IsAimed base.now.model head.now) }
    ensures ok { IfOk result (λ fault. IsCell base.now column case.old head.now cell.now (left_by fault case.new)) }
    ensures fits { IfOk result (λ _. IsOf base.now case.new) }
    ensures reaches { IfOk result (λ _. IsAtMost (CellReaches base.now case.old head.now cell.now) (reached base.now case.old case.new)) }
{
    if cell.is_empty() {
        return Ok(None);
    }
    let fault = take_line(alloc, base, case, column, head, aim, cell)?;
    Ok(fault)
}
