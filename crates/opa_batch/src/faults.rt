// The texts of faults.
ghost use Rattle.std.specs.Prelude.{◌≡◌, ◌≢◌, ◌++◌, ◌∷◌, [], codes, IfOk};
ghost use Rattle.std.specs.Fmt.{decimal};
ghost use Rattle.opa_batch.specs.declared.head.HeadFault.TheVariants as head_faults;
ghost use Rattle.opa_batch.specs.Heads as heads;
ghost use Rattle.opa_batch.specs.Rows as rows;
ghost use Rattle.opa_script.specs.declared.fault.CmdFault.TheVariants as command_faults;

use crate::head::HeadFault;
use opa_case::Refusal;
use opa_io::{NoMemory, Txt};
use opa_script::CmdFault;
use std::alloc::Global;

/// `column K WHAT N`
fn column_fault(alloc: Global, column: usize, what: &str, number: u8) -> Result<Txt, NoMemory>
    ensures { IfOk result (λ t. t ≡ heads.column_fault column what.now number) }
{
    let text = format!(in alloc; "column {column} {what} {number}")?;
    let told = Txt::from_str(alloc, text.as_str())?;
    Ok(told)
}

/// The refusal of a heading.
fn refused_column(alloc: Global, column: usize, number: u8) -> Result<Txt, NoMemory>
    ensures { IfOk result (λ t. t ≡ codes "refused: column " ++ (decimal column ++ (codes " command " ++ (decimal number ++ 10 ∷ [])))) }
{
    let text = format!(in alloc; "refused: column {column} command {number}\n")?;
    let told = Txt::from_str(alloc, text.as_str())?;
    Ok(told)
}

/// The refusal of a cell that is no head; there is none for want of memory.
pub(crate) fn refused_head(alloc: Global, column: usize, fault: HeadFault) -> Result<Txt, NoMemory>
    ensures some { IfOk result (λ _. fault ≢ head_faults.NoMemory) }
    ensures text { IfOk result (λ t. t ≡ heads.refused_head column fault) }
{
    match fault {
        HeadFault::Shape => refused_column(alloc, column, 1),
        HeadFault::Name => refused_column(alloc, column, 2),
        HeadFault::NoMemory => Err(NoMemory),
    }
}

/// The fault of a cell whose line is no command; there is none for want of memory.
pub(crate) fn command_fault(alloc: Global, column: usize, fault: CmdFault) -> Result<Txt, NoMemory>
    ensures some { IfOk result (λ _. fault ≢ command_faults.NoMemory) }
    ensures text { IfOk result (λ t. t ≡ rows.command_fault column fault) }
{
    match fault {
        CmdFault::NotACommand => column_fault(alloc, column, "command", 1),
        CmdFault::Name => column_fault(alloc, column, "command", 2),
        CmdFault::Value => column_fault(alloc, column, "command", 3),
        CmdFault::NoMemory => Err(NoMemory),
    }
}

/// The fault of a cell whose change is refused.
pub(crate) fn change_fault(alloc: Global, column: usize, refusal: Refusal) -> Result<Txt, NoMemory>
    ensures { IfOk result (λ t. t ≡ rows.change_fault column refusal) }
{
    let text = column_fault(alloc, column, "change", refusal.number())?;
    Ok(text)
}

/// The fault of a record that hasn't a cell for each column, and none more.
pub(crate) fn length_fault(alloc: Global) -> Result<Txt, NoMemory>
    ensures { IfOk result (λ t. t ≡ rows.length_fault) }
{
    let text = Txt::from_str(alloc, "length")?;
    Ok(text)
}
