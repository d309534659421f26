// The cells of a record are carried out from left to right, and their case is held.
ghost use Rattle.std.specs.Prelude.{◌≡◌, ◌≤◌, ◌+◌, length, IfOk, OnOk};
ghost use Rattle.csv.specs.Records.{fields_of};
ghost use Rattle.opa_case.specs.Cases.{no_case};
ghost use Rattle.opa_session.specs.Infer.Sessions.{rules_of, held_of, reached};
ghost use Rattle.opa_mean.specs.Rulebases.{IsOf};
ghost use Rattle.opa_batch.specs.Aims.{AreAimed};
ghost use Rattle.opa_batch.specs.Counting.{CountsAtMost, IsAtMost, CellsReach, RecordReaches};
ghost use Rattle.opa_batch.specs.Numbered.{left_by};
ghost use Rattle.opa_batch.specs.Rows.{AreCells, IsRecord};

use crate::aim::Aim;
use crate::carrying::take_cell;
use crate::faults::length_fault;
use crate::head::Head;
use csv::ByteRecord;
use opa_case::{Case, empty_fits};
use opa_io::{NoMemory, Steps, Txt};
use opa_listen::Listener;
use opa_mean::Held;
use opa_session::Session;
use opa_tree::Rulebase;
use std::alloc::Global;
use std::sync::ledger::Ledger;

/// The case of which nothing is known, which fits.
fn empty_case(alloc: Global, base: &Rulebase) -> Case
    ensures none { result ≡ no_case }
    ensures fits { IsOf base.now result }
{
    // The count shows the model's form.
    let _count = base.model.attribute_count();
    empty_fits();
    Case::new(alloc)
}

/// Carries out the cells of a record, and answers the first fault if there is one.
fn take_cells(
    alloc: Global,
    base: &Rulebase,
    case: &mut Case,
    heads: &[Head],
    aims: &[Option<Aim>],
    row: &ByteRecord,
) -> Result<Option<Txt>, NoMemory>
    requires fits { IsOf base.now case.old }
    requires aimed { AreAimed base.now.model heads.now aims.now }
    ensures ok { IfOk result (λ fault. AreCells base.now 1 case.old heads.now (fields_of row.now) (left_by fault case.new)) }
    ensures fits { IfOk result (λ _. IsOf base.now case.new) }
    ensures reaches { IfOk result (λ _. IsAtMost (CellsReach base.now 1 case.old heads.now (fields_of row.now)) (reached base.now case.old case.new)) }
{
    for place in 0..heads.len() {
        let Some(cell) = row.get(place) else {
            return Ok(None);
        };
        let fault = take_cell(
            alloc,
            base,
            case,
            place + 1,
            &heads[place],
            &aims[place],
            cell,
        )?;
        if fault.is_some() {
            return Ok(fault);
        }
    }
    Ok(None)
}

/// The case of a record, or its fault.
fn case_of(
    alloc: Global,
    base: &Rulebase,
    heads: &[Head],
    aims: &[Option<Aim>],
    row: &ByteRecord,
) -> Result<Result<Case, Txt>, NoMemory>
    requires aimed { AreAimed base.now.model heads.now aims.now }
    ensures ok { IfOk result (IsRecord base.now heads.now (fields_of row.now)) }
    ensures fits { IfOk result (λ made. IfOk made (IsOf base.now)) }
    ensures reaches { IfOk result (λ made. IfOk made (λ c. IsAtMost (RecordReaches base.now heads.now (fields_of row.now)) (reached base.now no_case c))) }
{
    if row.len() != heads.len() {
        let text = length_fault(alloc)?;
        return Ok(Err(text));
    }
    let mut case = empty_case(alloc, base);
    let Ok(fault) = take_cells(alloc, base, &mut case, heads, aims, row) else {
        drop(case);
        return Err(NoMemory);
    };
    match fault {
        Some(text) => {
            drop(case);
            Ok(Err(text))
        }
        None => Ok(Ok(case)),
    }
}

/// Holds a case in the place of the one before: no more is reached than if nothing had been known between them.
fn hold_case<L: Ledger>(
    alloc: Global,
    session: &mut Session<L>,
    case: Case,
    steps: &mut Steps<L>,
) -> Result<(), NoMemory>
    requires fits { IsOf (rules_of session.old) case }
    ensures held { OnOk result (held_of session.new ≡ case) }
    ensures base { rules_of session.new ≡ rules_of session.old }
    ensures counts { steps.new ≤ steps.old + (reached (rules_of session.old) (held_of session.old) no_case + reached (rules_of session.old) no_case case) }
{
    empty_fits();
    let mut nobody: Vec<Box<dyn Listener>> = Vec::new(alloc);
    session.replace_case(alloc, case, &mut nobody, steps)?;
    Ok(())
}

/// Makes the case of a record and holds it, or answers the record's fault.
pub(crate) fn take_record<L: Ledger>(
    alloc: Global,
    session: &mut Session<L>,
    heads: &[Head],
    aims: &[Option<Aim>],
    row: &ByteRecord,
    steps: &mut Steps<L>,
) -> Result<Option<Txt>, NoMemory>
    requires aimed { AreAimed (rules_of session.old).model heads.now aims.now }
    ensures ok { IfOk result (λ fault. IsRecord (rules_of session.old) heads.now (fields_of row.now) (left_by fault (held_of session.new))) }
    ensures base { rules_of session.new ≡ rules_of session.old }
    ensures counts { CountsAtMost (RecordReaches (rules_of session.old) heads.now (fields_of row.now))
        (steps.old + reached (rules_of session.old) (held_of session.old) no_case) steps.new }
{
    let made = case_of(alloc, session.base(), heads, aims, row)?;
    match made {
        Err(fault) => Ok(Some(fault)),
        Ok(case) => {
            hold_case(alloc, session, case, steps)?;
            Ok(None)
        }
    }
}
