// All refusals of a saved case, and the fault that is told.
ghost use Rattle.std.specs.Prelude.{◌≡◌, IfOk};
ghost use Rattle.opa_saved.specs.Loading as meant;
ghost use Rattle.opa_saved.specs.Whole.{seen};

use crate::answer_refusals::add_answer_refusals;
use crate::entries::Entries;
use crate::fault::LoadFault;
use crate::list_refusals::{add_list_refusals, add_refusal};
use crate::living::Living;
use opa_case::{Refusal, is_full};
use opa_io::NoMemory;
use opa_model::{Model, Ruled};
use std::alloc::Global;

/// All refusals, but that there are too many answers.
pub(crate) fn entry_refusals(
    alloc: Global,
    model: &Model,
    ruled: &Ruled,
    living: &Living,
    entries: &Entries,
) -> Result<Vec<Refusal>, NoMemory>
    ensures { IfOk result (λ refusals. refusals.items ≡ meant.entry_refusals model.now ruled.now living.now (seen entries.now)) }
{
    let mut refusals = Vec::new(alloc);
    add_list_refusals(alloc, model, living, &entries.lists, &mut refusals)?;
    add_answer_refusals(alloc, model, ruled, living, &entries.answers, &mut refusals)?;
    add_refusal(full_refusal(model, ruled, living), &mut refusals)?;
    Ok(refusals)
}

fn full_refusal(model: &Model, ruled: &Ruled, living: &Living) -> Option<Refusal>
    ensures { result ≡ meant.full_refusal model.now ruled.now living.now }
{
    if is_full(model, ruled, living) {
        Some(Refusal::Limit)
    } else {
        None
    }
}

/// The fault of the least number.
pub(crate) fn least_of(refusals: &[Refusal]) -> Option<LoadFault>
    ensures { result ≡ meant.least_of refusals.now }
{
    if has_number(1, refusals) {
        return Some(LoadFault::Name);
    }
    if has_number(2, refusals) {
        return Some(LoadFault::Kind);
    }
    if has_number(3, refusals) {
        return Some(LoadFault::Range);
    }
    if has_number(4, refusals) {
        return Some(LoadFault::Limit);
    }
    None
}

fn has_number(number: u8, refusals: &[Refusal]) -> bool
    ensures { result ≡ meant.has_number number refusals.now }
{
    refusals.iter().any(|refusal| refusal.number() == number)
}
