// A saved case is loaded.
ghost use Rattle.std.specs.Prelude.{◌≡◌, ◌≢◌, IfOk, IfErr, None, Some};
ghost use Rattle.opa_case.specs.Fits.{Fits};
ghost use Rattle.opa_case.specs.Shapes.{shape_of};
ghost use Rattle.opa_saved.specs.Loading as meant;
ghost use Rattle.opa_saved.specs.Loading.{IsLoaded, HasLoadFault};
ghost use Rattle.opa_saved.specs.LoadLaws.{FirstIsRaised};
ghost use Rattle.opa_saved.specs.Whole.{seen};
ghost use Rattle.opa_saved.specs.declared.fault.LoadFault.TheVariants as faults;

use crate::build::case_of_lists;
use crate::digest::digest;
use crate::entries::{Entries, Version};
use crate::fault::LoadFault;
use crate::laws::first_is_raised;
use crate::living::Living;
use crate::loaded::{Loaded, Origin};
use crate::maps::lists_of;
use crate::order::live_order;
use crate::parts::value_of_bytes;
use crate::put_answers::put_answers;
use crate::read_file::entries_in;
use crate::refusals::{entry_refusals, least_of};
use opa_model::{Model, Ruled};
use std::alloc::Global;

/// Loads a saved case of version 1 or 2.
pub fn load(alloc: Global, model: &Model, ruled: &Ruled, bytes: &[u8]) -> Result<Loaded, LoadFault>
    ensures loaded { IfOk result (λ l. IsLoaded model.now ruled.now bytes.now l.case l.origin) }
    ensures fits { IfOk result (λ l. Fits (shape_of model.now) ruled.now l.case) }
    ensures fault { IfErr result (HasLoadFault model.now ruled.now bytes.now) }
    // A line of version 1 has on day k + 73,049 what is written for day k, before these days what is written for day 0, and after
    // them what is written last.
    ensures raised { FirstIsRaised }
{
    first_is_raised();
    let Some(value) = value_of_bytes(alloc, bytes)? else {
        return Err(LoadFault::NotJson);
    };
    let Some(entries) = entries_in(alloc, &value)? else {
        return Err(LoadFault::Shape);
    };
    let loaded = load_entries(alloc, model, ruled, entries)?;
    Ok(loaded)
}

/// Loads what a saved case has.
fn load_entries(
    alloc: Global,
    model: &Model,
    ruled: &Ruled,
    entries: Entries,
) -> Result<Loaded, LoadFault>
    ensures faultless { IfOk result (λ l. meant.least_of (meant.refusals_of model.now ruled.now (seen entries)) ≡ None) }
    ensures case { IfOk result (λ l. l.case ≡ meant.case_of model.now (seen entries)) }
    ensures origin { IfOk result (λ l. l.origin ≡ meant.origin_of model.now entries.version) }
    ensures fits { IfOk result (λ l. Fits (shape_of model.now) ruled.now l.case) }
    ensures fault { IfErr result (λ e. e ≢ faults.NoMemory → meant.least_of (meant.refusals_of model.now ruled.now (seen entries)) ≡ Some e) }
{
    let lists = lists_of(alloc, model, &entries.lists)?;
    let order = live_order(alloc, model, &lists)?;
    let living = Living::from_order(alloc, order)?;
    let refusals = entry_refusals(alloc, model, ruled, &living, &entries)?;
    if let Some(fault) = least_of(&refusals) {
        return Err(fault);
    }
    let mut case = case_of_lists(alloc, model, ruled, &lists)?;
    put_answers(alloc, model, ruled, entries.answers, &mut case)?;
    let origin = origin_of(model, entries.version);
    Ok(Loaded { case, origin })
}

fn origin_of(model: &Model, version: Version) -> Origin
    ensures { result ≡ meant.origin_of model.now version }
{
    match version {
        Version::First => Origin::First,
        Version::Second(number) => origin_by(model, number),
    }
}

fn origin_by(model: &Model, number: u64) -> Origin
    ensures { result ≡ meant.origin_by model.now number }
{
    if number == digest(model) {
        Origin::Same
    } else {
        Origin::Other
    }
}
