// What is counted of a case.
ghost use Rattle.std.specs.Prelude.{◌≡◌, length, IfOk};
ghost use Rattle.opa_mean.specs.Changes.{slots as slots_of_case};
ghost use Rattle.opa_mean.specs.Given.{base_of, facts_of};
ghost use Rattle.opa_reply.specs.Reporting.Stats as meant;

use opa_io::NoMemory;
use opa_mean::{Held, slots_counted};
use std::alloc::Global;

/// `instances I answers A lists L conclusions K dirty D`, where the last change reached D slots.
pub fn stats_told<H: Held>(alloc: Global, held: &H, dirty: u64) -> Result<Vec<u8>, NoMemory>
    ensures { IfOk result (λ t. t.items ≡ meant.stats_told (H.rules held.now) (H.held held.now) dirty) }
{
    let conclusions = conclusions(held);
    let case = held.case();
    let text = counted(
        alloc,
        case.instances(),
        case.answers(),
        case.lists(),
        conclusions,
        dirty,
    )?;
    Ok(text)
}

fn counted(
    alloc: Global,
    instances: u64,
    answers: u64,
    lists: u64,
    conclusions: u64,
    dirty: u64,
) -> Result<Vec<u8>, NoMemory>
    ensures { IfOk result (λ t. t.items ≡ meant.counted instances answers lists conclusions dirty) }
{
    let case = format!(in alloc;
        "instances {} answers {} lists {}",
        instances, answers, lists
    )?;
    let text = format!(in alloc;
        "{} conclusions {} dirty {}\n",
        case.as_str(),
        conclusions,
        dirty
    )?;
    Ok(text.into_bytes())
}

/// How many slots are live.
fn conclusions<H: Held>(held: &H) -> u64
    ensures { result ≡ length (slots_of_case (base_of (H.rules held.now)) (facts_of (H.held held.now))) }
{
    slots_counted();
    let base = held.base();
    held.case().slots(&base.model, &base.ruled)
}
