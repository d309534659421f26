// The mode `check`.
ghost use Rattle.std.specs.Prelude.{◌≡◌, length, IfOk};
ghost use Rattle.opa_top.specs.Checking.{accepted_text as text_of_accepted, Checks, IsTold};

use opa_io::{NoMemory, Shelf, Sink, Status, Txt, write_all_of};
use opa_rulebase::{LoadError, load_rulebase};
use opa_tree::Rulebase;
use std::alloc::Global;

/// What is written of an accepted rulebase that has so many attributes and rules.
fn counts_text(alloc: Global, attributes: u32, rules: usize) -> Result<Txt, NoMemory>
    ensures { IfOk result (λ t. t ≡ text_of_accepted attributes rules) }
{
    let text = format!(in alloc; "accepted: {attributes} attributes, {rules} rules\n")?;
    let told = Txt::from_str(alloc, text.as_str())?;
    Ok(told)
}

/// What is written of an accepted rulebase.
fn accepted_text(alloc: Global, base: &Rulebase) -> Result<Txt, NoMemory>
    ensures { IfOk result (λ t. t ≡ text_of_accepted (length base.now.model.attributes) (length base.now.rules)) }
{
    let attributes = base.model.attribute_count();
    let rules = base.rules.as_slice().len();
    let text = counts_text(alloc, attributes, rules)?;
    Ok(text)
}

/// Writes a text, and answers how that ended.
pub(crate) fn tell<K: Sink>(good: Status, out: &mut K, text: &str) -> Status
    ensures { IsTold good text.now (K.written out.old) (K.written out.new) (K.faults out.old) (K.faults out.new) result }
{
    match write_all_of(out, text.as_bytes()) {
        Ok(()) => good,
        Err(_) => Status::WriteFault,
    }
}

/// Tells whether the rulebase of this name is accepted.
pub(crate) fn check<F: Shelf, K: Sink>(
    alloc: Global,
    name: &str,
    shelf: &mut F,
    out: &mut K,
) -> Status
    ensures checks { Checks (F.files shelf.old) name.now (K.written out.old) (K.written out.new) (F.take_faults shelf.old) (F.take_faults shelf.new) (K.faults out.old) (K.faults out.new) result }
    ensures files { F.files shelf.new ≡ F.files shelf.old }
{
    match load_rulebase(alloc, shelf, name) {
        Ok(base) => {
            let text = accepted_text(alloc, &base);
            drop(base);
            match text {
                Ok(text) => tell(Status::Done, out, text.as_str()),
                Err(_) => Status::NoMemory,
            }
        }
        Err(error) => match error {
            LoadError::Refused { text, .. } => tell(Status::Refused, out, text.as_str()),
            LoadError::ReadFault => Status::ReadFault,
            LoadError::NoMemory => Status::NoMemory,
        },
    }
}
