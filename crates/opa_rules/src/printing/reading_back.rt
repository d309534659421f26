// What is printed is read back, and compared with what was printed.
ghost use Rattle.std.specs.Prelude.{◌≡◌, Some, Ok, IsTrue, IfOk, IfSome};
ghost use Rattle.opa_rulebase.specs.Loading.{Opens};
ghost use Rattle.opa_rules.specs.Printing.Prints.{IsPrintOf};
ghost use Rattle.opa_rules.specs.Printing.Shelves.{one_file};

use crate::printing::same_rules::is_same;
use crate::printing::shelves::shelf_with;
use crate::printing::whole::whole_text;
use opa_io::NoMemory;
use opa_rulebase::{LoadError, load_rulebase};
use opa_tree::Rulebase;
use std::alloc::Global;

/// The rulebase of one file, if it is accepted.
#[tactic(auto, using(crate::proofs::PrintLaws::opens_on))]
fn opened(alloc: Global, name: &str, text: &[u8]) -> Result<Option<Rulebase>, NoMemory>
    ensures { IfOk result (λ r. IfSome r (λ base. Opens (one_file name.now text.now) name.now (Ok base))) }
{
    let mut shelf = shelf_with(alloc, name, text)?;
    match load_rulebase(alloc, &mut shelf, name) {
        Ok(base) => Ok(Some(base)),
        Err(error) => match error {
            LoadError::NoMemory => Err(NoMemory),
            LoadError::Refused { .. } | LoadError::ReadFault => Ok(None),
        },
    }
}

/// Whether a file of this text opens the same rulebase.
fn reads_back(alloc: Global, name: &str, base: &Rulebase, text: &[u8]) -> Result<bool, NoMemory>
    ensures { IfOk result (λ b. IsTrue b → IsPrintOf name.now base.now text.now) }
{
    match opened(alloc, name, text)? {
        Some(other) => Ok(is_same(base, &other)),
        None => Ok(false),
    }
}

/// The rulebase as one file of this name, if it can be printed as one that is accepted.
pub(crate) fn printed(
    alloc: Global,
    name: &str,
    base: &Rulebase,
) -> Result<Option<Vec<u8>>, NoMemory>
    ensures { IfOk result (λ r. IfSome r (λ text. IsPrintOf name.now base.now text.items)) }
{
    let text = whole_text(alloc, base)?;
    if reads_back(alloc, name, base, text.as_slice())? {
        Ok(Some(text))
    } else {
        Ok(None)
    }
}
