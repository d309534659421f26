// A line is answered.
ghost use Rattle.std.specs.Prelude.{◌≡◌, false, Option, IfOk};
ghost use Rattle.opa_io.specs.Outside.{Files};
ghost use Rattle.opa_cases.specs.Answering.{holding};
ghost use Rattle.opa_cases.specs.Caseload.{RepliesLine, RepliesUnnamed, RepliesNamed, Serves, is_full};

use crate::carrying::respond;
use crate::caseload::Caseload;
use crate::naming::{behind_name, named};
use crate::orders::read_order;
use crate::texts::told;
use opa_io::{NoMemory, Steps, Txt};
use opa_mean::Held;
use opa_reply::text_of;
use opa_script::is_idle;
use std::alloc::Global;
use std::sync::ledger::Ledger;

/// What a line prints that names no case.
fn unnamed<L: Ledger>(
    alloc: Global,
    caseload: &Caseload<L>,
    line: &[u8],
) -> Result<Vec<u8>, NoMemory>
    ensures { IfOk result (λ t. (files : Option Files) → RepliesUnnamed (holding caseload.now files) line.now t.items (holding caseload.now files)) }
{
    if is_idle(text_of(line)) {
        return Ok(Vec::new(alloc));
    }
    let text = told(alloc, b"refused: line\n")?;
    Ok(text)
}

/// Carries out the rest of a line of a case.
fn serve<L: Ledger>(
    alloc: Global,
    caseload: &mut Caseload<L>,
    steps: &mut Steps<L>,
    name: &Txt,
    rest: &str,
) -> Result<Vec<u8>, NoMemory>
    requires { (files : Option Files) → is_full (holding caseload.old files).open_cases name.now ≡ false }
    ensures { IfOk result (λ t. (files : Option Files) → Serves (holding caseload.old files) name.now rest.now t.items (holding caseload.new files)) }
{
    let mut current = caseload.turn_to(alloc, name, steps)?;
    let read = read_order(alloc, &caseload.session.base().model, rest);
    let said = respond(alloc, &mut caseload.session, &mut current, steps, read)?;
    let text = behind_name(alloc, name, &said.text)?;
    caseload.keep(current, said.closed);
    Ok(text)
}

/// What a line prints of the case that it names.
fn answer_named<L: Ledger>(
    alloc: Global,
    caseload: &mut Caseload<L>,
    steps: &mut Steps<L>,
    name: &Txt,
    rest: &str,
) -> Result<Vec<u8>, NoMemory>
    ensures { IfOk result (λ t. (files : Option Files) → RepliesNamed (holding caseload.old files) name.now rest.now t.items (holding caseload.new files)) }
{
    if caseload.is_full(name) {
        let text = behind_name(alloc, name, b"refused: cases\n")?;
        return Ok(text);
    }
    let text = serve(alloc, caseload, steps, name, rest)?;
    Ok(text)
}

/// What a line prints.
pub(crate) fn answer<L: Ledger>(
    alloc: Global,
    caseload: &mut Caseload<L>,
    steps: &mut Steps<L>,
    line: &[u8],
) -> Result<Vec<u8>, NoMemory>
    ensures { IfOk result (λ t. (files : Option Files) → RepliesLine (holding caseload.old files) line.now t.items (holding caseload.new files)) }
{
    match named(alloc, line) {
        Err(_) => Err(NoMemory),
        Ok(None) => {
            let text = unnamed(alloc, caseload, line)?;
            Ok(text)
        }
        Ok(Some(found)) => {
            let text = answer_named(alloc, caseload, steps, &found.name, found.rest)?;
            Ok(text)
        }
    }
}
