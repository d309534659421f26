// The verifier.
ghost use Rattle.std.specs.Prelude.{◌≡◌, IfOk};
ghost use Rattle.opa_verify.specs.Verdict.Judging.{IsSupported, Judges};
ghost use Rattle.opa_verify.specs.Verdict.OfCases.{IsOfCase};
ghost use Rattle.opa_verify.specs.Verdict.Telling.{Tells};
ghost use Rattle.opa_verify.specs.declared.verdict.verdict.Verdict.TheVariants as verdicts;

use crate::spelling::{Reading, read_report};
use crate::verdict::judging::judge;
use crate::verdict::telling::{Told, refused};
use crate::verdict::verdict::Verdict;
use opa_io::NoMemory;
use opa_tree::Rulebase;
use std::alloc::Global;

/// Whether the text of a report holds up the value that it prints for the point of its first line: its lines are looked at
/// alone, without a case.
pub fn verify(alloc: Global, base: &Rulebase, report: &[u8]) -> Result<Verdict, NoMemory>
    ensures judged { IfOk result (Judges base.now report.now) }
    ensures supported { IfOk result (λ v. v ≡ verdicts.Yes → IsSupported base.now report.now) }
    ensures complete { IfOk result (λ v. IsOfCase base.now report.now → v ≡ verdicts.Yes) }
{
    let told = tell(alloc, base, report)?;
    Ok(told.verdict)
}

/// The verdict, with the line that is printed of it.
pub fn tell(alloc: Global, base: &Rulebase, report: &[u8]) -> Result<Told, NoMemory>
    ensures { IfOk result (λ t. Tells base.now report.now t.verdict t.text) }
{
    match read_report(alloc, report)? {
        Reading::BrokenAt(line) => {
            let told = refused(alloc, Verdict::Syntax(line))?;
            Ok(told)
        }
        Reading::Whole(spelled) => judge(alloc, base, report, &spelled),
    }
}
