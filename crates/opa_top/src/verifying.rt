// The mode `verify`.
ghost use Rattle.std.specs.Prelude.{◌≡◌, ◌≤◌};
ghost use Rattle.opa_top.specs.Verifying.{JudgesFile, Verifies, status_of as meant};

use crate::check::tell;
use opa_io::limits::MOST_REPORT;
use opa_io::{Shelf, Sink, Status, TakeFault};
use opa_rulebase::{LoadError, load_rulebase};
use opa_tree::Rulebase;
use opa_verify::{Verdict, tell as judge};
use std::alloc::Global;

/// Yes is Done, and each other verdict is Refused.
fn status_of(verdict: Verdict) -> Status
    ensures { result ≡ meant verdict }
{
    match verdict {
        Verdict::Yes => Status::Done,
        Verdict::Syntax(_) | Verdict::Name(_) | Verdict::NotDerived(_) => Status::Refused,
    }
}

/// Judges the report in a file, and tells what is said of it.
#[tactic(auto, using(crate::proofs::VerifyLaws::judging))]
fn judge_file<F: Shelf, K: Sink>(
    alloc: Global,
    base: &Rulebase,
    report: &str,
    shelf: &mut F,
    out: &mut K,
) -> Status
    ensures judges { JudgesFile base.now (F.files shelf.old) report.now (K.written out.old) (K.written out.new) (F.take_faults shelf.old) (F.take_faults shelf.new) (K.faults out.old) (K.faults out.new) result }
    ensures files { F.files shelf.new ≡ F.files shelf.old }
    ensures later { F.take_faults shelf.old ≤ F.take_faults shelf.new }
{
    match shelf.take(alloc, report, MOST_REPORT) {
        Ok(bytes) => match judge(alloc, base, bytes.as_slice()) {
            Ok(told) => tell(status_of(told.verdict), out, told.text.as_str()),
            Err(_) => Status::NoMemory,
        },
        Err(TakeFault::Missing) => tell(Status::Refused, out, "refused: report 1 0\n"),
        Err(TakeFault::TooLong) => tell(Status::Refused, out, "refused: report 1 0\n"),
        Err(TakeFault::Failed) => Status::ReadFault,
        Err(TakeFault::NoMemory) => Status::NoMemory,
    }
}

/// Loads a rulebase, and judges the report in a file by it.
pub(crate) fn verify<F: Shelf, K: Sink>(
    alloc: Global,
    name: &str,
    report: &str,
    shelf: &mut F,
    out: &mut K,
) -> Status
    ensures verifies { Verifies (F.files shelf.old) name.now report.now (K.written out.old) (K.written out.new) (F.take_faults shelf.old) (F.take_faults shelf.new) (K.faults out.old) (K.faults out.new) result }
    ensures files { F.files shelf.new ≡ F.files shelf.old }
{
    match load_rulebase(alloc, shelf, name) {
        Ok(base) => {
            let status = judge_file(alloc, &base, report, shelf, out);
            drop(base);
            status
        }
        Err(error) => match error {
            LoadError::Refused { text, .. } => tell(Status::Refused, out, text.as_str()),
            LoadError::ReadFault => Status::ReadFault,
            LoadError::NoMemory => Status::NoMemory,
        },
    }
}
