// How findings are printed.
ghost use Rattle.std.specs.Prelude.{◌≡◌, ◌++◌, take, OnOk, IfOk};
ghost use Rattle.std.specs.String.{string_bytes};
ghost use Rattle.opa_rules.specs.declared.reviewing.finding.Finding.TheVariants as finding;
ghost use Rattle.opa_rules.specs.Reviewing.Findings.{reviewed};
ghost use Rattle.opa_rules.specs.Reviewing.Printed as meant;

use crate::describing::file_name;
use crate::reviewing::finding::{Finding, MOST_FINDINGS};
use crate::reviewing::gathering::findings;
use crate::reviewing::words::{file_of, level_of, level_text, line_of, words_of};
use opa_io::NoMemory;
use opa_tree::Rulebase;
use opa_words::printed_name;
use std::alloc::Global;

/// Puts the line of a finding behind a text.
fn push_finding(
    alloc: Global,
    out: &mut String,
    base: &Rulebase,
    finding: Finding,
) -> Result<(), NoMemory>
    ensures { OnOk result (string_bytes out.new ≡ string_bytes out.old ++ meant.finding_text base.now finding) }
{
    let name = printed_name(
        alloc,
        file_name(base.files.as_slice(), file_of(finding) as usize),
    )?;
    let words = words_of(alloc, base, finding)?;
    let text = format!(in alloc;
        "{}:{}: {}: {}\n",
        name.as_str(),
        line_of(finding),
        level_text(level_of(finding)),
        words.as_str()
    )?;
    out.push_str(text.as_str())?;
    Ok(())
}

/// The findings that are printed.
pub(crate) fn first_ones(findings: &[Finding]) -> &[Finding]
    ensures { result.now ≡ take 100 findings.now }
{
    if findings.len() > MOST_FINDINGS {
        &findings[..MOST_FINDINGS]
    } else {
        findings
    }
}

/// Puts the lines of findings behind a text.
fn push_findings(
    alloc: Global,
    out: &mut String,
    base: &Rulebase,
    findings: &[Finding],
) -> Result<(), NoMemory>
    ensures { OnOk result (string_bytes out.new ≡ string_bytes out.old ++ meant.findings_text base.now findings.now) }
{
    for finding in findings {
        push_finding(alloc, out, base, *finding)?;
    }
    Ok(())
}

/// What is worth a look in a rulebase, one line a finding.
pub(crate) fn review_text(alloc: Global, base: &Rulebase) -> Result<Vec<u8>, NoMemory>
    ensures { IfOk result (λ b. b.items ≡ reviewed base.now) }
{
    let all = findings(alloc, base)?;
    let mut out = String::new(alloc);
    push_findings(alloc, &mut out, base, first_ones(all.as_slice()))?;
    Ok(out.into_bytes())
}
