// Findings as one JSON document.
ghost use Rattle.std.specs.Prelude.{◌≡◌, map, IfOk};
ghost use Rattle.serde_json.specs.View.{view};
ghost use Rattle.opa_rules.specs.Describing.Parts.{list_data};
ghost use Rattle.opa_rules.specs.Reviewing.Findings.{reviewed_json};
ghost use Rattle.opa_rules.specs.Reviewing.Json as meant;

use crate::describing::{file_name, list_json, text_json, text_of};
use crate::reviewing::finding::Finding;
use crate::reviewing::gathering::findings;
use crate::reviewing::printed::first_ones;
use crate::reviewing::words::{file_of, level_of, level_text, line_of, words_of};
use opa_io::NoMemory;
use opa_tree::Rulebase;
use serde_json::{Map, Value as Json, put};
use std::alloc::Global;

fn finding_json(alloc: Global, base: &Rulebase, finding: Finding) -> Result<Json, NoMemory>
    ensures { IfOk result (λ v. view v ≡ meant.finding_data base.now finding) }
{
    let file = text_json(
        alloc,
        file_name(base.files.as_slice(), file_of(finding) as usize),
    )?;
    let level = text_json(alloc, level_text(level_of(finding)))?;
    let line = Json::from(u64::from(line_of(finding)));
    let words = Json::String(words_of(alloc, base, finding)?);
    let mut members = Map::new(alloc);
    put(&mut members, alloc, "file", file)?;
    put(&mut members, alloc, "level", level)?;
    put(&mut members, alloc, "line", line)?;
    put(&mut members, alloc, "words", words)?;
    Ok(Json::Object(members))
}

fn findings_json(alloc: Global, base: &Rulebase, findings: &[Finding]) -> Result<Json, NoMemory>
    ensures { IfOk result (λ v. view v ≡ list_data (map (meant.finding_data base.now) findings.now)) }
{
    let mut items = Vec::new(alloc);
    for finding in findings {
        items.push(finding_json(alloc, base, *finding)?)?;
    }
    Ok(list_json(items))
}

/// What sort of document this is.
fn format_json(alloc: Global) -> Result<Json, NoMemory>
    ensures { IfOk result (λ v. view v ≡ meant.format_data) }
{
    let name = text_json(alloc, "sennabasket review")?;
    let mut members = Map::new(alloc);
    put(&mut members, alloc, "name", name)?;
    put(&mut members, alloc, "version", Json::from(1u64))?;
    Ok(Json::Object(members))
}

fn document(alloc: Global, found: Json, rulebase: Json) -> Result<Json, NoMemory>
    ensures { IfOk result (λ v. view v ≡ meant.review_with (view found) (view rulebase)) }
{
    let format = format_json(alloc)?;
    let mut members = Map::new(alloc);
    put(&mut members, alloc, "findings", found)?;
    put(&mut members, alloc, "format", format)?;
    put(&mut members, alloc, "rulebase", rulebase)?;
    Ok(Json::Object(members))
}

/// The document of these findings.
#[tactic(auto, using(crate::proofs::reviewing::JsonLaws::review_is))]
fn document_of(alloc: Global, base: &Rulebase, findings: &[Finding]) -> Result<Json, NoMemory>
    ensures { IfOk result (λ v. view v ≡ meant.review_data base.now findings.now) }
{
    let found = findings_json(alloc, base, findings)?;
    let rulebase = text_json(alloc, file_name(base.files.as_slice(), 0))?;
    let json = document(alloc, found, rulebase)?;
    Ok(json)
}

/// What is worth a look in a rulebase, as one JSON document, and a line feed.
pub(crate) fn review_json(alloc: Global, base: &Rulebase) -> Result<Vec<u8>, NoMemory>
    ensures { IfOk result (λ b. b.items ≡ reviewed_json base.now) }
{
    let all = findings(alloc, base)?;
    let value = document_of(alloc, base, first_ones(all.as_slice()))?;
    Ok(text_of(alloc, &value)?)
}
