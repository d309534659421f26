// The fresh determination, from the answers alone.
ghost use Rattle.std.specs.Prelude.{◌≡◌, ◌<◌, IfOk, OnOk};
ghost use Rattle.opa_case.specs.Cases.{CaseView, IsLive};
ghost use Rattle.opa_case.specs.Fits.{Fits};
ghost use Rattle.opa_case.specs.Shapes.{shape_of};
ghost use Rattle.opa_date.specs.declared.TheConstants.{DAYS};
ghost use Rattle.opa_line.specs.Lines.{StandsFor};
ghost use Rattle.opa_mean.specs.Frees.{IsFree};
ghost use Rattle.opa_mean.specs.Given.{base_of, facts_of};
ghost use Rattle.opa_mean.specs.Mean.{mean, mean_by};
ghost use Rattle.opa_mean.specs.Places.{owner_of};
ghost use Rattle.opa_mean.specs.Derivations.{derived};
ghost use Rattle.opa_mean.specs.Rulebases.{IsCompletion};
ghost use Rattle.opa_value.specs.Below.{IsBelow};
ghost use Rattle.opa_mean.specs.Tables.{AddsLine, AreLines, table_look};
ghost use Rattle.opa_window.specs.Days.{day_value};
ghost use Rattle.opa_tree.specs.Ranks.{rank_at};

use crate::Look;
use crate::plain::rule_line;
use crate::questions::reads_over;
use opa_case::{Case, InstanceId, Question};
use opa_cells::Cells;
use opa_date::DAYS;
use opa_io::{List, NoMemory, Txt};
use opa_line::Line;
use opa_model::{AttrId, RelId};
use opa_tree::Rulebase;
use opa_value::Value;
use std::alloc::Global;

/// Lines that were determined, beside the lists and containers of a case.
#[derive(Clone, Copy)]
struct Table<'a> {
    case: &'a Case,
    lines: &'a Cells<Line<Value>>,
}

impl<'a> Look for Table<'a> {
    ghost use Rattle.opa_mean.specs.Tables.{table_look};

    ghost looks = { λ t. table_look t.case.now t.lines.now };

    fn line(&self, attr: AttrId, inst: &InstanceId) -> Option<&Line<Value>> {
        self.lines.get(attr.0, inst)
    }

    fn members(&self, rel: RelId, inst: &InstanceId) -> Option<&List<Txt>> {
        self.case.list_of(rel, inst)
    }

    fn container(&self, inst: &InstanceId) -> Option<&InstanceId> {
        self.case.container_of(inst)
    }
}

/// The value of an attribute for an instance at a day: what the rules conclude from the answers of the case. It knows
/// nothing else, and takes as long as it takes.
pub fn value_on(
    alloc: Global,
    base: &Rulebase,
    case: &Case,
    attr: AttrId,
    inst: &InstanceId,
    day: u32,
) -> Result<Value, NoMemory>
    requires fits { Fits (shape_of base.now.model) base.now.ruled case.now }
    requires day { day < DAYS }
    requires live { IsLive case.now inst.now }
    requires owner { inst.now.entity.0 ≡ owner_of (shape_of base.now.model) attr }
    ensures value { IfOk result (λ v. v ≡ mean (base_of base.now) (facts_of case.now) attr inst.now day) }
    ensures monotone { IfOk result (λ v. IsFree (base_of base.now) attr → (more : CaseView) →
        IsCompletion base.now case.now more → IsBelow v (mean (base_of base.now) (facts_of more) attr inst.now day)) }
{
    fresh_value(alloc, base, case, attr, inst, day)
}

/// The same of any attribute, instance and case.
fn fresh_value(
    alloc: Global,
    base: &Rulebase,
    case: &Case,
    attr: AttrId,
    inst: &InstanceId,
    day: u32,
) -> Result<Value, NoMemory>
    requires { day < DAYS }
    ensures { IfOk result (λ v. v ≡ mean (base_of base.now) (facts_of case.now) attr inst.now day) }
{
    let line = determine(
        alloc,
        base,
        case,
        attr,
        inst,
        u64::from(rank_of(base, attr)) + 1,
    )?;
    line.at(day).copy(alloc)
}

fn rank_of(base: &Rulebase, attr: AttrId) -> u32
    ensures { result ≡ rank_at base.now.ranks attr }
{
    let ranks = base.ranks.as_slice();
    let place = attr.0 as usize;
    if place < ranks.len() { ranks[place] } else { 0 }
}

/// The line of an attribute of a rank below a number.
#[cycle(determining)]
fn determine(
    alloc: Global,
    base: &Rulebase,
    case: &Case,
    attr: AttrId,
    inst: &InstanceId,
    below: u64,
) -> Result<Line<Value>, NoMemory>
    ensures { IfOk result (StandsFor DAYS (mean_by (base_of base.now) (facts_of case.now) below attr inst.now)) }
{
    if below == 0 {
        return Line::constant(alloc, Value::Uncertain);
    }
    if base.rules.of(attr).is_none() {
        return answer_line(alloc, case, attr, inst);
    }
    let asked = reads_over(alloc, base, case, attr, inst)?;
    let lines = determine_all(alloc, base, case, asked.as_slice(), below - 1)?;
    concluded_line(alloc, base, case, attr, inst, &lines)
}

/// The lines of attributes that are asked.
#[cycle(determining)]
fn determine_all(
    alloc: Global,
    base: &Rulebase,
    case: &Case,
    asked: &[Question],
    below: u64,
) -> Result<Cells<Line<Value>>, NoMemory>
    ensures { IfOk result (AreLines (base_of base.now) (facts_of case.now) below asked.now) }
{
    let mut lines = Cells::new(alloc);
    for question in asked {
        determine_one(alloc, base, case, question, below, &mut lines)?;
    }
    Ok(lines)
}

/// Adds the line of an attribute that is asked.
#[cycle(determining)]
fn determine_one(
    alloc: Global,
    base: &Rulebase,
    case: &Case,
    question: &Question,
    below: u64,
    lines: &mut Cells<Line<Value>>,
) -> Result<(), NoMemory>
    ensures { OnOk result (AddsLine (base_of base.now) (facts_of case.now) below question.now lines.old lines.new) }
{
    if let Question::Attr(attr, inst) = question {
        let line = determine(alloc, base, case, *attr, inst, below)?;
        lines.insert(attr.0, inst.copy(alloc)?, line)?;
    }
    Ok(())
}

/// The line of a rule over lines that were determined.
fn concluded_line(
    alloc: Global,
    base: &Rulebase,
    case: &Case,
    attr: AttrId,
    inst: &InstanceId,
    lines: &Cells<Line<Value>>,
) -> Result<Line<Value>, NoMemory>
    ensures { IfOk result (StandsFor DAYS (derived (base_of base.now) (table_look case.now lines.now) attr inst.now)) }
{
    rule_line(alloc, base, attr, inst, &Table { case, lines })
}

/// The answer of an attribute, unknown on every day where there is none.
fn answer_line(
    alloc: Global,
    case: &Case,
    attr: AttrId,
    inst: &InstanceId,
) -> Result<Line<Value>, NoMemory>
    ensures { IfOk result (StandsFor DAYS ((facts_of case.now).answer attr inst.now)) }
{
    match case.answer_of(attr, inst) {
        None => Line::constant(alloc, Value::Unknown),
        Some(line) => same_line(alloc, line),
    }
}

/// An equal line.
fn same_line(alloc: Global, line: &Line<Value>) -> Result<Line<Value>, NoMemory>
    ensures { IfOk result (StandsFor DAYS (day_value line.now)) }
{
    line.map(alloc, |value| value.copy(alloc))
}
