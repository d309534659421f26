// All questions of a point at a day, step by step.
ghost use Rattle.std.specs.Prelude.{◌≡◌, [], ◌<◌, false, None, Some, IfOk, OnOk, List as Seq};
ghost use Rattle.opa_case.specs.Cases.{IsLive};
ghost use Rattle.opa_case.specs.declared.question.Question.TheVariants as question;
ghost use Rattle.opa_date.specs.declared.TheConstants.{DAYS};
ghost use Rattle.opa_mean.specs.Next.{first_or};
ghost use Rattle.opa_mean.specs.Sameness.{same_question};
ghost use Rattle.opa_need.specs.Finding.{Grows, added};
ghost use Rattle.opa_need.specs.Noted.{GoesOn};
ghost use Rattle.opa_need.specs.Steps.{GivesWay, IsReady, LeadsOn, Settles, point_needs};
ghost use Rattle.opa_need.specs.declared.steps.Step.{Step as Steps};
ghost use Rattle.opa_need.specs.declared.steps.Step.TheVariants as step;
ghost use Rattle.opa_tree.specs.FirstOnes.{with_new};
ghost use Rattle.opa_tree.specs.Rules as rules;

use crate::found::Found;
use crate::looking::{again, rule_of};
use crate::noted::{NotedTree, note_tree};
use crate::passing::take_or_pass;
use crate::putting::{take_members, take_part, take_parts};
use crate::runs::{Run, Runs, add_run, run_of};
use crate::stays::open_from;
use crate::steps::Step;
use crate::untils::{settled, settled_part};
use opa_case::{InstanceId, Question};
use opa_cells::Cells;
use opa_date::DAYS;
use opa_io::{List, NoMemory};
use opa_mean::{Held, alone};
use opa_model::{AttrId, RelId};
use opa_tree::{Expr, Rule};
use std::alloc::Global;

/// The questions of a point at a day, each once; or, where only the first is wanted, some of them from the first one on.
pub(crate) fn questions<H: Held>(
    alloc: Global,
    held: &H,
    attr: AttrId,
    inst: &InstanceId,
    day: u32,
    first: bool,
) -> Result<List<Question>, NoMemory>
    requires day { day < DAYS }
    requires live { IsLive (H.held held.now) inst.now }
    ensures whole { IfOk result (λ found. first ≡ false → found ≡ added [] (point_needs (H.rules held.now) (H.held held.now) attr inst.now day)) }
    ensures front { IfOk result (λ found. first_or found None ≡ first_or (added [] (point_needs (H.rules held.now) (H.held held.now) attr inst.now day)) None) }
{
    let mut found = Found::new(alloc);
    let mut runs = Cells::new(alloc);
    let mut noted = Vec::new(alloc);
    let mut steps = List::new(alloc);
    let from = inst.copy(alloc)?;
    steps.push(Step::Point(attr, from, day))?;
    for _ in 0..u64::MAX {
        if first && found.len() > 0 {
            return Ok(found.into_list());
        }
        match steps.pop() {
            None => return Ok(found.into_list()),
            Some(mut step) => {
                take(
                    alloc, held, &mut step, &mut steps, &mut found, &mut runs, &mut noted,
                )?;
            }
        }
    }
    Err(NoMemory)
}

/// Takes a step.
fn take<'a, H: Held>(
    alloc: Global,
    held: &'a H,
    step: &mut Step<'a>,
    steps: &mut List<Step<'a>>,
    found: &mut Found,
    runs: &mut Runs,
    noted: &mut Vec<NotedTree<'a>>,
) -> Result<(), NoMemory>
    requires { IsReady (H.rules held.now) (H.held held.now) step.old }
    ensures { OnOk result (GoesOn (H.rules held.now) (H.held held.now) step.old found.old runs.old noted.old.items steps.old found.new runs.new noted.new.items steps.new) }
{
    match step {
        Step::Tree(tree, enclosing, day) => {
            take_or_pass(alloc, held, steps, *tree, enclosing, *day, noted)
        }
        Step::Part(part, enclosing, day) => {
            take_part(alloc, held, steps, *part, enclosing, *day)
        }
        Step::Point(attr, inst, day) => {
            take_point(alloc, held, steps, *attr, inst, *day, found, runs)
        }
        Step::Listed(rel, inst) => ask_list(alloc, found, *rel, inst),
        Step::Days(part, enclosing, first, end) => {
            take_days(alloc, held, steps, *part, enclosing, *first, *end)
        }
        Step::AfterDay(part, enclosing, day, end) => {
            leave_day(
                alloc, held, steps, *part, enclosing, *day, *end, found, runs,
            )
        }
        Step::AfterPoint(attr, inst, day) => {
            let last = steps.len() == 0;
            leave_point(alloc, held, *attr, inst, *day, last, found, runs)
        }
        Step::AfterTree(tree, enclosing, day) => note_tree(alloc, noted, *tree, enclosing, *day),
        Step::Parts(parts, enclosing, day) => {
            take_parts(alloc, held, steps, *parts, enclosing, *day)
        }
        Step::Members(quant, target, names, parts, values, enclosing, day) => {
            take_members(
                alloc, held, steps, *quant, *target, *names, *parts, values, enclosing, *day,
            )
        }
    }
}

/// A list is asked for.
fn ask_list(alloc: Global, found: &mut Found, rel: RelId, inst: &InstanceId) -> Result<(), NoMemory>
    ensures { OnOk result (found.new ≡ with_new same_question found.old (question.Members rel inst.now)) }
{
    let inst = inst.copy(alloc)?;
    found.add(alloc, Question::Members(rel, inst))?;
    Ok(())
}

/// Days: the first of them on which the part isn't known, and what is behind it.
fn take_days<'a, H: Held>(
    alloc: Global,
    held: &'a H,
    steps: &mut List<Step<'a>>,
    part: &'a Expr,
    enclosing: &List<InstanceId>,
    first: u32,
    end: u32,
) -> Result<(), NoMemory>
    ensures { OnOk result (GivesWay (H.rules held.now) (H.held held.now) (step.Days part.entry enclosing.now first end) steps.old steps.new) }
{
    let from = open_from(alloc, held, part, enclosing, first)?;
    if from >= end {
        return Ok(());
    }
    put_day(alloc, held, steps, part, enclosing, from, end)?;
    Ok(())
}

/// The first of some days, and what is behind it.
fn put_day<'a, H: Held>(
    alloc: Global,
    _held: &H,
    steps: &mut List<Step<'a>>,
    part: &'a Expr,
    enclosing: &List<InstanceId>,
    first: u32,
    end: u32,
) -> Result<(), NoMemory>
    requires { first < end }
    ensures { OnOk result (GivesWay (H.rules _held.now) (H.held _held.now) (step.Days part.entry enclosing.now first end) steps.old steps.new) }
{
    let behind = again(alloc, enclosing)?;
    steps.push(Step::AfterDay(part, behind, first, end))?;
    let at_first = again(alloc, enclosing)?;
    steps.push(Step::Part(part, at_first, first))?;
    Ok(())
}

/// Days behind one whose questions are found: those on which nothing new is needed are passed over.
fn leave_day<'a, H: Held>(
    alloc: Global,
    held: &H,
    steps: &mut List<Step<'a>>,
    part: &'a Expr,
    enclosing: &List<InstanceId>,
    day: u32,
    end: u32,
    found: &Found,
    runs: &Runs,
) -> Result<(), NoMemory>
    requires day { day < DAYS }
    ensures { OnOk result (LeadsOn (H.rules held.now) (H.held held.now) (step.AfterDay part.entry enclosing.now day end) found.now runs.now steps.old found.now runs.now steps.new) }
{
    let until = settled_part(alloc, held, found, runs, part, enclosing, day)?;
    let from = until.max(day + 1);
    let behind = again(alloc, enclosing)?;
    steps.push(Step::Days(part, behind, from, end))?;
    Ok(())
}

/// A point: the question itself where it has no rule. Else its rule's tree is looked at, unless a run has the day.
fn take_point<'a, H: Held>(
    alloc: Global,
    held: &'a H,
    steps: &mut List<Step<'a>>,
    attr: AttrId,
    inst: &InstanceId,
    day: u32,
    found: &mut Found,
    runs: &Runs,
) -> Result<(), NoMemory>
    requires day { day < DAYS }
    requires live { IsLive (H.held held.now) inst.now }
    ensures leads { OnOk result (LeadsOn (H.rules held.now) (H.held held.now) (step.Point attr inst.now day) found.old runs.now steps.old found.new runs.now steps.new) }
    ensures grows { OnOk result (Grows found.old found.new) }
{
    let _case = held.case();
    match rule_of(held, attr) {
        None => ask_point(alloc, found, attr, inst),
        Some(rule) => match run_of(runs, attr, inst, day) {
            Some(_) => Ok(()),
            None => enter(alloc, held, steps, attr, rule, inst, day),
        },
    }
}

/// A point is asked for.
fn ask_point(
    alloc: Global,
    found: &mut Found,
    attr: AttrId,
    inst: &InstanceId,
) -> Result<(), NoMemory>
    ensures { OnOk result (found.new ≡ with_new same_question found.old (question.Attr attr inst.now)) }
{
    let inst = inst.copy(alloc)?;
    found.add(alloc, Question::Attr(attr, inst))?;
    Ok(())
}

/// A point with a rule: its tree comes first, and then it is noted that the questions of the point are found.
fn enter<'a, H: Held>(
    alloc: Global,
    held: &H,
    steps: &mut List<Step<'a>>,
    attr: AttrId,
    rule: &'a Rule,
    inst: &InstanceId,
    day: u32,
) -> Result<(), NoMemory>
    requires ruled { Some rule.now ≡ rules.rule_of (H.rules held.now).rules attr }
    ensures { OnOk result (GivesWay (H.rules held.now) (H.held held.now) (step.Point attr inst.now day) steps.old steps.new) }
{
    let _case = held.case();
    let behind = inst.copy(alloc)?;
    steps.push(Step::AfterPoint(attr, behind, day))?;
    let enclosing = alone(alloc, inst)?;
    steps.push(Step::Tree(&rule.expr, enclosing, day))?;
    Ok(())
}

/// A point all of whose questions at a day are found: a run more of it is noted.
fn leave_point<H: Held>(
    alloc: Global,
    held: &H,
    attr: AttrId,
    inst: &InstanceId,
    day: u32,
    last: bool,
    found: &Found,
    runs: &mut Runs,
) -> Result<(), NoMemory>
    requires day { day < DAYS }
    ensures { OnOk result ((steps : Seq Steps) → LeadsOn (H.rules held.now) (H.held held.now) (step.AfterPoint attr inst.now day) found.now runs.old steps found.now runs.new steps) }
{
    let until = point_until(alloc, held, found, runs, attr, inst, day, last)?;
    let run = Run {
        first: day,
        end: until.max(day + 1),
    };
    add_run(alloc, runs, attr, inst, run)?;
    Ok(())
}

/// The day below which all that a point needs is found, from a day on which it is. Of the last point nobody asks, so no
/// later day is looked for.
fn point_until<H: Held>(
    alloc: Global,
    held: &H,
    found: &Found,
    runs: &Runs,
    attr: AttrId,
    inst: &InstanceId,
    day: u32,
    last: bool,
) -> Result<u32, NoMemory>
    ensures { IfOk result (Settles (H.rules held.now) (H.held held.now) found.now runs.now (point_needs (H.rules held.now) (H.held held.now) attr inst.now) day) }
{
    let _case = held.case();
    if last {
        return Ok(day);
    }
    match rule_of(held, attr) {
        None => Ok(day),
        Some(rule) => {
            let enclosing = alone(alloc, inst)?;
            let until = settled(alloc, held, found, runs, &rule.expr, &enclosing, day)?;
            Ok(until)
        }
    }
}
