// The relevant questions of a goal, and the question that is asked next.
ghost use Rattle.std.specs.Prelude.{◌≡◌, ◌↔◌, false, None, IfOk, IfSome};
ghost use Rattle.opa_cells.specs.Instances.{global as global_one};
ghost use Rattle.opa_date.specs.declared.TheConstants.{DAYS};
ghost use Rattle.opa_mean.specs.Given.{base_of, facts_of};
ghost use Rattle.opa_mean.specs.Next as asks;
ghost use Rattle.opa_mean.specs.Rulebases.{value_at};
ghost use Rattle.opa_model.specs.Lookups.{goal_at};
ghost use Rattle.opa_need.specs.Completions.{OnlyNeedsDecideGoal, OnlyTheseDecideGoal};
ghost use Rattle.opa_need.specs.Goals.{IsAskedOf, IsFirstOpen, IsFirstUnknown, IsGlobal, AreAllKnown, next_of, relevant_to};

use crate::goals::until;
use crate::looking::is_unknown;
use crate::pursuit::questions;
use opa_case::{InstanceId, Question};
use opa_date::DAYS;
use opa_io::{List, NoMemory, front};
use opa_line::Line;
use opa_mean::Held;
use opa_model::AttrId;
use opa_value::Value;
use std::alloc::Global;

/// The relevant questions of the goal with a number: its needs at the first day on which it is unknown, in written order,
/// each once. None where it is unknown on no day, and none where there is no such goal.
pub fn relevant<H: Held>(alloc: Global, held: &H, goal: u32) -> Result<List<Question>, NoMemory>
    ensures questions { IfOk result (λ qs. qs ≡ relevant_to (H.rules held.now) (H.held held.now) goal) }
    ensures completions { OnlyNeedsDecideGoal (H.rules held.now) (H.held held.now) goal }
    ensures left_open { IfOk result (λ qs. OnlyTheseDecideGoal (H.rules held.now) (H.held held.now) goal qs) }
{
    let questions = relevant_questions(alloc, held, goal)?;
    Ok(questions)
}

fn relevant_questions<H: Held>(
    alloc: Global,
    held: &H,
    goal: u32,
) -> Result<List<Question>, NoMemory>
    ensures { IfOk result (λ qs. qs ≡ relevant_to (H.rules held.now) (H.held held.now) goal) }
{
    match goal_of(held, goal) {
        None => Ok(List::new(alloc)),
        Some(attr) => relevant_of(alloc, held, attr, false),
    }
}

/// The goal with a number.
fn goal_of<H: Held>(held: &H, goal: u32) -> Option<AttrId>
    ensures goal { result ≡ goal_at (H.rules held.now).model goal }
    ensures global { IfSome result (IsGlobal (H.rules held.now)) }
{
    let model = &held.base().model;
    if goal < model.goal_count() {
        Some(model.goal(goal))
    } else {
        None
    }
}

/// The questions of a goal; or, where only the first is wanted, some of them from the first one on.
fn relevant_of<H: Held>(
    alloc: Global,
    held: &H,
    attr: AttrId,
    first: bool,
) -> Result<List<Question>, NoMemory>
    requires global { IsGlobal (H.rules held.now) attr }
    ensures whole { IfOk result (λ qs. first ≡ false → qs ≡ asks.relevant (base_of (H.rules held.now)) (facts_of (H.held held.now)) attr) }
    ensures front { IfOk result (λ qs. asks.first_or qs None ≡ asks.first_or (asks.relevant (base_of (H.rules held.now)) (facts_of (H.held held.now)) attr) None) }
{
    let _case = held.case();
    let inst = InstanceId::global(alloc)?;
    match first_unknown(held, attr, &inst) {
        None => Ok(List::new(alloc)),
        Some(day) => questions(alloc, held, attr, &inst, day, first),
    }
}

/// The first day on which a goal is unknown.
fn first_unknown<H: Held>(held: &H, attr: AttrId, inst: &InstanceId) -> Option<u32>
    requires global { IsGlobal (H.rules held.now) attr }
    requires inst { inst.now ≡ global_one }
    ensures { IsFirstUnknown (value_at (H.rules held.now) (H.held held.now) attr global_one) result }
{
    let _case = held.case();
    match held.line(attr, inst) {
        None => Some(0),
        Some(line) => first_open(line),
    }
}

/// The first day on which a line is unknown.
fn first_open(line: &Line<Value>) -> Option<u32>
    ensures { IsFirstOpen line.now result }
{
    let _form = line.segments();
    let mut day = 0;
    while day < DAYS {
        if is_unknown(line.at(day)) {
            return Some(day);
        }
        day = until(line, day);
    }
    None
}

/// The question that is asked next: the first of the first goal that is unknown on some day. None exactly where every goal
/// is known on every day.
pub fn next<H: Held>(alloc: Global, held: &H) -> Result<Option<Question>, NoMemory>
    ensures question { IfOk result (λ q. q ≡ next_of (H.rules held.now) (H.held held.now)) }
    ensures none { IfOk result (λ q. (q ≡ None) ↔ AreAllKnown (H.rules held.now) (H.held held.now)) }
{
    let _case = held.case();
    let question = first_question(alloc, held)?;
    Ok(question)
}

/// The first question of the first goal that has one.
fn first_question<H: Held>(alloc: Global, held: &H) -> Result<Option<Question>, NoMemory>
    ensures { IfOk result (λ q. q ≡ next_of (H.rules held.now) (H.held held.now)) }
{
    let count = held.base().model.goal_count();
    for number in 0..count {
        let question = asked_of(alloc, held, number)?;
        if question.is_some() {
            return Ok(question);
        }
    }
    Ok(None)
}

/// The first question of the goal with a number.
fn asked_of<H: Held>(alloc: Global, held: &H, goal: u32) -> Result<Option<Question>, NoMemory>
    ensures { IfOk result (IsAskedOf (H.rules held.now) (H.held held.now) goal) }
{
    match goal_of(held, goal) {
        None => Ok(None),
        Some(attr) => {
            let asked = relevant_of(alloc, held, attr, true)?;
            first_of(alloc, &asked)
        }
    }
}

fn first_of(alloc: Global, questions: &List<Question>) -> Result<Option<Question>, NoMemory>
    ensures { IfOk result (λ q. q ≡ asks.first_or questions.now None) }
{
    match front(questions.as_slice()) {
        None => Ok(None),
        Some((question, _)) => Ok(Some(question.copy(alloc)?)),
    }
}
