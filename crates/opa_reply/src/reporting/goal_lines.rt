// What is told of goals.
ghost use Rattle.std.specs.Prelude.{◌≡◌, ◌<◌, ◌++◌, length, true, Some, IfOk, OnOk};
ghost use Rattle.std.specs.String.{string_bytes};
ghost use Rattle.opa_cells.specs.Instances.{global as global_one};
ghost use Rattle.opa_mean.specs.Goals.Rulebases.{rulebase_of};
ghost use Rattle.opa_mean.specs.Slots.{has_place};
ghost use Rattle.opa_model.specs.Lookups.{goal_at};
ghost use Rattle.opa_model.specs.Models.{HasAttribute};
ghost use Rattle.opa_reply.specs.Reporting.Goals as meant;

use crate::reporting::shown::{phrase_of, told_line};
use opa_case::InstanceId;
use opa_io::{NoMemory, Txt};
use opa_mean::{Frees, GoalState, Held, goal_state};
use opa_model::AttrId;
use std::alloc::Global;

/// For each goal `PHRASE: LINE (STATE)`, a line each.
pub fn goals_told<H: Held>(alloc: Global, held: &H, frees: &Frees) -> Result<Vec<u8>, NoMemory>
    requires { rulebase_of frees.now ≡ H.rules held.now }
    ensures { IfOk result (λ t. t.items ≡ meant.goals_told (H.rules held.now) (H.held held.now)) }
{
    let inst = InstanceId::global(alloc)?;
    let mut out = String::new(alloc);
    let count = held.base().model.goal_count();
    for goal in 0..count {
        let line = goal_line(alloc, held, frees, goal, &inst)?;
        out.push_str(line.as_str())?;
    }
    Ok(out.into_bytes())
}

/// The line of the goal with a number.
fn goal_line<H: Held>(
    alloc: Global,
    held: &H,
    frees: &Frees,
    goal: u32,
    inst: &InstanceId,
) -> Result<Txt, NoMemory>
    requires goal { goal < length (H.rules held.now).model.goals }
    requires frees { rulebase_of frees.now ≡ H.rules held.now }
    requires global { inst.now ≡ global_one }
    ensures { IfOk result (meant.IsGoalLine (H.rules held.now) (H.held held.now) goal) }
{
    let attr = goal_of(held, goal);
    let state = goal_state(held, frees, goal);
    let what = told_line(alloc, held, attr, inst)?;
    let phrase = phrase_of(held, attr);
    let line = state_line(alloc, phrase, &what, state)?;
    Ok(line)
}

/// The goal with a number: the global instance has it.
fn goal_of<H: Held>(held: &H, goal: u32) -> AttrId
    requires { goal < length (H.rules held.now).model.goals }
    ensures goal { goal_at (H.rules held.now).model goal ≡ Some result }
    ensures declared { HasAttribute (H.rules held.now).model result }
    ensures place { has_place (H.rules held.now) (H.held held.now) result global_one ≡ true }
{
    let model = &held.base().model;
    let _count = model.goal_count();
    let attr = model.goal(goal);
    attr
}

/// `PHRASE: LINE (STATE)`
fn state_line(alloc: Global, phrase: &Txt, what: &Txt, state: GoalState) -> Result<Txt, NoMemory>
    ensures { IfOk result (λ t. t ≡ meant.state_line phrase.now what.now state) }
{
    let text = format!(in alloc;
        "{}: {} ({})\n",
        phrase.as_str(),
        what.as_str(),
        state_text(state)
    )?;
    Ok(Txt::from_string(text))
}

fn state_text(state: GoalState) -> &'static str
    ensures { result.now ≡ meant.state_text state }
{
    match state {
        GoalState::Undecided => "undecided",
        GoalState::Decided => "decided",
        GoalState::Settled => "settled",
    }
}
