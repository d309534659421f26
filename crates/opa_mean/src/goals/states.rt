// The states of goals.
ghost use Rattle.std.specs.Prelude.{◌≡◌, ◌↔◌, ◌<◌, length, IsTrue, Some};
ghost use Rattle.opa_mean.specs.Places.{owner_of};
ghost use Rattle.opa_case.specs.Shapes.{shape_of};
ghost use Rattle.opa_model.specs.Lookups.{goal_at};
ghost use Rattle.opa_mean.specs.Goals.Rulebases.{rulebase_of};
ghost use Rattle.opa_mean.specs.Goals.States as meant;

use crate::goals::freedom::Frees;
use crate::goals::lines::is_line_known;
use crate::{Held, monotone};
use opa_model::AttrId;

/// A goal is undecided where it is unknown on some day, and else decided; it is settled where besides nothing that it reaches
/// asks whether a value is known.
#[derive(Clone, Copy, Debug, PartialEq, Eq)]
pub enum GoalState {
    Undecided,
    Decided,
    Settled,
}

/// The state of the goal with a number. What is settled has the same value on every day in every completion of the case.
pub fn goal_state<H: Held>(held: &H, frees: &Frees, goal: u32) -> GoalState
    requires goal { goal < length (H.rules held.now).model.goals }
    requires frees { rulebase_of frees.now ≡ H.rules held.now }
    ensures state { meant.HasState (H.rules held.now) (H.held held.now) goal result }
    ensures exact { meant.IsStateOfGoal (H.rules held.now) (H.held held.now) goal result }
    ensures stays { meant.StaysSettledThere (H.rules held.now) (H.held held.now) goal result }
{
    monotone();
    let attr = goal_of(held, goal);
    let state = state_of(held, frees, attr);
    state
}

/// The goal with a number.
fn goal_of<H: Held>(held: &H, goal: u32) -> AttrId
    requires { goal < length (H.rules held.now).model.goals }
    ensures goal { goal_at (H.rules held.now).model goal ≡ Some result }
    ensures global { owner_of (shape_of (H.rules held.now).model) result ≡ 0 }
{
    let model = &held.base().model;
    let _count = model.goal_count();
    model.goal(goal)
}

fn state_of<H: Held>(held: &H, frees: &Frees, attr: AttrId) -> GoalState
    requires global { owner_of (shape_of (H.rules held.now).model) attr ≡ 0 }
    requires frees { rulebase_of frees.now ≡ H.rules held.now }
    ensures { result ≡ meant.goal_state (H.rules held.now) (H.held held.now) attr }
{
    let known = is_known(held, frees, attr);
    let free = frees.is_free(attr);
    state_by(known, free)
}

fn state_by(known: bool, free: bool) -> GoalState
    ensures { result ≡ meant.state_by known free }
{
    if !known {
        return GoalState::Undecided;
    }
    if free {
        GoalState::Settled
    } else {
        GoalState::Decided
    }
}

/// Whether a goal is known on every day.
fn is_known<H: Held>(held: &H, frees: &Frees, attr: AttrId) -> bool
    requires global { owner_of (shape_of (H.rules held.now).model) attr ≡ 0 }
    ensures { result ≡ meant.is_known (H.rules held.now) (H.held held.now) attr }
{
    let _case = held.case();
    match held.line(attr, frees.global()) {
        None => false,
        Some(line) => {
            let _form = line.segments();
            let known = is_line_known(line);
            known
        }
    }
}

/// Whether every goal is known on every day.
pub fn are_all_known<H: Held>(held: &H, frees: &Frees) -> bool
    ensures known { result ≡ meant.are_known (H.rules held.now) (H.held held.now) }
    ensures exact { IsTrue result ↔ meant.AreAllKnown (H.rules held.now) (H.held held.now) }
{
    let known = all_known(held, frees);
    known
}

fn all_known<H: Held>(held: &H, frees: &Frees) -> bool
    ensures { result ≡ meant.are_known (H.rules held.now) (H.held held.now) }
{
    let count = held.base().model.goal_count();
    for number in 0..count {
        let attr = goal_of(held, number);
        if !is_known(held, frees, attr) {
            return false;
        }
    }
    true
}

/// The number of the first goal that is unknown on some day; that of all goals where there is none.
pub fn open_goal<H: Held>(held: &H, frees: &Frees) -> u32
    ensures { goal_at (H.rules held.now).model result ≡ meant.open_goal (H.rules held.now) (H.held held.now) }
{
    let count = held.base().model.goal_count();
    for number in 0..count {
        let attr = goal_of(held, number);
        if !is_known(held, frees, attr) {
            return number;
        }
    }
    count
}
