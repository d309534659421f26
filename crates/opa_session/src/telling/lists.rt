// Whether places, questions and lists are the same in two cases.
ghost use Rattle.std.specs.Prelude.{◌≡◌, not};
ghost use Rattle.std.specs.Option.{option_copied};
ghost use Rattle.opa_case.specs.Cases.{list_of};
ghost use Rattle.opa_cells.specs.Instances.{is_same};
ghost use Rattle.opa_session.specs.Telling.Reaching.{has_stayed};
ghost use Rattle.opa_mean.specs.Sameness as same;

use opa_case::{Case, InstanceId, Question};
use opa_io::{List, Same, Txt, front};
use opa_model::RelId;

/// Whether the instance was live in the same container.
pub(crate) fn has_stayed(old: &Case, new: &Case, inst: &InstanceId) -> bool
    ensures { result ≡ has_stayed old.now new.now inst.now }
{
    old.live(inst) && are_one(old.container_of(inst), new.container_of(inst))
}

fn are_one(first: Option<&InstanceId>, second: Option<&InstanceId>) -> bool
    ensures { result ≡ same.same_options is_same (option_copied first.entry) (option_copied second.entry) }
{
    match first {
        None => second.is_none(),
        Some(first) => is_that(first, second),
    }
}

fn is_that(first: &InstanceId, second: Option<&InstanceId>) -> bool
    ensures { result ≡ same.same_options is_same (Some first.now) (option_copied second.entry) }
{
    match second {
        None => false,
        Some(second) => first.equals(second),
    }
}

fn same_question(first: &Question, second: &Question) -> bool
    ensures { result ≡ same.same_question first.now second.now }
{
    match first {
        Question::Attr(attr, inst) => match second {
            Question::Attr(other, at) => attr.0 == other.0 && inst.equals(at),
            Question::Members(_, _) => false,
        },
        Question::Members(rel, inst) => match second {
            Question::Attr(_, _) => false,
            Question::Members(other, at) => rel.0 == other.0 && inst.equals(at),
        },
    }
}

/// Whether both lists have the same questions in the same order.
pub(crate) fn same_questions(first: &[Question], second: &[Question]) -> bool
    ensures { result ≡ same.same_lists same.same_question first.now second.now }
{
    let mut others = second;
    for question in first {
        match front(others) {
            None => return false,
            Some((other, rest)) => {
                if !same_question(question, other) {
                    return false;
                }
                others = rest;
            }
        }
    }
    others.len() == 0
}

/// Whether a list differs: a known one differs from an unknown one.
pub fn list_differs(old: &Case, new: &Case, rel: RelId, inst: &InstanceId) -> bool
    ensures { result ≡ not (same.same_names (list_of old.now rel inst.now) (list_of new.now rel inst.now)) }
{
    !same_names(old.list_of(rel, inst), new.list_of(rel, inst))
}

/// Whether both lists have the same names in the same order; two unknown ones are the same.
pub fn same_names(first: Option<&List<Txt>>, second: Option<&List<Txt>>) -> bool
    ensures { result ≡ same.same_names (option_copied first.entry) (option_copied second.entry) }
{
    match first {
        None => second.is_none(),
        Some(first) => are_those(first, second),
    }
}

fn are_those(first: &List<Txt>, second: Option<&List<Txt>>) -> bool
    ensures { result ≡ same.same_names (Some first.now) (option_copied second.entry) }
{
    match second {
        None => false,
        Some(second) => first.same(second),
    }
}
