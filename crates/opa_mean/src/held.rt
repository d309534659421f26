// A rulebase and a case with the lines of its conclusions.
ghost use Rattle.std.specs.Prelude.{◌≡◌, ◌<◌, is_some, IfOk, IfSome};
ghost use Rattle.std.specs.List.{AllByRecursion};
ghost use Rattle.opa_case.specs.Cases.{CaseView, IsLive};
ghost use Rattle.opa_case.specs.Shapes.{shape_of};
ghost use Rattle.opa_date.specs.declared.TheConstants.{DAYS};
ghost use Rattle.opa_line.specs.Lines.{StandsFor};
ghost use Rattle.opa_mean.specs.Given.{base_of, facts_of};
ghost use Rattle.opa_mean.specs.Holding.{has_line, held_look};
ghost use Rattle.opa_mean.specs.Mean.{look_of, mean};
ghost use Rattle.opa_mean.specs.Meaning.{value};
ghost use Rattle.opa_mean.specs.Rulebases.{IsOf, value_at};
ghost use Rattle.opa_tree.specs.declared.rulebase.Rulebase.{Rulebase as Rules};

use crate::Look;
use crate::calendar_day::CalendarDay;
use crate::evaluate::evaluate;
use opa_case::{Case, InstanceId};
use opa_io::{List, NoMemory, Txt};
use opa_line::Line;
use opa_model::{AttrId, Model, RelId};
use opa_tree::{Expr, Rulebase};
use opa_value::Value;
use std::alloc::Global;

/// What holds a rulebase, a case that fits it, and the line of each live slot: the fresh determination at every day.
pub trait Held {
    ghost rules: { Self → Rules };

    ghost held: { Self → CaseView };

    fn base(&self) -> &Rulebase
        ensures { result.now ≡ rules self.now };

    fn case(&self) -> &Case
        ensures case { result.now ≡ held self.now }
        ensures fits { IsOf (rules self.now) (held self.now) };

    /// The line of an attribute for an instance. None exactly where the instance isn't live, isn't of the attribute's
    /// entity, or an attribute without a rule has no answer.
    fn line(&self, attr: AttrId, inst: &InstanceId) -> Option<&Line<Value>>
        ensures value { IfSome result (λ line. StandsFor DAYS (value_at (rules self.now) (held self.now) attr inst.now) line.now) }
        ensures none { is_some result ≡ has_line (rules self.now) (held self.now) attr inst.now };
}

/// The lines that are held, as what is looked up.
#[derive(Clone, Copy)]
pub struct HeldLook<'a, H: Held> {
    pub held: &'a H,
}

impl<'a, H: Held> Look for HeldLook<'a, H> {
    ghost use Rattle.opa_mean.specs.Holding.{held_look};

    ghost looks = { λ l. held_look (H.rules l.held.now) (H.held l.held.now) };

    fn line(&self, attr: AttrId, inst: &InstanceId) -> Option<&Line<Value>> {
        self.held.line(attr, inst)
    }

    fn members(&self, rel: RelId, inst: &InstanceId) -> Option<&List<Txt>> {
        self.held.case().list_of(rel, inst)
    }

    fn container(&self, inst: &InstanceId) -> Option<&InstanceId> {
        self.held.case().container_of(inst)
    }
}

/// The value of a tree at live enclosing instances, the innermost first, and a day, over the held case.
pub fn tree_value<H: Held>(
    alloc: Global,
    held: &H,
    expr: &Expr,
    enclosing: &List<InstanceId>,
    day: u32,
) -> Result<Value, NoMemory>
    requires day { day < DAYS }
    requires live { AllByRecursion (IsLive (H.held held.now)) enclosing.now }
    ensures { IfOk result (λ v. v ≡ value (shape_of (H.rules held.now).model)
        (look_of (facts_of (H.held held.now)) (mean (base_of (H.rules held.now)) (facts_of (H.held held.now))))
        expr.now enclosing.now day) }
{
    let _case = held.case();
    looked_value(
        alloc,
        held,
        &held.base().model,
        expr,
        enclosing.as_slice(),
        day,
    )
}

/// The value of a tree over the lines that are held.
fn looked_value<H: Held>(
    alloc: Global,
    held: &H,
    model: &Model,
    expr: &Expr,
    enclosing: &[InstanceId],
    day: u32,
) -> Result<Value, NoMemory>
    requires { day < DAYS }
    ensures { IfOk result (λ v. v ≡ value (shape_of model.now) (held_look (H.rules held.now) (H.held held.now)) expr.now enclosing.now day) }
{
    evaluate(
        alloc,
        model,
        &HeldLook { held },
        expr,
        enclosing,
        CalendarDay::new(day),
    )
}
