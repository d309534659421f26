// Rules that are carried out day by day.
ghost use Rattle.std.specs.Prelude.{◌≡◌, ◌<◌, ◌≤◌, IfOk, IsSome};
ghost use Rattle.opa_case.specs.Shapes.{shape_of};
ghost use Rattle.opa_date.specs.declared.TheConstants.{DAYS};
ghost use Rattle.opa_line.specs.Lines.{StandsFor};
ghost use Rattle.opa_mean.specs.Derivations.{MayDerive, derived};
ghost use Rattle.opa_mean.specs.Given.{base_of};
ghost use Rattle.opa_mean.specs.Mean.{fitted};
ghost use Rattle.opa_mean.specs.Meaning.{value};
ghost use Rattle.opa_tree.specs.declared.rulebase.Rulebase.{Rulebase as Rules};

use crate::Look;
use crate::calendar_day::CalendarDay;
use crate::declared::concluded;
use crate::evaluate::evaluate;
use crate::questions::alone;
use opa_case::InstanceId;
use opa_date::DAYS;
use opa_io::NoMemory;
use opa_line::{Builder, Line};
use opa_model::{AttrId, Model};
use opa_tree::{Expr, Rulebase};
use opa_value::Value;
use std::alloc::Global;

/// What carries out the rules of a rulebase.
pub trait Derive {
    ghost stands_for: { Self → Rules };

    /// The line of an attribute's rule for an instance, over what is looked up: at each day the fitted value of its tree.
    fn evaluate<K: Look>(
        &self,
        alloc: Global,
        attr: AttrId,
        inst: &InstanceId,
        look: &K,
    ) -> Result<Line<Value>, NoMemory>
        requires { MayDerive (base_of (stands_for self.now)) (K.looks look.now) attr inst.now }
        ensures { IfOk result (StandsFor DAYS (derived (base_of (stands_for self.now)) (K.looks look.now) attr inst.now)) };
}

/// The rules as they stand, carried out day by day.
#[derive(Clone, Copy)]
pub struct Plain<'a> {
    pub base: &'a Rulebase,
}

impl<'a> Plain<'a> {
    pub fn new(base: &'a Rulebase) -> Plain<'a>
        ensures { result.base.now ≡ base.now }
    {
        Plain { base }
    }
}

impl<'a> Derive for Plain<'a> {
    ghost stands_for = { λ p. p.base.now };

    fn evaluate<K: Look>(
        &self,
        alloc: Global,
        attr: AttrId,
        inst: &InstanceId,
        look: &K,
    ) -> Result<Line<Value>, NoMemory> {
        rule_line(alloc, self.base, attr, inst, look)
    }
}

/// The line of an attribute's rule for an instance; unknown on every day where there is no rule.
pub(crate) fn rule_line<K: Look>(
    alloc: Global,
    base: &Rulebase,
    attr: AttrId,
    inst: &InstanceId,
    look: &K,
) -> Result<Line<Value>, NoMemory>
    ensures { IfOk result (StandsFor DAYS (derived (base_of base.now) (K.looks look.now) attr inst.now)) }
{
    match base.rules.of(attr) {
        None => Line::constant(alloc, Value::Unknown),
        Some(rule) => {
            let enclosing = alone(alloc, inst)?;
            day_by_day(
                alloc,
                &base.model,
                attr,
                &rule.expr,
                enclosing.as_slice(),
                look,
            )
        }
    }
}

/// The fitted value of a tree at each day.
fn day_by_day<K: Look>(
    alloc: Global,
    model: &Model,
    attr: AttrId,
    tree: &Expr,
    enclosing: &[InstanceId],
    look: &K,
) -> Result<Line<Value>, NoMemory>
    ensures { IfOk result (StandsFor DAYS (λ d. fitted (shape_of model.now) attr (value (shape_of model.now) (K.looks look.now) tree.now enclosing.now d))) }
{
    let mut builder = Builder::new(alloc);
    let mut day = 0;
    while day < DAYS {
        let value = evaluate(alloc, model, look, tree, enclosing, CalendarDay::new(day))?;
        builder.until(day + 1, concluded(model, attr, value))?;
        day += 1;
    }
    Ok(builder.finish())
}
