// Where lines, lists and containers are looked up.
ghost use Rattle.std.specs.Prelude.{◌≡◌, ◌<◌, ℕ, IfOk};
ghost use Rattle.std.specs.Option.{option_copied};
ghost use Rattle.opa_date.specs.declared.TheConstants.{DAYS};
ghost use Rattle.opa_mean.specs.Given.{line_value};
ghost use Rattle.opa_mean.specs.Looks.{Look as Looks};

use crate::calendar_day::CalendarDay;
use opa_case::{Case, InstanceId, Relisted};
use opa_io::{List, NoMemory, Txt};
use opa_line::Line;
use opa_model::{AttrId, RelId};
use opa_value::Value;
use std::alloc::Global;

/// What a tree is evaluated over. An attribute without a line is unknown on every day; a list that isn't there is unknown.
pub trait Look {
    ghost looks: { Self → Looks };

    fn line(&self, attr: AttrId, inst: &InstanceId) -> Option<&Line<Value>>
        ensures { (d : ℕ) → d < DAYS → line_value (option_copied result) d ≡ (looks self.now).value attr inst.now d };

    fn members(&self, rel: RelId, inst: &InstanceId) -> Option<&List<Txt>>
        ensures { option_copied result ≡ (looks self.now).members rel inst.now };

    fn container(&self, inst: &InstanceId) -> Option<&InstanceId>
        ensures { option_copied result ≡ (looks self.now).container inst.now };
}

/// The answers of a case; a conclusion has no line here.
impl Look for Case {
    ghost use Rattle.opa_mean.specs.Given.{facts_of};
    ghost use Rattle.opa_mean.specs.Mean.{look_of};

    ghost looks = { λ c. look_of (facts_of c) (facts_of c).answer };

    fn line(&self, attr: AttrId, inst: &InstanceId) -> Option<&Line<Value>> {
        self.answer_of(attr, inst)
    }

    fn members(&self, rel: RelId, inst: &InstanceId) -> Option<&List<Txt>> {
        self.list_of(rel, inst)
    }

    fn container(&self, inst: &InstanceId) -> Option<&InstanceId> {
        self.container_of(inst)
    }
}

/// A case with one list that is set or forgotten, and not written yet.
impl<'a> Look for Relisted<'a> {
    ghost use Rattle.opa_case.specs.Overlays.{relisted_case};
    ghost use Rattle.opa_mean.specs.Given.{facts_of};
    ghost use Rattle.opa_mean.specs.Mean.{look_of};

    ghost looks = { λ c. look_of (facts_of (relisted_case c)) (facts_of (relisted_case c)).answer };

    fn line(&self, attr: AttrId, inst: &InstanceId) -> Option<&Line<Value>> {
        self.answer_of(attr, inst)
    }

    fn members(&self, rel: RelId, inst: &InstanceId) -> Option<&List<Txt>> {
        self.list_of(rel, inst)
    }

    fn container(&self, inst: &InstanceId) -> Option<&InstanceId> {
        self.container_of(inst)
    }
}

/// The value of an attribute at a day.
pub(crate) fn looked_up<K: Look>(
    alloc: Global,
    look: &K,
    attr: AttrId,
    inst: &InstanceId,
    day: CalendarDay,
) -> Result<Value, NoMemory>
    ensures { IfOk result (λ v. v ≡ (K.looks look.now).value attr inst.now day) }
{
    match look.line(attr, inst) {
        None => Ok(Value::Unknown),
        Some(line) => line.at(day.number()).copy(alloc),
    }
}
