// How many instances and slots are live.
ghost use Rattle.std.specs.Prelude.{◌≡◌, ◌≤◌, ◌+◌, ◌*◌, length, nat_lt, IsTrue};
ghost use Rattle.opa_case.specs.Shapes.{shape_of};
ghost use Rattle.opa_case.specs.Live.{Population};
ghost use Rattle.opa_case.specs.Steps as step;
ghost use Rattle.opa_model.specs.Models.{HasAttribute};

use crate::case::Case;
use crate::counts::Counted;
use crate::declared::{attribute_of, has_rule};
use opa_io::limits::{MOST_INSTANCES, MOST_SLOTS};
use opa_model::{AttrId, Model, Ruled};

impl Case {
    /// How many slots there are. It takes no memory.
    pub fn slots(&self, model: &Model, ruled: &Ruled) -> u64
        ensures { result ≡ step.slots (shape_of model.now) ruled.now self.now.live }
    {
        let count = model.attribute_count();
        let mut total = 0;
        let mut number = 0;
        while number < count {
            total += self.slots_of(model, ruled, AttrId(number));
            number += 1;
        }
        total
    }

    /// How many live instances have this attribute, if it has a rule.
    fn slots_of(&self, model: &Model, ruled: &Ruled, attr: AttrId) -> u64
        requires { HasAttribute model.now attr }
        ensures value { result ≡ step.slots_of (shape_of model.now) ruled.now self.now.live attr }
        ensures few { result ≤ 20001 }
    {
        // The number of the live instances shows that they are few.
        let _instances = self.instances();
        slots_of(model, ruled, &self.living.counts, attr)
    }
}

/// Whether too many instances or slots are live.
pub fn is_full<C: Counted>(model: &Model, ruled: &Ruled, counts: &C) -> bool
    ensures { (live : Population) → C.counts counts.now live →
        result ≡ step.is_full (shape_of model.now) ruled.now live }
{
    MOST_INSTANCES < counts.total() || has_many_slots(model, ruled, counts)
}

fn has_many_slots<C: Counted>(model: &Model, ruled: &Ruled, counts: &C) -> bool
    ensures { (live : Population) → C.counts counts.now live → result ≡ nat_lt 2000000 (step.slots (shape_of model.now) ruled.now live) }
{
    if are_few_slots(model, counts) {
        return false;
    }
    are_many_slots(model, ruled, counts)
}

/// Whether there can't be too many, even if each live instance had each attribute.
fn are_few_slots<C: Counted>(model: &Model, counts: &C) -> bool
    ensures { (live : Population) → C.counts counts.now live → IsTrue result → length model.now.attributes * (length live + 1) ≤ 2000000 }
{
    let each = counts.total().saturating_add(1);
    let most = u64::from(model.attribute_count()).saturating_mul(each);
    most <= MOST_SLOTS
}

/// The same by the slots of each attribute.
fn are_many_slots<C: Counted>(model: &Model, ruled: &Ruled, counts: &C) -> bool
    ensures { (live : Population) → C.counts counts.now live → result ≡ nat_lt 2000000 (step.slots (shape_of model.now) ruled.now live) }
{
    let count = model.attribute_count();
    let mut total = 0;
    let mut number = 0;
    while number < count {
        let more = slots_of(model, ruled, counts, AttrId(number));
        if MOST_SLOTS - total < more {
            return true;
        }
        total += more;
        number += 1;
    }
    false
}

/// How many live instances have this attribute, if it has a rule.
fn slots_of<C: Counted>(model: &Model, ruled: &Ruled, counts: &C, attr: AttrId) -> u64
    requires { HasAttribute model.now attr }
    ensures { (live : Population) → C.counts counts.now live → result ≡ step.slots_of (shape_of model.now) ruled.now live attr }
{
    if has_rule(ruled, attr) {
        counts.of(attribute_of(model, attr).entity.0)
    } else {
        0
    }
}
