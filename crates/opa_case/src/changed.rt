// Known lists, and lists of which one is changed.
ghost use Rattle.std.specs.Prelude.{◌≡◌, ◌&&◌, ◌+◌, ◌-◌, cond, nat_lt};
ghost use Rattle.std.specs.Option.{option_copied};
ghost use Rattle.std.specs.Ordering.{eq_by_cmp};
ghost use Rattle.opa_cells.specs.Keys.{cell_cmp};
ghost use Rattle.opa_case.specs.Cases.{stored};
ghost use Rattle.opa_case.specs.Steps.{changed};

use crate::contained::Lists;
use crate::listed::Listed;
use opa_cells::InstanceId;
use opa_io::{List, Txt};
use opa_model::RelId;

impl Lists for Listed {
    ghost lists = { λ l. stored l };

    fn list(&self, rel: RelId, inst: &InstanceId) -> Option<&List<Txt>> {
        self.get(rel.0, inst)
    }

    fn are_fewer(&self, rel: RelId, count: u64) -> bool {
        self.len_of(rel.0) < count
    }
}

/// Lists of which one is changed.
#[derive(Clone, Copy)]
pub(crate) struct Changed<'a> {
    pub(crate) lists: &'a Listed,
    pub(crate) rel: RelId,
    pub(crate) inst: &'a InstanceId,
    pub(crate) names: Option<&'a List<Txt>>,
}

impl<'a> Lists for Changed<'a> {
    ghost lists = { λ c. changed c.lists.now c.rel c.inst.now (option_copied c.names) };

    fn list(&self, rel: RelId, inst: &InstanceId) -> Option<&List<Txt>> {
        if is_at(rel, inst, self.rel, self.inst) {
            self.names
        } else {
            self.lists.get(rel.0, inst)
        }
    }

    fn are_fewer(&self, rel: RelId, count: u64) -> bool {
        let known = self.lists.len_of(rel.0);
        if rel.0 != self.rel.0 {
            return known < count;
        }
        let before = self.lists.get(rel.0, self.inst).is_some();
        is_less(known, before, self.names.is_some(), count)
    }
}

/// Whether fewer than this are known, where one that was known before, or not, is known then, or not.
fn is_less(known: u64, before: bool, then: bool, count: u64) -> bool
    ensures { result ≡ nat_lt (known - cond before 1 0 + cond then 1 0) count }
{
    let others = if before {
        known.saturating_sub(1)
    } else {
        known
    };
    if then {
        others.saturating_add(1) < count
    } else {
        others < count
    }
}

/// Whether two keys are one.
pub(crate) fn is_at(rel: RelId, inst: &InstanceId, own_rel: RelId, own_inst: &InstanceId) -> bool
    ensures { result ≡ eq_by_cmp cell_cmp (rel.0, inst.now) (own_rel.0, own_inst.now) }
{
    rel.0 == own_rel.0 && own_inst.is(inst.entity.0, &inst.name)
}
