// What a case with one list that isn't written yet tells.
ghost use Rattle.std.specs.Prelude.{◌≡◌, ℕ, List as Seq, cond, not, is_some, None};
ghost use Rattle.std.specs.List.{list_any};
ghost use Rattle.std.specs.Option.{option_copied, option_or};
ghost use Rattle.std.specs.FinMap as map;
ghost use Rattle.opa_case.specs.Cases as cases;
ghost use Rattle.opa_case.specs.Homes.{home_of};
ghost use Rattle.opa_case.specs.Listed.{is_indexed};
ghost use Rattle.opa_case.specs.Live as live;
ghost use Rattle.opa_case.specs.Overlays.{relisted_case};
ghost use Rattle.opa_case.specs.Relists.{lists_with};
ghost use Rattle.opa_case.specs.Shapes.{shape_of};
ghost use Rattle.opa_case.specs.Steps.{rel as relation, stays};
ghost use Rattle.opa_case.specs.Turns.{Turns};

use crate::case::Case;
use crate::changed::is_at;
use crate::declared::bond_of;
use crate::going_names::is_named;
use crate::index::Index;
use crate::relisted::Relisted;
use opa_cells::{Cells, InstanceId};
use opa_io::{List, Txt};
use opa_line::Line;
use opa_model::{AttrId, RelId};
use opa_value::Value;

impl<'a> Relisted<'a> {
    /// Whether the instance is live then.
    pub fn live(&self, inst: &InstanceId) -> bool
        ensures { result ≡ live.is_live (relisted_case self.now).live inst.now }
    {
        inst.is_global() || self.container_of(inst).is_some()
    }

    /// The container that a live instance has then; none of the global one.
    pub fn container_of(&self, inst: &InstanceId) -> Option<&InstanceId>
        ensures { option_copied result ≡ live.container_of (relisted_case self.now).live inst.now }
    {
        home_then(&self.gone, &self.come, self.case, inst)
    }

    /// The answer then: what goes takes its own with it.
    pub fn answer_of(&self, attr: AttrId, inst: &InstanceId) -> Option<&Line<Value>>
        ensures { option_copied result ≡ map.get (relisted_case self.now).answers (attr.0, inst.now) }
    {
        if self.live(inst) {
            self.case.answer_of(attr, inst)
        } else {
            None
        }
    }

    /// The list then, where it is known.
    pub fn list_of(&self, rel: RelId, inst: &InstanceId) -> Option<&List<Txt>>
        ensures { option_copied result ≡ cases.list_of (relisted_case self.now) rel inst.now }
    {
        match self.stored_of(rel, inst) {
            Some(names) => Some(names),
            None => self.every_of(rel, inst),
        }
    }

    /// What goes, each with its container, in instance order.
    pub fn went(&self) -> &[(InstanceId, InstanceId)]
        ensures { result.now ≡ self.now.went.items }
    {
        &self.went
    }

    /// What comes, each with its container, in the order of the list.
    pub fn came(&self) -> &[(InstanceId, InstanceId)]
        ensures came { result.now ≡ self.now.came.items }
        ensures turns { Turns self.now.case.now.live (relisted_case self.now).live
            self.now.went.items result.now self.now.inst.now }
    {
        &self.came
    }
}

impl<'a> Relisted<'a> {
    /// The list then, of a relation that is declared with `every`.
    fn every_of(&self, rel: RelId, inst: &InstanceId) -> Option<&List<Txt>>
        ensures { option_copied result ≡ map.get (relisted_case self.now).every (rel.0, inst.now) }
    {
        match &self.every {
            Some(every) => every.get(rel.0, inst),
            None => self.case.every_of(rel, inst),
        }
    }

    /// The list then, of a relation that isn't declared with `every`. One at what goes is unknown, and so is a reference list
    /// that names it.
    fn stored_of(&self, rel: RelId, inst: &InstanceId) -> Option<&List<Txt>>
        ensures { option_copied result ≡ map.get (relisted_case self.now).lists (rel.0, inst.now) }
    {
        let Some(names) = self.put_of(rel, inst) else {
            return None;
        };
        if self.stays(rel, inst, names) {
            Some(names)
        } else {
            None
        }
    }

    /// The list that is set, or forgotten, and else the list before.
    fn put_of(&self, rel: RelId, inst: &InstanceId) -> Option<&List<Txt>>
        ensures { option_copied result ≡ map.get (lists_with self.now.case.now.lists self.now.rel self.now.inst.now (option_copied self.now.names)) (rel.0, inst.now) }
    {
        if is_at(rel, inst, self.rel, self.inst) {
            self.names
        } else {
            self.case.stored_of(rel, inst)
        }
    }

    /// Whether a list that is put stays.
    fn stays(&self, rel: RelId, inst: &InstanceId, names: &List<Txt>) -> bool
        requires { option_copied (Some names) ≡ map.get (lists_with self.now.case.now.lists self.now.rel self.now.inst.now (option_copied self.now.names)) (rel.0, inst.now) }
        ensures { result ≡ stays (shape_of self.now.model.now) (relisted_case self.now).live (lists_with self.now.case.now.lists self.now.rel self.now.inst.now (option_copied self.now.names)) (rel.0, inst.now) }
    {
        if !self.live(inst) {
            return false;
        }
        let bond = bond_of(self.model, rel.0);
        bond.contains || !names_one(&self.lost, bond.target, names.as_slice(), self.inst)
    }
}

/// The container of an instance, where some go and some come.
fn home_then<'a>(
    gone: &Cells<InstanceId>,
    come: &'a Cells<InstanceId>,
    case: &'a Case,
    inst: &InstanceId,
) -> Option<&'a InstanceId>
    ensures { option_copied result ≡ cond (is_some (home_of gone.now inst.now)) None (option_or (home_of come.now inst.now) (live.container_of case.now.live inst.now)) }
{
    if gone.get(0, inst).is_some() {
        return None;
    }
    match come.get(0, inst) {
        Some(home) => Some(home),
        None => case.container_of(inst),
    }
}

/// Whether one of the names of an entity's instances has a source.
fn names_one(lost: &Index, entity: u32, names: &[Txt], at: &InstanceId) -> bool
    ensures { result ≡ list_any (λ n. is_indexed lost.now.entries entity n at.now) names.now }
{
    names.iter().any(|name| is_named(lost, entity, name, at))
}
