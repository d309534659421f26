// A held case, seen.
ghost use Rattle.std.specs.Prelude.{◌≡◌, IfOk};
ghost use Rattle.std.specs.List.{list_all};
ghost use Rattle.opa_case.specs.Live as living;
ghost use Rattle.opa_case.specs.Shapes.{shape_of};
ghost use Rattle.opa_date.specs.declared.TheConstants.{DAYS};
ghost use Rattle.opa_line.specs.Lines.{StandsFor};
ghost use Rattle.opa_window.specs.Days.{day_value};

use crate::Sight;
use opa_case::{Case, InstanceId};
use opa_code::{MemberLines, tree_line};
use opa_io::{List, NoMemory, Txt};
use opa_line::Line;
use opa_mean::{Held, owner_of, place_in, source_of, target_of};
use opa_model::{AttrId, EntityId, Model, RelId};
use opa_tree::Expr;
use opa_value::Value;
use std::alloc::Global;

/// A held case as what trees are seen over.
#[derive(Clone, Copy)]
pub(crate) struct HeldSight<'a, H: Held> {
    pub(crate) held: &'a H,
}

impl<'a, H: Held> Sight for HeldSight<'a, H> {
    ghost use Rattle.opa_case.specs.Cases.{IsLive};
    ghost use Rattle.opa_case.specs.Shapes.{shape_of};
    ghost use Rattle.opa_code.specs.LinesOfMembers.{AreLinesOf};
    ghost use Rattle.opa_mean.specs.Given.{base_of, facts_of};
    ghost use Rattle.opa_mean.specs.Mean.{look_of, mean};

    ghost shape = { λ s. shape_of (H.rules s.held.now).model };

    ghost look = { λ s. look_of (facts_of (H.held s.held.now))
        (mean (base_of (H.rules s.held.now)) (facts_of (H.held s.held.now))) };

    ghost live = { λ s i. IsLive (H.held s.held.now) i };

    ghost are_lines = { λ s tree lines. AreLinesOf (H.rules s.held.now) (H.held s.held.now) tree lines };

    fn place<'b>(&'b self, enclosing: &'b [InstanceId], attr: AttrId) -> Option<&'b InstanceId> {
        place_in(
            self.held.case(),
            enclosing,
            owner_of(&self.held.base().model, attr),
        )
    }

    fn source<'b>(&'b self, enclosing: &'b [InstanceId], rel: RelId) -> Option<&'b InstanceId> {
        place_in(
            self.held.case(),
            enclosing,
            source_of(&self.held.base().model, rel),
        )
    }

    fn owner(&self, attr: AttrId) -> u32 {
        owner_of(&self.held.base().model, attr)
    }

    fn source_entity(&self, rel: RelId) -> u32 {
        source_of(&self.held.base().model, rel)
    }

    fn entity_place<'b>(
        &'b self,
        enclosing: &'b [InstanceId],
        entity: u32,
    ) -> Option<&'b InstanceId> {
        place_in(self.held.case(), enclosing, entity)
    }

    fn target(&self, rel: RelId) -> u32 {
        target_of(&self.held.base().model, rel)
    }

    fn contained(&self, entity: u32) -> RelId {
        contained_of(&self.held.base().model, entity)
    }

    fn container(&self, inst: &InstanceId) -> Option<&InstanceId> {
        self.held.case().container_of(inst)
    }

    fn members(&self, rel: RelId, inst: &InstanceId) -> Option<&List<Txt>> {
        let case = self.held.case();
        case.list_of(rel, inst)
    }

    fn line(
        &self,
        alloc: Global,
        attr: AttrId,
        inst: &InstanceId,
    ) -> Result<Line<Value>, NoMemory> {
        let _case = self.held.case();
        match self.held.line(attr, inst) {
            None => Line::constant(alloc, Value::Unknown),
            Some(line) => same_line(alloc, line),
        }
    }

    fn tree_line(
        &self,
        alloc: Global,
        tree: &Expr,
        enclosing: &[InstanceId],
    ) -> Result<Line<Value>, NoMemory> {
        let case = self.held.case();
        if are_live(case, enclosing) {
            let inside = copied(alloc, enclosing)?;
            tree_line(alloc, self.held, tree, &inside)
        } else {
            Line::constant(alloc, Value::Unknown)
        }
    }

    fn member_lines(
        &self,
        alloc: Global,
        tree: &Expr,
        entity: u32,
    ) -> Result<MemberLines, NoMemory> {
        MemberLines::of(alloc, self.held, tree, entity)
    }

    fn line_at(
        &self,
        alloc: Global,
        lines: &mut MemberLines,
        tree: &Expr,
        enclosing: &[InstanceId],
    ) -> Result<Line<Value>, NoMemory> {
        let case = self.held.case();
        if are_live(case, enclosing) {
            lines.at(alloc, self.held, tree, enclosing)
        } else {
            Line::constant(alloc, Value::Unknown)
        }
    }
}

/// The relation that contains the instances of an entity.
fn contained_of(model: &Model, entity: u32) -> RelId
    ensures { result ≡ (shape_of model.now).contained entity }
{
    if entity < model.entity_count() {
        model.entity(EntityId(entity)).contained
    } else {
        RelId(0)
    }
}

/// An equal line.
pub(crate) fn same_line(alloc: Global, line: &Line<Value>) -> Result<Line<Value>, NoMemory>
    ensures { IfOk result (StandsFor DAYS (day_value line.now)) }
{
    line.map(alloc, |value: &Value| value.copy(alloc))
}

fn are_live(case: &Case, insts: &[InstanceId]) -> bool
    ensures { result ≡ list_all (living.is_live case.now.live) insts.now }
{
    for inst in insts {
        if !case.live(inst) {
            return false;
        }
    }
    true
}

fn copied(alloc: Global, insts: &[InstanceId]) -> Result<List<InstanceId>, NoMemory>
    ensures { IfOk result (λ list. list ≡ insts.now) }
{
    let mut list = List::new(alloc);
    for inst in insts {
        list.push(inst.copy(alloc)?)?;
    }
    Ok(list)
}
