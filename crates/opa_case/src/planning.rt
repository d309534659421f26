// What a list that is set or forgotten moves, judged and found once; nothing is changed.
ghost use Rattle.std.specs.Prelude.{◌≡◌, ◌≢◌, true, false, [], None, Some, Ok, Err, unwrap_or, IfOk, IfErr, OnOk};
ghost use Rattle.opa_model.specs.Models.{IsModel, HasRelation};
ghost use Rattle.opa_case.specs.Fits.{Fits};
ghost use Rattle.opa_case.specs.Homes.{AreCounts};
ghost use Rattle.opa_case.specs.Moves.{AreMovesOf};
ghost use Rattle.opa_case.specs.Shapes.{shape_of};
ghost use Rattle.opa_case.specs.Steps as step;
ghost use Rattle.opa_case.specs.Turns.{Turns};
ghost use Rattle.opa_case.specs.declared.change.Refusal.TheVariants as refusals;

use crate::case::Case;
use crate::change::Refusal;
use crate::changed::Changed;
use crate::counts::Counts;
use crate::declared::bond_of;
use crate::every::every_then;
use crate::list_faults::is_misplaced;
use crate::moves::Moves;
use crate::slots::is_full;
use crate::turn::{Turn, turn_of};
use opa_cells::{Cells, InstanceId};
use opa_io::{List, NoMemory, Txt};
use opa_model::{Model, RelId, Ruled};

impl Case {
    /// What a list moves that is set; or why it can't be.
    pub(crate) fn moves_with(
        &self,
        model: &Model,
        ruled: &Ruled,
        rel: RelId,
        inst: &InstanceId,
        names: &List<Txt>,
    ) -> Result<Moves, Refusal>
        requires declared { HasRelation model.now rel }
        requires fits { Fits (shape_of model.now) ruled.now self.now }
        ensures moves { IfOk result (λ moves. AreMovesOf (shape_of model.now) self.now rel inst.now (Some names.now) moves) }
        ensures ok { OnOk result (step.set_list (shape_of model.now) ruled.now self.now rel inst.now names.now ≡ Ok (step.with_list (shape_of model.now) self.now rel inst.now names.now)) }
        ensures err { IfErr result (λ e. e ≢ refusals.NoMemory → step.set_list (shape_of model.now) ruled.now self.now rel inst.now names.now ≡ Err e) }
        ensures form { OnOk result (IsModel model.now) }
    {
        if let Some(fault) = self.fault_of_list(
            self.alloc,
            model,
            ruled,
            rel,
            inst,
            names.as_slice(),
        )? {
            return Err(fault);
        }
        if bond_of(model, rel.0).contains {
            self.moves_with_contained(model, ruled, rel, inst, names)
        } else {
            self.moves_with_reference(model, ruled, rel, inst, names)
        }
    }

    /// What a list moves that is forgotten; or why it can't be.
    pub(crate) fn moves_without(
        &self,
        model: &Model,
        ruled: &Ruled,
        rel: RelId,
        inst: &InstanceId,
    ) -> Result<Moves, Refusal>
        requires declared { HasRelation model.now rel }
        requires fits { Fits (shape_of model.now) ruled.now self.now }
        ensures moves { IfOk result (λ moves. AreMovesOf (shape_of model.now) self.now rel inst.now None moves) }
        ensures ok { OnOk result (step.forget (shape_of model.now) self.now rel inst.now ≡ Ok (step.without_list (shape_of model.now) self.now rel inst.now)) }
        ensures err { IfErr result (λ e. e ≢ refusals.NoMemory → step.forget (shape_of model.now) self.now rel inst.now ≡ Err e) }
        ensures form { OnOk result (IsModel model.now) }
    {
        if is_misplaced(self, model, rel, inst) {
            return Err(Refusal::Name);
        }
        if bond_of(model, rel.0).contains {
            let moves = self.moves_without_contained(model, ruled, rel, inst)?;
            Ok(moves)
        } else {
            let moves = self.moves_without_reference(model, ruled, rel, inst)?;
            Ok(moves)
        }
    }
}

impl Case {
    /// What a containment list moves that has no fault.
    fn moves_with_contained(
        &self,
        model: &Model,
        ruled: &Ruled,
        rel: RelId,
        inst: &InstanceId,
        names: &List<Txt>,
    ) -> Result<Moves, Refusal>
        requires form { IsModel model.now }
        requires declared { HasRelation model.now rel }
        requires fits { Fits (shape_of model.now) ruled.now self.now }
        requires contains { (shape_of model.now).contains rel ≡ true }
        requires free { step.list_fault (shape_of model.now) self.now rel inst.now names.now ≡ None }
        ensures moves { IfOk result (λ moves. AreMovesOf (shape_of model.now) self.now rel inst.now (Some names.now) moves) }
        ensures ok { OnOk result (step.within (shape_of model.now) ruled.now (step.with_list (shape_of model.now) self.now rel inst.now names.now) ≡ Ok (step.with_list (shape_of model.now) self.now rel inst.now names.now)) }
        ensures err { IfErr result (λ e. e ≢ refusals.NoMemory → step.within (shape_of model.now) ruled.now (step.with_list (shape_of model.now) self.now rel inst.now names.now) ≡ Err e) }
    {
        let turn = self.turn_with(model, ruled, rel, inst, names)?;
        if is_full(model, ruled, &turn.counts) {
            return Err(Refusal::Limit);
        }
        let every = self.every_with(model, ruled, rel, inst, names, &turn.counts)?;
        let Turn { gone, come, counts } = turn;
        Ok(Moves {
            went: gone,
            came: come,
            counts,
            every,
        })
    }

    /// What a reference list moves that has no fault: nothing.
    fn moves_with_reference(
        &self,
        model: &Model,
        ruled: &Ruled,
        rel: RelId,
        inst: &InstanceId,
        names: &List<Txt>,
    ) -> Result<Moves, Refusal>
        requires form { IsModel model.now }
        requires fits { Fits (shape_of model.now) ruled.now self.now }
        requires refers { (shape_of model.now).contains rel ≡ false }
        requires free { step.list_fault (shape_of model.now) self.now rel inst.now names.now ≡ None }
        ensures moves { IfOk result (λ moves. AreMovesOf (shape_of model.now) self.now rel inst.now (Some names.now) moves) }
        ensures ok { OnOk result (step.within (shape_of model.now) ruled.now (step.with_list (shape_of model.now) self.now rel inst.now names.now) ≡ Ok (step.with_list (shape_of model.now) self.now rel inst.now names.now)) }
        ensures err { IfErr result (λ e. e ≢ refusals.NoMemory → step.within (shape_of model.now) ruled.now (step.with_list (shape_of model.now) self.now rel inst.now names.now) ≡ Err e) }
    {
        if is_full(model, ruled, &self.living.counts) {
            return Err(Refusal::Limit);
        }
        let moves = self.no_moves()?;
        Ok(moves)
    }

    /// What goes by a containment list that is forgotten.
    fn moves_without_contained(
        &self,
        model: &Model,
        ruled: &Ruled,
        rel: RelId,
        inst: &InstanceId,
    ) -> Result<Moves, NoMemory>
        requires form { IsModel model.now }
        requires fits { Fits (shape_of model.now) ruled.now self.now }
        requires contains { (shape_of model.now).contains rel ≡ true }
        requires placed { step.is_misplaced (shape_of model.now) self.now rel inst.now ≡ false }
        ensures { IfOk result (λ moves. AreMovesOf (shape_of model.now) self.now rel inst.now None moves) }
    {
        let turn = self.turn_without(model, ruled, rel, inst)?;
        let every = self.every_without(model, ruled, rel, inst, &turn.counts)?;
        let Turn { gone, counts, .. } = turn;
        Ok(Moves {
            went: gone,
            came: Vec::new(self.alloc),
            counts,
            every,
        })
    }

    /// What a reference list moves that is forgotten: nothing.
    fn moves_without_reference(
        &self,
        model: &Model,
        ruled: &Ruled,
        rel: RelId,
        inst: &InstanceId,
    ) -> Result<Moves, NoMemory>
        requires form { IsModel model.now }
        requires fits { Fits (shape_of model.now) ruled.now self.now }
        requires refers { (shape_of model.now).contains rel ≡ false }
        ensures { IfOk result (λ moves. AreMovesOf (shape_of model.now) self.now rel inst.now None moves) }
    {
        let moves = self.no_moves()?;
        Ok(moves)
    }

    /// That nothing goes or comes.
    fn no_moves(&self) -> Result<Moves, NoMemory>
        ensures went { IfOk result (λ moves. moves.went.items ≡ []) }
        ensures came { IfOk result (λ moves. moves.came.items ≡ []) }
        ensures counts { IfOk result (λ moves. AreCounts moves.counts self.now.live) }
        ensures every { IfOk result (λ moves. moves.every ≡ None) }
    {
        Ok(Moves {
            went: Vec::new(self.alloc),
            came: Vec::new(self.alloc),
            counts: self.living.counts.copy()?,
            every: None,
        })
    }

    /// What goes and what comes with the list.
    pub(crate) fn turn_with(
        &self,
        model: &Model,
        ruled: &Ruled,
        rel: RelId,
        inst: &InstanceId,
        names: &List<Txt>,
    ) -> Result<Turn, NoMemory>
        requires form { IsModel model.now }
        requires declared { HasRelation model.now rel }
        requires fits { Fits (shape_of model.now) ruled.now self.now }
        requires contains { (shape_of model.now).contains rel ≡ true }
        requires free { step.list_fault (shape_of model.now) self.now rel inst.now names.now ≡ None }
        ensures turns { IfOk result (λ t. Turns self.now.live (step.with_list (shape_of model.now) self.now rel inst.now names.now).live t.gone.items t.come.items inst.now) }
        ensures counts { IfOk result (λ t. AreCounts t.counts (step.with_list (shape_of model.now) self.now rel inst.now names.now).live) }
    {
        let turn = turn_of(
            self.alloc,
            model,
            &self.lists,
            &self.living.counts,
            rel,
            inst,
            names.as_slice(),
        )?;
        Ok(turn)
    }

    /// What goes without the list.
    fn turn_without(
        &self,
        model: &Model,
        ruled: &Ruled,
        rel: RelId,
        inst: &InstanceId,
    ) -> Result<Turn, NoMemory>
        requires form { IsModel model.now }
        requires fits { Fits (shape_of model.now) ruled.now self.now }
        requires contains { (shape_of model.now).contains rel ≡ true }
        requires placed { step.is_misplaced (shape_of model.now) self.now rel inst.now ≡ false }
        ensures turns { IfOk result (λ t. Turns self.now.live (step.without_list (shape_of model.now) self.now rel inst.now).live t.gone.items [] inst.now) }
        ensures counts { IfOk result (λ t. AreCounts t.counts (step.without_list (shape_of model.now) self.now rel inst.now).live) }
    {
        let turn = turn_of(
            self.alloc,
            model,
            &self.lists,
            &self.living.counts,
            rel,
            inst,
            &[],
        )?;
        Ok(turn)
    }

    /// The `every` lists with the list, where they change.
    fn every_with<'a>(
        &'a self,
        model: &Model,
        ruled: &Ruled,
        rel: RelId,
        inst: &'a InstanceId,
        names: &'a List<Txt>,
        counts: &Counts,
    ) -> Result<Option<Cells<List<Txt>>>, NoMemory>
        requires declared { HasRelation model.now rel }
        requires fits { Fits (shape_of model.now) ruled.now self.now }
        requires contains { (shape_of model.now).contains rel ≡ true }
        requires free { step.list_fault (shape_of model.now) self.now rel inst.now names.now ≡ None }
        requires counts { AreCounts counts.now (step.with_list (shape_of model.now) self.now rel inst.now names.now).live }
        ensures { IfOk result (λ every. unwrap_or every self.now.every ≡ (step.with_list (shape_of model.now) self.now rel inst.now names.now).every) }
    {
        let lists = Changed {
            lists: &self.lists,
            rel,
            inst,
            names: Some(names),
        };
        let target = bond_of(model, rel.0).target;
        let every = every_then(self.alloc, model, &lists, counts, target, &self.every)?;
        Ok(every)
    }

    /// The `every` lists without the list, where they change.
    fn every_without<'a>(
        &'a self,
        model: &Model,
        ruled: &Ruled,
        rel: RelId,
        inst: &'a InstanceId,
        counts: &Counts,
    ) -> Result<Option<Cells<List<Txt>>>, NoMemory>
        requires fits { Fits (shape_of model.now) ruled.now self.now }
        requires contains { (shape_of model.now).contains rel ≡ true }
        requires counts { AreCounts counts.now (step.without_list (shape_of model.now) self.now rel inst.now).live }
        ensures { IfOk result (λ every. unwrap_or every self.now.every ≡ (step.without_list (shape_of model.now) self.now rel inst.now).every) }
    {
        let lists = Changed {
            lists: &self.lists,
            rel,
            inst,
            names: None,
        };
        let target = bond_of(model, rel.0).target;
        let every = every_then(self.alloc, model, &lists, counts, target, &self.every)?;
        Ok(every)
    }
}
