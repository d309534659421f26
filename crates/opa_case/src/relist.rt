// A list that is set or forgotten, laid over a case that isn't changed.
ghost use Rattle.std.specs.Prelude.{◌≡◌, ◌≢◌, None, Some, Ok, Err, cond, IfOk, IfErr};
ghost use Rattle.std.specs.Option.{option_copied};
ghost use Rattle.opa_model.specs.Models.{HasRelation};
ghost use Rattle.opa_cells.specs.declared.instance.InstanceId.{InstanceId as InstanceView};
ghost use Rattle.opa_case.specs.Fits.{Fits};
ghost use Rattle.opa_case.specs.Homes.{home_of};
ghost use Rattle.opa_case.specs.Moves.{AreMovesOf};
ghost use Rattle.opa_case.specs.Overlays.{relisted_case};
ghost use Rattle.opa_case.specs.Relists.{relisted, lists_with, AreReferred};
ghost use Rattle.opa_case.specs.Shapes.{shape_of};
ghost use Rattle.opa_case.specs.Steps as step;
ghost use Rattle.opa_case.specs.Turns.{is_among};
ghost use Rattle.opa_case.specs.declared.change.Refusal.TheVariants as refusals;

use crate::case::Case;
use crate::change::Refusal;
use crate::going_names::names_of;
use crate::homes::add_homes;
use crate::moves::Moves;
use crate::relisted::Relisted;
use opa_cells::{Cells, InstanceId};
use opa_io::{List, NoMemory, Txt};
use opa_model::{Model, RelId, Ruled};
use std::alloc::Global;

impl Case {
    /// The case with a list, which isn't written yet; or why it can't be set. The case stays as it is.
    pub fn with_list<'a>(
        &'a self,
        model: &'a Model,
        ruled: &Ruled,
        rel: RelId,
        inst: &'a InstanceId,
        names: &'a List<Txt>,
    ) -> Result<Relisted<'a>, Refusal>
        requires declared { HasRelation model.now rel }
        requires fits { Fits (shape_of model.now) ruled.now self.now }
        ensures ok { IfOk result (λ next.
            step.set_list (shape_of model.now) ruled.now self.now rel inst.now names.now ≡ Ok (relisted_case next)) }
        ensures err { IfErr result (λ e. e ≢ refusals.NoMemory →
            step.set_list (shape_of model.now) ruled.now self.now rel inst.now names.now ≡ Err e) }
        ensures case { IfOk result (λ next. next.case.now ≡ self.now) }
        ensures inst { IfOk result (λ next. next.inst.now ≡ inst.now) }
    {
        let moves = self.moves_with(model, ruled, rel, inst, names)?;
        let next = overlay(self, model, rel, inst, Some(names), moves)?;
        Ok(next)
    }

    /// The case without a list, which isn't forgotten yet; or why it can't be. The case stays as it is.
    pub fn without_list<'a>(
        &'a self,
        model: &'a Model,
        ruled: &Ruled,
        rel: RelId,
        inst: &'a InstanceId,
    ) -> Result<Relisted<'a>, Refusal>
        requires declared { HasRelation model.now rel }
        requires fits { Fits (shape_of model.now) ruled.now self.now }
        ensures ok { IfOk result (λ next.
            step.forget (shape_of model.now) self.now rel inst.now ≡ Ok (relisted_case next)) }
        ensures err { IfErr result (λ e. e ≢ refusals.NoMemory →
            step.forget (shape_of model.now) self.now rel inst.now ≡ Err e) }
        ensures case { IfOk result (λ next. next.case.now ≡ self.now) }
        ensures inst { IfOk result (λ next. next.inst.now ≡ inst.now) }
    {
        let moves = self.moves_without(model, ruled, rel, inst)?;
        let next = overlay(self, model, rel, inst, None, moves)?;
        Ok(next)
    }
}

/// A list, or none, laid over a case with what it moves.
fn overlay<'a>(
    case: &'a Case,
    model: &'a Model,
    rel: RelId,
    inst: &'a InstanceId,
    names: Option<&'a List<Txt>>,
    moves: Moves,
) -> Result<Relisted<'a>, NoMemory>
    requires moves { AreMovesOf (shape_of model.now) case.now rel inst.now (option_copied names) moves }
    requires referred { AreReferred (shape_of model.now) (lists_with case.now.lists rel inst.now (option_copied names)) case.now.live }
    ensures is { IfOk result (λ next. relisted_case next ≡ relisted (shape_of model.now) case.now rel inst.now (option_copied names.entry)) }
    ensures case { IfOk result (λ next. next.case.now ≡ case.now) }
    ensures inst { IfOk result (λ next. next.inst.now ≡ inst.now) }
{
    let Moves {
        went,
        came,
        counts,
        every,
    } = moves;
    let gone = homes_of(case.alloc, inst, &went)?;
    let come = homes_of(case.alloc, inst, &came)?;
    let lost = names_of(case.alloc, &went, inst)?;
    Ok(Relisted {
        model,
        case,
        rel,
        inst,
        names,
        went,
        came,
        counts,
        gone,
        come,
        every,
        lost,
    })
}

impl<'a> Relisted<'a> {
    /// What the list moves, by itself.
    pub fn into_moves(self) -> Moves
        ensures { AreMovesOf (shape_of self.entry.model.now) self.entry.case.now self.entry.rel self.entry.inst.now
            (option_copied self.entry.names) result }
    {
        let Relisted {
            went,
            came,
            counts,
            every,
            ..
        } = self;
        Moves {
            went,
            came,
            counts,
            every,
        }
    }
}

/// A home for each of some instances.
fn homes_of(
    alloc: Global,
    home: &InstanceId,
    instances: &[(InstanceId, InstanceId)],
) -> Result<Cells<InstanceId>, NoMemory>
    ensures { IfOk result (λ homes. (x : InstanceView) → home_of homes x ≡ cond (is_among instances.now x) (Some home.now) None) }
{
    let mut homes = Cells::new(alloc);
    add_homes(alloc, &mut homes, home, instances)?;
    Ok(homes)
}
