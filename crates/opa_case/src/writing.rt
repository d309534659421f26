// A list is written, or taken away, with all that it moves.
ghost use Rattle.std.specs.Prelude.{◌≡◌, true, None, Some, Ok, unwrap_or, cond, IfOk, OnOk, OnErr};
ghost use Rattle.opa_model.specs.Models.{IsModel, HasRelation};
ghost use Rattle.opa_cells.specs.declared.instance.InstanceId.{InstanceId as InstanceView};
ghost use Rattle.opa_case.specs.Fits.{Fits};
ghost use Rattle.opa_case.specs.Homes.{home_of};
ghost use Rattle.opa_case.specs.Moves.{AreMovesOf, relist};
ghost use Rattle.opa_case.specs.Relists.{relisted, lists_with};
ghost use Rattle.opa_case.specs.Shapes.{shape_of};
ghost use Rattle.opa_case.specs.Turns.{is_among};

use crate::case::Case;
use crate::dropping::{drop_answers, drop_lists};
use crate::homes::{add_homes, drop_homes};
use crate::listed::Listed;
use crate::moves::Moves;
use opa_cells::{Cells, InstanceId};
use opa_io::{List, NoMemory, Txt, Witness};
use opa_model::{Model, RelId, Ruled};
use std::alloc::Global;

impl Case {
    /// Makes a list known that can be set, or unknown where there are no names, with what it moves; it gives back what went. Nothing
    /// is judged or found again. For want of memory the case stays as it was.
    pub fn write_list(
        &mut self,
        model: &Model,
        ruled: &Ruled,
        rel: RelId,
        inst: &InstanceId,
        names: Option<List<Txt>>,
        moves: Moves,
    ) -> Result<Vec<(InstanceId, InstanceId)>, NoMemory>
        requires form { IsModel model.now }
        requires declared { HasRelation model.now rel }
        requires fits { Fits (shape_of model.now) ruled.now self.old }
        requires accepted { relist (shape_of model.now) ruled.now self.old rel inst.now names ≡
            Ok (relisted (shape_of model.now) self.old rel inst.now names) }
        requires moves { AreMovesOf (shape_of model.now) self.old rel inst.now names moves }
        ensures ok { OnOk result (self.new ≡ relisted (shape_of model.now) self.old rel inst.now names) }
        ensures went { IfOk result (λ went. went.items ≡ moves.went.items) }
        ensures unchanged { OnErr result (self.new ≡ self.old) }
    {
        let Moves {
            went,
            came,
            counts,
            every,
        } = moves;
        put_in(
            self.alloc,
            &mut self.living.homes,
            &mut self.lists,
            rel,
            inst,
            names,
            &came,
        )?;
        drop_homes(&mut self.living.homes, &went);
        drop_lists(model, &mut self.lists, &went);
        drop_answers(model, &mut self.answers, &went);
        self.living.counts = counts;
        replace_every(&mut self.every, every);
        self.model = Some(Witness::of(model));
        Ok(went)
    }
}

/// Puts what comes in, and makes the list known, or unknown; or changes nothing.
fn put_in(
    alloc: Global,
    homes: &mut Cells<InstanceId>,
    lists: &mut Listed,
    rel: RelId,
    inst: &InstanceId,
    names: Option<List<Txt>>,
    came: &[(InstanceId, InstanceId)],
) -> Result<(), NoMemory>
    requires { (i : InstanceView) → is_among came.now i ≡ true → home_of homes.old i ≡ None }
    ensures homes { OnOk result ((i : InstanceView) → home_of homes.new i ≡ cond (is_among came.now i) (Some inst.now) (home_of homes.old i)) }
    ensures lists { OnOk result (lists.new ≡ lists_with lists.old rel inst.now names) }
    ensures same_homes { OnErr result ((i : InstanceView) → home_of homes.new i ≡ home_of homes.old i) }
    ensures same_lists { OnErr result (lists.new ≡ lists.old) }
{
    add_homes(alloc, homes, inst, came)?;
    match put_names(alloc, lists, rel, inst, names) {
        Ok(()) => Ok(()),
        Err(NoMemory) => {
            drop_homes(homes, came);
            Err(NoMemory)
        }
    }
}

/// Makes a list known, or unknown where there are no names.
fn put_names(
    alloc: Global,
    lists: &mut Listed,
    rel: RelId,
    inst: &InstanceId,
    names: Option<List<Txt>>,
) -> Result<(), NoMemory>
    ensures ok { OnOk result (lists.new ≡ lists_with lists.old rel inst.now names) }
    ensures err { OnErr result (lists.new ≡ lists.old) }
{
    match names {
        Some(names) => {
            let key = inst.copy(alloc)?;
            lists.insert(rel.0, key, names)
        }
        None => {
            lists.remove(rel.0, inst);
            Ok(())
        }
    }
}

fn replace_every(every: &mut Cells<List<Txt>>, new: Option<Cells<List<Txt>>>)
    ensures { every.new ≡ unwrap_or new every.old }
{
    if let Some(lists) = new {
        *every = lists;
    }
}
