// A case with one list that is set or forgotten, and not written yet.
ghost use Rattle.std.specs.Prelude.{◌≡◌, unwrap_or};
ghost use Rattle.std.specs.Option.{option_copied};
ghost use Rattle.std.proofs.Props.{props};
ghost use Rattle.opa_cells.specs.Instances.{coded_instance};
ghost use Rattle.opa_case.specs.Cases.{coded_lists, coded_population};
ghost use Rattle.opa_case.specs.Homes.{AreCounts};
ghost use Rattle.opa_case.specs.Relists.{relisted, lists_with, AreMoves, AreNamesOf, AreReferred};
ghost use Rattle.opa_case.specs.Shapes.{shape_of};
ghost use Rattle.opa_case.specs.Turns.{Turns};

use crate::case::Case;
use crate::counts::Counts;
use crate::index::Index;
use opa_cells::{Cells, InstanceId};
use opa_io::{List, Txt};
use opa_model::{Model, RelId};

/// A case with one list that is set or forgotten, laid over the case as it is: nothing is copied. It has what goes (its
/// names too) and what comes, how many are live then, and the lists of the relations that are declared with `every` where they change.
#[derive(Drop)]
pub struct Relisted<'a> {
    pub(crate) model: &'a Model,
    pub(crate) case: &'a Case,
    pub(crate) rel: RelId,
    pub(crate) inst: &'a InstanceId,
    pub(crate) names: Option<&'a List<Txt>>,
    pub(crate) went: Vec<(InstanceId, InstanceId)>,
    pub(crate) came: Vec<(InstanceId, InstanceId)>,
    pub(crate) counts: Counts,
    pub(crate) gone: Cells<InstanceId>,
    pub(crate) come: Cells<InstanceId>,
    pub(crate) every: Option<Cells<List<Txt>>>,
    pub(crate) lost: Index,
    ghost turns: { Turns case.now.live (relisted (shape_of model.now) case.now rel inst.now (option_copied names)).live went.items came.items inst.now } by { Prim.hlevel (props, coded_population, coded_instance) },
    ghost moves: { AreMoves gone come case.now.live (relisted (shape_of model.now) case.now rel inst.now (option_copied names)).live } by { Prim.hlevel (props, coded_population, coded_instance) },
    ghost counted: { AreCounts counts (relisted (shape_of model.now) case.now rel inst.now (option_copied names)).live } by { Prim.hlevel (props, coded_population, coded_instance) },
    ghost each: { unwrap_or every case.now.every ≡ (relisted (shape_of model.now) case.now rel inst.now (option_copied names)).every } by { Prim.hlevel (props, coded_lists) },
    ghost lost_are: { AreNamesOf went.items lost.entries inst.now },
    ghost referred: { AreReferred (shape_of model.now) (lists_with case.now.lists rel inst.now (option_copied names)) case.now.live } by { Prim.hlevel (props, coded_population, coded_instance) },
}
