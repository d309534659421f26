// All instances of an entity, by the lists of a case.
ghost use Rattle.std.specs.Prelude.{◌≡◌, IfOk};
ghost use Rattle.opa_case.specs.Cases as cases;
ghost use Rattle.opa_case.specs.Live as live;
ghost use Rattle.opa_case.specs.Shapes.{shape_of};

use crate::case::Case;
use crate::contained::Lists;
use crate::every::walk;
use opa_cells::InstanceId;
use opa_io::{List, NoMemory, Txt};
use opa_model::{Model, RelId};
use std::alloc::Global;

/// The lists of a case, those of `every` relations among them.
#[derive(Clone, Copy)]
struct CaseLists<'a> {
    case: &'a Case,
}

impl<'a> Lists for CaseLists<'a> {
    ghost use Rattle.opa_case.specs.Cases.{list_of};

    ghost lists = { λ l. list_of l.case.now };

    fn list(&self, rel: RelId, inst: &InstanceId) -> Option<&List<Txt>> {
        self.case.list_of(rel, inst)
    }

    fn are_fewer(&self, _: RelId, _: u64) -> bool {
        false
    }
}

impl Case {
    /// All instances of an entity, where all lists that lead to them within so many steps to parents are known.
    pub fn walk(
        &self,
        alloc: Global,
        model: &Model,
        steps: u32,
        entity: u32,
    ) -> Result<Option<List<InstanceId>>, NoMemory>
        ensures { IfOk result (λ found. found ≡ live.walk (shape_of model.now) (cases.list_of self.now) steps entity) }
    {
        match walk(alloc, model, &CaseLists { case: self }, steps, entity)? {
            None => Ok(None),
            Some(instances) => Ok(Some(List::from_vec(instances))),
        }
    }
}
