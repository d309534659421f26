// What is free in a rulebase.
ghost use Rattle.std.specs.Prelude.{◌≡◌};
ghost use Rattle.std.proofs.Props.{props};
ghost use Rattle.opa_cells.specs.Instances.{global as global_one, coded_instance};
ghost use Rattle.opa_mean.specs.Given.{base_of};
ghost use Rattle.opa_mean.specs.Goals.Tables.{AreFrees};

use opa_cells::InstanceId;
use opa_io::{List, Witness};
use opa_tree::Rulebase;

/// Whether each attribute of a rulebase is free: nothing that it reaches asks whether a value is known. It is told by the
/// rules alone, once for a rulebase. The global instance stands beside, since goals are asked for at it.
#[derive(Drop)]
pub struct Frees {
    base: Witness<Rulebase>,
    global: InstanceId,
    free: List<bool>,
    ghost is_global: { global ≡ global_one } by { Prim.hlevel (props, coded_instance) },
    pub ghost told: { AreFrees (base_of base.is) free } by { Prim.hlevel props },
}

impl Frees {
    pub(crate) fn new(base: &Rulebase, global: InstanceId, free: List<bool>) -> Frees
        requires global { global ≡ global_one }
        requires told { AreFrees (base_of base.now) free }
        ensures { result.base.is ≡ base.now }
    {
        Frees {
            base: Witness::of(base),
            global,
            free,
        }
    }

    pub(crate) fn global(&self) -> &InstanceId
        ensures { result.now ≡ global_one }
    {
        &self.global
    }

    pub(crate) fn table(&self) -> &[bool]
        ensures { result.now ≡ self.now.free }
    {
        self.free.as_slice()
    }
}
