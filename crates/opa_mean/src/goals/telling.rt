// Which attributes are free.
ghost use Rattle.std.specs.Prelude.{◌≡◌, ◌↔◌, IsTrue, IfOk};
ghost use Rattle.opa_mean.specs.Frees.{IsFree};
ghost use Rattle.opa_mean.specs.Given.{base_of};
ghost use Rattle.opa_mean.specs.Goals.Freedom.{never_asks};
ghost use Rattle.opa_mean.specs.Goals.Rulebases.{rulebase_of};

use crate::goals::freedom::Frees;
use crate::goals::ranks::free_table;
use crate::goals::trees::told_free;
use opa_cells::InstanceId;
use opa_io::NoMemory;
use opa_model::AttrId;
use opa_tree::Rulebase;
use std::alloc::Global;

impl Frees {
    /// What is free in a rulebase.
    pub fn of(alloc: Global, base: &Rulebase) -> Result<Frees, NoMemory>
        ensures { IfOk result (λ frees. rulebase_of frees ≡ base.now) }
    {
        let free = free_table(alloc, base)?;
        let global = InstanceId::global(alloc)?;
        let frees = Frees::new(base, global, free);
        Ok(frees)
    }

    /// Whether nothing that the attribute reaches asks whether a value is known.
    pub fn is_free(&self, attr: AttrId) -> bool
        ensures free { result ≡ never_asks (base_of (rulebase_of self.now)) attr }
        ensures exact { IsTrue result ↔ IsFree (base_of (rulebase_of self.now)) attr }
    {
        let free = told_free(self.table(), attr);
        free
    }
}
