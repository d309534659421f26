// The containers of live instances, as some come and some go.
ghost use Rattle.std.specs.Prelude.{◌≡◌, cond, None, Some, OnOk, OnErr, true, false};
ghost use Rattle.opa_cells.specs.declared.instance.InstanceId.{InstanceId as InstanceView};
ghost use Rattle.opa_case.specs.Homes.{home_of};
ghost use Rattle.opa_case.specs.Turns.{is_among};

use opa_cells::{Cells, InstanceId};
use opa_io::NoMemory;
use std::alloc::Global;

/// Puts new instances into a container.
pub(crate) fn add_homes(
    alloc: Global,
    homes: &mut Cells<InstanceId>,
    container: &InstanceId,
    come: &[(InstanceId, InstanceId)],
) -> Result<(), NoMemory>
    requires { (i : InstanceView) → is_among come.now i ≡ true → home_of homes.old i ≡ None }
    ensures ok { OnOk result ((i : InstanceView) → home_of homes.new i ≡ cond (is_among come.now i) (Some container.now) (home_of homes.old i)) }
    ensures err { OnErr result ((i : InstanceView) → home_of homes.new i ≡ home_of homes.old i) }
{
    match insert_homes(alloc, homes, container, come) {
        Ok(()) => Ok(()),
        Err(NoMemory) => {
            drop_homes(homes, come);
            Err(NoMemory)
        }
    }
}

/// Inserts homes one by one; where memory is wanting some of them.
fn insert_homes(
    alloc: Global,
    homes: &mut Cells<InstanceId>,
    container: &InstanceId,
    come: &[(InstanceId, InstanceId)],
) -> Result<(), NoMemory>
    ensures ok { OnOk result ((i : InstanceView) → home_of homes.new i ≡ cond (is_among come.now i) (Some container.now) (home_of homes.old i)) }
    ensures err { OnErr result ((i : InstanceView) → is_among come.now i ≡ false → home_of homes.new i ≡ home_of homes.old i) }
{
    for (inst, _) in come {
        let key = inst.copy(alloc)?;
        let home = container.copy(alloc)?;
        homes.insert(0, key, home)?;
    }
    Ok(())
}

/// Takes instances out.
pub(crate) fn drop_homes(homes: &mut Cells<InstanceId>, gone: &[(InstanceId, InstanceId)])
    ensures { (i : InstanceView) → home_of homes.new i ≡ cond (is_among gone.now i) None (home_of homes.old i) }
{
    for (inst, _) in gone {
        homes.remove(0, inst);
    }
}
