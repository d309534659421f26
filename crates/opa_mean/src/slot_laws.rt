// What the definitions of slots, lines, changes and sameness come to.
ghost use Rattle.opa_mean.specs.Lies as lie;
ghost use Rattle.opa_mean.specs.SlotLaws as law;

/// The slots of the definition are the live slots.
pub fn slots_are_live()
    ensures { law.SlotsAreLive }
{}

/// They are in order: by rank, then in declared order, then in instance order.
pub fn slots_in_order()
    ensures { law.SlotsInOrder }
{}

/// No live instance stands twice in instance order.
pub fn instances_once()
    ensures { law.InstancesOnce }
{}

/// No slot stands twice among the slots.
pub fn slots_once()
    ensures { law.SlotsOnce }
{}

/// A line stands for the values of an attribute exactly where it is the line of the definition.
pub fn line_is_one()
    ensures { law.LineIsOne }
{}

/// From a case to itself nothing is dirty.
pub fn nothing_is_dirty()
    ensures { law.NothingIsDirty }
{}

/// From a case to itself nothing changes.
pub fn nothing_changes()
    ensures { law.NothingChanges }
{}

/// The changes are the slots whose lines differ, each with the first day of difference.
pub fn changes_are()
    ensures { law.ChangesAre }
{}

/// The tests of sameness hold exactly of what is one.
pub fn sameness_is_exact()
    ensures { law.SamenessIsExact }
{}

/// Over the lines that are held a tree has its value over the determination.
pub fn held_is_fresh()
    ensures { law.HeldIsFresh }
{}

/// The live instances of an entity are those that the case tells of it, in its order.
pub fn owned_are_members()
    ensures { law.OwnedAreMembers }
{}

/// There are as many slots as the case counts against its limit.
pub fn slots_counted()
    ensures { law.SlotsCounted }
{}

/// What a point at a live instance uses has its place there, and is of lower rank.
pub fn uses_lie()
    ensures { lie.UsesLie }
{}

/// All that a point rests on through all rules has its place, where the point has one.
pub fn cone_lies()
    ensures { lie.ConeLies }
{}
