// What is kept after a change of lists.
ghost use Rattle.opa_session.specs.Store.Drops.{DroppedAreCurrent};

/// Where what goes is dropped, what is kept is current for the case that comes.
pub fn dropped_are_current()
    ensures { DroppedAreCurrent }
{}
