// Lines that stay the same.
ghost use Rattle.opa_session.specs.Settlement.Sames.{SameAreCurrent};

/// The same lines are current.
pub fn same_are_current()
    ensures { SameAreCurrent }
{}
