// What is told of changes: it is one list, and dirty slots alone have changes.
ghost use Rattle.opa_session.specs.Telling.Among.{DirtyHaveChanges};
ghost use Rattle.opa_session.specs.Telling.Telling.{ToldOnce};

/// Changes are told in one way.
pub fn told_once()
    ensures { ToldOnce }
{}

/// Live slots that have all that a change reaches among them have all changes.
pub fn dirty_have_changes()
    ensures { DirtyHaveChanges }
{}
