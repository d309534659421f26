// What holds of changes.
ghost use Rattle.opa_case.specs.Laws as law;
ghost use Rattle.opa_case.specs.Relists as relists;

/// What a model declares has the form of a shape.
pub fn models_are_shapes()
    ensures { law.ModelsAreShapes }
{}

/// The empty case fits each model.
pub fn empty_fits()
    ensures { law.EmptyFits }
{}

/// A change that isn't refused leaves a case that fits.
pub fn step_fits()
    ensures { law.StepFits }
{}

/// A change that isn't refused leaves a whole case whole.
pub fn step_is_whole()
    ensures { law.StepIsWhole }
{}

/// A clean change leaves a clean case.
pub fn step_is_clean()
    ensures { law.StepIsClean }
{}

/// An instance is live exactly where a live container lists it.
pub fn live_by_lists()
    ensures { law.LiveByLists }
{}

/// An answer that is set and then withdrawn is as if it had never been.
pub fn withdraw_undoes()
    ensures { law.WithdrawUndoes }
{}

/// Withdrawing only loses.
pub fn withdraw_loses()
    ensures { law.WithdrawLoses }
{}

/// Forgetting only loses.
pub fn forget_loses()
    ensures { law.ForgetLoses }
{}

/// What a list that is set keeps, and what it takes.
pub fn set_replaces()
    ensures { law.SetReplaces }
{}

/// What a list that is forgotten takes.
pub fn forget_takes()
    ensures { law.ForgetTakes }
{}

/// No change that isn't refused moves an instance that stays.
pub fn step_keeps_containers()
    ensures { law.StepKeepsContainers }
{}

/// A change of a list leaves the answers of what stays.
pub fn relisted_answers()
    ensures { relists.RelistedAnswers }
{}
