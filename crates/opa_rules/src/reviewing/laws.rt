// What holds of all findings.
ghost use Rattle.opa_rules.specs.Reviewing.Laws.{FindingsAreSo, SettledAreFound, UnusedAreFound};
ghost use Rattle.opa_rules.specs.Reviewing.NoCase.{BoundsAreKept};

/// What is found of a rulebase is so, whatever case fits it.
pub fn findings_are_so()
    ensures { FindingsAreSo }
{}

/// What no goal looks at is found, and so is each goal that no answer changes.
pub fn all_are_found()
    ensures unused { UnusedAreFound }
    ensures settled { SettledAreFound }
{}

/// The empty case keeps the bounds of answers, and no change that isn't refused ends that.
pub fn bounds_are_kept()
    ensures { BoundsAreKept }
{}
