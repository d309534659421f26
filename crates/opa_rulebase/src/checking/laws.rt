// What holds of circles, of refusals and of ranks.
ghost use Rattle.opa_rulebase.specs.Checking.Laws.{AcceptedAreNotRefused, CirclesAreRound, RanksExist};

/// Accepted rules aren't refused.
pub fn accepted_are_not_refused()
    ensures { AcceptedAreNotRefused }
{}

/// In a circle that is told each attribute mentions the next one, and the last mentions the first.
pub fn circles_are_round()
    ensures { CirclesAreRound }
{}

/// Where no attribute is left, the rules have ranks.
pub fn ranks_exist()
    ensures { RanksExist }
{}
