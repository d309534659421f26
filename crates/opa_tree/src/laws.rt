// What holds of mentions, of ranks, and of what an attribute reaches.
ghost use Rattle.opa_tree.specs.Laws.{MentionsAreEachOnce, RanksAreUnique, RanksFall, ReachIsClosed, ReachIsFound, RulesAreFound};

/// The mentions of a tree differ, and they are the attributes that stand in it.
pub fn mentions_are_each_once()
    ensures { MentionsAreEachOnce }
{}

/// Where no two rules conclude one attribute, each rule is the rule of its attribute.
pub fn rules_are_found()
    ensures { RulesAreFound }
{}

/// A rule mentions attributes of lower rank than its own.
pub fn ranks_fall()
    ensures { RanksFall }
{}

/// Rules have one list of ranks.
pub fn ranks_are_unique()
    ensures { RanksAreUnique }
{}

/// What an attribute reaches is found by as many mentions, one after another, as its rank says.
pub fn reach_is_found()
    ensures { ReachIsFound }
{}

/// What the rules of reached attributes mention is reached.
pub fn reach_is_closed()
    ensures { ReachIsClosed }
{}
