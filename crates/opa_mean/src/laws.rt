// What holds of the meaning of every accepted rulebase and every case that fits it.
ghost use Rattle.opa_mean.specs.Laws.{UsesFix};
ghost use Rattle.opa_mean.specs.Rulebases as law;

/// A value is the answer where there is no rule; else it is its rule's value over the values of what the rule mentions.
pub fn determination()
    ensures { law.Determination }
{}

/// A value is known by the case alone.
pub fn of_the_case_alone()
    ensures { law.OfTheCaseAlone }
{}

/// A value that is known stays in every completion, for an attribute that never rests on whether something is known.
pub fn monotone()
    ensures { law.Monotone }
{}

/// A tree's value depends only on its uses.
pub fn uses_fix()
    ensures { UsesFix }
{}

/// The report of a point supports its value.
pub fn supported()
    ensures { law.Supported }
{}

/// A point is unknown exactly where it has a need.
pub fn asked()
    ensures { law.Asked }
{}

/// Nothing outside its needs can decide an unknown point.
pub fn relevant()
    ensures { law.Relevant }
{}

/// What a rule can look at fixes the line of its attribute.
pub fn reads_fix()
    ensures { law.ReadsFix }
{}

/// A slot that isn't dirty keeps its line.
pub fn clean_stays()
    ensures { law.CleanStays }
{}

/// Nothing is asked exactly where every goal is known at every day.
pub fn finished()
    ensures { law.Finished }
{}
