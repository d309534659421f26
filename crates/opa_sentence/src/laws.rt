// What holds of the grammar of a line.
ghost use Rattle.opa_sentence.specs.Laws.{OneReading, IsRead, IsGrammatical, OneMeaning};
ghost use Rattle.opa_sentence.specs.Measured.{IsMeasured};

/// The grammar in its own words and its table are one: what it spells is read, and what is read it spells. Tokens are
/// read as one thing at most, so they spell one thing at most.
#[tactic(auto, using(crate::proofs::LawsHold::laws))]
pub fn one_meaning()
    ensures one { OneReading }
    ensures read { IsRead }
    ensures grammatical { IsGrammatical }
    ensures meaning { OneMeaning }
{}

/// Without bounds, what is spelled has a tree exactly where all in it is named, and its measure is that of the tree.
#[tactic(auto, using(crate::proofs::MeasureLaws::is_measured_holds))]
pub fn measures_are_told()
    ensures { IsMeasured }
{}
