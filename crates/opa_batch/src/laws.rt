// What holds of batches.
ghost use Rattle.opa_batch.specs.Parts.{PartsAreTheWhole};

/// A table may be decided in parts: the rows of both parts, numbered on, are the rows of the whole.
#[tactic(auto, using(crate::proofs::PartLaws::parts_hold))]
pub fn parts_are_the_whole()
    ensures { PartsAreTheWhole }
{}
