// What holds of all readings of blocks.
ghost use Rattle.opa_decl.specs.Laws.{OneCutting, OneModel, ModelOrFault};

/// Blocks are cut in one way, so they declare one model at most, or have a first fault, and never both.
#[tactic(auto, using(crate::proofs::OneReading::laws))]
pub fn one_reading()
    ensures cutting { OneCutting }
    ensures model { OneModel }
    ensures either { ModelOrFault }
{}
