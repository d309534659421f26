// What holds of every layout.
ghost use Rattle.opa_words.specs.Layout.Laws.{OneLayout};

/// The lines decide the blocks, so `blocks` has one answer at most.
#[tactic(auto, using(crate::proofs::layout::OneLayout::laws))]
pub fn one_layout()
    ensures { OneLayout }
{}
