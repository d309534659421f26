// What holds of all tokens and quotes.
ghost use Rattle.opa_words.specs.Laws.{OneCut, CutOrStuck, OneLongest};
ghost use Rattle.opa_words.specs.Quoted.{ReadsQuoted};
ghost use Rattle.opa_words.specs.Quotes.{QuotedTellsApart};

/// A text is cut in one way or is stuck at one place, and one token at most is the longest at a place.
#[tactic(auto, using(crate::proofs::OneCut::laws))]
pub fn one_cut()
    ensures one { OneCut }
    ensures either { CutOrStuck }
    ensures longest { OneLongest }
{}

/// A text is known by what it is between quotes, so `text_of_token` gives back what `quoted` took.
#[tactic(auto, using(crate::proofs::QuoteLaws::quoted_tells_apart))]
pub fn quoted_tells_apart()
    ensures { QuotedTellsApart }
{}

/// A text between quotes is read as that text.
#[tactic(auto, using(crate::proofs::QuotedLaws::reads_quoted_holds))]
pub fn quoted_texts_are_read()
    ensures { ReadsQuoted }
{}
