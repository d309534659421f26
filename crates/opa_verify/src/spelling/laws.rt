// What holds of spelled texts.
ghost use Rattle.opa_verify.specs.Spelling.Laws as law;

/// A text has at most one line that breaks it first.
pub fn one_first_fault()
    ensures { law.OneFirstFault }
{}

/// A text that is spelled has no such line.
pub fn spelled_has_none()
    ensures { law.SpelledHasNone }
{}

/// A report that can be printed is spelled by its text.
pub fn texts_are_spelled()
    ensures { law.TextsAreSpelled }
{}

/// Reports with the same text say the same.
pub fn one_spelling()
    ensures { law.OneSpelling }
{}
