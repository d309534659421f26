// What holds of all tokens with their texts.
ghost use Rattle.opa_words.specs.PieceLaws.{OneCutting, WrittenIsCut, QuotedIsToken, AsciiIsToken};

/// A text is cut into at most one list of tokens.
pub fn one_cutting()
    ensures { OneCutting }
{}

/// What is written token by token is cut into those tokens.
pub fn written_is_cut()
    ensures { WrittenIsCut }
{}

/// A text without control characters is a token between quotes.
pub fn quoted_is_token()
    ensures { QuotedIsToken }
{}

/// ASCII characters that are a token are one as a text too.
pub fn ascii_is_token()
    ensures { AsciiIsToken }
{}
