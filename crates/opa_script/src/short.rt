// Texts that aren't too long.
ghost use Rattle.std.specs.Prelude.{◌≡◌, length, IfOk};
ghost use Rattle.std.specs.Bool.{MatchBool};
ghost use Rattle.std.specs.Str.{chars};
ghost use Rattle.opa_words.specs.Kinds.{IsToken};
ghost use Rattle.opa_words.specs.Pieces.{seen, AreOfKind};
ghost use Rattle.opa_script.specs.Shapes.{AreShort, IsShort};

use opa_io::NoMemory;
use opa_io::limits::MOST_TEXT;
use opa_words::{Pieces, TokenKind, text_of_token};
use std::alloc::Global;

/// Whether each text between quotes has at most 1,000 bytes.
pub(crate) fn are_short(alloc: Global, start: Pieces<'_>) -> Result<bool, NoMemory>
    requires { AreOfKind start }
    ensures { IfOk result (λ b. MatchBool b (AreShort (seen start.entry)) (AreShort (seen start.entry) → ⊥)) }
{
    let mut rest = start;
    while let Some((kind, text, later)) = rest.first() {
        if !is_short(alloc, kind, text)? {
            return Ok(false);
        }
        rest = later;
    }
    Ok(true)
}

fn is_short(alloc: Global, kind: TokenKind, text: &str) -> Result<bool, NoMemory>
    requires { IsToken kind (chars text.now) }
    ensures { IfOk result (λ b. MatchBool b (IsShort (record { kind = kind; text = text.now })) (IsShort (record { kind = kind; text = text.now }) → ⊥)) }
{
    match kind {
        TokenKind::Text => {
            let inner = text_of_token(alloc, text)?;
            Ok(inner.as_str().len() <= MOST_TEXT)
        }
        TokenKind::Word | TokenKind::Number | TokenKind::Date | TokenKind::Symbol => Ok(true),
    }
}
