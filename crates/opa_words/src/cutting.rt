// A text is cut into its tokens.
ghost use Rattle.std.specs.Prelude.{◌≡◌, ◌+◌, ◌<◌, ◌^◌, ◌++◌, ◌∷◌, [], length, IfOk, IfErr, OnOk, MatchResult};
ghost use Rattle.std.specs.Str.{chars};
ghost use Rattle.opa_words.specs.Characters.{is_blank, width};
ghost use Rattle.std.specs.List.{All};
ghost use Rattle.opa_words.specs.Places.{IsWithin, IsOfKind, AreApart, IsAtCharacter};
ghost use Rattle.opa_words.specs.Cuts.{Cuts, IsCause, Full};

use crate::characters::is_blank;
use crate::cursor::Cursor;
use crate::{Token, WordFault};
use std::alloc::Global;

/// The tokens of a line.
pub fn tokens(alloc: Global, text: &str) -> Result<Vec<Token>, WordFault>
    requires { length text.now < 2 ^ 32 }
    ensures cut { IfOk result (λ v. Cuts (length text.now) (chars text.now) v.items) }
    ensures fault { IfErr result (IsCause (length text.now) (chars text.now)) }

    // The text may be cut at the tokens, which are what their kinds say, and only blanks stand between them.
    ensures within { IfOk result (λ v. All (IsWithin text.now) v.items) }
    ensures kinds { IfOk result (λ v. All (IsOfKind text.now) v.items) }
    ensures apart { IfOk result (λ v. AreApart text.now 0 v.items) }
    ensures border { IfErr result (IsAtCharacter text.now) }
{
    cut(alloc, Cursor::new(text))
}

/// The tokens of what is left.
fn cut(alloc: Global, start: Cursor<'_>) -> Result<Vec<Token>, WordFault>
    ensures cut { IfOk result (λ v. Cuts (start.entry.at + width (chars start.entry.rest.now)) (chars start.entry.rest.now) v.items) }
    ensures fault { IfErr result (IsCause (start.entry.at + width (chars start.entry.rest.now)) (chars start.entry.rest.now)) }
{
    let mut tokens = Vec::new(alloc);
    let mut here = start;
    while let Some((c, after)) = here.first() {
        if is_blank(c) {
            here = after;
        } else {
            match here.token() {
                None => return Err(WordFault::Place(here.at)),
                Some((kind, next)) => {
                    add(
                        &mut tokens,
                        Token {
                            kind,
                            start: here.at,
                            end: next.at,
                        },
                    )?;
                    here = next;
                }
            }
        }
    }
    Ok(tokens)
}

fn add(tokens: &mut Vec<Token>, token: Token) -> Result<(), WordFault>
    ensures ok { OnOk result (tokens.new.items ≡ tokens.old.items ++ token ∷ []) }
    ensures err { IfErr result (λ e. e ≡ Full) }
{
    tokens.push(token)?;
    Ok(())
}
