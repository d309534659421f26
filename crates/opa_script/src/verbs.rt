// The words with which commands begin.
ghost use Rattle.std.specs.Prelude.{◌≡◌};
ghost use Rattle.opa_script.specs.Shapes as meant;

use opa_words::TokenKind;

/// What a command does, by its first word.
#[derive(Clone, Copy, Debug, PartialEq, Eq)]
pub(crate) enum Verb {
    Answer,
    Withdraw,
    SetList,
    Forget,
    Show,
    Goals,
    Next,
    Screen,
    Report,
    Save,
    Load,
    Stats,
    Dismiss,
}

fn verb_named(word: &str) -> Option<Verb>
    ensures { result ≡ meant.verb_named word.now }
{
    match word {
        "answer" => Some(Verb::Answer),
        "withdraw" => Some(Verb::Withdraw),
        "list" => Some(Verb::SetList),
        "forget" => Some(Verb::Forget),
        "show" => Some(Verb::Show),
        "goals" => Some(Verb::Goals),
        "next" => Some(Verb::Next),
        "screen" => Some(Verb::Screen),
        "report" => Some(Verb::Report),
        "save" => Some(Verb::Save),
        "load" => Some(Verb::Load),
        "stats" => Some(Verb::Stats),
        "dismiss" => Some(Verb::Dismiss),
        _ => None,
    }
}

/// The command that a token begins.
pub(crate) fn verb_of(kind: TokenKind, text: &str) -> Option<Verb>
    ensures { result ≡ meant.verb_of kind text.now }
{
    match kind {
        TokenKind::Word => verb_named(text),
        TokenKind::Number | TokenKind::Date | TokenKind::Text | TokenKind::Symbol => None,
    }
}
