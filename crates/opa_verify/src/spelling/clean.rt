// Texts that can be written between quotes.
ghost use Rattle.std.specs.Prelude.{◌≡◌, true};
ghost use Rattle.std.specs.List.{list_any};
ghost use Rattle.std.specs.Bool.{Decides};
ghost use Rattle.opa_text.specs.Laws.{CanBeQuoted};
ghost use Rattle.opa_words.specs.Characters.{is_control as is_control_of};

pub(crate) fn can_be_quoted(text: &str) -> bool
    ensures { Decides result (CanBeQuoted text.now) }
{
    !has_control(text.as_bytes())
}

fn has_control(bytes: &[u8]) -> bool
    ensures { result ≡ list_any is_control_of bytes.now }
{
    bytes.iter().any(|byte| is_control(*byte))
}

fn is_control(byte: u8) -> bool
    ensures { result ≡ is_control_of byte }
{
    byte < 32 || byte == 127
}
