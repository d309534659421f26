// What a character may be in a token.
ghost use Rattle.std.specs.Prelude.{◌≡◌};
ghost use Rattle.unicode.specs.Binary.{is_alphabetic as alphabetic};
ghost use Rattle.unicode.specs.GeneralCategory.{general_category};
ghost use Rattle.unicode.specs.GeneralCategoryGroup.{in_group};
ghost use Rattle.ucd_category.specs.declared.GeneralCategoryGroup.TheVariants.{Mark};
ghost use Rattle.opa_words.specs.Characters.{begins_word, continues_word, is_blank, is_control};

use unicode::properties::{GeneralCategory, GeneralCategoryGroup, is_alphabetic};

/// Whether the character is a letter. Of ASCII that is known without Unicode's tables.
fn is_letter(c: char) -> bool
    ensures { result ≡ alphabetic c }
{
    if c.is_ascii() {
        c.is_ascii_alphabetic()
    } else {
        is_alphabetic(c)
    }
}

/// Whether the character is a mark, such as an accent of its own. No character of ASCII is one.
fn is_mark(c: char) -> bool
    ensures { result ≡ in_group Mark (general_category c) }
{
    if c.is_ascii() {
        false
    } else {
        GeneralCategoryGroup::Mark.contains(GeneralCategory::for_char(c))
    }
}

/// Whether a word may begin with the character.
pub fn begins_word(c: char) -> bool
    ensures { result ≡ begins_word c }
{
    is_letter(c) || c == '_'
}

/// Whether a word may go on with the character.
pub fn continues_word(c: char) -> bool
    ensures { result ≡ continues_word c }
{
    begins_word(c) || c.is_ascii_digit() || is_mark(c) || c == '\'' || c == '\u{2019}' || c == '-'
}

/// Whether the character separates tokens.
pub fn is_blank(c: char) -> bool
    ensures { result ≡ is_blank c }
{
    c == ' ' || c == '\t'
}

/// Whether no text may have the character.
pub fn is_control(c: char) -> bool
    ensures { result ≡ is_control c }
{
    (c as u32) < 32 || c as u32 == 127
}
