// The first word of a block.
ghost use Rattle.std.specs.Prelude.{◌≡◌};
ghost use Rattle.std.specs.Str.{chars};
ghost use Rattle.opa_words.specs.Characters.{begins_word, continues_word};
ghost use Rattle.opa_decl.specs.Heads.{goes_on, begins_with, head_of as head_of_text, head_in};

use opa_words::BlockLine;
use unicode::properties::{GeneralCategory, GeneralCategoryGroup, is_alphabetic};

/// What a block declares by its first word: `include` and `table` a file.
#[derive(Clone, Copy, Debug, PartialEq, Eq)]
pub enum Head {
    Verb,
    Global,
    Entity,
    Goal,
    Screen,
    File,
}

/// Whether a word may go on with the character.
fn continues_word(c: char) -> bool
    ensures { result ≡ continues_word c }
{
    is_alphabetic(c)
        || c == '_'
        || c.is_ascii_digit()
        || GeneralCategoryGroup::Mark.contains(GeneralCategory::for_char(c))
        || c == '\''
        || c == '\u{2019}'
        || c == '-'
}

/// Whether a word goes on with the text.
fn goes_on(text: &str) -> bool
    ensures { result ≡ goes_on (chars text.now) }
{
    match text.chars().next() {
        None => false,
        Some(c) => continues_word(c),
    }
}

/// Whether the first word of the text is this one.
#[tactic(auto, unfolding(crate::specs::Heads::begins_with))]
fn begins_with(word: &str, text: &str) -> bool
    ensures { result ≡ begins_with word.now text.now }
{
    match text.strip_prefix(word) {
        None => false,
        Some(rest) => !goes_on(rest),
    }
}

/// What a block with this first line declares.
pub fn head_of(text: &str) -> Option<Head>
    ensures { result ≡ head_of_text text.now }
{
    if begins_with("verb", text) {
        return Some(Head::Verb);
    }
    if begins_with("global", text) {
        return Some(Head::Global);
    }
    if begins_with("entity", text) {
        return Some(Head::Entity);
    }
    if begins_with("goal", text) {
        return Some(Head::Goal);
    }
    if begins_with("screen", text) {
        return Some(Head::Screen);
    }
    if begins_with("include", text) || begins_with("table", text) {
        return Some(Head::File);
    }
    None
}

/// What a block of these lines declares.
pub fn head_in(lines: &[BlockLine]) -> Option<Head>
    ensures { result ≡ head_in lines.now }
{
    match lines {
        [] => None,
        [first, ..] => head_of(first.text.as_str()),
    }
}
