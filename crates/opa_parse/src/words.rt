// The words of a line: its ending, what stands before it, and what they are as a head.
ghost use Rattle.std.specs.Prelude.{◌≡◌, ◌++◌, ◌∷◌, [], MatchOption, if◌then◌else◌};
ghost use Rattle.std.specs.Option.{option_map, option_or};
ghost use Rattle.opa_sentence.specs.Cursors.{seen};
ghost use Rattle.opa_parse.specs.declared.line.Head.TheVariants as heads;
ghost use Rattle.opa_parse.specs.Lines.{ending_word as ending_word_of, ending_of as ending_of_words, body as body_of, is_none, past_word as past_word_of, past_denial as past_denial_of, past_for_all as past_for_all_of, past_for_some as past_for_some_of, whole as whole_of, relation_of as relation_of_words, all_head as all_head_of, any_head as any_head_of, plain_head as plain_head_of, for_all_head, for_some_head, head_of as head_of_words};

use crate::{Ending, Head};
use opa_sentence::{Cursor, Names, Relation, relation_at};
use opa_words::{is_ending, token_text};

/// The items but the last, and the last one.
pub fn back<T>(items: &[T]) -> Option<(&[T], &T)>
    ensures { MatchOption result (items.now ≡ []) (λ x. items.now ≡ x.0.now ++ x.1.now ∷ []) }
{
    match items {
        [front @ .., last] => Some((front, last)),
        [] => None,
    }
}

fn ending_word(word: &str) -> Ending
    ensures { result ≡ ending_word_of word.now }
{
    if word == "and" {
        Ending::And
    } else if word == "or" {
        Ending::Or
    } else if word == "if" {
        Ending::If
    } else if word == "otherwise" {
        Ending::Otherwise
    } else {
        Ending::Nothing
    }
}

/// The last word, where it is a connector or an ending.
#[tactic(auto, using(crate::proofs::WordLaws::ending_last))]
pub fn ending_of(words: Cursor<'_>) -> Ending
    ensures { result ≡ ending_of_words (seen words.entry) }
{
    match back(words.tokens) {
        None => Ending::Nothing,
        Some((_, last)) => ending_word(token_text(words.text, *last)),
    }
}

/// What stands before the ending.
#[tactic(auto, using(crate::proofs::WordLaws::bodies))]
pub fn body(words: Cursor<'_>) -> Cursor<'_>
    ensures { seen result ≡ body_of (seen words.entry) }
{
    match back(words.tokens) {
        None => words,
        Some((front, last)) => {
            if is_ending(token_text(words.text, *last)) {
                Cursor::new(words.text, front)
            } else {
                words
            }
        }
    }
}

fn past_word<'t>(words: Cursor<'t>, word: &str) -> Option<Cursor<'t>>
    ensures { option_map (λ c. seen c) result ≡ past_word_of word.now (seen words.entry) }
{
    match words.first() {
        None => None,
        Some((_, text, rest)) => { if text == word { Some(rest) } else { None } }
    }
}

fn past_denial(words: Cursor<'_>) -> Option<Cursor<'_>>
    ensures { option_map (λ c. seen c) result ≡ past_denial_of (seen words.entry) }
{
    let rest = past_word(words, "it")?;
    let rest = past_word(rest, "is")?;
    let rest = past_word(rest, "not")?;
    let rest = past_word(rest, "true")?;
    past_word(rest, "that")
}

fn past_for_all(words: Cursor<'_>) -> Option<Cursor<'_>>
    ensures { option_map (λ c. seen c) result ≡ past_for_all_of (seen words.entry) }
{
    let rest = past_word(words, "for")?;
    let rest = past_word(rest, "all")?;
    past_word(rest, "of")
}

fn past_for_some(words: Cursor<'_>) -> Option<Cursor<'_>>
    ensures { option_map (λ c. seen c) result ≡ past_for_some_of (seen words.entry) }
{
    let rest = past_word(words, "for")?;
    let rest = past_word(rest, "at")?;
    let rest = past_word(rest, "least")?;
    let rest = past_word(rest, "one")?;
    past_word(rest, "of")
}

pub fn is_none_left(words: Cursor<'_>) -> bool
    ensures { result ≡ is_none (seen words.entry) }
{
    words.tokens.is_empty()
}

/// The head, where nothing follows its words.
fn whole(head: Head, rest: Option<Cursor<'_>>) -> Option<Head>
    ensures { result ≡ whole_of head (option_map (λ c. seen c) rest.entry) }
{
    match rest {
        None => None,
        Some(rest) => { if is_none_left(rest) { Some(head) } else { None } }
    }
}

/// The relation whose phrase these words are.
pub fn relation_of(names: &Names, words: Cursor<'_>) -> Option<Relation>
    ensures { result ≡ relation_of_words names.now (seen words.entry) }
{
    match relation_at(names, words) {
        None => None,
        Some((relation, rest)) => {
            if is_none_left(rest) {
                Some(relation)
            } else {
                None
            }
        }
    }
}

fn over_all(names: &Names, words: Cursor<'_>) -> Option<Head>
    ensures { result ≡ for_all_head names.now (seen words.entry) }
{
    let rest = past_for_all(words)?;
    let relation = relation_of(names, rest)?;
    Some(Head::ForAll(relation))
}

fn over_some(names: &Names, words: Cursor<'_>) -> Option<Head>
    ensures { result ≡ for_some_head names.now (seen words.entry) }
{
    let rest = past_for_some(words)?;
    let relation = relation_of(names, rest)?;
    Some(Head::Exists(relation))
}

/// The first of two that there is.
fn first_of(first: Option<Head>, second: Option<Head>) -> Option<Head>
    ensures { result ≡ option_or first second }
{
    match first {
        None => second,
        Some(head) => Some(head),
    }
}

fn all_head(words: Cursor<'_>) -> Option<Head>
    ensures { result ≡ all_head_of (seen words.entry) }
{
    let all = whole(Head::All, past_word(words, "all"));
    let both = whole(Head::All, past_word(words, "both"));
    first_of(all, both)
}

fn any_head(words: Cursor<'_>) -> Option<Head>
    ensures { result ≡ any_head_of (seen words.entry) }
{
    let any = whole(Head::Any, past_word(words, "any"));
    let either = whole(Head::Any, past_word(words, "either"));
    first_of(any, either)
}

fn denial_head(words: Cursor<'_>) -> Option<Head>
    ensures { result ≡ whole_of heads.Not (past_denial_of (seen words.entry)) }
{
    whole(Head::Not, past_denial(words))
}

fn plain_head(words: Cursor<'_>) -> Option<Head>
    ensures { result ≡ plain_head_of (seen words.entry) }
{
    let any = first_of(any_head(words), denial_head(words));
    first_of(all_head(words), any)
}

/// The head that the words are.
pub fn head_of(names: &Names, words: Cursor<'_>) -> Option<Head>
    ensures { result ≡ head_of_words names.now (seen words.entry) }
{
    let over = first_of(over_all(names, words), over_some(names, words));
    first_of(plain_head(words), over)
}
