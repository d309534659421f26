// The positions of texts, and the longest that tokens spell.
ghost use Rattle.std.specs.Prelude.{◌≡◌, ◌≤◌, ◌<◌, ◌^◌, length, IfOk, OnOk, MatchBool};
ghost use Rattle.std.specs.List.{All};
ghost use Rattle.std.specs.HashMap.{get_by_text};
ghost use Rattle.opa_words.specs.Places.{IsWithin};
ghost use Rattle.opa_words.specs.Phrases.{FindsFirst, FindsAlso, FindsNoneWider, IsLastFound, found_or, with_word};

use crate::Token;
use crate::reserved::token_text;
use arrayvec::ArrayString;
use opa_io::{NoMemory, Txt};
use std::alloc::Global;
use std::collections::HashMap;

/// Room for the text of every phrase that a rulebase may have.
pub(crate) const ROOM: usize = 1024;

/// The first position of each text.
pub(crate) fn positions_of(alloc: Global, texts: &[Txt]) -> Result<HashMap<String, u32>, NoMemory>
    requires few { length texts.now < 2 ^ 32 }
    ensures { IfOk result (λ m. FindsFirst (get_by_text m) texts.now) }
{
    let mut positions = HashMap::new(alloc);
    for (position, text) in texts.iter().enumerate() {
        note(alloc, &mut positions, text.as_str(), position as u32)?;
    }
    Ok(positions)
}

/// Notes the position of a text that has none.
fn note(
    alloc: Global,
    positions: &mut HashMap<String, u32>,
    text: &str,
    position: u32,
) -> Result<(), NoMemory>
    ensures { OnOk result (FindsAlso (get_by_text positions.old) text.now position (get_by_text positions.new)) }
{
    if !positions.contains_key(text) {
        positions.insert(String::from_str(alloc, text)?, position)?;
    }
    Ok(())
}

/// The length of the longest text, in bytes.
pub(crate) fn widest_of(texts: &[Txt]) -> usize
    ensures { All (λ t. length t ≤ result) texts.now }
{
    let mut widest = 0;
    for text in texts {
        widest = text.as_str().len().max(widest);
    }
    widest
}

/// What is found for the longest text that the first tokens spell, and how many they are.
pub(crate) fn last_found(
    positions: &HashMap<String, u32>,
    widest: usize,
    text: &str,
    tokens: &[Token],
) -> Option<(u32, usize)>
    requires room { widest ≤ 1024 }
    requires widest { FindsNoneWider (get_by_text positions.now) widest }
    requires within { All (IsWithin text.now) tokens.now }
    ensures { IsLastFound (get_by_text positions.now) text.now tokens.now (length tokens.now) result }
{
    let mut joined = ArrayString::new();
    let mut best = None;
    for (before, token) in tokens.iter().enumerate() {
        if !add_word(&mut joined, widest, before == 0, token_text(text, *token)) {
            return best;
        }
        best = found_or(best, positions.get(joined.as_str()).copied(), before + 1);
    }
    best
}

fn found_or(best: Option<(u32, usize)>, found: Option<u32>, count: usize) -> Option<(u32, usize)>
    ensures { result ≡ found_or best found count }
{
    match found {
        None => best,
        Some(position) => Some((position, count)),
    }
}

/// Adds a word, and answers whether the text is not too long for that.
fn add_word(joined: &mut ArrayString<ROOM>, widest: usize, is_first: bool, word: &str) -> bool
    requires { widest ≤ 1024 }
    ensures { MatchBool result (joined.new.bytes ≡ with_word joined.old.bytes is_first word.now) (widest < length (with_word joined.old.bytes is_first word.now)) }
{
    if !is_first && joined.try_push_str(" ").is_err() {
        return false;
    }
    joined.try_push_str(word).is_ok() && joined.len() <= widest
}
