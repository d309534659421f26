// The longest phrase among the tokens of a text.
ghost use Rattle.std.specs.Prelude.{◌≡◌, ◌≤◌, ◌<◌, ◌^◌, length, drop, IfOk, MatchOption};
ghost use Rattle.std.specs.List.{All};
ghost use Rattle.opa_words.specs.Places.{IsWithin, token_text};
ghost use Rattle.opa_words.specs.Phrases.{IsLongestPhrase, NoneIsSpelled, spelled, longer, at_position, longest_from};

use crate::Token;
use crate::positions::{ROOM, last_found, positions_of, widest_of};
use crate::reserved::token_text;
use opa_io::{List, NoMemory, Txt};
use std::alloc::Global;
use std::collections::HashMap;
use std::marker::Model;

/// Phrases that are looked up among tokens.
#[derive(Debug, Drop)]
pub struct Phrases {
    texts: List<Txt>,
    positions: HashMap<String, u32>,
    widest: usize,
}

impl Model for Phrases {
    ghost use Rattle.std.specs.Prelude.{ℕ, List as Seq, ◌<◌, ◌≤◌, ◌^◌, length};
    ghost use Rattle.std.specs.HashMap.{get_by_text};
    ghost use Rattle.std.specs.List.{All};
    ghost use Rattle.opa_words.specs.Phrases.{FindsFirst};

    ghost Value = { Seq (Seq ℕ) };

    ghost view = { λ p. p.texts };

    ghost invariant = { λ p. (length p.texts < 2 ^ 32) × FindsFirst (get_by_text p.positions) p.texts × All
        (λ t. length t ≤ p.widest) p.texts };
}

impl Phrases {
    pub fn new(alloc: Global, texts: &List<Txt>) -> Result<Phrases, NoMemory>
        requires { length texts.now < 2 ^ 32 }
        ensures { IfOk result (λ p. p ≡ texts.now) }
    {
        Ok(Phrases {
            texts: copied(alloc, texts.as_slice())?,
            positions: positions_of(alloc, texts.as_slice())?,
            widest: widest_of(texts.as_slice()),
        })
    }

    /// The position of the longest phrase that the tokens of the text spell from `place` on, and how many they are. Of
    /// equal phrases it is the first. Takes no memory, and one look-up for each of the first tokens that the longest
    /// phrase has room for. Only where a phrase takes more than 1,024 bytes does it go over all phrases.
    pub fn longest(&self, text: &str, tokens: &[Token], place: usize) -> Option<(u32, usize)>
        requires { All (IsWithin text.now) tokens.now }
        ensures { MatchOption result (NoneIsSpelled self.now text.now (drop place tokens.now))
            (λ x. IsLongestPhrase self.now text.now (drop place tokens.now) x.0 x.1) }
    {
        let rest = rest_from(tokens, place);
        if self.widest <= ROOM {
            last_found(&self.positions, self.widest, text, rest)
        } else {
            longest_of(self.texts.as_slice(), text, rest)
        }
    }
}

fn rest_from(tokens: &[Token], place: usize) -> &[Token]
    ensures { result.now ≡ drop place tokens.now }
{
    if place < tokens.len() {
        &tokens[place..]
    } else {
        &[]
    }
}

fn copied(alloc: Global, texts: &[Txt]) -> Result<List<Txt>, NoMemory>
    ensures { IfOk result (λ list. list ≡ texts.now) }
{
    let mut list = List::new(alloc);
    let mut rest = texts;
    while let [first, later @ ..] = rest {
        list.push(Txt::from_str(alloc, first.as_str())?)?;
        rest = later;
    }
    Ok(list)
}

#[tactic(auto, using(crate::proofs::PhraseLaws::laws))]
fn longest_of(phrases: &[Txt], text: &str, tokens: &[Token]) -> Option<(u32, usize)>
    requires few { length phrases.now < 2 ^ 32 }
    requires within { All (IsWithin text.now) tokens.now }
    ensures { result ≡ longest_from text.now tokens.now 0 phrases.now }
{
    let mut best = None;
    let mut count = 0;
    let mut rest = phrases;
    while let [phrase, later @ ..] = rest {
        best = longer(
            best,
            at_position(count, spelled(text, tokens, phrase.as_str().as_bytes())),
        );
        count += 1;
        rest = later;
    }
    best
}

fn at_position(position: u32, count: Option<usize>) -> Option<(u32, usize)>
    ensures { result ≡ at_position position count }
{
    match count {
        None => None,
        Some(count) => Some((position, count)),
    }
}

fn longer(first: Option<(u32, usize)>, second: Option<(u32, usize)>) -> Option<(u32, usize)>
    ensures { result ≡ longer first second }
{
    match (first, second) {
        (None, other) => other,
        (Some(a), None) => Some(a),
        (Some(a), Some(b)) => if a.1 < b.1 { Some(b) } else { Some(a) },
    }
}

/// How many of the first tokens spell the phrase.
fn spelled(text: &str, tokens: &[Token], phrase: &[u8]) -> Option<usize>
    requires { All (IsWithin text.now) tokens.now }
    ensures { result ≡ spelled text.now tokens.now phrase.now }
{
    let mut count = 0;
    let mut rest = phrase;
    let mut later = tokens;
    while let [first, more @ ..] = later {
        match rest.strip_prefix(token_text(text, *first).as_bytes()) {
            None => return None,
            Some([]) => return Some(count + 1),
            Some([byte, next @ ..]) => {
                if *byte != b' ' {
                    return None;
                }
                count += 1;
                rest = next;
                later = more;
            }
        }
    }
    None
}
