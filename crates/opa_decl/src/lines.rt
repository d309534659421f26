// Lines of declaration blocks.
ghost use Rattle.std.specs.Prelude.{◌≡◌, ◌++◌, ◌<◌, IfOk, length, if◌then◌else◌, None, Some, ◌==◌};
ghost use Rattle.std.specs.Option.{option_map};
ghost use Rattle.std.specs.List.{All};
ghost use Rattle.opa_words.specs.Places.{IsWithin};
ghost use Rattle.opa_words.specs.Reserved.{phrase_text};
ghost use Rattle.opa_decl.specs.declared.items.Sort.TheVariants as sorts;
ghost use Rattle.opa_decl.specs.declared.items.Item.TheVariants.{Relation};
ghost use Rattle.opa_decl.specs.Pieces.{phrase};
ghost use Rattle.opa_decl.specs.Lines.{name, attribute, bool_attribute, number_attribute, words_or_none, verb_line, said_by, bool_line, number_line, reach_of, target, reference_line, every_line, is_global, parent, inside_line, member_of, member};

use crate::items::{AttributeLine, Bounds, Item, Name, Place, Reach, RelationLine, Said, Sort};
use crate::limits::{Limits, comma_list};
use crate::pieces::{has_text, phrase, split_at, words};
use opa_io::{NoMemory, Txt, front};
use opa_model::Verb;
use opa_words::{Token, is_phrase, phrase_text};
use std::alloc::Global;

fn words_or_none(alloc: Global, text: &str, tokens: &[Token]) -> Result<Option<Txt>, NoMemory>
    requires { All (IsWithin text.now) tokens.now }
    ensures { IfOk result (λ o. o ≡ words_or_none text.now tokens.now) }
{
    if tokens.is_empty() {
        Ok(Some(Txt::from_str(alloc, "")?))
    } else {
        words(alloc, text, tokens)
    }
}

/// `verb POS / NEG / ASK / REST`, behind its first word.
#[tactic(auto, unfolding(crate::specs::Lines::verb_line))]
pub fn verb_line(alloc: Global, text: &str, tokens: &[Token]) -> Result<Option<Verb>, NoMemory>
    requires { All (IsWithin text.now) tokens.now }
    ensures { IfOk result (λ o. o ≡ verb_line text.now tokens.now) }
{
    let Some((positive, later)) = split_at(text, "/", tokens) else {
        return Ok(None);
    };
    let Some((negative, later)) = split_at(text, "/", later) else {
        return Ok(None);
    };
    let Some((ask, rest)) = split_at(text, "/", later) else {
        return Ok(None);
    };
    let Some(positive) = words(alloc, text, positive)? else {
        return Ok(None);
    };
    let Some(negative) = words(alloc, text, negative)? else {
        return Ok(None);
    };
    let Some(ask) = words(alloc, text, ask)? else {
        return Ok(None);
    };
    let Some(rest) = words_or_none(alloc, text, rest)? else {
        return Ok(None);
    };
    Ok(Some(Verb {
        positive,
        negative,
        ask,
        rest,
    }))
}

/// The tokens of three pieces.
fn joined(
    alloc: Global,
    first: &[Token],
    second: &[Token],
    third: &[Token],
) -> Result<Vec<Token>, NoMemory>
    ensures { IfOk result (λ v. v.items ≡ first.now ++ (second.now ++ third.now)) }
{
    let mut all = first.to_vec(alloc)?;
    all.extend_from_slice(second)?;
    all.extend_from_slice(third)?;
    Ok(all)
}

fn said_by(
    alloc: Global,
    text: &str,
    subject: &[Token],
    positive: &[Token],
    rest: &[Token],
) -> Result<Option<(Txt, Said)>, NoMemory>
    requires subject { All (IsWithin text.now) subject.now }
    requires positive { All (IsWithin text.now) positive.now }
    requires rest { All (IsWithin text.now) rest.now }
    ensures { IfOk result (λ o. o ≡ said_by text.now subject.now positive.now rest.now) }
{
    let whole = joined(alloc, subject, positive, rest)?;
    let Some(whole) = phrase(alloc, text, &whole)? else {
        return Ok(None);
    };
    let Some(positive) = words(alloc, text, positive)? else {
        return Ok(None);
    };
    if subject.is_empty() {
        return Ok(None);
    }
    Ok(Some((
        whole,
        Said {
            subject: phrase_text(alloc, text, subject)?,
            positive,
            rest: phrase_text(alloc, text, rest)?,
        },
    )))
}

/// `bool SUBJECT [POS] REST`.
#[tactic(auto, unfolding(crate::specs::Lines::bool_line))]
pub fn bool_line(
    alloc: Global,
    text: &str,
    tokens: &[Token],
) -> Result<Option<(Txt, Said)>, NoMemory>
    requires { All (IsWithin text.now) tokens.now }
    ensures { IfOk result (λ o. o ≡ bool_line text.now tokens.now) }
{
    let Some((subject, later)) = split_at(text, "[", tokens) else {
        return Ok(None);
    };
    let Some((positive, rest)) = split_at(text, "]", later) else {
        return Ok(None);
    };
    said_by(alloc, text, subject, positive, rest)
}

/// `number PHRASE` or `currency PHRASE`, with `:` and bounds or without.
#[tactic(auto, unfolding(crate::specs::Lines::number_line, crate::specs::Pieces::phrase))]
pub fn number_line(
    alloc: Global,
    text: &str,
    decimals: u8,
    tokens: &[Token],
) -> Result<Option<(Txt, Bounds)>, NoMemory>
    requires { All (IsWithin text.now) tokens.now }
    ensures { IfOk result (λ o. o ≡ number_line text.now decimals tokens.now) }
{
    if is_phrase(text, tokens) {
        let name = phrase_text(alloc, text, tokens)?;
        return Ok(Some((name, Limits::none().bounds(decimals))));
    }
    let Some((front, items)) = split_at(text, ":", tokens) else {
        return Ok(None);
    };
    let Some(name) = phrase(alloc, text, front)? else {
        return Ok(None);
    };
    match comma_list(text, 3, decimals, Limits::none(), items) {
        None => Ok(None),
        Some(limits) => Ok(Some((name, limits.bounds(decimals)))),
    }
}

fn reach_of(text: &str, token: Token) -> Option<Reach>
    requires { IsWithin text.now token }
    ensures { result ≡ reach_of text.now token }
{
    if has_text(text, "one", token) {
        Some(Reach::One)
    } else if has_text(text, "many", token) {
        Some(Reach::Many)
    } else {
        None
    }
}

/// `one ENTITY` or `many ENTITY`.
fn target(alloc: Global, text: &str, tokens: &[Token]) -> Result<Option<(Reach, Txt)>, NoMemory>
    requires { All (IsWithin text.now) tokens.now }
    ensures { IfOk result (λ o. o ≡ target text.now tokens.now) }
{
    let Some((token, rest)) = front(tokens) else {
        return Ok(None);
    };
    let Some(reach) = reach_of(text, *token) else {
        return Ok(None);
    };
    let Some(entity) = phrase(alloc, text, rest)? else {
        return Ok(None);
    };
    Ok(Some((reach, entity)))
}

/// `reference PHRASE: one ENTITY` or `reference PHRASE: many ENTITY`.
#[tactic(auto, unfolding(crate::specs::Lines::reference_line))]
pub fn reference_line(
    alloc: Global,
    text: &str,
    place: Place,
    of_global: bool,
    tokens: &[Token],
) -> Result<Option<RelationLine>, NoMemory>
    requires { All (IsWithin text.now) tokens.now }
    ensures { IfOk result (λ o. o ≡ reference_line text.now place of_global tokens.now) }
{
    let Some((front, entity)) = split_at(text, ":", tokens) else {
        return Ok(None);
    };
    let Some(phrase) = phrase(alloc, text, front)? else {
        return Ok(None);
    };
    let Some((reach, target)) = target(alloc, text, entity)? else {
        return Ok(None);
    };
    Ok(Some(RelationLine {
        of_global,
        phrase: Name {
            place,
            text: phrase,
        },
        target: Name {
            place,
            text: target,
        },
        reach,
    }))
}

/// `every PHRASE: ENTITY`.
#[tactic(auto, unfolding(crate::specs::Lines::every_line))]
pub fn every_line(
    alloc: Global,
    text: &str,
    place: Place,
    of_global: bool,
    tokens: &[Token],
) -> Result<Option<RelationLine>, NoMemory>
    requires { All (IsWithin text.now) tokens.now }
    ensures { IfOk result (λ o. o ≡ every_line text.now place of_global tokens.now) }
{
    let Some((front, entity)) = split_at(text, ":", tokens) else {
        return Ok(None);
    };
    let Some(name) = phrase(alloc, text, front)? else {
        return Ok(None);
    };
    let Some(target) = phrase(alloc, text, entity)? else {
        return Ok(None);
    };
    if !of_global {
        return Ok(None);
    }
    Ok(Some(RelationLine {
        of_global,
        phrase: Name { place, text: name },
        target: Name {
            place,
            text: target,
        },
        reach: Reach::Every,
    }))
}

/// Whether the tokens are `global` alone.
fn is_global(text: &str, tokens: &[Token]) -> bool
    requires { All (IsWithin text.now) tokens.now }
    ensures { result ≡ is_global text.now tokens.now }
{
    match front(tokens) {
        None => false,
        Some((token, rest)) => rest.is_empty() && has_text(text, "global", *token),
    }
}

/// `global`, or the phrase of an entity.
fn parent(
    alloc: Global,
    text: &str,
    place: Place,
    tokens: &[Token],
) -> Result<Option<Option<Name>>, NoMemory>
    requires { All (IsWithin text.now) tokens.now }
    ensures { IfOk result (λ o. o ≡ parent text.now place tokens.now) }
{
    if is_global(text, tokens) {
        return Ok(Some(None));
    }
    match phrase(alloc, text, tokens)? {
        None => Ok(None),
        Some(text) => Ok(Some(Some(Name { place, text }))),
    }
}

/// `in PARENT: PHRASE`.
#[tactic(auto, unfolding(crate::specs::Lines::inside_line))]
pub fn inside_line(
    alloc: Global,
    text: &str,
    place: Place,
    tokens: &[Token],
) -> Result<Option<(Option<Name>, Name)>, NoMemory>
    requires { All (IsWithin text.now) tokens.now }
    ensures { IfOk result (λ o. o ≡ inside_line text.now place tokens.now) }
{
    let Some((token, later)) = front(tokens) else {
        return Ok(None);
    };
    let Some((above, inside)) = split_at(text, ":", later) else {
        return Ok(None);
    };
    let Some(above) = parent(alloc, text, place, above)? else {
        return Ok(None);
    };
    let Some(inside) = phrase(alloc, text, inside)? else {
        return Ok(None);
    };
    if !has_text(text, "in", *token) {
        return Ok(None);
    }
    Ok(Some((
        above,
        Name {
            place,
            text: inside,
        },
    )))
}
