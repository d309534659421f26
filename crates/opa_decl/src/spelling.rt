// What a declaration block spells.
ghost use Rattle.std.specs.Prelude.{◌≡◌, ◌++◌, ◌∷◌, [], IfOk, IfSome, Some};
ghost use Rattle.std.specs.Option.{option_map};
ghost use Rattle.std.specs.List.{All};
ghost use Rattle.opa_words.specs.Places.{IsWithin, IsOfKind};
ghost use Rattle.opa_decl.specs.Cutting.{HasTokens};
ghost use Rattle.opa_decl.specs.Steps.{each};
ghost use Rattle.opa_decl.specs.Spelling.{place_in, behind_head, inner, member_in, screen_item, inside_in, headed_phrase, headed_text, headed_verb, verb_block, global_block, entity_block, goal_block, screen_block, file_block, block_by, spelled_in, spelled};

use crate::cut::{CutBlock, CutLine};
use crate::head::{Head, head_of};
use crate::items::{EntityLines, Item, Name, Place, ScreenLines, VerbLine};
use crate::lines::{inside_line, verb_line};
use crate::members::member;
use crate::pieces::{phrase, quoted_text};
use opa_io::{List, NoMemory, Txt, front};
use opa_model::Verb;
use opa_words::Token;
use std::alloc::Global;

fn place_in(file: u32, line: &CutLine) -> Place
    ensures { result ≡ place_in file line.now }
{
    Place {
        file,
        line: line.line,
    }
}

/// The tokens of a line.
fn tokens_of(line: &CutLine) -> Option<&[Token]>
    requires { HasTokens line.now.text line.now.tokens }
    ensures value { option_map (λ ts. ts.now) result ≡ line.now.tokens }
    ensures within { IfSome result (λ ts. All (IsWithin line.now.text) ts.now) }
    ensures kinds { IfSome result (λ ts. All (IsOfKind line.now.text) ts.now) }
{
    match &line.tokens {
        None => None,
        Some(tokens) => Some(tokens.as_slice()),
    }
}

/// What follows the first word of a line.
fn behind_head(line: &CutLine) -> Option<&[Token]>
    requires { HasTokens line.now.text line.now.tokens }
    ensures value { option_map (λ ts. ts.now) result ≡ behind_head line.now }
    ensures within { IfSome result (λ ts. All (IsWithin line.now.text) ts.now) }
    ensures kinds { IfSome result (λ ts. All (IsOfKind line.now.text) ts.now) }
{
    match tokens_of(line) {
        None => None,
        Some(tokens) => match front(tokens) {
            None => None,
            Some((_, rest)) => Some(rest),
        },
    }
}

/// The tokens of a line of level 1.
fn inner(line: &CutLine) -> Option<&[Token]>
    requires { HasTokens line.now.text line.now.tokens }
    ensures value { option_map (λ ts. ts.now) result ≡ inner line.now }
    ensures within { IfSome result (λ ts. All (IsWithin line.now.text) ts.now) }
{
    if line.level == 1 {
        tokens_of(line)
    } else {
        None
    }
}

#[tactic(auto, unfolding(crate::specs::Spelling::member_in))]
fn member_in(
    alloc: Global,
    file: u32,
    of_global: bool,
    line: &CutLine,
) -> Result<Option<Item>, NoMemory>
    requires { HasTokens line.now.text line.now.tokens }
    ensures { IfOk result (λ o. o ≡ member_in file of_global line.now) }
{
    match inner(line) {
        None => Ok(None),
        Some(tokens) => member(
            alloc,
            line.text.as_str(),
            place_in(file, line),
            of_global,
            tokens,
        ),
    }
}

#[tactic(auto, unfolding(crate::specs::Spelling::screen_item))]
fn screen_item(alloc: Global, file: u32, line: &CutLine) -> Result<Option<Name>, NoMemory>
    requires { HasTokens line.now.text line.now.tokens }
    ensures { IfOk result (λ o. o ≡ screen_item file line.now) }
{
    let Some(tokens) = inner(line) else {
        return Ok(None);
    };
    match phrase(alloc, line.text.as_str(), tokens)? {
        None => Ok(None),
        Some(text) => Ok(Some(Name {
            place: place_in(file, line),
            text,
        })),
    }
}

#[tactic(auto, unfolding(crate::specs::Spelling::inside_in))]
fn inside_in(
    alloc: Global,
    file: u32,
    line: &CutLine,
) -> Result<Option<(Option<Name>, Name)>, NoMemory>
    requires { HasTokens line.now.text line.now.tokens }
    ensures { IfOk result (λ o. o ≡ inside_in file line.now) }
{
    match inner(line) {
        None => Ok(None),
        Some(tokens) => inside_line(alloc, line.text.as_str(), place_in(file, line), tokens),
    }
}

#[tactic(auto, unfolding(crate::specs::Spelling::headed_phrase))]
fn headed_phrase(alloc: Global, file: u32, line: &CutLine) -> Result<Option<Name>, NoMemory>
    requires { HasTokens line.now.text line.now.tokens }
    ensures { IfOk result (λ o. o ≡ headed_phrase file line.now) }
{
    let Some(tokens) = behind_head(line) else {
        return Ok(None);
    };
    match phrase(alloc, line.text.as_str(), tokens)? {
        None => Ok(None),
        Some(text) => Ok(Some(Name {
            place: place_in(file, line),
            text,
        })),
    }
}

#[tactic(auto, unfolding(crate::specs::Spelling::headed_text))]
fn headed_text(alloc: Global, file: u32, line: &CutLine) -> Result<Option<Name>, NoMemory>
    requires { HasTokens line.now.text line.now.tokens }
    ensures { IfOk result (λ o. o ≡ headed_text file line.now) }
{
    let Some(tokens) = behind_head(line) else {
        return Ok(None);
    };
    match quoted_text(alloc, line.text.as_str(), tokens)? {
        None => Ok(None),
        Some(text) => Ok(Some(Name {
            place: place_in(file, line),
            text,
        })),
    }
}

#[tactic(auto, unfolding(crate::specs::Spelling::headed_verb))]
fn headed_verb(alloc: Global, line: &CutLine) -> Result<Option<Verb>, NoMemory>
    requires { HasTokens line.now.text line.now.tokens }
    ensures { IfOk result (λ o. o ≡ headed_verb line.now) }
{
    match behind_head(line) {
        None => Ok(None),
        Some(tokens) => verb_line(alloc, line.text.as_str(), tokens),
    }
}

/// `verb POS / NEG / ASK / REST`.
fn verb_block(
    alloc: Global,
    file: u32,
    first: &CutLine,
    deeper: &[CutLine],
) -> Result<Option<List<Item>>, NoMemory>
    requires { HasTokens first.now.text first.now.tokens }
    ensures { IfOk result (λ o. o ≡ verb_block file first.now deeper.now) }
{
    if front(deeper).is_some() {
        return Ok(None);
    }
    match headed_verb(alloc, first)? {
        None => Ok(None),
        Some(verb) => {
            let place = place_in(file, first);
            alone(alloc, Item::Verb(VerbLine { place, verb }))
        }
    }
}

/// A block of one item.
fn alone(alloc: Global, item: Item) -> Result<Option<List<Item>>, NoMemory>
    ensures { IfOk result (λ o. o ≡ Some (item ∷ [])) }
{
    let mut items = List::new(alloc);
    items.push(item)?;
    Ok(Some(items))
}

/// The items so far and those of level-1 lines.
fn members_in(
    alloc: Global,
    file: u32,
    of_global: bool,
    lines: &[CutLine],
    before: List<Item>,
) -> Result<Option<List<Item>>, NoMemory>
    requires { All (λ line. HasTokens line.text line.tokens) lines.now }
    ensures { IfOk result (λ o. o ≡ option_map (λ items. before ++ items) (each (member_in file of_global) lines.now)) }
{
    let mut items = before;
    let mut rest = lines;
    while let Some((line, later)) = front(rest) {
        match member_in(alloc, file, of_global, line)? {
            None => return Ok(None),
            Some(item) => items.push(item)?,
        }
        rest = later;
    }
    Ok(Some(items))
}

/// `global` with level-1 lines.
fn global_block(
    alloc: Global,
    file: u32,
    first: &CutLine,
    deeper: &[CutLine],
) -> Result<Option<List<Item>>, NoMemory>
    requires first { HasTokens first.now.text first.now.tokens }
    requires deeper { All (λ line. HasTokens line.text line.tokens) deeper.now }
    ensures { IfOk result (λ o. o ≡ global_block file first.now deeper.now) }
{
    if front(deeper).is_none() {
        return Ok(None);
    }
    let Some(more) = behind_head(first) else {
        return Ok(None);
    };
    if !more.is_empty() {
        return Ok(None);
    }
    members_in(alloc, file, true, deeper, List::new(alloc))
}

/// `entity PHRASE` with level-1 lines, of which the first is `in PARENT: PHRASE`.
fn entity_block(
    alloc: Global,
    file: u32,
    first: &CutLine,
    deeper: &[CutLine],
) -> Result<Option<List<Item>>, NoMemory>
    requires first { HasTokens first.now.text first.now.tokens }
    requires deeper { All (λ line. HasTokens line.text line.tokens) deeper.now }
    ensures { IfOk result (λ o. o ≡ entity_block file first.now deeper.now) }
{
    let Some((second, lines)) = front(deeper) else {
        return Ok(None);
    };
    let Some(phrase) = headed_phrase(alloc, file, first)? else {
        return Ok(None);
    };
    let Some((parent, inside)) = inside_in(alloc, file, second)? else {
        return Ok(None);
    };
    let entity = EntityLines {
        phrase,
        parent,
        inside,
    };
    let mut items = List::new(alloc);
    items.push(Item::Entity(entity))?;
    members_in(alloc, file, false, lines, items)
}

/// `goal PHRASE`.
fn goal_block(
    alloc: Global,
    file: u32,
    first: &CutLine,
    deeper: &[CutLine],
) -> Result<Option<List<Item>>, NoMemory>
    requires { HasTokens first.now.text first.now.tokens }
    ensures { IfOk result (λ o. o ≡ goal_block file first.now deeper.now) }
{
    if front(deeper).is_some() {
        return Ok(None);
    }
    match headed_phrase(alloc, file, first)? {
        None => Ok(None),
        Some(goal) => alone(alloc, Item::Goal(goal)),
    }
}

/// The phrases of a screen.
fn screen_items(alloc: Global, file: u32, lines: &[CutLine]) -> Result<Option<List<Name>>, NoMemory>
    requires { All (λ line. HasTokens line.text line.tokens) lines.now }
    ensures { IfOk result (λ o. o ≡ each (screen_item file) lines.now) }
{
    let mut items = List::new(alloc);
    let mut rest = lines;
    while let Some((line, later)) = front(rest) {
        match screen_item(alloc, file, line)? {
            None => return Ok(None),
            Some(item) => items.push(item)?,
        }
        rest = later;
    }
    Ok(Some(items))
}

/// `screen TEXT` with level-1 lines of one phrase.
fn screen_block(
    alloc: Global,
    file: u32,
    first: &CutLine,
    deeper: &[CutLine],
) -> Result<Option<List<Item>>, NoMemory>
    requires first { HasTokens first.now.text first.now.tokens }
    requires deeper { All (λ line. HasTokens line.text line.tokens) deeper.now }
    ensures { IfOk result (λ o. o ≡ screen_block file first.now deeper.now) }
{
    if front(deeper).is_none() {
        return Ok(None);
    }
    let Some(title) = headed_text(alloc, file, first)? else {
        return Ok(None);
    };
    match screen_items(alloc, file, deeper)? {
        None => Ok(None),
        Some(items) => alone(alloc, Item::Screen(ScreenLines { title, items })),
    }
}

/// `include TEXT` or `table TEXT`, in the main file only.
fn file_block(
    alloc: Global,
    file: u32,
    first: &CutLine,
    deeper: &[CutLine],
) -> Result<Option<List<Item>>, NoMemory>
    requires { HasTokens first.now.text first.now.tokens }
    ensures { IfOk result (λ o. o ≡ file_block file first.now deeper.now) }
{
    if front(deeper).is_some() || file != 0 {
        return Ok(None);
    }
    match headed_text(alloc, file, first)? {
        None => Ok(None),
        Some(name) => alone(alloc, Item::File(name)),
    }
}

#[tactic(auto, unfolding(crate::specs::Spelling::block_by))]
fn block_by(
    alloc: Global,
    file: u32,
    head: Head,
    first: &CutLine,
    deeper: &[CutLine],
) -> Result<Option<List<Item>>, NoMemory>
    requires first { HasTokens first.now.text first.now.tokens }
    requires deeper { All (λ line. HasTokens line.text line.tokens) deeper.now }
    ensures { IfOk result (λ o. o ≡ block_by file head first.now deeper.now) }
{
    match head {
        Head::Verb => verb_block(alloc, file, first, deeper),
        Head::Global => global_block(alloc, file, first, deeper),
        Head::Entity => entity_block(alloc, file, first, deeper),
        Head::Goal => goal_block(alloc, file, first, deeper),
        Head::Screen => screen_block(alloc, file, first, deeper),
        Head::File => file_block(alloc, file, first, deeper),
    }
}

/// What the lines of a declaration block say, one after another.
#[tactic(auto, unfolding(crate::specs::Spelling::spelled))]
pub fn spelled(alloc: Global, block: &CutBlock) -> Result<Option<List<Item>>, NoMemory>
    requires { All (λ line. HasTokens line.text line.tokens) block.now.lines }
    ensures { IfOk result (λ o. o ≡ spelled block.now) }
{
    let Some((first, deeper)) = front(block.lines.as_slice()) else {
        return Ok(None);
    };
    match head_of(first.text.as_str()) {
        None => Ok(None),
        Some(head) => block_by(alloc, block.file, head, first, deeper),
    }
}
