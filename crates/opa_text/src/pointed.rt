// The points that tokens spell.
ghost use Rattle.std.specs.Prelude.{◌≡◌, ◌≤◌, ◌++◌, ◌∷◌, [], ℕ, List, codes, length, true, false, IfOk, IfSome, MatchOption};
ghost use Rattle.std.specs.Str.{chars};
ghost use Rattle.opa_words.specs.declared.kinds.TokenKind.{TokenKind as Sort};
ghost use Rattle.opa_words.specs.declared.kinds.TokenKind.TheVariants as kinds;
ghost use Rattle.opa_words.specs.Kinds.{IsToken};
ghost use Rattle.opa_words.specs.Reserved.{is_word_kind, is_phrase_kind};
ghost use Rattle.opa_words.specs.Pieces.{Piece, seen, AreOfKind, phrase_of};
ghost use Rattle.opa_text.specs.Pointed as meant;
ghost use Rattle.opa_text.specs.Pointed.{EndsWith, IsPlain, IsNamed, SpellsPoint, SpellsFirst};
ghost use Rattle.opa_text.specs.declared.pointed.Point.{Point as Place};

use crate::reading::is_word;
use opa_io::{NoMemory, Txt};
use opa_words::{Pieces, TokenKind, text_of_token};
use std::alloc::Global;

/// A phrase, and the name behind `of`.
#[derive(Debug, Drop)]
pub struct Point {
    pub phrase: Txt,
    pub name: Option<Txt>,
}

/// What stands before a word and a last token.
fn ends_with<'t>(word: &str, pieces: Pieces<'t>) -> Option<(Pieces<'t>, TokenKind, &'t str)>
    requires { AreOfKind pieces }
    ensures ends { MatchOption result ((front : List Piece) (k : Sort) (t : List ℕ) → EndsWith word.now k t front (seen pieces.entry) → ⊥) (λ x. EndsWith word.now x.1 x.2.now (seen x.0) (seen pieces.entry)) }
    ensures kind { IfSome result (λ x. IsToken x.1 (chars x.2.now)) }
    ensures before { IfSome result (λ x. AreOfKind x.0) }
{
    if pieces.len() < 2 {
        return None;
    }
    let (front, last) = pieces.split(pieces.len() - 2);
    let (kind, text, rest) = last.first()?;
    let (last_kind, last_text, _) = rest.first()?;
    if is_word(word, kind, text) {
        Some((front, last_kind, last_text))
    } else {
        None
    }
}

/// What stands before `of` and a name between quotes.
fn before_name<'t>(pieces: Pieces<'t>) -> Option<(Pieces<'t>, &'t str)>
    requires { AreOfKind pieces }
    ensures ends { MatchOption result ((front : List Piece) (t : List ℕ) → EndsWith (codes "of") kinds.Text t front (seen pieces.entry) → ⊥) (λ x. EndsWith (codes "of") kinds.Text x.1.now (seen x.0) (seen pieces.entry)) }
    ensures kind { IfSome result (λ x. IsToken kinds.Text (chars x.1.now)) }
    ensures before { IfSome result (λ x. AreOfKind x.0) }
{
    let (front, kind, text) = ends_with("of", pieces)?;
    match kind {
        TokenKind::Text => Some((front, text)),
        TokenKind::Word | TokenKind::Number | TokenKind::Date | TokenKind::Symbol => None,
    }
}

/// What stands before `at` and a date.
pub fn before_date<'t>(pieces: Pieces<'t>) -> Option<(Pieces<'t>, &'t str)>
    requires { AreOfKind pieces }
    ensures ends { MatchOption result ((front : List Piece) (t : List ℕ) →
        EndsWith (codes "at") kinds.Date t front (seen pieces.entry) → ⊥)
        (λ x. EndsWith (codes "at") kinds.Date x.1.now (seen x.0) (seen pieces.entry)) }
    ensures before { IfSome result (λ x. AreOfKind x.0) }
{
    let (front, kind, text) = ends_with("at", pieces)?;
    match kind {
        TokenKind::Date => Some((front, text)),
        TokenKind::Word | TokenKind::Number | TokenKind::Text | TokenKind::Symbol => None,
    }
}

/// Whether these are a Word followed by Words and Numbers.
fn is_run(pieces: Pieces<'_>) -> bool
    requires { AreOfKind pieces }
    ensures { result ≡ meant.is_run (seen pieces.entry) }
{
    match pieces.first() {
        None => false,
        Some((kind, _, rest)) => is_word_kind(kind) && are_words(rest),
    }
}

fn is_word_kind(kind: TokenKind) -> bool
    ensures { result ≡ is_word_kind kind }
{
    match kind {
        TokenKind::Word => true,
        TokenKind::Number | TokenKind::Date | TokenKind::Text | TokenKind::Symbol => false,
    }
}

fn is_phrase_kind(kind: TokenKind) -> bool
    ensures { result ≡ is_phrase_kind kind }
{
    match kind {
        TokenKind::Word | TokenKind::Number => true,
        TokenKind::Date | TokenKind::Text | TokenKind::Symbol => false,
    }
}

fn are_words(start: Pieces<'_>) -> bool
    requires { AreOfKind start }
    ensures { result ≡ meant.are_words (seen start.entry) }
{
    let mut rest = start;
    while let Some((kind, _, later)) = rest.first() {
        if !is_phrase_kind(kind) {
            return false;
        }
        rest = later;
    }
    true
}

/// The point that these tokens are, all of them.
pub fn point_of(alloc: Global, pieces: Pieces<'_>) -> Result<Option<Point>, NoMemory>
    requires { AreOfKind pieces }
    ensures { IfOk result (λ r. MatchOption r ((p : Place) → SpellsPoint p (seen pieces.entry) → ⊥)
        (λ p. SpellsPoint p (seen pieces.entry))) }
{
    match before_name(pieces) {
        None => plain_point(alloc, pieces),
        Some((front, text)) => named_point(alloc, front, text),
    }
}

/// The point without a name that these tokens are.
fn plain_point(alloc: Global, pieces: Pieces<'_>) -> Result<Option<Point>, NoMemory>
    requires { AreOfKind pieces }
    ensures { IfOk result (λ r. MatchOption r (meant.is_run (seen pieces.entry) ≡ false) (λ p. IsPlain p (seen pieces.entry))) }
{
    if !is_run(pieces) {
        return Ok(None);
    }
    Ok(Some(Point {
        phrase: pieces.phrase(alloc)?,
        name: None,
    }))
}

/// The point with a name that these tokens and the token of a text are.
fn named_point(alloc: Global, front: Pieces<'_>, text: &str) -> Result<Option<Point>, NoMemory>
    requires kinds { AreOfKind front }
    requires kind { IsToken kinds.Text (chars text.now) }
    ensures { IfOk result (λ r. MatchOption r (meant.is_run (seen front.entry) ≡ false) (λ p. IsNamed p text.now (seen front.entry))) }
{
    if !is_run(front) {
        return Ok(None);
    }
    Ok(Some(Point {
        phrase: front.phrase(alloc)?,
        name: Some(text_of_token(alloc, text)?),
    }))
}

/// How many tokens at the front may be a point.
fn point_end(start: Pieces<'_>) -> usize
    requires { AreOfKind start }
    ensures { result ≡ meant.point_end (seen start.entry) }
{
    let mut count = 0;
    let mut rest = start;
    while let Some((kind, _, later)) = rest.first() {
        if !is_phrase_kind(kind) {
            return count + with_text(kind);
        }
        count += 1;
        rest = later;
    }
    count
}

fn with_text(kind: TokenKind) -> usize
    ensures { result ≡ meant.with_text kind }
{
    match kind {
        TokenKind::Text => 1,
        TokenKind::Word | TokenKind::Number | TokenKind::Date | TokenKind::Symbol => 0,
    }
}

/// The point at the front, and what follows it.
pub fn first_point<'t>(
    alloc: Global,
    pieces: Pieces<'t>,
) -> Result<Option<(Point, Pieces<'t>)>, NoMemory>
    requires { AreOfKind pieces }
    ensures point { IfOk result (λ r. MatchOption r
        ((p : Place) (rest : List Piece) → SpellsFirst p (seen pieces.entry) rest → ⊥)
        (λ x. SpellsFirst x.0 (seen pieces.entry) (seen x.1))) }
    ensures later { IfOk result (λ r. IfSome r (λ x. AreOfKind x.1)) }
{
    let (front, rest) = pieces.split(point_end(pieces));
    match point_of(alloc, front)? {
        None => Ok(None),
        Some(point) => Ok(Some((point, rest))),
    }
}
