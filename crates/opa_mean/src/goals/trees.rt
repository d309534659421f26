// Trees that ask whether a value is known, and what they mention.
ghost use Rattle.std.specs.Prelude.{◌≡◌, ◌&&◌, flat_map};
ghost use Rattle.std.specs.List.{list_all};
ghost use Rattle.opa_tree.specs.Mentions.{mentioned, row_mentioned};
ghost use Rattle.opa_mean.specs.Frees.{is_free as asks_nothing};
ghost use Rattle.opa_mean.specs.Goals.Tables.{row_asks_nothing, told_free as told_by};

use opa_model::AttrId;
use opa_tree::{Expr, Row};

/// Whether no part of the tree asks whether a value is known.
#[cycle(asking)]
#[tactic(auto, using(crate::proofs::goals::FreeTrees::free_laws))]
pub(crate) fn is_free(expr: &Expr) -> bool
    ensures { result ≡ asks_nothing expr.now }
{
    match expr {
        Expr::Const(_) | Expr::Attr(_) => true,
        Expr::Known(_) => false,
        Expr::All(parts)
        | Expr::Any(parts)
        | Expr::Op(_, parts)
        | Expr::Over(_, _, parts)
        | Expr::Window(_, parts) => are_free(parts.as_slice()),
        Expr::Not(part) | Expr::Certain(part) | Expr::Rolling(_, _, part) => is_free(part.get()),
        Expr::Table(rows, last) => are_rows_free(rows.as_slice()) && is_free(last.get()),
    }
}

#[cycle(asking)]
fn are_free(parts: &[Expr]) -> bool
    ensures { result ≡ list_all asks_nothing parts.now }
{
    for part in parts {
        if !is_free(part) {
            return false;
        }
    }
    true
}

#[cycle(asking)]
fn are_rows_free(rows: &[Row]) -> bool
    ensures { result ≡ list_all row_asks_nothing rows.now }
{
    for row in rows {
        if !is_free(&row.cond) || !is_free(&row.value) {
            return false;
        }
    }
    true
}

/// What a table tells of an attribute; past its end nothing is asked.
pub(crate) fn told_free(free: &[bool], attr: AttrId) -> bool
    ensures { result ≡ told_by free.now attr }
{
    match free.get(attr.0 as usize) {
        Some(is_free) => *is_free,
        None => true,
    }
}

/// Whether all that the tree mentions is free by the table.
#[cycle(mentions)]
#[tactic(auto, using(opa_tree::proofs::MentionLaws::mentioned_laws))]
pub(crate) fn mentions_free(expr: &Expr, free: &[bool]) -> bool
    ensures { result ≡ list_all (told_by free.now) (mentioned expr.now) }
{
    match expr {
        Expr::Const(_) => true,
        Expr::Attr(attr) => told_free(free, *attr),
        Expr::All(parts)
        | Expr::Any(parts)
        | Expr::Op(_, parts)
        | Expr::Over(_, _, parts)
        | Expr::Window(_, parts) => all_mention_free(parts.as_slice(), free),
        Expr::Not(part) | Expr::Certain(part) | Expr::Known(part) | Expr::Rolling(_, _, part) => {
            mentions_free(part.get(), free)
        }
        Expr::Table(rows, last) => {
            rows_mention_free(rows.as_slice(), free) && mentions_free(last.get(), free)
        }
    }
}

#[cycle(mentions)]
fn all_mention_free(parts: &[Expr], free: &[bool]) -> bool
    ensures { result ≡ list_all (told_by free.now) (flat_map mentioned parts.now) }
{
    for part in parts {
        if !mentions_free(part, free) {
            return false;
        }
    }
    true
}

#[cycle(mentions)]
fn rows_mention_free(rows: &[Row], free: &[bool]) -> bool
    ensures { result ≡ list_all (told_by free.now) (flat_map row_mentioned rows.now) }
{
    for row in rows {
        if !mentions_free(&row.cond, free) || !mentions_free(&row.value, free) {
            return false;
        }
    }
    true
}
