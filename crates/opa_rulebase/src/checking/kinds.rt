// The kinds that trees can have.
ghost use Rattle.std.specs.Prelude.{◌≡◌, ◌&&◌, false, nat_le, map, IfOk};
ghost use Rattle.std.specs.List.{list_all};
ghost use Rattle.std.specs.Option.{option_map_or};
ghost use Rattle.opa_model.specs.declared.things.Kind.TheVariants as kind;
ghost use Rattle.opa_model.specs.Lookups.{attribute_at, relation_at};
ghost use Rattle.opa_tree.specs.Accepted.{concludes_bool};
ghost use Rattle.opa_tree.specs.Kinds.{is_kind, typed, typing, can_have, literal_of, counts_decimals, quant_can, rule_has_kind};
ghost use Rattle.opa_rulebase.specs.Checking.KindSets.{typing_of, row_typed};

use crate::checking::declared::{attribute_of, relation_of};
use crate::checking::sets::{KindSet, meet, op_kinds, quant_kinds, window_kinds};
use opa_io::NoMemory;
use opa_io::limits::MOST_DAYS;
use opa_model::{AttrId, Kind, Model, RelId};
use opa_tree::{Expr, Quant, Row, Rule};
use opa_value::{Number, Value};
use std::alloc::Global;

/// A whole number from 0 to 4.
fn counts_decimals(number: Number) -> bool
    ensures { result ≡ counts_decimals number }
{
    let count = number.count();
    0 <= count && count <= 40_000 && count % 10_000 == 0
}

/// The kinds of a literal; `uncertain` has every kind.
fn literal_kinds(value: &Value) -> KindSet
    ensures { typing_of result ≡ literal_of value.now }
{
    match value {
        Value::Unknown => KindSet::of(false, false, false, false),
        Value::Uncertain => KindSet::of(true, true, true, true),
        Value::Bool(_) => KindSet::of(true, false, false, false),
        Value::Num(number) => KindSet::literal_number(counts_decimals(*number)),
        Value::Words(_) => KindSet::of(false, false, true, false),
        Value::Day(_) => KindSet::of(false, false, false, true),
    }
}

fn attribute_kinds(model: &Model, attr: AttrId) -> KindSet
    ensures { typing_of result ≡ typed (λ k. option_map_or (λ x. is_kind x.kind k) (attribute_at model.now attr) false) }
{
    match attribute_of(model, attr) {
        Some(attribute) => KindSet::exactly(attribute.kind),
        None => KindSet::none(),
    }
}

fn over_kinds(model: &Model, quant: Quant, rel: RelId, sets: &[KindSet]) -> KindSet
    ensures { typing_of result ≡ typed (λ k. option_map_or (λ x. quant_can quant x.one (map typing_of sets.now) k) (relation_at model.now rel) false) }
{
    match relation_of(model, rel) {
        Some(relation) => quant_kinds(quant, relation.one, sets),
        None => KindSet::none(),
    }
}

/// Of a function that looks back over so many days.
fn rolling_kinds(days: u32, set: &KindSet) -> KindSet
    ensures { typing_of result ≡ typed (λ k. nat_le 1 days && nat_le days 36600 && is_kind kind.Bool k && (typing_of set.now).can kind.Bool) }
{
    let test = 1 <= days && days <= MOST_DAYS;
    KindSet::of(test && set.bools, false, false, false)
}

fn is_bool(sort: Kind) -> bool
    ensures { result ≡ is_kind kind.Bool sort }
{
    match sort {
        Kind::Bool => true,
        Kind::Number => false,
        Kind::Currency => false,
        Kind::Words => false,
        Kind::Date => false,
    }
}

/// Whether a rule that is written by "if" concludes a bool.
fn concludes_bool(model: &Model, rule: &Rule) -> bool
    ensures { result ≡ concludes_bool model.now rule.now }
{
    if rule.by_if {
        match attribute_of(model, rule.attr) {
            Some(attribute) => is_bool(attribute.kind),
            None => false,
        }
    } else {
        true
    }
}

/// Whether the rule's tree can have the kind of its attribute.
fn fits_attribute(alloc: Global, model: &Model, rule: &Rule) -> Result<bool, NoMemory>
    ensures { IfOk result (λ fits. fits ≡ rule_has_kind model.now rule.now) }
{
    match attribute_of(model, rule.attr) {
        Some(attribute) => Ok(kinds_of(alloc, model, &rule.expr)?.has(attribute.kind)),
        None => Ok(false),
    }
}

/// Whether the rule's tree can have the kind of its attribute, and a rule that is written by "if" concludes a bool.
pub fn has_its_kind(alloc: Global, model: &Model, rule: &Rule) -> Result<bool, NoMemory>
    ensures { IfOk result (λ has. has ≡ (rule_has_kind model.now rule.now && concludes_bool model.now rule.now)) }
{
    let fits = fits_attribute(alloc, model, rule)?;
    Ok(fits && concludes_bool(model, rule))
}

/// The kinds that a tree can have.
#[cycle(walk)]
#[tactic(auto, using(opa_tree::proofs::KindLaws::typing_laws, crate::proofs::checking::SetLaws::same_typing))]
fn kinds_of(alloc: Global, model: &Model, expr: &Expr) -> Result<KindSet, NoMemory>
    ensures { IfOk result (λ set. typing_of set ≡ typing model.now expr.now) }
{
    match expr {
        Expr::Const(value) => Ok(literal_kinds(value)),
        Expr::Attr(attr) => Ok(attribute_kinds(model, *attr)),
        Expr::All(parts) => {
            let test = all_bools(alloc, model, parts.as_slice())?;
            Ok(KindSet::only(Kind::Bool, test))
        }
        Expr::Any(parts) => {
            let test = all_bools(alloc, model, parts.as_slice())?;
            Ok(KindSet::only(Kind::Bool, test))
        }
        Expr::Not(part) => {
            let set = kinds_of(alloc, model, part.get())?;
            Ok(KindSet::only(Kind::Bool, set.bools))
        }
        Expr::Op(op, parts) => {
            let sets = kinds_of_each(alloc, model, parts.as_slice())?;
            Ok(op_kinds(*op, &sets))
        }
        Expr::Certain(part) => {
            let set = kinds_of(alloc, model, part.get())?;
            Ok(KindSet::only(Kind::Bool, set.is_some()))
        }
        Expr::Known(part) => {
            let set = kinds_of(alloc, model, part.get())?;
            Ok(KindSet::only(Kind::Bool, set.is_some()))
        }
        Expr::Over(quant, rel, parts) => {
            let sets = kinds_of_each(alloc, model, parts.as_slice())?;
            Ok(over_kinds(model, *quant, *rel, &sets))
        }
        Expr::Window(window, parts) => {
            let sets = kinds_of_each(alloc, model, parts.as_slice())?;
            Ok(window_kinds(*window, &sets))
        }
        Expr::Rolling(_, days, part) => {
            let set = kinds_of(alloc, model, part.get())?;
            Ok(rolling_kinds(*days, &set))
        }
        Expr::Table(rows, last) => {
            let sets = kinds_of_rows(alloc, model, rows.as_slice())?;
            let kinds = kinds_of(alloc, model, last.get())?;
            Ok(meet(&sets).and(kinds))
        }
    }
}

/// The kinds of each of several trees.
#[cycle(walk)]
fn kinds_of_each(alloc: Global, model: &Model, parts: &[Expr]) -> Result<Vec<KindSet>, NoMemory>
    ensures { IfOk result (λ sets. map typing_of sets.items ≡ map (typing model.now) parts.now) }
{
    let mut sets = Vec::new(alloc);
    for part in parts {
        sets.push(kinds_of(alloc, model, part)?)?;
    }
    Ok(sets)
}

/// Whether each of several trees can be a bool.
#[cycle(walk)]
fn all_bools(alloc: Global, model: &Model, parts: &[Expr]) -> Result<bool, NoMemory>
    ensures { IfOk result (λ all. all ≡ list_all (λ e. can_have model.now e kind.Bool) parts.now) }
{
    let mut all = true;
    for part in parts {
        let set = kinds_of(alloc, model, part)?;
        all = all && set.bools;
    }
    Ok(all)
}

/// The kinds of each of several rows.
#[cycle(walk)]
fn kinds_of_rows(alloc: Global, model: &Model, rows: &[Row]) -> Result<Vec<KindSet>, NoMemory>
    ensures { IfOk result (λ sets. map typing_of sets.items ≡ map (row_typed model.now) rows.now) }
{
    let mut sets = Vec::new(alloc);
    for row in rows {
        sets.push(row_kinds(alloc, model, row)?)?;
    }
    Ok(sets)
}

/// The kinds of a row's value, where its condition can be a bool.
#[cycle(walk)]
fn row_kinds(alloc: Global, model: &Model, row: &Row) -> Result<KindSet, NoMemory>
    ensures { IfOk result (λ set. typing_of set ≡ row_typed model.now row.now) }
{
    let cond = kinds_of(alloc, model, &row.cond)?;
    let value = kinds_of(alloc, model, &row.value)?;
    Ok(value.where_holds(cond.bools))
}
