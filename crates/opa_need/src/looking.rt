// What is looked at in a held case.
ghost use Rattle.std.specs.Prelude.{◌≡◌, ◌∷◌, ◌<◌, [], length, IfOk, IfSome, Some, List as Seq};
ghost use Rattle.std.specs.List.{AllByRecursion};
ghost use Rattle.std.specs.Option.{option_copied};
ghost use Rattle.opa_case.specs.Cases.{IsLive, list_of};
ghost use Rattle.opa_case.specs.Live.{container_of};
ghost use Rattle.opa_case.specs.Shapes.{shape_of};
ghost use Rattle.opa_date.specs.declared.TheConstants.{DAYS};
ghost use Rattle.opa_mean.specs.Places as places;
ghost use Rattle.opa_need.specs.Steps.{part_value};
ghost use Rattle.opa_tree.specs.Rules as rules;
ghost use Rattle.opa_value.specs.Truth as truth;

use opa_case::InstanceId;
use opa_code::tree_line;
use opa_io::{List, NoMemory, Txt};
use opa_mean::{Held, place_in, tree_value};
use opa_model::{AttrId, RelId};
use opa_tree::{Expr, Row, Rule};
use opa_value::Value;
use std::alloc::Global;

pub(crate) fn rule_of<H: Held>(held: &H, attr: AttrId) -> Option<&Rule>
    ensures { option_copied result ≡ rules.rule_of (H.rules held.now).rules attr }
{
    held.base().rules.of(attr)
}

/// The place of an attribute.
pub(crate) fn attr_place<'a, H: Held>(
    held: &'a H,
    enclosing: &'a List<InstanceId>,
    attr: AttrId,
) -> Option<&'a InstanceId>
    ensures { option_copied result ≡ places.place (container_of (H.held held.now).live) enclosing.now (places.owner_of (shape_of (H.rules held.now).model) attr) }
{
    let owner = opa_mean::owner_of(&held.base().model, attr);
    place_in(held.case(), enclosing.as_slice(), owner)
}

/// The place of a relation's source.
pub(crate) fn source_place<'a, H: Held>(
    held: &'a H,
    enclosing: &'a List<InstanceId>,
    rel: RelId,
) -> Option<&'a InstanceId>
    ensures { option_copied result ≡ places.place (container_of (H.held held.now).live) enclosing.now ((shape_of (H.rules held.now).model).source rel) }
{
    let source = opa_mean::source_of(&held.base().model, rel);
    place_in(held.case(), enclosing.as_slice(), source)
}

pub(crate) fn target_of<H: Held>(held: &H, rel: RelId) -> u32
    ensures { result ≡ (shape_of (H.rules held.now).model).target rel }
{
    opa_mean::target_of(&held.base().model, rel)
}

pub(crate) fn names_of<'a, H: Held>(
    held: &'a H,
    rel: RelId,
    inst: &InstanceId,
) -> Option<&'a List<Txt>>
    ensures { option_copied result ≡ list_of (H.held held.now) rel inst.now }
{
    held.case().list_of(rel, inst)
}

/// The value of a part of a rule.
pub(crate) fn value_at<H: Held>(
    alloc: Global,
    held: &H,
    tree: &Expr,
    enclosing: &List<InstanceId>,
    day: u32,
) -> Result<Value, NoMemory>
    requires day { day < DAYS }
    requires live { AllByRecursion (IsLive (H.held held.now)) enclosing.now }
    ensures { IfOk result (λ v. v ≡ part_value (H.rules held.now) (H.held held.now) tree.now enclosing.now day) }
{
    if is_by_line(tree, false) {
        value_by_line(alloc, held, tree, enclosing, day)
    } else {
        tree_value(alloc, held, tree, enclosing, day)
    }
}

fn value_by_line<H: Held>(
    alloc: Global,
    held: &H,
    tree: &Expr,
    enclosing: &List<InstanceId>,
    day: u32,
) -> Result<Value, NoMemory>
    requires day { day < DAYS }
    requires live { AllByRecursion (IsLive (H.held held.now)) enclosing.now }
    ensures { IfOk result (λ v. v ≡ part_value (H.rules held.now) (H.held held.now) tree.now enclosing.now day) }
{
    let line = tree_line(alloc, held, tree, enclosing)?;
    let value = line.at(day).copy(alloc)?;
    Ok(value)
}

/// Whether the value of a tree at a day is taken from its line. What a function over time is worth at a day rests on other
/// days, however many; and what a quantifier in another one is worth is determined once for all members only over lines.
#[cycle(looking)]
pub(crate) fn is_by_line(tree: &Expr, of_members: bool) -> bool {
    match tree {
        Expr::Const(_) | Expr::Attr(_) => false,
        Expr::Window(_, _) | Expr::Rolling(_, _, _) => true,
        Expr::All(parts) | Expr::Any(parts) | Expr::Op(_, parts) => {
            are_by_line(parts.as_slice(), of_members)
        }
        Expr::Over(_, _, parts) => of_members || are_by_line(parts.as_slice(), true),
        Expr::Not(part) | Expr::Certain(part) | Expr::Known(part) => {
            is_by_line(part.get(), of_members)
        }
        Expr::Table(rows, last) => {
            rows_are_by_line(rows.as_slice(), of_members) || is_by_line(last.get(), of_members)
        }
    }
}

#[cycle(looking)]
fn are_by_line(parts: &[Expr], of_members: bool) -> bool {
    for part in parts {
        if is_by_line(part, of_members) {
            return true;
        }
    }
    false
}

#[cycle(looking)]
fn rows_are_by_line(rows: &[Row], of_members: bool) -> bool {
    for row in rows {
        if is_by_line(&row.cond, of_members) || is_by_line(&row.value, of_members) {
            return true;
        }
    }
    false
}

/// The same instances.
pub(crate) fn again(
    alloc: Global,
    enclosing: &List<InstanceId>,
) -> Result<List<InstanceId>, NoMemory>
    ensures { IfOk result (λ all. all ≡ enclosing.now) }
{
    let mut all = List::new(alloc);
    for inst in enclosing.as_slice() {
        all.push(inst.copy(alloc)?)?;
    }
    Ok(all)
}

pub(crate) fn is_unknown(value: &Value) -> bool
    ensures { result ≡ truth.is_unknown value.now }
{
    matches!(value, Value::Unknown)
}

pub(crate) fn is_true(value: &Value) -> bool
    ensures { result ≡ truth.is_true value.now }
{
    matches!(value, Value::Bool(true))
}

pub(crate) fn is_false(value: &Value) -> bool
    ensures { result ≡ truth.is_false value.now }
{
    matches!(value, Value::Bool(false))
}
