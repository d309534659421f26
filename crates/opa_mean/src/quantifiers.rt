// Quantifiers, from the values at the listed instances.
ghost use Rattle.std.specs.Prelude.{◌≡◌, IfOk, pos};
ghost use Rattle.opa_value.specs.declared.value.Value.TheVariants as values;
ghost use Rattle.opa_mean.specs.Meaning as meant;

use crate::folds::{
    all_of, amount, any_of, first_value, greatest, least, number_of, sum, true_count, unless_open,
};
use opa_io::NoMemory;
use opa_tree::Quant;
use opa_value::Value;
use std::alloc::Global;

/// What a quantifier makes of the values of a listed instance's operands.
pub(crate) fn item(alloc: Global, quant: Quant, values: &[Value]) -> Result<Value, NoMemory>
    ensures { IfOk result (λ v. v ≡ meant.item quant values.now) }
{
    match (quant, values) {
        (Quant::SumIf, [number, test]) => tested(alloc, number, test),
        (_, [value]) => value.copy(alloc),
        _ => Ok(Value::Uncertain),
    }
}

/// The number where the test is true, 0 where it is false, and else what the test is.
fn tested(alloc: Global, number: &Value, test: &Value) -> Result<Value, NoMemory>
    ensures { IfOk result (λ v. v ≡ meant.choose test.now number.now (values.Num (pos 0))) }
{
    match test {
        Value::Bool(true) => number.copy(alloc),
        Value::Bool(false) => Ok(number_of(0)),
        Value::Unknown => Ok(Value::Unknown),
        _ => Ok(Value::Uncertain),
    }
}

/// What a quantifier makes of the items.
pub(crate) fn quantified(alloc: Global, quant: Quant, items: &[Value]) -> Result<Value, NoMemory>
    ensures { IfOk result (λ v. v ≡ meant.quant_of quant items.now) }
{
    match quant {
        Quant::ForAll => Ok(all_of(items)),
        Quant::Exists => Ok(any_of(items)),
        Quant::For => first_value(alloc, items),
        Quant::Count => Ok(amount(items.len())),
        Quant::CountIf => Ok(unless_open(items, true_count(items))),
        Quant::Sum | Quant::SumIf => Ok(unless_open(items, sum(items))),
        Quant::Maximum => Ok(unless_open(items, greatest(alloc, items)?)),
        Quant::Minimum => Ok(unless_open(items, least(alloc, items)?)),
    }
}
