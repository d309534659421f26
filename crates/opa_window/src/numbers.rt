// Numbers as values.
ghost use Rattle.std.specs.Prelude.{◌≡◌, ◌*◌, pos};
ghost use Rattle.opa_window.specs.Folds as meant;

use opa_value::{Number, Value};

/// The number of a count of ten-thousandths.
pub(crate) fn number_of(count: i128) -> Value
    ensures { result ≡ meant.number_of count }
{
    match Number::from_count(count) {
        Some(number) => Value::Num(number),
        None => Value::Uncertain,
    }
}

/// A whole number.
pub(crate) fn whole(amount: u32) -> Value
    ensures { result ≡ meant.number_of (pos (amount * 10000)) }
{
    number_of(i128::from(amount) * 10_000)
}
