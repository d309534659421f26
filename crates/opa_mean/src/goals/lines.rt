// Lines that are known throughout.
ghost use Rattle.std.specs.Prelude.{◌≡◌};
ghost use Rattle.opa_mean.specs.Goals.Stretches as meant;

use opa_line::Line;
use opa_value::Value;

/// Whether a line is unknown on no day.
pub(crate) fn is_line_known(line: &Line<Value>) -> bool
    ensures { result ≡ meant.is_line_known line.now }
{
    for pair in line.segments() {
        if !is_known(&pair.1) {
            return false;
        }
    }
    true
}

fn is_known(value: &Value) -> bool
    ensures { result ≡ meant.is_pair_known (0, value.now) }
{
    !matches!(value, Value::Unknown)
}
