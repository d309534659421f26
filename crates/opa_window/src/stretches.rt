// A line that is made stretch by stretch of another.
ghost use Rattle.std.specs.Prelude.{◌≡◌};
ghost use Rattle.opa_window.specs.Stretches as meant;

use opa_date::DAYS;

/// The day of the first pair, or the calendar's end.
pub(crate) fn start_of<T>(pairs: &[(u32, T)]) -> u32
    ensures { result ≡ meant.start_of pairs.now }
{
    match pairs {
        [] => DAYS,
        [p, ..] => p.0,
    }
}
