// Going through the change points of two lines side by side.
ghost use Rattle.std.specs.Prelude.{◌≡◌};
ghost use Rattle.opa_line.specs.Walks as meant;

/// The earlier of the first days.
pub(crate) fn next_day<T, U>(left: &[(u32, T)], right: &[(u32, U)]) -> Option<u32>
    ensures { result ≡ meant.earlier (meant.next_of left.now) (meant.next_of right.now) }
{
    match (left, right) {
        ([], []) => None,
        ([p, ..], []) => Some(p.0),
        ([], [q, ..]) => Some(q.0),
        ([p, ..], [q, ..]) => Some(if p.0 <= q.0 { p.0 } else { q.0 }),
    }
}

/// The value once the day is reached.
pub(crate) fn reached_value<'a, T>(day: u32, value: &'a T, rest: &'a [(u32, T)]) -> &'a T
    ensures { result.now ≡ meant.reached_value day value.now rest.now }
{
    match rest {
        [p, ..] if p.0 == day => &p.1,
        _ => value,
    }
}

/// What is left once the day is reached.
pub(crate) fn reached_rest<T>(day: u32, rest: &[(u32, T)]) -> &[(u32, T)]
    ensures { result.now ≡ meant.reached_rest day rest.now }
{
    match rest {
        [p, after @ ..] if p.0 == day => after,
        _ => rest,
    }
}
