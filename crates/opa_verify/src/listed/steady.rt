// Whether a line holds up a run.
ghost use Rattle.std.specs.Prelude.{◌≤◌, ◌<◌, ◌↔◌, IsTrue};
ghost use Rattle.opa_date.specs.declared.TheConstants.{DAYS};
ghost use Rattle.opa_verify.specs.Listed.Steady.{IsSteady};

use crate::listed::shade::Shade;
use opa_io::Same;
use opa_line::Line;

/// The line has one shade from the first day to the last. No day is looked at by itself: neighbours of a line differ, so
/// that it has one only where no pair begins in between.
pub fn is_steady(line: &Line<Shade>, start: u32, end: u32, shade: &Shade) -> bool
    requires order { start ≤ end }
    requires within { end < DAYS }
    ensures { IsTrue result ↔ IsSteady line.now start end shade.now }
{
    let pairs = line.segments();
    let first = pairs.partition_point(|pair| pair.0 <= start);
    let last = pairs.partition_point(|pair| pair.0 <= end);
    if first != last {
        return false;
    }
    pairs[first - 1].1.same(shade)
}
