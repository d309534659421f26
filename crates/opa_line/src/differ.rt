// Where two lines differ.
ghost use Rattle.opa_line.specs.Differences.{IsFirstDifference};

use crate::Line;
use crate::walk::{next_day, reached_rest, reached_value};
use opa_date::DAYS;
use opa_io::Same;

impl<T: Same> Line<T> {
    /// The least day at which the values differ.
    pub fn first_difference(&self, other: &Line<T>) -> Option<u32>
        ensures { IsFirstDifference DAYS self.now other.now result }
    {
        let xs = self.segments();
        let ys = other.segments();
        let mut x = &xs[0].1;
        let mut y = &ys[0].1;
        let mut left = &xs[1..];
        let mut right = &ys[1..];
        let mut since = 0;
        if x.same(y) {
            while let Some(day) = next_day(left, right) {
                x = reached_value(day, x, left);
                y = reached_value(day, y, right);
                left = reached_rest(day, left);
                right = reached_rest(day, right);
                if x.same(y) {
                    since = day;
                } else {
                    return Some(day);
                }
            }
            None
        } else {
            Some(0)
        }
    }
}
