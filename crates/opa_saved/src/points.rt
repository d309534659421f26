// Whether a point stands twice.
ghost use Rattle.std.specs.Prelude.{◌≡◌, ◌||◌, map, IfOk, OnOk};
ghost use Rattle.opa_saved.specs.declared.entries.Point.{Point as PointView};
ghost use Rattle.opa_saved.specs.Forms.{is_point, differ};
ghost use Rattle.opa_saved.specs.Points.{has_point};

use crate::entries::{AnswerEntry, ListEntry, Point};
use opa_io::NoMemory;
use std::alloc::Global;
use std::collections::BTreeMap;

impl Point {
    pub(crate) fn copy(&self, alloc: Global) -> Result<Point, NoMemory>
        ensures { IfOk result (λ p. p ≡ self.now) }
    {
        Ok(Point {
            phrase: self.phrase.copy(alloc)?,
            name: self.name.copy(alloc)?,
        })
    }
}

/// What is said at a point.
pub(crate) trait AtPoint {
    ghost point: { Self → PointView };

    fn point(&self) -> &Point
        ensures { result.now ≡ point self.now };
}

impl AtPoint for AnswerEntry {
    ghost point = { λ e. e.point };

    fn point(&self) -> &Point {
        &self.point
    }
}

impl AtPoint for ListEntry {
    ghost point = { λ e. e.point };

    fn point(&self) -> &Point {
        &self.point
    }
}

/// Whether no point stands twice. It goes from the last entry to the first, over a set of the points behind.
pub(crate) fn are_apart<E: AtPoint>(alloc: Global, entries: &[E]) -> Result<bool, NoMemory>
    ensures { IfOk result (λ apart. apart ≡ differ (map E.point entries.now)) }
{
    let mut later = BTreeMap::new(alloc);
    let mut at = entries.len();
    while 0 < at {
        at -= 1;
        let point = entries[at].point();
        if later.contains_key(point) {
            return Ok(false);
        }
        add_point(alloc, &mut later, point)?;
    }
    Ok(true)
}

fn add_point(alloc: Global, later: &mut BTreeMap<Point, ()>, point: &Point) -> Result<(), NoMemory>
    ensures { OnOk result ((q : PointView) → has_point later.new q ≡ (is_point q point.now || has_point later.old q)) }
{
    let key = point.copy(alloc)?;
    later.insert(key, ())?;
    Ok(())
}
