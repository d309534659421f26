// Whether the lines of a report list the value of a point.
ghost use Rattle.std.specs.Prelude.{◌≡◌, is_some};
ghost use Rattle.opa_verify.specs.Support.Told.{listing_of, value_by};

use opa_cells::InstanceId;
use opa_io::front;
use opa_model::AttrId;
use opa_report::ReportLine;

pub fn is_listed(lines: &[ReportLine], attr: AttrId, inst: &InstanceId, day: u32) -> bool
    ensures { result ≡ is_some ((listing_of lines.now).value attr inst.now day) }
{
    let mut rest = lines;
    while let Some((line, later)) = front(rest) {
        if tells(line, attr, inst, day) {
            return true;
        }
        rest = later;
    }
    false
}

fn tells(line: &ReportLine, attr: AttrId, inst: &InstanceId, day: u32) -> bool
    ensures { result ≡ is_some (value_by attr inst.now day line.now) }
{
    match line {
        ReportLine::Point {
            attr: own,
            inst: place,
            first,
            last,
            value: _,
        } => attr.0 == own.0 && inst.equals(place) && *first <= day && day <= *last,
        ReportLine::Members {
            rel: _,
            inst: _,
            names: _,
        } => false,
        ReportLine::Member {
            rel: _,
            container: _,
            inst: _,
        } => false,
    }
}
