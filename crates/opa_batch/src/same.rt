// Records of the same cells.
ghost use Rattle.std.specs.Prelude.{◌≡◌, ◌<◌, true};
ghost use Rattle.csv.specs.Records.{fields_of};

use csv::ByteRecord;

/// Whether two records have the same cells.
pub(crate) fn is_same(one: &ByteRecord, other: &ByteRecord) -> bool
    ensures { result ≡ true → fields_of one.now ≡ fields_of other.now }
{
    if one.len() != other.len() {
        return false;
    }
    for place in 0..one.len() {
        let Some(cell) = one.get(place) else {
            return false;
        };
        let Some(its) = other.get(place) else {
            return false;
        };
        if cell != its {
            return false;
        }
    }
    true
}

/// Of so many slots the one that records of the same cells share.
pub(crate) fn slot_of(cells: &ByteRecord, slots: usize) -> usize
    requires { 0 < slots }
    ensures { result < slots }
{
    let mut sum = 0u32;
    for byte in cells.as_slice() {
        sum = sum.wrapping_mul(31).wrapping_add(u32::from(*byte));
    }
    sum as usize % slots
}
