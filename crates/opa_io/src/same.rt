// Whether two values are equal as contracts see them.
ghost use Rattle.std.specs.Prelude.{◌≡◌, ◌↔◌, IsTrue};

use crate::{List, Txt};

/// Values that can be told apart.
pub trait Same {
    /// Whether both are equal as contracts see them.
    fn same(&self, other: &Self) -> bool
        ensures { IsTrue result ↔ (self.now ≡ other.now) };
}

impl Same for bool {
    fn same(&self, other: &bool) -> bool {
        *self == *other
    }
}

impl Same for u32 {
    fn same(&self, other: &u32) -> bool {
        *self == *other
    }
}

impl Same for Txt {
    #[inline(always)]
    fn same(&self, other: &Txt) -> bool {
        self.as_str() == other.as_str()
    }
}

/// Whether two slices have the same items.
fn all_same<T: Same>(items: &[T], others: &[T]) -> bool
    ensures { IsTrue result ↔ (items.now ≡ others.now) }
{
    match (items, others) {
        ([], []) => true,
        ([first, rest @ ..], [other, more @ ..]) => first.same(other) && all_same(rest, more),
        _ => false,
    }
}

impl<T: Same> Same for List<T> {
    fn same(&self, other: &List<T>) -> bool {
        all_same(self.as_slice(), other.as_slice())
    }
}
