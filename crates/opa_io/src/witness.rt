// A value for proofs alone.
ghost use Rattle.std.specs.Prelude.{◌≡◌};
ghost use Rattle.std.specs.Borrow.{ftrue};

use std::marker::{Model, PhantomData};

/// A value that contracts see and no program reads. It takes no memory.
#[derive(Drop)]
pub struct Witness<T> {
    of: PhantomData<T>,
    pub ghost is: { T },
}

impl<T> Model for Witness<T> {
    ghost also_owns = { λ _. ftrue };
}

impl<T> Witness<T> {
    /// A witness of the value as it is now.
    pub fn of(value: &T) -> Witness<T>
        ensures { result.is ≡ value.now }
    {
        Witness { of: PhantomData }
    }

    /// A witness of the same value.
    pub fn again(&self) -> Witness<T>
        ensures { result.is ≡ self.now.is }
    {
        Witness { of: PhantomData }
    }
}
