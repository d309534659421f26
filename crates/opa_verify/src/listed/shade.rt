// What is seen of a tree at a day: a value, or that it is missing.
ghost use Rattle.std.specs.Prelude.{◌≡◌, IfOk};
ghost use Rattle.opa_value.specs.declared.value.Value.TheVariants as values;
ghost use Rattle.opa_verify.specs.Listed.Shades as meant;
ghost use Rattle.opa_verify.specs.Listed.ShadeLines.{first_there};

use opa_io::{NoMemory, Same};
use opa_value::Value;
use std::alloc::Global;

/// Where it is missing, the value counts for nothing.
#[derive(Debug, Drop)]
pub struct Shade {
    pub value: Value,
    pub missing: bool,
}

impl Same for Shade {
    fn same(&self, other: &Shade) -> bool {
        self.value.same(&other.value) && self.missing.same(&other.missing)
    }
}

impl Shade {
    pub fn there(value: Value) -> Shade
        ensures { result ≡ meant.there value }
    {
        Shade {
            value,
            missing: false,
        }
    }

    pub fn gone() -> Shade
        ensures { result ≡ meant.gone }
    {
        Shade {
            value: Value::Uncertain,
            missing: true,
        }
    }

    pub fn copy(&self, alloc: Global) -> Result<Shade, NoMemory>
        ensures { IfOk result (λ h. h ≡ self.now) }
    {
        let value = self.value.copy(alloc)?;
        Ok(Shade {
            value,
            missing: self.missing,
        })
    }

    /// This, or where it is missing the other.
    pub(crate) fn or(&self, alloc: Global, other: &Shade) -> Result<Shade, NoMemory>
        ensures { IfOk result (λ h. h ≡ first_there self.now other.now) }
    {
        if self.missing {
            other.copy(alloc)
        } else {
            self.copy(alloc)
        }
    }

    /// The value, where what is missing counts as this truth value.
    pub(crate) fn counted_as(&self, alloc: Global, neutral: bool) -> Result<Value, NoMemory>
        ensures { IfOk result (λ v. v ≡ meant.counted_as (values.Bool neutral) self.now) }
    {
        if self.missing {
            Ok(Value::Bool(neutral))
        } else {
            self.value.copy(alloc)
        }
    }
}
