// What a condition takes.
ghost use Rattle.std.specs.Prelude.{◌≡◌, IfOk};
ghost use Rattle.opa_code.specs.OverLines.Choices as meant;

use opa_io::{NoMemory, Same};
use opa_value::Value;
use std::alloc::Global;

/// A value that is taken, or the value behind it.
#[derive(Debug, Drop)]
pub enum Choice {
    Taken(Value),
    Left,
}

impl Same for Choice {
    fn same(&self, other: &Choice) -> bool {
        match (self, other) {
            (Choice::Taken(v), Choice::Taken(w)) => v.same(w),
            (Choice::Left, Choice::Left) => true,
            _ => false,
        }
    }
}

impl Choice {
    /// Of a condition and the value where it is true.
    pub fn of(alloc: Global, cond: &Value, value: &Value) -> Result<Choice, NoMemory>
        ensures { IfOk result (λ c. c ≡ meant.choice_of cond.now value.now) }
    {
        match cond {
            Value::Bool(true) => Ok(Choice::Taken(value.copy(alloc)?)),
            Value::Bool(false) => Ok(Choice::Left),
            Value::Unknown => Ok(Choice::Taken(Value::Unknown)),
            _ => Ok(Choice::Taken(Value::Uncertain)),
        }
    }

    pub fn or(&self, alloc: Global, rest: &Value) -> Result<Value, NoMemory>
        ensures { IfOk result (λ v. v ≡ meant.taken_or self.now rest.now) }
    {
        match self {
            Choice::Taken(value) => value.copy(alloc),
            Choice::Left => rest.copy(alloc),
        }
    }
}
