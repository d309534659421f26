// Which truth values and open ones occur among values.
ghost use Rattle.std.specs.Prelude.{◌≡◌, ◌∷◌, [], ◌||◌};
ghost use Rattle.opa_code.specs.OverLines.Tallies as tallies;

use opa_value::Value;

#[derive(Clone, Copy, Debug)]
pub struct Marks {
    pub some_false: bool,
    pub some_true: bool,
    pub unknown: bool,
    pub uncertain: bool,
}

impl Marks {
    pub fn none() -> Marks
        ensures { result ≡ tallies.marks_of [] }
    {
        Marks {
            some_false: false,
            some_true: false,
            unknown: false,
            uncertain: false,
        }
    }

    pub fn one(value: &Value) -> Marks
        ensures { result ≡ tallies.marks_of (value.now ∷ []) }
    {
        Marks {
            some_false: matches!(value, Value::Bool(false)),
            some_true: matches!(value, Value::Bool(true)),
            unknown: matches!(value, Value::Unknown),
            uncertain: matches!(value, Value::Uncertain),
        }
    }

    pub fn both(first: &Marks, second: &Marks) -> Marks
        ensures { result ≡ tallies.both_marks first.now second.now }
    {
        Marks {
            some_false: either(first.some_false, second.some_false),
            some_true: either(first.some_true, second.some_true),
            unknown: either(first.unknown, second.unknown),
            uncertain: either(first.uncertain, second.uncertain),
        }
    }

    pub fn unless_open(&self, other: Value) -> Value
        ensures { result ≡ tallies.unless_marked self.now other }
    {
        if self.unknown {
            Value::Unknown
        } else if self.uncertain {
            Value::Uncertain
        } else {
            other
        }
    }
}

pub fn either(a: bool, b: bool) -> bool
    ensures { result ≡ (a || b) }
{
    a || b
}
