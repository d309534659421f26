// A value of a rule, as the line that has it on every day.
ghost use Rattle.std.specs.Prelude.{◌≡◌, IfOk};
ghost use Rattle.opa_date.specs.declared.TheConstants.{DAYS};
ghost use Rattle.opa_line.specs.Lines.{StandsFor};

use opa_io::NoMemory;
use opa_line::Line;
use opa_value::Value;
use std::alloc::Global;
use std::marker::Model;

/// A value whose line is made once, so that a run that reads it neither copies nor moves it.
#[derive(Debug, Drop)]
pub(crate) struct Constant {
    line: Line<Value>,
}

impl Model for Constant {
    ghost use Rattle.std.specs.Prelude.{◌≡◌, ◌∷◌, []};
    ghost use Rattle.opa_value.specs.declared.value.Value.{Value as Meant};
    ghost use Rattle.opa_value.specs.contracts.value.Value as each;
    ghost use Rattle.opa_code.specs.Constants.{value_of};

    ghost Value = { Meant };

    ghost coded = { each.the_row.coded };

    ghost view = { λ c. value_of c.line };

    ghost invariant = { λ c. c.line ≡ (0, value_of c.line) ∷ [] };
}

impl Constant {
    pub(crate) fn of(alloc: Global, value: Value) -> Result<Constant, NoMemory>
        ensures { IfOk result (λ c. c ≡ value) }
    {
        let line = Line::constant(alloc, value)?;
        Ok(Constant { line })
    }

    /// The value at every day.
    pub(crate) fn line(&self) -> &Line<Value>
        ensures { StandsFor DAYS (λ _. self.now) result.now }
    {
        &self.line
    }
}
