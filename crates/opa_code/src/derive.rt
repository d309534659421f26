// Code, carried out over whole lines.
ghost use Rattle.std.specs.Prelude.{IfOk};
ghost use Rattle.opa_date.specs.declared.TheConstants.{DAYS};
ghost use Rattle.opa_line.specs.Lines.{StandsFor};
ghost use Rattle.opa_value.specs.Fit.{fit_of};
ghost use Rattle.opa_mean.specs.Meaning.{first_value};
ghost use Rattle.opa_code.specs.OverLines.Lines.{values_at};

use crate::Code;
use crate::over_lines::{Operand, fitted_line, taken_first};
use crate::run::run;
use opa_case::InstanceId;
use opa_io::NoMemory;
use opa_line::Line;
use opa_mean::{Derive, Look};
use opa_model::AttrId;
use opa_value::Value;
use std::alloc::Global;
use std::slice;

impl Derive for Code {
    ghost use Rattle.opa_code.specs.Rulebases.{rulebase_of};

    ghost stands_for = { rulebase_of };

    fn evaluate<K: Look>(
        &self,
        alloc: Global,
        attr: AttrId,
        inst: &InstanceId,
        look: &K,
    ) -> Result<Line<Value>, NoMemory> {
        match self.of(attr) {
            None => Line::constant(alloc, Value::Unknown),
            Some(code) => {
                let enclosing = slice::from_ref(inst);
                let lines = run(alloc, look, code.nodes.as_slice(), enclosing)?;
                concluded_line(alloc, code.money, lines)
            }
        }
    }
}

/// What the nodes of a rule's tree left, concluded.
fn concluded_line(
    alloc: Global,
    money: bool,
    operands: Vec<Operand<'_>>,
) -> Result<Line<Value>, NoMemory>
    ensures { IfOk result (StandsFor DAYS (λ d. fit_of money (first_value (values_at operands.entry.items d)))) }
{
    let first = taken_first(alloc, operands)?;
    if money {
        return fitted_line(alloc, money, &first);
    }
    Ok(first)
}
