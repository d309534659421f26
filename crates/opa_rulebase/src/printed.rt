// How a refusal is printed.
ghost use Rattle.std.specs.Prelude.{◌≡◌, ◌++◌, ◌∷◌, [], IfOk, codes};
ghost use Rattle.std.specs.Fmt.{decimal};
ghost use Rattle.std.specs.String.{string_bytes};
ghost use Rattle.opa_tree.specs.Faults.{number_of};
ghost use Rattle.opa_rulebase.specs.Printed.{circle_lines as lines_of, refusal_text as text_of};

use opa_io::{NoMemory, Txt, front};
use opa_tree::RbKind;
use opa_words::printed_name;
use std::alloc::Global;

/// The lines of a circle.
pub fn circle_lines(alloc: Global, phrases: &[Txt]) -> Result<String, NoMemory>
    ensures { IfOk result (λ s. string_bytes s ≡ lines_of phrases.now) }
{
    let mut out = String::new(alloc);
    let mut rest = phrases;
    while let Some((phrase, later)) = front(rest) {
        out.push_str("  ")?;
        out.push_str(phrase.as_str())?;
        out.push_str("\n")?;
        rest = later;
    }
    Ok(out)
}

/// A refusal as it is printed: the kind's number, the name of the file, the line, and the phrases of a circle.
pub fn refusal_text(
    alloc: Global,
    kind: RbKind,
    name: &str,
    line: u32,
    circle: &[Txt],
) -> Result<Txt, NoMemory>
    ensures { IfOk result (λ t. t ≡ text_of kind name.now line circle.now) }
{
    let name = printed_name(alloc, name)?;
    let circle = circle_lines(alloc, circle)?;
    let number = kind.number();
    let text = format!(in alloc;
        "refused: rulebase {number} {}:{line}\n{}",
        name.as_str(),
        circle.as_str()
    )?;
    Ok(Txt::from_string(text))
}
