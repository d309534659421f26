// How the name of a file is printed.
ghost use Rattle.std.specs.Prelude.{◌≡◌, ◌++◌, IfOk};
ghost use Rattle.std.specs.Str.{chars};
ghost use Rattle.opa_words.specs.Names.{printed_character as character_of, printed_name as name_of};

use crate::characters::is_control;
use opa_io::{NoMemory, Txt, front};
use std::alloc::Global;

fn printed_character(c: char) -> char
    ensures { result ≡ character_of c }
{
    if is_control(c) { '?' } else { c }
}

fn characters(alloc: Global, text: &str) -> Result<Vec<char>, NoMemory>
    ensures { IfOk result (λ v. v.items ≡ chars text.now) }
{
    Ok(text.chars().collect(alloc)?)
}

/// The name of a file as it is printed: a control character stands as a question mark.
pub fn printed_name(alloc: Global, name: &str) -> Result<Txt, NoMemory>
    ensures { IfOk result (λ t. t ≡ name_of name.now) }
{
    let all = characters(alloc, name)?;
    let mut out = String::new(alloc);
    let mut rest = all.as_slice();
    while let Some((c, later)) = front(rest) {
        out.push(printed_character(*c))?;
        rest = later;
    }
    Ok(Txt::from_string(out))
}
