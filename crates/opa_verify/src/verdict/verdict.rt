// What is said of the text of a report.

/// Yes, or the line that decides: it breaks the text, or has a fault of names, or isn't held up.
#[derive(Clone, Copy, Debug)]
pub enum Verdict {
    Yes,
    Syntax(u32),
    Name(u32),
    NotDerived(u32),
}
