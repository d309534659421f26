// What can't be read, and in which part of a block.

/// What can't be read in a line.
#[derive(Clone, Copy)]
pub(crate) enum Slip {
    /// A first line that begins no rule.
    Head,
    /// A bracket that closes none.
    Closing,
    /// A bracket that isn't closed.
    Opening,
    /// A text that isn't closed.
    Text,
    /// A text with a control character.
    Control,
    /// A sign that no such line has.
    Sign,
    /// A sign with nothing behind it.
    Missing,
    /// A line that isn't joined to the next one.
    Unjoined,
    /// A word that joins a line to none.
    Dangling,
}

/// Which part of a block a line is: one of a declaration, the first line of a rule, a line right below a first line without `if`,
/// or one of a group.
#[derive(Clone, Copy)]
pub(crate) enum Part {
    Declaration,
    First,
    Case,
    Item,
}
