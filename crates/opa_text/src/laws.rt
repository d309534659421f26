// What holds of all texts of lines and names.
ghost use Rattle.opa_text.specs.Laws.{OneValue, OneLine, OneLineOf, OneNames, LinesReadBack, NamesReadBack};

/// Tokens begin with at most one value, and a text says at most one line and at most one list of names.
pub fn one_reading()
    ensures value { OneValue }
    ensures pairs { OneLine }
    ensures line { OneLineOf }
    ensures names { OneNames }
{}

/// The text of a line says that line.
pub fn lines_read_back()
    ensures { LinesReadBack }
{}

/// The text of names says those names.
pub fn names_read_back()
    ensures { NamesReadBack }
{}
