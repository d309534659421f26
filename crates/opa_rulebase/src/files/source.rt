// The files of a rulebase.
use opa_io::Txt;

/// A line of the main file that names a further one: where it stands, counted from 1, and whether the file is a table.
#[derive(Debug, Drop)]
pub struct FileLine {
    pub line: u32,
    pub is_table: bool,
    pub name: Txt,
}

/// A file of a rulebase: rules and declarations, or a table.
#[derive(Debug, Drop)]
pub struct SourceFile {
    pub name: Txt,
    pub is_table: bool,
    pub text: Txt,
}
