// What the cells and the records of a table say.
use opa_io::List;
use opa_model::AttrId;
use opa_sentence::Reading;
use opa_tree::OpKind;

/// What stands over a column: an operand that is compared, or an equals sign and words, which conclude the attribute
/// whose phrase they are, if there is one.
#[derive(Drop)]
pub enum Heading {
    Condition(Reading),
    Conclusion(Option<AttrId>),
}

/// What the first record says.
#[derive(Drop)]
pub struct Heads {
    pub conditions: List<Reading>,
    pub conclusions: List<Option<AttrId>>,
}

/// What a condition cell asks for: nothing, or a comparison with a literal.
#[derive(Drop)]
pub enum Test {
    Nothing,
    Compares(OpKind, Reading),
}

/// A record with conditions, and the values that stand where they are met.
#[derive(Drop)]
pub struct Case {
    pub number: u32,
    pub tests: List<Test>,
    pub values: List<Reading>,
}

/// The last record: the values that stand where no case is met.
#[derive(Drop)]
pub struct Last {
    pub number: u32,
    pub values: List<Reading>,
}

/// What the records of a table say.
#[derive(Drop)]
pub struct Table {
    pub heads: Heads,
    pub cases: List<Case>,
    pub last: Last,
}

/// Cases, or the number of the first record that is none.
#[derive(Drop)]
pub enum Cased {
    Cases(List<Case>),
    Unspelled(u32),
}

/// A table, or the number of the first record that isn't spelled.
#[derive(Drop)]
pub enum Found {
    Table(Table),
    Unspelled(u32),
}
