// What holds of tables.
ghost use Rattle.opa_parse.specs.Tables.Laws.{OneTable};

/// The bytes of a table give one list of rules at most, or of faults.
pub fn one_table()
    ensures { OneTable }
{}
