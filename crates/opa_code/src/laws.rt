// What holds of code.
ghost use Rattle.opa_code.specs.Laws as law;

/// The code of a rule has at most two nodes for each tree and row that its tree is made of.
pub fn code_is_short()
    ensures { law.CodeIsShort }
{}
