// What holds of all descriptions.
ghost use Rattle.opa_rules.specs.Describing.Alike.{OneDescription};

/// Two rulebases with one description declare the same.
pub fn one_description()
    ensures { OneDescription }
{}
