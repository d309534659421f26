// What holds of rulebases that are the same.
ghost use Rattle.opa_rules.specs.Printing.SameMeaning.{SameMeaning};

/// The same rules, wherever they stand, conclude the same of every case.
pub fn same_rules_mean_the_same()
    ensures { SameMeaning }
{}
