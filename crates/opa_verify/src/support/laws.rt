// What holds of the lines of every report.
ghost use Rattle.opa_verify.specs.Support.Proofs.{HeldUpFixes, ReportIsHeldUp};
ghost use Rattle.opa_verify.specs.Support.Rulebases as law;
ghost use Rattle.opa_verify.specs.Support.Singles.{RulesAreSingle};

/// Where every line of a report is held up, its lines fix each value that they list.
pub fn held_up_fixes()
    ensures { HeldUpFixes }
{}

/// Every line of a report of a case is held up, and its point's value is listed.
pub fn report_is_held_up()
    ensures { ReportIsHeldUp }
{}

/// Where every line of a report is held up, the report supports each value that it lists.
pub fn held_up_supports()
    ensures { law.HeldUpSupports }
{}

/// The lines of a report of a case are held up, over every accepted rulebase and case that fits.
pub fn reports_are_held_up()
    ensures { law.ReportsAreHeldUp }
{}

/// In accepted rules `For` stands over relations to one alone.
pub fn rules_are_single()
    ensures { RulesAreSingle }
{}
