// What holds of the texts of reports.
ghost use Rattle.opa_verify.specs.Verdict.Laws.{OneTelling, OneVerdict, ReportsAreSupported, ReportsAreUpheld, ReportsGetYes, ReportsHoldUp, ReportsTellValues};

/// All lines of the text of a report of a case are held up, and where the case is clean, the text is upheld.
pub fn reports_are_upheld()
    ensures lines { ReportsHoldUp }
    ensures texts { ReportsAreUpheld }
{}

/// A text has at most one verdict, and at most one line is told of it.
pub fn one_verdict()
    ensures verdict { OneVerdict }
    ensures telling { OneTelling }
{}

/// Yes is the verdict on the text of a report of a clean case, and what is told of it says so, with the value that the case gives.
pub fn reports_get_yes()
    ensures verdict { ReportsGetYes }
    ensures told { ReportsAreSupported }
    ensures values { ReportsTellValues }
{}
