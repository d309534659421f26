// What holds of what files open, of what is held in a run or an interview over it, and of the reports that are printed there.
ghost use Rattle.opa_reply.specs.Interviews.{Tells, interview};
ghost use Rattle.opa_reply.specs.Replies.{Asks, conversation};
ghost use Rattle.opa_laws.specs.Verified.Laws as law;

/// What files open is of a model, and can be printed: its phrases, the places of its rules, and their constants.
pub fn opened_is_printable()
    ensures model { law.OpenedIsModel }
    ensures printable { law.OpenedIsPrintable }
{}

/// What is told of a point's report is the text of a report of a clean case.
pub fn reports_are_of_cases()
    ensures { law.ReportsAreOfCases }
{}

/// A case that is held in a run or an interview can be printed: its names, and the texts and numbers of its answers.
pub fn held_is_printable()
    ensures run { law.HeldIsPrintable conversation }
    ensures interview { law.HeldIsPrintable interview }
{}

/// Yes is the verdict on what a run or an interview prints as a report; what is told of it says so, with the value of the case.
pub fn reports_are_verified()
    ensures run { law.ReportsAreVerified conversation Asks }
    ensures interview { law.ReportsAreVerified interview Tells }
{}
