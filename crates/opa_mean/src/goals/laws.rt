// What the definitions of freedom, of states and of questions come to.
ghost use Rattle.opa_mean.specs.Goals.Asked as asked;
ghost use Rattle.opa_mean.specs.Goals.Laws as law;

/// An attribute never rests on whether something is known exactly where no rule that it reaches asks for it.
pub fn free_is_found()
    ensures { law.FreeIsFound }
{}

/// Each state is what it says.
pub fn states_are_exact()
    ensures { law.StatesAreExact }
{}

/// What is asked of a declared goal is declared.
pub fn asked_is_declared()
    ensures { asked.AskedIsDeclared }
{}

/// What is asked next is declared.
pub fn next_is_declared()
    ensures { asked.NextIsDeclared }
{}
