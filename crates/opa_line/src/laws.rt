// What holds of lines.
ghost use Rattle.opa_line.specs.Laws as law;

/// Two lines with equal values at every day are equal.
pub fn equal_where_values_are<T>()
    ensures { law.EqualWhereValuesAre T }
{}

/// The value at a day is that of the last pair whose day is at most the day.
pub fn at_is_of_the_last_pair<T>()
    ensures { law.AtIsOfTheLastPair T }
{}

/// The line of a function is the only one with its values.
pub fn canon_is_the_line<T>()
    ensures { law.CanonIsTheLine T }
{}
