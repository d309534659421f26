// What holds of the functions over time.
ghost use Rattle.opa_window.specs.Laws as law;

/// The greatest of numbers or days is one of them, which none is above.
pub fn greatest_is_greatest()
    ensures { law.GreatestIsGreatest }
{}

/// The least of numbers or days is one of them, which none is below.
pub fn least_is_least()
    ensures { law.LeastIsLeast }
{}

/// The longest run of true values is one, and no run is longer.
pub fn longest_is_longest()
    ensures { law.LongestIsLongest }
{}

/// What is equal on the calendar's days has equal values over time.
pub fn reads_the_calendar()
    ensures { law.ReadsTheCalendar }
{}
