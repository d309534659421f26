// Rule files of the worked examples.

/// Who is entitled: an adult veteran.
pub const CLAIMANT: &str = "verb is / is not / is /
global
  bool the claimant [is] entitled
  bool the claimant [is] an adult
  bool the claimant [is] a veteran
goal the claimant is entitled
the claimant is entitled if
  the claimant is an adult and
  the claimant is a veteran
";

/// An answer that two conclusions rest on.
pub const EXEMPT: &str = "verb is / is not / is /
global
  bool the claimant [is] entitled
  bool the claimant [is] exempt
  bool the claimant [is] an adult
the claimant is entitled if
  the claimant is an adult
the claimant is exempt if
  the claimant is an adult
";

/// Who is covered: also who isn't known to be registered.
pub const COVERED: &str = "verb is / is not / is /
global
  bool the claimant [is] covered
  bool the claimant [is] insured
  bool the claimant [is] registered
goal the claimant is covered
the claimant is covered if
  the claimant is insured or
  not CurrentlyKnown(the claimant is registered)
";

/// Who was employed on each day of a window.
pub const STEADY: &str = "verb is / is not / is /
global
  bool the claimant [is] employed
  bool the claimant [is] steady
  date the end
the claimant is steady if
  IntervalAlways(2024-01-01, the end, the claimant is employed)
";

/// A family is eligible where all its children are at school.
pub const FAMILY: &str = "verb is / is not / is /
global
  bool the family [is] eligible
entity the child
  in global: the children
  bool the child [is] at school
  reference the child's friend: one the child
goal the family is eligible
the family is eligible if
  for all of the children
    the child is at school
";

pub const INCOME: &str = "global
  number the income: from 0, to 1000000, decimals 0
  number the rate
table \"rate.csv\"
goal the rate
";

pub const RATE: &str = "the income,= the rate
>= 100,3
>= 10,2
otherwise,1
";

/// A household's benefit, by the incomes of its people and two tables.
pub const HOUSEHOLD: &str = "verb is / is not / is /
global
  number the number of people
  currency the household income
  currency the base amount
  number the rate
  currency the monthly benefit
entity the person
  in global: the people
  currency the person's income: from 0
  bool the person [is] a dependant
  currency the person's counted income
goal the monthly benefit
table \"base.csv\"
table \"share.csv\"
the number of people = InstanceCount(the people)
the household income = InstanceSum(the people, the person's counted income)
the person's counted income =
  0 if
    the person is a dependant
  the person's income otherwise
the monthly benefit = Maximum(0, the base amount - the household income * the rate)
";

pub const BASE: &str = "the number of people,= the base amount
>= 3,900
>= 2,700
otherwise,500
";

pub const SHARE: &str = "the household income,= the rate
>= 1000,0.5
otherwise,0.25
";

/// Who was employed on each of 36,600 days.
pub const LONG_EMPLOYED: &str = "verb is / is not / is /
global
  bool the claimant [is] employed
  bool the claimant [is] long employed
the claimant is long employed if
  TemporalAlwaysDays(36600, the claimant is employed)
";

/// The income's rulebase with its table.
pub const RATED: [(&str, &str); 2] = [("main", INCOME), ("rate.csv", RATE)];

/// The household's rulebase with its tables.
pub const BENEFIT: [(&str, &str); 3] = [
    ("main", HOUSEHOLD),
    ("base.csv", BASE),
    ("share.csv", SHARE),
];
