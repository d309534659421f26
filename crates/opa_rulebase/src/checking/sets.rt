// Sets of kinds, and what operations, quantifiers and windows make of those of their operands.
ghost use Rattle.std.specs.Prelude.{◌≡◌, ◌&&◌, [], ◌∷◌, true, false, map};
ghost use Rattle.std.specs.List.{list_any, list_all};
ghost use Rattle.opa_model.specs.declared.things.Kind.TheVariants as kind;
ghost use Rattle.opa_tree.specs.Kinds.{is_kind, is_ordered, all_kinds, ordered_kinds, typed, all_can, takes, compares, picks, rounds, dated, have, op_can, quant_can, window_can};
ghost use Rattle.opa_rulebase.specs.Checking.KindSets.{has, typing_of};

use opa_io::front;
use opa_model::Kind;
use opa_tree::{OpKind, Quant, WinKind};

/// The kinds that a tree can have, number and currency being one, and whether it is a literal that may say how many
/// decimals are kept.
#[derive(Clone, Copy, Debug, PartialEq, Eq)]
pub struct KindSet {
    pub bools: bool,
    pub numbers: bool,
    pub words: bool,
    pub dates: bool,
    pub is_decimals: bool,
}

impl KindSet {
    /// These kinds.
    pub fn of(bools: bool, numbers: bool, words: bool, dates: bool) -> KindSet
        ensures { result ≡ record {
          bools = bools;
          numbers = numbers;
          words = words;
          dates = dates;
          is_decimals = false;
        } }
    {
        KindSet {
            bools,
            numbers,
            words,
            dates,
            is_decimals: false,
        }
    }

    /// No kind.
    pub fn none() -> KindSet
        ensures { typing_of result ≡ typed (λ _. false) }
    {
        KindSet::of(false, false, false, false)
    }

    /// Every kind.
    pub fn every() -> KindSet
        ensures { typing_of result ≡ typed (λ _. true) }
    {
        KindSet::of(true, true, true, true)
    }

    /// That kind alone.
    pub fn exactly(kind: Kind) -> KindSet
        ensures { typing_of result ≡ typed (is_kind kind) }
    {
        match kind {
            Kind::Bool => KindSet::of(true, false, false, false),
            Kind::Number => KindSet::of(false, true, false, false),
            Kind::Currency => KindSet::of(false, true, false, false),
            Kind::Words => KindSet::of(false, false, true, false),
            Kind::Date => KindSet::of(false, false, false, true),
        }
    }

    /// That kind where the test holds, else none.
    pub fn only(kind: Kind, test: bool) -> KindSet
        ensures { typing_of result ≡ typed (λ k. is_kind kind k && test) }
    {
        match kind {
            Kind::Bool => KindSet::of(test, false, false, false),
            Kind::Number => KindSet::of(false, test, false, false),
            Kind::Currency => KindSet::of(false, test, false, false),
            Kind::Words => KindSet::of(false, false, test, false),
            Kind::Date => KindSet::of(false, false, false, test),
        }
    }

    /// Numbers, for a literal that may say how many decimals are kept, or not.
    pub fn literal_number(is_decimals: bool) -> KindSet
        ensures { typing_of result ≡ record { can = is_kind kind.Number; is_decimals = is_decimals } }
    {
        KindSet {
            bools: false,
            numbers: true,
            words: false,
            dates: false,
            is_decimals,
        }
    }

    pub fn has(&self, kind: Kind) -> bool
        ensures { result ≡ has self.now kind }
    {
        match kind {
            Kind::Bool => self.bools,
            Kind::Number => self.numbers,
            Kind::Currency => self.numbers,
            Kind::Words => self.words,
            Kind::Date => self.dates,
        }
    }

    /// Whether there is a kind at all.
    pub fn is_some(&self) -> bool
        ensures { result ≡ list_any (has self.now) all_kinds }
    {
        self.bools || self.numbers || self.words || self.dates
    }

    /// Whether there is a kind whose values have an order.
    pub fn has_ordered(&self) -> bool
        ensures { result ≡ list_any (has self.now) ordered_kinds }
    {
        self.numbers || self.dates
    }

    /// The kinds that both have.
    pub fn and(self, other: KindSet) -> KindSet
        ensures { typing_of result ≡ typed (λ k. has self k && has other k) }
    {
        KindSet {
            bools: self.bools && other.bools,
            numbers: self.numbers && other.numbers,
            words: self.words && other.words,
            dates: self.dates && other.dates,
            is_decimals: false,
        }
    }

    /// Its kinds where the test holds, else none.
    pub fn where_holds(self, test: bool) -> KindSet
        ensures { typing_of result ≡ typed (λ k. test && has self k) }
    {
        if test {
            KindSet::of(self.bools, self.numbers, self.words, self.dates)
        } else {
            KindSet::of(false, false, false, false)
        }
    }

    /// Its kinds whose values have an order.
    pub fn ordered(self) -> KindSet
        ensures { typing_of result ≡ typed (λ k. is_ordered k && has self k) }
    {
        KindSet::of(false, self.numbers, false, self.dates)
    }
}

/// The kinds that each of several can have.
pub fn meet(sets: &[KindSet]) -> KindSet
    ensures { typing_of result ≡ typed (all_can (map typing_of sets.now)) }
{
    let mut kinds = KindSet::every();
    let mut rest = sets;
    while let Some((set, later)) = front(rest) {
        kinds = kinds.and(*set);
        rest = later;
    }
    kinds
}

/// Whether the operands can have these kinds, one each.
fn have(kinds: &[Kind], sets: &[KindSet]) -> bool
    ensures { result ≡ have kinds.now (map typing_of sets.now) }
{
    match (front(kinds), front(sets)) {
        (None, None) => true,
        (None, Some(_)) => false,
        (Some(_), None) => false,
        (Some((kind, more)), Some((set, rest))) => set.has(*kind) && have(more, rest),
    }
}

/// It takes operands of these kinds, and gives that kind.
fn takes(kinds: &[Kind], given: Kind, sets: &[KindSet]) -> KindSet
    ensures { typing_of result ≡ typed (takes kinds.now given (map typing_of sets.now)) }
{
    KindSet::only(given, have(kinds, sets))
}

/// It compares operands of one kind.
fn compares(sets: &[KindSet]) -> KindSet
    ensures { typing_of result ≡ typed (compares all_kinds (map typing_of sets.now)) }
{
    let kinds = meet(sets);
    KindSet::only(Kind::Bool, kinds.is_some())
}

/// It compares operands of one ordered kind.
fn compares_ordered(sets: &[KindSet]) -> KindSet
    ensures { typing_of result ≡ typed (compares ordered_kinds (map typing_of sets.now)) }
{
    let kinds = meet(sets);
    KindSet::only(Kind::Bool, kinds.has_ordered())
}

/// It picks one of several of an ordered kind.
fn picks(sets: &[KindSet]) -> KindSet
    ensures { typing_of result ≡ typed (picks (map typing_of sets.now)) }
{
    meet(sets).ordered()
}

/// It rounds the first of two to as many decimals as the second one says.
fn rounds_two(x: &KindSet, y: &KindSet, more: &[KindSet]) -> KindSet
    ensures { typing_of result ≡ typed (rounds (typing_of x.now ∷ typing_of y.now ∷ map typing_of more.now)) }
{
    if more.is_empty() {
        KindSet::of(false, x.numbers && y.is_decimals, false, false)
    } else {
        KindSet::of(false, false, false, false)
    }
}

fn rounds(sets: &[KindSet]) -> KindSet
    ensures { typing_of result ≡ typed (rounds (map typing_of sets.now)) }
{
    let Some((x, rest)) = front(sets) else {
        return KindSet::none();
    };
    let Some((y, more)) = front(rest) else {
        return KindSet::none();
    };
    rounds_two(x, y, more)
}

/// The kinds of an operand that nothing comes after.
fn alone(set: &KindSet, rest: &[KindSet]) -> KindSet
    ensures { typing_of result ≡ typed (dated [] (typing_of set.now ∷ map typing_of rest.now)) }
{
    if rest.is_empty() {
        KindSet::of(set.bools, set.numbers, set.words, set.dates)
    } else {
        KindSet::of(false, false, false, false)
    }
}

/// The first operands are dates, and the last one has the kinds.
fn dated(dates: &[Kind], sets: &[KindSet]) -> KindSet
    ensures { typing_of result ≡ typed (dated dates.now (map typing_of sets.now)) }
{
    let Some((set, rest)) = front(sets) else {
        return KindSet::none();
    };
    match front(dates) {
        None => alone(set, rest),
        Some((date, more)) => dated(more, rest).where_holds(set.has(*date)),
    }
}

const NUMBERS: [Kind; 2] = [Kind::Number, Kind::Number];

const DATES: [Kind; 2] = [Kind::Date, Kind::Date];

/// The kinds of an operation.
pub fn op_kinds(op: OpKind, sets: &[KindSet]) -> KindSet
    ensures { typing_of result ≡ typed (op_can op (map typing_of sets.now)) }
{
    match op {
        OpKind::Add => takes(&NUMBERS, Kind::Number, sets),
        OpKind::Sub => takes(&NUMBERS, Kind::Number, sets),
        OpKind::Mul => takes(&NUMBERS, Kind::Number, sets),
        OpKind::Div => takes(&NUMBERS, Kind::Number, sets),
        OpKind::Neg => takes(&[Kind::Number], Kind::Number, sets),
        OpKind::Eq => compares(sets),
        OpKind::Ne => compares(sets),
        OpKind::Lt => compares_ordered(sets),
        OpKind::Le => compares_ordered(sets),
        OpKind::Gt => compares_ordered(sets),
        OpKind::Ge => compares_ordered(sets),
        OpKind::Round => rounds(sets),
        OpKind::Min => picks(sets),
        OpKind::Max => picks(sets),
        OpKind::AddDays => takes(&[Kind::Date, Kind::Number], Kind::Date, sets),
        OpKind::AddMonths => takes(&[Kind::Date, Kind::Number], Kind::Date, sets),
        OpKind::AddYears => takes(&[Kind::Date, Kind::Number], Kind::Date, sets),
        OpKind::DaysBetween => takes(&DATES, Kind::Number, sets),
        OpKind::YearsBetween => takes(&DATES, Kind::Number, sets),
        OpKind::YearOf => takes(&[Kind::Date], Kind::Number, sets),
        OpKind::MonthOf => takes(&[Kind::Date], Kind::Number, sets),
        OpKind::DayOf => takes(&[Kind::Date], Kind::Number, sets),
        OpKind::Concatenate => takes(&[Kind::Words, Kind::Words], Kind::Words, sets),
    }
}

/// The kinds of a quantifier, over a relation to one or to many.
pub fn quant_kinds(quant: Quant, to_one: bool, sets: &[KindSet]) -> KindSet
    ensures { typing_of result ≡ typed (quant_can quant to_one (map typing_of sets.now)) }
{
    match quant {
        Quant::ForAll => takes(&[Kind::Bool], Kind::Bool, sets),
        Quant::Exists => takes(&[Kind::Bool], Kind::Bool, sets),
        Quant::For => meet(sets).where_holds(to_one),
        Quant::Count => takes(&[], Kind::Number, sets),
        Quant::CountIf => takes(&[Kind::Bool], Kind::Number, sets),
        Quant::Sum => takes(&[Kind::Number], Kind::Number, sets),
        Quant::SumIf => takes(&[Kind::Number, Kind::Bool], Kind::Number, sets),
        Quant::Maximum => picks(sets),
        Quant::Minimum => picks(sets),
    }
}

/// The kinds of a function over time.
pub fn window_kinds(window: WinKind, sets: &[KindSet]) -> KindSet
    ensures { typing_of result ≡ typed (window_can window (map typing_of sets.now)) }
{
    match window {
        WinKind::ValueAt => dated(&[Kind::Date], sets),
        WinKind::Always => takes(&[Kind::Date, Kind::Date, Kind::Bool], Kind::Bool, sets),
        WinKind::Sometimes => takes(&[Kind::Date, Kind::Date, Kind::Bool], Kind::Bool, sets),
        WinKind::DailySum => takes(&[Kind::Date, Kind::Date, Kind::Number], Kind::Number, sets),
        WinKind::Maximum => dated(&DATES, sets).ordered(),
        WinKind::Minimum => dated(&DATES, sets).ordered(),
        WinKind::ConsecutiveDays => {
            takes(&[Kind::Date, Kind::Date, Kind::Bool], Kind::Number, sets)
        }
        WinKind::Before => takes(&[Kind::Date], Kind::Bool, sets),
        WinKind::OnOrAfter => takes(&[Kind::Date], Kind::Bool, sets),
        WinKind::YearsSince => takes(&[Kind::Date], Kind::Number, sets),
    }
}
