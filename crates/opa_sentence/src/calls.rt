// What a call says.
ghost use Rattle.std.specs.Prelude.{◌≡◌, ◌∷◌, [], IfOk};
ghost use Rattle.opa_sentence.specs.Measures.{bounded};
ghost use Rattle.opa_sentence.specs.Readings.{no_arguments, last_line as last_line_of, but_last, lines as lines_of, days as days_of_number, days_of_count, days_of_size, written as written_of, windowed as window_of, two_parts as two_parts_of, all as all_of, over_unnamed as over_unnamed_of, listed as listed_of, membership as membership_of, member_measure, over_members as over_members_of, over_found as over_found_of, over_relation as over_relation_of, operation_call as operation_call_of, called as called_of, call_of};

use crate::{Arguments, Function, Measure, Member, Parts, Reading, Relation};
use opa_io::{List, NoMemory};
use opa_model::RelId;
use opa_tree::{Expr, OpKind, Quant, WinKind};
use opa_value::{Number, Value};
use std::alloc::Global;

/// The last of lines, which is taken away.
#[tactic(auto, using(crate::proofs::LineLaws::ends))]
fn last_line(lines: &mut List<Reading>) -> Reading
    ensures last { result ≡ last_line_of bounded lines.old }
    ensures others { lines.new ≡ but_last lines.old }
{
    match lines.pop() {
        None => Reading::unnamed(),
        Some(line) => line,
    }
}

/// All lines, beside one another. They are few.
#[tactic(auto, using(crate::proofs::LineLaws::gathered_last))]
fn gathered(alloc: Global, lines: List<Reading>) -> Result<Parts, NoMemory>
    ensures { IfOk result (λ p. p ≡ lines_of bounded lines) }
{
    let mut lines = lines;
    match lines.pop() {
        None => Ok(Parts::none(alloc)),
        Some(line) => gathered(alloc, lines)?.with(line),
    }
}

fn days_of_size(size: u64) -> u32
    ensures { result ≡ days_of_size size }
{
    if size % 10_000 == 0 && size <= 366_000_000 {
        (size / 10_000) as u32
    } else {
        0
    }
}

/// The whole number of days that a number is, up to 36,600; 0 where it isn't one.
fn days_of_count(count: i64) -> u32
    ensures { result ≡ days_of_count count }
{
    if count < 0 {
        0
    } else {
        days_of_size(count.unsigned_abs())
    }
}

fn days_of(number: Option<Number>) -> u32
    ensures { result ≡ days_of_number number }
{
    match number {
        None => 0,
        Some(number) => days_of_count(number.count()),
    }
}

/// The number that is written among the arguments.
fn written(number: Option<Number>) -> Reading
    ensures { result ≡ written_of bounded number }
{
    match number {
        None => Reading::unnamed(),
        Some(number) => Reading::literal(Value::Num(number)),
    }
}

impl Parts {
    /// Under a quantifier over a relation that isn't declared.
    fn over_unnamed(self) -> Reading
        ensures { result ≡ over_unnamed_of bounded self }
    {
        Reading {
            tree: None,
            measure: self.measure.unnamed().above(),
        }
    }

    fn listed(self, quant: Quant, rel: RelId) -> Reading
        ensures { result ≡ listed_of bounded quant rel self }
    {
        let (trees, measure) = self.raised();
        Reading {
            tree: trees.map(|es| Expr::Over(quant, rel, es)),
            measure,
        }
    }

    fn window(self, kind: WinKind) -> Reading
        ensures { result ≡ window_of bounded kind self }
    {
        let (trees, measure) = self.raised();
        Reading {
            tree: trees.map(|es| Expr::Window(kind, es)),
            measure,
        }
    }

    fn two(alloc: Global, first: Reading, second: Reading) -> Result<Parts, NoMemory>
        ensures { IfOk result (λ p. p ≡ two_parts_of bounded first second) }
    {
        Parts::one(alloc, first)?.with(second)
    }
}

impl Member {
    fn measure(&self) -> Measure
        ensures { result ≡ member_measure bounded self.now }
    {
        Measure {
            depth: self.depth,
            nodes: self.nodes,
            nesting: 0,
            named: true,
            short: true,
        }
    }

    /// The tree that a member meets, if it is within its numbers.
    fn membership(&self, alloc: Global) -> Result<Reading, NoMemory>
        ensures { IfOk result (λ r. r ≡ membership_of bounded self.now) }
    {
        let measure = self.measure();
        if measure.fits() {
            Ok(Reading {
                tree: Some(self.expr.copy(alloc)?),
                measure,
            })
        } else {
            Ok(Reading {
                tree: None,
                measure,
            })
        }
    }
}

/// A quantifier over the members of an inferred relation.
fn over_members(
    alloc: Global,
    quant: Quant,
    member: &Member,
    lines: List<Reading>,
) -> Result<Reading, NoMemory>
    ensures { IfOk result (λ r. r ≡ over_members_of bounded quant member.now lines) }
{
    let every = member.every;
    let mut lines = lines;
    match quant {
        Quant::ForAll => {
            let denied = member.membership(alloc)?.denial(alloc)?;
            let either = Parts::two(alloc, denied, last_line(&mut lines))?.any();
            Ok(Parts::one(alloc, either)?.listed(Quant::ForAll, every))
        }
        Quant::Exists => {
            let both = member.with(alloc, last_line(&mut lines))?;
            Ok(Parts::one(alloc, both)?.listed(Quant::Exists, every))
        }
        Quant::Count => {
            let met = member.membership(alloc)?;
            Ok(Parts::one(alloc, met)?.listed(Quant::CountIf, every))
        }
        Quant::CountIf => {
            let both = member.with(alloc, last_line(&mut lines))?;
            Ok(Parts::one(alloc, both)?.listed(Quant::CountIf, every))
        }
        Quant::Sum => {
            let met = member.membership(alloc)?;
            Ok(Parts::two(alloc, last_line(&mut lines), met)?.listed(Quant::SumIf, every))
        }
        Quant::SumIf => {
            let both = member.with(alloc, last_line(&mut lines))?;
            Ok(Parts::two(alloc, last_line(&mut lines), both)?.listed(Quant::SumIf, every))
        }
        Quant::For => Ok(gathered(alloc, lines)?.over_unnamed()),
        Quant::Maximum => Ok(gathered(alloc, lines)?.over_unnamed()),
        Quant::Minimum => Ok(gathered(alloc, lines)?.over_unnamed()),
    }
}

impl Member {
    /// What a member meets, and a test besides.
    fn with(&self, alloc: Global, test: Reading) -> Result<Reading, NoMemory>
        ensures { IfOk result (λ r. r ≡ all_of bounded (two_parts_of bounded (membership_of bounded self.now) test)) }
    {
        let met = self.membership(alloc)?;
        Ok(Parts::two(alloc, met, test)?.all())
    }
}

/// A quantifier over a relation.
fn over_relation(
    alloc: Global,
    members: &[Member],
    quant: Quant,
    relation: Relation,
    lines: List<Reading>,
) -> Result<Reading, NoMemory>
    ensures { IfOk result (λ r. r ≡ over_relation_of bounded members.now quant relation lines) }
{
    match relation {
        Relation::Declared(rel) => Ok(gathered(alloc, lines)?.listed(quant, rel)),
        Relation::Inferred(place) => match members.get(place as usize) {
            None => Ok(gathered(alloc, lines)?.over_unnamed()),
            Some(member) => over_members(alloc, quant, member, lines),
        },
        Relation::Unnamed => Ok(gathered(alloc, lines)?.over_unnamed()),
    }
}

/// A quantifier over a relation, with one line.
pub fn quantified(
    alloc: Global,
    members: &[Member],
    quant: Quant,
    relation: Relation,
    line: Reading,
) -> Result<Reading, NoMemory>
    ensures { IfOk result (λ r. r ≡ over_relation_of bounded members.now quant relation (line ∷ [])) }
{
    let mut lines = List::new(alloc);
    lines.push(line)?;
    over_relation(alloc, members, quant, relation, lines)
}

fn operation_call(
    alloc: Global,
    kind: OpKind,
    number: Option<Number>,
    lines: List<Reading>,
) -> Result<Reading, NoMemory>
    ensures { IfOk result (λ r. r ≡ operation_call_of bounded kind number lines) }
{
    match kind {
        OpKind::Round => {
            Ok(
                gathered(alloc, lines)?
                    .with(written(number))?
                    .operation(kind),
            )
        }
        _ => Ok(gathered(alloc, lines)?.operation(kind)),
    }
}

fn called(
    alloc: Global,
    members: &[Member],
    function: Function,
    arguments: Arguments,
) -> Result<Reading, NoMemory>
    ensures { IfOk result (λ r. r ≡ called_of bounded members.now function arguments) }
{
    let Arguments {
        relation,
        number,
        lines,
    } = arguments;
    let mut lines = lines;
    match function {
        Function::Op(kind) => operation_call(alloc, kind, number, lines),
        Function::Certain => {
            let (tree, measure) = last_line(&mut lines).raised(alloc)?;
            Ok(Reading {
                tree: tree.map(|e| Expr::Certain(e)),
                measure,
            })
        }
        Function::Known => {
            let (tree, measure) = last_line(&mut lines).raised(alloc)?;
            Ok(Reading {
                tree: tree.map(|e| Expr::Known(e)),
                measure,
            })
        }
        Function::Over(quant) => over_relation(alloc, members, quant, relation, lines),
        Function::Window(kind) => Ok(gathered(alloc, lines)?.window(kind)),
        Function::Rolling(always) => {
            let days = days_of(number);
            let (tree, measure) = last_line(&mut lines).raised(alloc)?;
            Ok(Reading {
                tree: tree.map(|e| Expr::Rolling(always, days, e)),
                measure,
            })
        }
    }
}

/// What a call of a function says.
pub fn call(
    alloc: Global,
    members: &[Member],
    function: Function,
    arguments: Arguments,
) -> Result<Reading, NoMemory>
    ensures { IfOk result (λ r. r ≡ call_of bounded members.now function arguments) }
{
    Ok(called(alloc, members, function, arguments)?.nested())
}

impl Arguments {
    pub fn none(alloc: Global) -> Arguments
        ensures { result ≡ no_arguments }
    {
        Arguments {
            relation: Relation::Unnamed,
            number: None,
            lines: List::new(alloc),
        }
    }
}
