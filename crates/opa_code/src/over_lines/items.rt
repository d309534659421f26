// Items that come one after another, and what is gathered from them.
ghost use Rattle.std.specs.Prelude.{◌≡◌, ◌∷◌, ◌++◌, [], ℕ, ◌<◌, true, List as Seq, IfOk, OnOk};
ghost use Rattle.opa_date.specs.declared.TheConstants.{DAYS};
ghost use Rattle.opa_value.specs.declared.value.Value.{Value as Meant};
ghost use Rattle.opa_line.specs.Lines.{StandsFor};
ghost use Rattle.opa_line.specs.Pointwise.{EachDay};
ghost use Rattle.opa_window.specs.Days.{day_value};
ghost use Rattle.opa_mean.specs.Meaning as meant;
ghost use Rattle.opa_code.specs.OverLines.Additions.{Gathered, HasRoom, IsAdded, KeepsFirst, gathers};
ghost use Rattle.opa_code.specs.OverLines.Extremes as extremes;
ghost use Rattle.opa_code.specs.OverLines.Lines.{values_at};
ghost use Rattle.opa_code.specs.OverLines.Sweeps.{is_best as best_of};
ghost use Rattle.opa_code.specs.OverLines.Tallies as tallies;

use crate::over_lines::bests::Bests;
use crate::over_lines::gathering::Gathering;
use crate::over_lines::lines::{bests_over, is_best, is_most, item_over};
use crate::over_lines::operand::{Operand, first_of};
use crate::over_lines::steady::{constant_of, counted, told_first};
use crate::over_lines::sweep::swept_over;
use crate::over_lines::tally::Tally;
use opa_io::{List, NoMemory};
use opa_line::Line;
use opa_tree::Quant;
use opa_value::Value;
use std::alloc::Global;

/// Items that came one after another. A constant one is counted at once and takes no memory; the others are kept, and so
/// is the first item. A line that is looked up isn't copied.
#[derive(Debug, Drop)]
pub struct Items<'a> {
    gathering: Gathering,
    constant: Tally,
    dated: List<Operand<'a>>,
    first: List<Operand<'a>>,
}

impl<'a> Items<'a> {
    /// No item yet.
    pub fn new(alloc: Global, gathering: Gathering) -> Items<'a>
        ensures none { Gathered (λ _. []) result }
        ensures how { result.gathering ≡ gathering }
    {
        Items {
            gathering,
            constant: Tally::none(),
            dated: List::new(alloc),
            first: List::new(alloc),
        }
    }

    /// One item more.
    #[inline(always)]
    pub fn add(&mut self, alloc: Global, operand: Operand<'a>) -> Result<(), NoMemory>
        requires { HasRoom self.old }
        ensures { OnOk result (IsAdded (day_value operand.entry) self.old self.new) }
    {
        keep_first(alloc, &mut self.first, &operand)?;
        match constant_of(operand.line()) {
            Some(value) => {
                self.constant = counted(is_most(self.gathering), &self.constant, value);
                Ok(())
            }
            None => self.dated.push(operand),
        }
    }

    /// One item more, with the same value at every day.
    #[inline(always)]
    pub fn add_value(&mut self, alloc: Global, value: &Value) -> Result<(), NoMemory>
        requires { HasRoom self.old }
        ensures { OnOk result (IsAdded (λ _. value.now) self.old self.new) }
    {
        keep_first_value(alloc, &mut self.first, value)?;
        self.constant = counted(is_most(self.gathering), &self.constant, value);
        Ok(())
    }

    /// What a quantifier makes of a listed instance's operands, as one item more.
    pub fn add_item(
        &mut self,
        alloc: Global,
        quant: Quant,
        operands: Vec<Operand<'a>>,
    ) -> Result<(), NoMemory>
        requires { HasRoom self.old }
        ensures { OnOk result (IsAdded (λ d. meant.item quant (values_at operands.entry.items d)) self.old self.new) }
    {
        let operand = item_over(alloc, quant, operands)?;
        self.add(alloc, operand)
    }

    /// What is gathered from the items at each day.
    pub fn told(&self, alloc: Global) -> Result<Line<Value>, NoMemory>
        requires { HasRoom self.now }
        ensures { IfOk result (λ line. (values : ℕ → Seq Meant) → Gathered values self.now → StandsFor DAYS (λ d. tallies.gather_of self.now.gathering (values d)) line) }
    {
        if self.dated.len() == 0 {
            let value = told_first(alloc, self.gathering, &self.constant, self.first.as_slice())?;
            Line::constant(alloc, value)
        } else {
            self.told_by_day(alloc)
        }
    }

    fn told_by_day(&self, alloc: Global) -> Result<Line<Value>, NoMemory>
        requires { HasRoom self.now }
        ensures { IfOk result (λ line. (values : ℕ → Seq Meant) → Gathered values self.now → StandsFor DAYS (λ d. tallies.gather_of self.now.gathering (values d)) line) }
    {
        if is_best(self.gathering) {
            self.best_by_day(alloc)
        } else {
            swept_over(alloc, self.gathering, &self.constant, self.dated.as_slice())
        }
    }

    fn best_by_day(&self, alloc: Global) -> Result<Line<Value>, NoMemory>
        requires { best_of self.now.gathering ≡ true }
        ensures { IfOk result (λ line. (values : ℕ → Seq Meant) → Gathered values self.now → StandsFor DAYS (λ d. tallies.gather_of self.now.gathering (values d)) line) }
    {
        let none = Line::constant(alloc, Value::Uncertain)?;
        let first = first_of(self.first.as_slice(), &none);
        let bests = self.bests(alloc)?;
        bests.zip(alloc, first, move |t: &Bests, v: &Value| t.told(alloc, v))
    }

    /// What the best of all items is told from.
    fn bests(&self, alloc: Global) -> Result<Line<Bests>, NoMemory>
        ensures { IfOk result (λ line. (values : ℕ → Seq Meant) → Gathered values self.now → EachDay (λ d t. extremes.AreBests (tallies.is_most self.now.gathering) (values d) t) DAYS line) }
    {
        let most = is_most(self.gathering);
        let before = Bests::of_tally(&self.constant);
        bests_beside(alloc, most, before, self.dated.as_slice())
    }
}

/// What the best is told from, of operands beside others.
fn bests_beside(
    alloc: Global,
    most: bool,
    before: Bests,
    operands: &[Operand<'_>],
) -> Result<Line<Bests>, NoMemory>
    ensures { IfOk result (λ line. (values : Seq Meant) → extremes.AreBests most values before → EachDay (λ d t. extremes.AreBests most (values ++ values_at operands.now d) t) DAYS line) }
{
    let halves = bests_over(alloc, most, operands)?;
    halves.map(alloc, move |t: &Bests| Ok(Bests::both(most, &before, t)))
}

/// Keeps the first item.
fn keep_first<'a>(
    alloc: Global,
    first: &mut List<Operand<'a>>,
    operand: &Operand<'a>,
) -> Result<(), NoMemory>
    ensures { OnOk result (KeepsFirst (day_value operand.now) first.old first.new) }
{
    if first.len() == 0 {
        first.push(operand.copy(alloc)?)
    } else {
        Ok(())
    }
}

fn keep_first_value(
    alloc: Global,
    first: &mut List<Operand<'_>>,
    value: &Value,
) -> Result<(), NoMemory>
    ensures { OnOk result (KeepsFirst (λ _. value.now) first.old first.new) }
{
    if first.len() == 0 {
        first.push(Operand::constant(alloc, value.copy(alloc)?)?)
    } else {
        Ok(())
    }
}

/// What a quantifier gathers from the items, if it doesn't only count them or take the first.
pub fn gathering_of(quant: Quant) -> Option<Gathering>
    ensures { result ≡ gathers quant }
{
    match quant {
        Quant::ForAll => Some(Gathering::All),
        Quant::Exists => Some(Gathering::Any),
        Quant::CountIf => Some(Gathering::CountIf),
        Quant::Sum | Quant::SumIf => Some(Gathering::Sum),
        Quant::Maximum => Some(Gathering::Best(true)),
        Quant::Minimum => Some(Gathering::Best(false)),
        Quant::For | Quant::Count => None,
    }
}
