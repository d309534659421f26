// What lines and groups say.
ghost use Rattle.std.specs.Prelude.{◌≡◌, ◌++◌, IfOk};
ghost use Rattle.opa_sentence.specs.Measures.{bounded};
ghost use Rattle.opa_sentence.specs.Readings.{kept as kept_of};
ghost use Rattle.opa_parse.specs.Sayings.{mark as mark_of, line_marks as line_marks_of, of_line as of_line_of, is_named as is_named_in, head_marks as head_marks_of, head_reading as head_reading_of, headed as headed_of, takes as takes_of, one_item as one_item_of, with_item as with_item_of, joined as joined_of, several as several_of, no_cases as no_cases_of, with_row as with_row_of, row_measure as row_measure_of, with_case as with_case_of, table_of, tabled as tabled_of};

use crate::{Cases, Group, Head, Joint, Mark, Said, Several};
use opa_io::limits::MOST_NESTING;
use opa_io::{Boxed, List, NoMemory};
use opa_sentence::{Measure, Names, Parts, Reading, Relation, quantified};
use opa_tree::{Expr, Quant, RbKind, Row};
use std::alloc::Global;

fn mark(alloc: Global, test: bool, line: u32, kind: RbKind) -> Result<List<Mark>, NoMemory>
    ensures { IfOk result (λ marks. marks ≡ mark_of test line kind) }
{
    let mut marks = List::new(alloc);
    if test {
        marks.push(Mark { line, kind })?;
    }
    Ok(marks)
}

/// Marks, and then others.
pub fn and_then(marks: List<Mark>, more: List<Mark>) -> Result<List<Mark>, NoMemory>
    ensures { IfOk result (λ all. all ≡ marks ++ more) }
{
    let mut all = marks;
    let others = more.as_slice();
    for mark in others {
        all.push(*mark)?;
    }
    Ok(all)
}

/// The faults that a line has by itself.
pub fn line_marks(alloc: Global, number: u32, measure: Measure) -> Result<List<Mark>, NoMemory>
    ensures { IfOk result (λ marks. marks ≡ line_marks_of number measure) }
{
    let is_over = !measure.short || measure.nesting > MOST_NESTING;
    let over = mark(alloc, is_over, number, RbKind::Limit)?;
    let unnamed = mark(alloc, !measure.named, number, RbKind::Name)?;
    and_then(over, unnamed)
}

impl Said {
    /// What a line says.
    pub fn of_line(alloc: Global, number: u32, reading: Reading) -> Result<Said, NoMemory>
        ensures { IfOk result (λ s. s ≡ of_line_of number reading) }
    {
        let marks = line_marks(alloc, number, reading.measure)?;
        Ok(Said { reading, marks })
    }
}

fn is_named(names: &Names, relation: Relation) -> bool
    ensures { result ≡ is_named_in names.now relation }
{
    match relation {
        Relation::Declared(_) => true,
        Relation::Inferred(place) => names.members.as_slice().get(place as usize).is_some(),
        Relation::Unnamed => false,
    }
}

impl Head {
    fn marks(self, alloc: Global, names: &Names, number: u32) -> Result<List<Mark>, NoMemory>
        ensures { IfOk result (λ marks. marks ≡ head_marks_of names.now number self) }
    {
        match self {
            Head::All => Ok(List::new(alloc)),
            Head::Any => Ok(List::new(alloc)),
            Head::Not => Ok(List::new(alloc)),
            Head::ForAll(relation) => mark(alloc, !is_named(names, relation), number, RbKind::Name),
            Head::Exists(relation) => mark(alloc, !is_named(names, relation), number, RbKind::Name),
        }
    }

    fn reading(self, alloc: Global, names: &Names, group: Reading) -> Result<Reading, NoMemory>
        ensures { IfOk result (λ r. r ≡ head_reading_of names.now self group) }
    {
        let members = names.members.as_slice();
        match self {
            Head::All => Ok(group),
            Head::Any => Ok(group),
            Head::Not => group.denial(alloc),
            Head::ForAll(relation) => quantified(alloc, members, Quant::ForAll, relation, group),
            Head::Exists(relation) => quantified(alloc, members, Quant::Exists, relation, group),
        }
    }

    /// What the head on the line of this number says over a group.
    pub fn over(
        self,
        alloc: Global,
        names: &Names,
        number: u32,
        group: Said,
    ) -> Result<Said, NoMemory>
        ensures { IfOk result (λ s. s ≡ headed_of names.now number self group) }
    {
        let marks = self.marks(alloc, names, number)?;
        Ok(Said {
            reading: self.reading(alloc, names, group.reading)?,
            marks: and_then(marks, group.marks)?,
        })
    }

    /// Whether a group that is joined so may stand below.
    pub fn takes(self, joint: Option<Joint>) -> bool
        ensures { result ≡ takes_of self joint }
    {
        match (self, joint) {
            (Head::All, Some(Joint::Or)) => false,
            (Head::Any, Some(Joint::And)) => false,
            _ => true,
        }
    }
}

impl Several {
    pub fn one(alloc: Global, item: Said) -> Result<Several, NoMemory>
        ensures { IfOk result (λ s. s ≡ one_item_of item) }
    {
        Ok(Several {
            parts: Parts::one(alloc, item.reading)?,
            marks: item.marks,
        })
    }

    pub fn with(self, item: Said) -> Result<Several, NoMemory>
        ensures { IfOk result (λ s. s ≡ with_item_of self item) }
    {
        Ok(Several {
            parts: self.parts.with(item.reading)?,
            marks: and_then(self.marks, item.marks)?,
        })
    }

    /// The group of several items.
    pub fn group(self, joint: Joint) -> Group
        ensures { result ≡ several_of joint self }
    {
        Group {
            joint: Some(joint),
            said: Said {
                reading: joined(joint, self.parts),
                marks: self.marks,
            },
        }
    }
}

fn joined(joint: Joint, parts: Parts) -> Reading
    ensures { result ≡ joined_of joint parts }
{
    match joint {
        Joint::And => parts.all(),
        Joint::Or => parts.any(),
    }
}

/// What fits the measure.
fn kept<T: Drop>(measure: Measure, found: Option<T>) -> Option<T>
    ensures { result ≡ kept_of bounded measure found }
{
    if measure.fits() { found } else { None }
}

fn with_row(
    rows: Option<List<Row>>,
    cond: Option<Expr>,
    value: Option<Expr>,
) -> Result<Option<List<Row>>, NoMemory>
    ensures { IfOk result (λ r. r ≡ with_row_of rows cond value) }
{
    match (rows, cond, value) {
        (Some(rows), Some(cond), Some(value)) => {
            let mut rows = rows;
            rows.push(Row { cond, value })?;
            Ok(Some(rows))
        }
        _ => Ok(None),
    }
}

fn row_measure(cond: Measure, value: Measure) -> Measure
    ensures { result ≡ row_measure_of cond value }
{
    cond.beside(value).above()
}

fn table(
    alloc: Global,
    rows: Option<List<Row>>,
    value: Option<Expr>,
) -> Result<Option<Expr>, NoMemory>
    ensures { IfOk result (λ e. e ≡ table_of rows value) }
{
    match (rows, value) {
        (Some(rows), Some(value)) => Ok(Some(Expr::Table(rows, Boxed::new(alloc, value)?))),
        _ => Ok(None),
    }
}

impl Cases {
    pub fn none(alloc: Global) -> Cases
        ensures { result ≡ no_cases_of }
    {
        Cases {
            rows: Some(List::new(alloc)),
            measure: Measure::none(),
            marks: List::new(alloc),
        }
    }

    /// Another case: its value, and its group.
    pub fn with(self, value: Said, group: Said) -> Result<Cases, NoMemory>
        ensures { IfOk result (λ cases. cases ≡ with_case_of self value group) }
    {
        let row = row_measure(group.reading.measure, value.reading.measure);
        let measure = self.measure.beside(row);
        let rows = with_row(self.rows, group.reading.tree, value.reading.tree)?;
        let own = and_then(value.marks, group.marks)?;
        Ok(Cases {
            rows: kept(measure, rows),
            measure,
            marks: and_then(self.marks, own)?,
        })
    }

    /// The table of the cases, with the value that stands where none is met.
    pub fn table(self, alloc: Global, last: Said) -> Result<Said, NoMemory>
        ensures { IfOk result (λ s. s ≡ tabled_of self last) }
    {
        let measure = self.measure.beside(last.reading.measure).above();
        let tree = table(alloc, self.rows, last.reading.tree)?;
        Ok(Said {
            reading: Reading {
                tree: kept(measure, tree),
                measure,
            },
            marks: and_then(self.marks, last.marks)?,
        })
    }
}
