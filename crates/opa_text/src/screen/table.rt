// The screen of each question, found once.
ghost use Rattle.std.specs.Prelude.{◌≡◌, ◌==◌, ℕ, cond, IfOk, OnOk};
ghost use Rattle.std.specs.List.{list_any};
ghost use Rattle.opa_case.specs.declared.question.Question.{Question as Questions};
ghost use Rattle.opa_text.specs.Screen.Screens.{asks, screen_of};
ghost use Rattle.opa_text.specs.Screen.Tables.{number_at, number_in, AreNumbers};

use opa_case::Question;
use opa_io::{NoMemory, front};
use opa_model::{Item, Model};
use std::alloc::Global;
use std::collections::BTreeMap;

/// The numbers of the screens that list an attribute, and of those that list members.
#[derive(Drop)]
pub(crate) struct Table {
    attrs: BTreeMap<u32, u32>,
    lists: BTreeMap<u32, u32>,
}

/// The table of all declared screens.
pub(crate) fn table_of(alloc: Global, model: &Model) -> Result<Table, NoMemory>
    ensures { IfOk result (AreNumbers model.now) }
{
    let mut table = Table::new(alloc);
    let mut left = model.screen_count();
    while left > 0 {
        let place = left - 1;
        table.add(model.screen(place).items.as_slice(), left)?;
        left = place;
    }
    Ok(table)
}

/// Whether a question lies on the screen with the number.
pub(crate) fn lies_on(_model: &Model, table: &Table, question: &Question, screen: u32) -> bool
    requires { AreNumbers _model.now table.now }
    ensures { result ≡ (screen_of _model.now question.now == screen) }
{
    let number = table.number(question);
    number == screen
}

fn number_at(numbers: &BTreeMap<u32, u32>, key: u32) -> u32
    ensures { result ≡ number_at numbers.now key }
{
    match numbers.get(&key) {
        Some(number) => *number,
        None => 0,
    }
}

fn put(numbers: &mut BTreeMap<u32, u32>, key: u32, number: u32) -> Result<(), NoMemory>
    ensures { OnOk result ((k : ℕ) → number_at numbers.new k ≡ cond (k == key) number (number_at numbers.old k)) }
{
    match numbers.insert(key, number) {
        Ok(_) => Ok(()),
        Err(_) => Err(NoMemory),
    }
}

impl Table {
    fn new(alloc: Global) -> Table
        ensures { (q : Questions) → number_in result q ≡ 0 }
    {
        Table {
            attrs: BTreeMap::new(alloc),
            lists: BTreeMap::new(alloc),
        }
    }

    fn number(&self, question: &Question) -> u32
        ensures { result ≡ number_in self.now question.now }
    {
        match question {
            Question::Attr(attr, _) => number_at(&self.attrs, attr.0),
            Question::Members(rel, _) => number_at(&self.lists, rel.0),
        }
    }

    /// The items of a screen with the number.
    fn add(&mut self, items: &[Item], number: u32) -> Result<(), NoMemory>
        ensures { OnOk result ((q : Questions) → number_in self.new q ≡ cond (list_any (asks q) items.now) number (number_in self.old q)) }
    {
        let mut rest = items;
        while let Some((item, later)) = front(rest) {
            self.add_one(item, number)?;
            rest = later;
        }
        Ok(())
    }

    fn add_one(&mut self, item: &Item, number: u32) -> Result<(), NoMemory>
        ensures { OnOk result ((q : Questions) → number_in self.new q ≡ cond (asks q item.now) number (number_in self.old q)) }
    {
        match item {
            Item::Attr(attr) => put(&mut self.attrs, attr.0, number),
            Item::Members(rel) => put(&mut self.lists, rel.0, number),
        }
    }
}
