// A line that is made from its first day on.
ghost use Rattle.std.specs.Prelude.{◌≡◌, [], ◌∷◌, ◌++◌, ◌<◌, ◌≤◌, ◌↔◌, IsTrue, IfOk, OnOk, OnErr, length};
ghost use Rattle.opa_line.specs.Growth.{Added, Entered, Grown, last_value};
ghost use Rattle.opa_line.specs.Holding.{pairs_held, pairs_begun};

use crate::Line;
use crate::line::Held;
use opa_date::DAYS;
use opa_io::{NoMemory, Same};
use std::alloc::Global;
use std::marker::Model;
use std::mem;

/// The pairs so far. A vector is made once a second pair comes.
#[derive(Debug, Drop)]
enum Begun<T> {
    Nothing,
    One((u32, T)),
    Many(Vec<(u32, T)>),
}

/// A line that is made from its first day on, and the day up to which it goes. Its vector begins with room for so many pairs.
#[derive(Debug, Drop)]
pub struct Builder<T> {
    alloc: Global,
    upto: u32,
    room: usize,
    pairs: Begun<T>,
}

impl<T> Model for Builder<T> {
    ghost use Rattle.std.specs.Prelude.{List, ℕ, ◌≤◌};
    ghost use Rattle.std.specs.Coded.{coded_list, coded×, coded_ℕ};
    ghost use Rattle.opa_date.specs.declared.TheConstants.{DAYS};
    ghost use Rattle.opa_line.specs.Growth.{IsUpTo};
    ghost use Rattle.opa_line.specs.Holding.{pairs_begun};

    ghost Value = { ℕ × List (ℕ × T) };

    ghost coded = { coded× coded_ℕ (coded_list (coded× coded_ℕ T.code)) };

    ghost view = { λ b. (b.upto, pairs_begun b.pairs) };

    ghost invariant = { λ b. (b.upto ≤ DAYS) × IsUpTo b.upto (pairs_begun b.pairs) };
}

impl<T> Builder<T> {
    pub fn new(alloc: Global) -> Builder<T>
        ensures { result ≡ (0, []) }
    {
        Builder::with_room(alloc, 4)
    }

    /// The same, where so many pairs are likely.
    pub fn with_room(alloc: Global, room: usize) -> Builder<T>
        ensures { result ≡ (0, []) }
    {
        Builder {
            alloc,
            upto: 0,
            room,
            pairs: Begun::Nothing,
        }
    }

    /// The line, once it goes up to the calendar's end.
    pub fn finish(self) -> Line<T>
        requires { self.0 ≡ DAYS }
        ensures { result ≡ self.1 }
    {
        let Builder {
            alloc,
            upto: _,
            room: _,
            pairs,
        } = self;
        Line {
            held: held(alloc, pairs),
        }
    }
}

impl<T: Same + Drop> Builder<T> {
    /// The value holds up to that day, which isn't in it; up to a day that the line already reaches nothing changes.
    /// Without memory nothing is left of the line.
    #[inline(always)]
    pub fn until(&mut self, day: u32, value: T) -> Result<(), NoMemory>
        requires { day ≤ DAYS }
        ensures { OnOk result (Grown self.old day value self.new) }
    {
        if self.upto >= day {
            return Ok(());
        }
        let upto = self.upto;
        if let Begun::Many(pairs) = &mut self.pairs {
            enter(pairs, upto, value)?;
            self.upto = day;
            return Ok(());
        }
        self.upto = 0;
        let before = mem::replace(&mut self.pairs, Begun::Nothing);
        let after = entered(self.alloc, self.room, before, upto, value)?;
        self.pairs = after;
        self.upto = day;
        Ok(())
    }
}

#[inline(always)]
fn held<T>(alloc: Global, pairs: Begun<T>) -> Held<T>
    ensures { pairs_held result ≡ pairs_begun pairs }
{
    match pairs {
        Begun::Nothing => Held::Many(Vec::new(alloc)),
        Begun::One(pair) => Held::One([pair]),
        Begun::Many(pairs) => Held::Many(pairs),
    }
}

#[inline(always)]
fn put<T: Drop>(pairs: &mut Vec<(u32, T)>, day: u32, value: T) -> Result<(), NoMemory>
    ensures ok { OnOk result (pairs.new.items ≡ pairs.old.items ++ (day, value) ∷ []) }
    ensures err { OnErr result (pairs.new.items ≡ pairs.old.items) }
{
    pairs.push((day, value))?;
    Ok(())
}

#[inline(always)]
fn ends_with<T: Same>(pairs: &[(u32, T)], value: &T) -> bool
    requires { 0 < length pairs.now }
    ensures { IsTrue result ↔ (value.now ≡ last_value value.now pairs.now) }
{
    let last = pairs.len() - 1;
    value.same(&pairs[last].1)
}

#[inline(always)]
fn add<T: Same + Drop>(pairs: &mut Vec<(u32, T)>, day: u32, value: T) -> Result<(), NoMemory>
    requires { 0 < length pairs.now.items }
    ensures ok { OnOk result (Added pairs.old.items day value pairs.new.items) }
    ensures err { OnErr result (pairs.new.items ≡ pairs.old.items) }
{
    if ends_with(pairs, &value) {
        Ok(())
    } else {
        put(pairs, day, value)
    }
}

#[inline(always)]
fn enter<T: Same + Drop>(pairs: &mut Vec<(u32, T)>, day: u32, value: T) -> Result<(), NoMemory>
    ensures ok { OnOk result (Entered pairs.old.items day value pairs.new.items) }
    ensures err { OnErr result (pairs.new.items ≡ pairs.old.items) }
{
    if pairs.is_empty() {
        put(pairs, day, value)
    } else {
        add(pairs, day, value)
    }
}

/// The pairs with a second one, if it has a new value.
#[inline(always)]
fn after_first<T: Same + Drop>(
    alloc: Global,
    room: usize,
    first: (u32, T),
    day: u32,
    value: T,
) -> Result<Begun<T>, NoMemory>
    ensures { IfOk result (λ pairs. Added (first ∷ []) day value (pairs_begun pairs)) }
{
    if value.same(&first.1) {
        return Ok(Begun::One(first));
    }
    let mut pairs = Vec::with_capacity(alloc, room)?;
    pairs.push(first)?;
    pairs.push((day, value))?;
    Ok(Begun::Many(pairs))
}

#[inline(always)]
fn entered<T: Same + Drop>(
    alloc: Global,
    room: usize,
    pairs: Begun<T>,
    day: u32,
    value: T,
) -> Result<Begun<T>, NoMemory>
    ensures { IfOk result (λ entered. Entered (pairs_begun pairs) day value (pairs_begun entered)) }
{
    match pairs {
        Begun::Nothing => Ok(Begun::One((day, value))),
        Begun::One(first) => after_first(alloc, room, first, day, value),
        Begun::Many(mut pairs) => {
            enter(&mut pairs, day, value)?;
            Ok(Begun::Many(pairs))
        }
    }
}
