// A talk between two bytes of its input: lines are cut from pieces, and each is carried out.
ghost use Rattle.std.specs.Prelude.{◌≡◌, ◌≤◌, ◌++◌, ◌∷◌, [], map, OnOk, OnErr, IfOk, IfErr, MatchOption};
ghost use Rattle.opa_io.specs.Outside.{Rose, AppendsAll, AppendsFront};
ghost use Rattle.opa_listen.specs.Hearing.{hearer};
ghost use Rattle.opa_talk.specs.Halt.{IsLineCause};
ghost use Rattle.opa_talk.specs.Lines.{line_at, IsPart};
ghost use Rattle.opa_talk.specs.Transcript.{IsGoing};
ghost use Rattle.opa_talk.specs.Talk.{MayLeave};
ghost use Rattle.opa_talk.specs.Points.{point_of, Asks, CarriesLine, CarriesOut, StopsAt, Breaks, BreaksWithin, TakesPiece, Finishes};

use crate::halt::Halt;
use crate::line::without_mark;
use crate::replier::Replier;
use opa_io::{Shelf, Sink, Steps, write_all_of};
use opa_listen::Listener;
use std::alloc::Global;
use std::sync::ledger::Ledger;

/// The bytes since the last line feed, and whether no line feed was read yet.
#[derive(Drop)]
pub struct Pending {
    pub bytes: Vec<u8>,
    pub fresh: bool,
}

/// The bytes before the first line feed, and those after it.
pub fn cut(bytes: &[u8]) -> Option<(&[u8], &[u8])>
    ensures { MatchOption result (IsPart bytes.now) (λ p. IsPart p.0.now × (bytes.now ≡ p.0.now ++ 10 ∷ p.1.now)) }
{
    for i in 0..bytes.len() {
        if bytes[i] == b'\n' {
            return Some((&bytes[..i], &bytes[i + 1..]));
        }
    }
    None
}

/// Without the byte order mark, where no line feed was read before.
fn line_at(fresh: bool, bytes: &[u8]) -> &[u8]
    ensures { result.now ≡ line_at fresh bytes.now }
{
    if fresh { without_mark(bytes) } else { bytes }
}

/// Writes a text.
fn say<K: Sink>(out: &mut K, text: &[u8]) -> Result<(), Halt>
    ensures bytes { AppendsAll (K.written out.old) (K.written out.new) result text.now }
    ensures cause { IfErr result (λ halt. IsLineCause 0 0 0 0 (K.faults out.old) (K.faults out.new) halt) }
    ensures later { K.faults out.old ≤ K.faults out.new }
{
    match write_all_of(out, text) {
        Ok(()) => Ok(()),
        Err(_) => Err(Halt::Output),
    }
}

/// Writes what stands before the next line, and answers whether no line is taken any more.
pub fn ask<T: Replier<L>, F: Shelf, K: Sink, L: Ledger>(
    alloc: Global,
    replier: &T,
    shelf: &F,
    listeners: &Vec<Box<dyn Listener>>,
    steps: &Steps<L>,
    out: &mut K,
) -> Result<bool, Halt>
    ensures ok { IfOk result (λ over. Asks T.rule
        (T.held replier.now (map (λ l. hearer (state l)) listeners.now.items) (F.files shelf.now) steps.now) over
        (K.written out.old) (K.written out.new)) }
    ensures err { OnErr result (AppendsFront (K.written out.old) (K.written out.new)
        (T.rule.prompt (T.held replier.now (map (λ l. hearer (state l)) listeners.now.items)
        (F.files shelf.now) steps.now))) }
    ensures cause { IfErr result (λ halt. IsLineCause 0 0 0 0 (K.faults out.old) (K.faults out.new) halt) }
    ensures later { K.faults out.old ≤ K.faults out.new }
{
    let prompt = replier.prompt(alloc)?;
    say(out, &prompt.text)?;
    Ok(prompt.is_over)
}

/// Carries out a line, and writes what it prints and what stands before the next one. It answers whether no line is taken
/// any more.
fn carry_out<T: Replier<L>, F: Shelf, K: Sink, L: Ledger>(
    alloc: Global,
    replier: &mut T,
    shelf: &mut F,
    listeners: &mut Vec<Box<dyn Listener>>,
    steps: &mut Steps<L>,
    line: &[u8],
    out: &mut K,
) -> Result<bool, Halt>
    ensures ok { IfOk result (λ over. CarriesLine T.rule (T.held replier.old (map (λ l. hearer (state l)) listeners.old.items) (F.files shelf.old) steps.old) (T.held replier.new (map (λ l. hearer (state l)) listeners.new.items) (F.files shelf.new) steps.new) line.now over (K.written out.old) (K.written out.new)) }
    ensures err { OnErr result (StopsAt T.rule (MayLeave (F.keep_faults shelf.old) (F.keep_faults shelf.new) T.Stops T.Lacks) (T.held replier.old (map (λ l. hearer (state l)) listeners.old.items) (F.files shelf.old) steps.old) (T.held replier.new (map (λ l. hearer (state l)) listeners.new.items) (F.files shelf.new) steps.new) line.now (K.written out.old) (K.written out.new)) }
    ensures cause { IfErr result (IsLineCause (F.take_faults shelf.old) (F.take_faults shelf.new) (F.keep_faults shelf.old) (F.keep_faults shelf.new) (K.faults out.old) (K.faults out.new)) }
    ensures later { K.faults out.old ≤ K.faults out.new }
    ensures later_take { F.take_faults shelf.old ≤ F.take_faults shelf.new }
    ensures later_keep { F.keep_faults shelf.old ≤ F.keep_faults shelf.new }
{
    let text = replier.reply(alloc, shelf, listeners, steps, line)?;
    say(out, &text)?;
    ask(alloc, replier, shelf, listeners, steps, out)
}

/// Takes the rest of a line, and carries it out with its line feed.
fn take_line<T: Replier<L>, F: Shelf, K: Sink, L: Ledger>(
    alloc: Global,
    replier: &mut T,
    shelf: &mut F,
    listeners: &mut Vec<Box<dyn Listener>>,
    steps: &mut Steps<L>,
    pending: &mut Pending,
    bytes: &[u8],
    out: &mut K,
) -> Result<bool, Halt>
    requires going { IsGoing T.rule (T.held replier.old (map (λ l. hearer (state l)) listeners.old.items) (F.files shelf.old) steps.old) }
    requires part { IsPart (pending.old.bytes.items ++ bytes.now) }
    ensures over { IfOk result (λ over. over ≡ T.rule.is_over (T.held replier.new (map (λ l. hearer (state l)) listeners.new.items) (F.files shelf.new) steps.new)) }
    ensures ok { OnOk result (CarriesOut T.rule (point_of (T.held replier.old (map (λ l. hearer (state l)) listeners.old.items) (F.files shelf.old) steps.old) pending.old) (point_of (T.held replier.new (map (λ l. hearer (state l)) listeners.new.items) (F.files shelf.new) steps.new) pending.new) (bytes.now ++ 10 ∷ []) (K.written out.old) (K.written out.new)) }
    ensures err { OnErr result (BreaksWithin T.rule (MayLeave (F.keep_faults shelf.old) (F.keep_faults shelf.new) T.Stops T.Lacks) (point_of (T.held replier.old (map (λ l. hearer (state l)) listeners.old.items) (F.files shelf.old) steps.old) pending.old) (T.held replier.new (map (λ l. hearer (state l)) listeners.new.items) (F.files shelf.new) steps.new) (bytes.now ++ 10 ∷ []) (K.written out.old) (K.written out.new)) }
    ensures cause { IfErr result (IsLineCause (F.take_faults shelf.old) (F.take_faults shelf.new) (F.keep_faults shelf.old) (F.keep_faults shelf.new) (K.faults out.old) (K.faults out.new)) }
    ensures later { K.faults out.old ≤ K.faults out.new }
    ensures later_take { F.take_faults shelf.old ≤ F.take_faults shelf.new }
    ensures later_keep { F.keep_faults shelf.old ≤ F.keep_faults shelf.new }
{
    pending.bytes.extend_from_slice(bytes)?;
    pending.bytes.push(b'\n')?;
    let line = line_at(pending.fresh, &pending.bytes);
    let over = carry_out(alloc, replier, shelf, listeners, steps, line, out)?;
    pending.bytes.clear();
    pending.fresh = false;
    Ok(over)
}

/// Takes a piece of the input, and carries out each line that is whole now. It answers whether no line is taken any more.
pub fn take_piece<T: Replier<L>, F: Shelf, K: Sink, L: Ledger>(
    alloc: Global,
    replier: &mut T,
    shelf: &mut F,
    listeners: &mut Vec<Box<dyn Listener>>,
    steps: &mut Steps<L>,
    pending: &mut Pending,
    piece: &[u8],
    out: &mut K,
) -> Result<bool, Halt>
    requires going { IsGoing T.rule (T.held replier.old (map (λ l. hearer (state l)) listeners.old.items)
        (F.files shelf.old) steps.old) }
    requires part { IsPart pending.old.bytes.items }
    ensures ok { IfOk result (TakesPiece T.rule
        (point_of (T.held replier.old (map (λ l. hearer (state l)) listeners.old.items)
        (F.files shelf.old) steps.old) pending.old)
        (point_of (T.held replier.new (map (λ l. hearer (state l)) listeners.new.items)
        (F.files shelf.new) steps.new) pending.new) piece.now (K.written out.old) (K.written out.new)) }
    ensures err { OnErr result (BreaksWithin T.rule
        (MayLeave (F.keep_faults shelf.old) (F.keep_faults shelf.new) T.Stops T.Lacks)
        (point_of (T.held replier.old (map (λ l. hearer (state l)) listeners.old.items)
        (F.files shelf.old) steps.old) pending.old)
        (T.held replier.new (map (λ l. hearer (state l)) listeners.new.items) (F.files shelf.new) steps.new)
        piece.now (K.written out.old) (K.written out.new)) }
    ensures cause { IfErr result (IsLineCause (F.take_faults shelf.old) (F.take_faults shelf.new)
        (F.keep_faults shelf.old) (F.keep_faults shelf.new) (K.faults out.old) (K.faults out.new)) }
    ensures later { K.faults out.old ≤ K.faults out.new }
    ensures later_take { F.take_faults shelf.old ≤ F.take_faults shelf.new }
    ensures later_keep { F.keep_faults shelf.old ≤ F.keep_faults shelf.new }
{
    let mut rest = piece;
    while let Some((bytes, after)) = cut(rest) {
        let over = take_line(alloc, replier, shelf, listeners, steps, pending, bytes, out)?;
        if over {
            return Ok(true);
        }
        rest = after;
    }
    pending.bytes.extend_from_slice(rest)?;
    Ok(false)
}

/// Carries out the last line, which no line feed ends, if it isn't empty.
pub fn finish<T: Replier<L>, F: Shelf, K: Sink, L: Ledger>(
    alloc: Global,
    replier: &mut T,
    shelf: &mut F,
    listeners: &mut Vec<Box<dyn Listener>>,
    steps: &mut Steps<L>,
    pending: &Pending,
    out: &mut K,
) -> Result<(), Halt>
    requires going { IsGoing T.rule (T.held replier.old (map (λ l. hearer (state l)) listeners.old.items)
        (F.files shelf.old) steps.old) }
    requires part { IsPart pending.now.bytes.items }
    ensures ok { OnOk result (Finishes T.rule
        (point_of (T.held replier.old (map (λ l. hearer (state l)) listeners.old.items)
        (F.files shelf.old) steps.old) pending.now)
        (T.held replier.new (map (λ l. hearer (state l)) listeners.new.items) (F.files shelf.new) steps.new)
        (K.written out.old) (K.written out.new)) }
    ensures err { OnErr result (Breaks T.rule
        (MayLeave (F.keep_faults shelf.old) (F.keep_faults shelf.new) T.Stops T.Lacks)
        (point_of (T.held replier.old (map (λ l. hearer (state l)) listeners.old.items)
        (F.files shelf.old) steps.old) pending.now)
        (T.held replier.new (map (λ l. hearer (state l)) listeners.new.items) (F.files shelf.new) steps.new)
        pending.now.bytes.items (K.written out.old) (K.written out.new)) }
    ensures cause { IfErr result (IsLineCause (F.take_faults shelf.old) (F.take_faults shelf.new)
        (F.keep_faults shelf.old) (F.keep_faults shelf.new) (K.faults out.old) (K.faults out.new)) }
    ensures later { K.faults out.old ≤ K.faults out.new }
    ensures later_take { F.take_faults shelf.old ≤ F.take_faults shelf.new }
    ensures later_keep { F.keep_faults shelf.old ≤ F.keep_faults shelf.new }
{
    let line = line_at(pending.fresh, &pending.bytes);
    if line.is_empty() {
        return Ok(());
    }
    carry_out(alloc, replier, shelf, listeners, steps, line, out)?;
    Ok(())
}
