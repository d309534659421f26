// A talk over its input: piece after piece is read, and each line is carried out.
ghost use Rattle.std.specs.Prelude.{◌≡◌, ◌<◌, ◌≤◌, ◌^◌, [], length, map, vec_len, IfOk, OnOk, OnErr, IfErr};
ghost use Rattle.std.specs.Io.KnownBytes.{Keeps};
ghost use Rattle.opa_io.specs.declared.limits.TheConstants.{MOST_INPUT};
ghost use Rattle.opa_io.specs.Outside.{Reads, HasCause, Rose};
ghost use Rattle.opa_listen.specs.Hearing.{hearer};
ghost use Rattle.opa_talk.specs.Halt.{IsCause};
ghost use Rattle.opa_talk.specs.declared.halt.Halt.TheVariants as halts;
ghost use Rattle.opa_talk.specs.Lines.{IsPart};
ghost use Rattle.opa_talk.specs.Transcript.{IsGoing, CutsAnywhere, HasOneTranscript};
ghost use Rattle.opa_talk.specs.Talk.{Converses, Halts, MayLeave};
ghost use Rattle.opa_talk.specs.Points.{point_of, fresh_point, Probes, TakesTurn, TakesLines, BreaksPart, Feeds, FeedBreaks};

use crate::halt::Halt;
use crate::replier::Replier;
use crate::talk::{Pending, ask, finish, take_piece};
use opa_io::limits::MOST_INPUT;
use opa_io::{Failed, Shelf, Sink, Source, Steps};
use opa_listen::Listener;
use std::alloc::{AllocError, Global};
use std::sync::ledger::Ledger;

/// How many bytes are read at once.
const PIECE: usize = 65_536;

/// What a turn found: the end of the input, so many bytes, or that no line is taken any more.
#[derive(Clone, Copy, Debug, PartialEq, Eq)]
pub enum Turn {
    End,
    Read(usize),
    Over,
}

/// Why no further piece is read: the input is at its end, as many bytes were read as an input may have, or no line is taken
/// any more.
#[derive(Clone, Copy, Debug, PartialEq, Eq)]
pub enum Ending {
    End,
    Full,
    Over,
}

/// Reads the next bytes into a vector.
fn read_into<S: Source>(input: &mut S, buf: &mut Vec<u8>) -> Result<usize, Failed>
    ensures bytes { Reads (S.left input.old) (S.left input.new) result buf.new.items }
    ensures bound { IfOk result (λ n. n ≤ vec_len buf.new) }
    ensures cause { HasCause (S.faults input.old) (S.faults input.new) result }
    ensures len { vec_len buf.new ≡ vec_len buf.old }
{
    input.read(buf)
}

/// Reads a piece of the input, and carries out the lines that are whole then.
fn read_turn<T: Replier<L>, F: Shelf, S: Source, K: Sink, L: Ledger>(
    alloc: Global,
    replier: &mut T,
    shelf: &mut F,
    listeners: &mut Vec<Box<dyn Listener>>,
    steps: &mut Steps<L>,
    pending: &mut Pending,
    buf: &mut Vec<u8>,
    input: &mut S,
    out: &mut K,
) -> Result<Turn, Halt>
    requires going { IsGoing T.rule (T.held replier.old (map (λ l. hearer (state l)) listeners.old.items) (F.files shelf.old) steps.old) }
    requires part { IsPart pending.old.bytes.items }
    requires room { 0 < vec_len buf.old }
    ensures ok { IfOk result (TakesTurn T.rule (point_of (T.held replier.old (map (λ l. hearer (state l)) listeners.old.items) (F.files shelf.old) steps.old) pending.old) (point_of (T.held replier.new (map (λ l. hearer (state l)) listeners.new.items) (F.files shelf.new) steps.new) pending.new) (vec_len buf.old) (S.left input.old) (S.left input.new) (K.written out.old) (K.written out.new)) }
    ensures err { IfErr result (BreaksPart T.rule (MayLeave (F.keep_faults shelf.old) (F.keep_faults shelf.new) T.Stops T.Lacks) (point_of (T.held replier.old (map (λ l. hearer (state l)) listeners.old.items) (F.files shelf.old) steps.old) pending.old) (point_of (T.held replier.new (map (λ l. hearer (state l)) listeners.new.items) (F.files shelf.new) steps.new) pending.new) (vec_len buf.old) (S.left input.old) (S.left input.new) (K.written out.old) (K.written out.new)) }
    ensures cause { IfErr result (IsCause (F.take_faults shelf.old) (F.take_faults shelf.new) (F.keep_faults shelf.old) (F.keep_faults shelf.new) (K.faults out.old) (K.faults out.new) (S.faults input.old) (S.faults input.new)) }
    ensures later_input { S.faults input.old ≤ S.faults input.new }
    ensures later { K.faults out.old ≤ K.faults out.new }
    ensures later_take { F.take_faults shelf.old ≤ F.take_faults shelf.new }
    ensures later_keep { F.keep_faults shelf.old ≤ F.keep_faults shelf.new }
    ensures room { vec_len buf.new ≡ vec_len buf.old }
{
    let Ok(count) = read_into(input, buf) else {
        return Err(Halt::Input);
    };
    if count == 0 {
        return Ok(Turn::End);
    }
    let over = take_piece(
        alloc,
        replier,
        shelf,
        listeners,
        steps,
        pending,
        &buf[..count],
        out,
    )?;
    if over {
        Ok(Turn::Over)
    } else {
        Ok(Turn::Read(count))
    }
}

/// Passes on what was written, since a read may wait.
fn pass_on<K: Sink>(out: &mut K) -> Result<(), Halt>
    ensures bytes { Keeps (K.written out.old) (K.written out.new) }
    ensures err { IfErr result (λ halt. halt ≡ halts.Output) }
    ensures cause { OnErr result (Rose (K.faults out.old) (K.faults out.new)) }
    ensures later { K.faults out.old ≤ K.faults out.new }
{
    match out.flush() {
        Ok(()) => Ok(()),
        Err(_) => Err(Halt::Output),
    }
}

/// Passes on what was written, then reads a piece of the input, and carries out the lines that are whole then.
fn take_turn<T: Replier<L>, F: Shelf, S: Source, K: Sink, L: Ledger>(
    alloc: Global,
    replier: &mut T,
    shelf: &mut F,
    listeners: &mut Vec<Box<dyn Listener>>,
    steps: &mut Steps<L>,
    pending: &mut Pending,
    buf: &mut Vec<u8>,
    input: &mut S,
    out: &mut K,
) -> Result<Turn, Halt>
    requires going { IsGoing T.rule (T.held replier.old (map (λ l. hearer (state l)) listeners.old.items) (F.files shelf.old) steps.old) }
    requires part { IsPart pending.old.bytes.items }
    requires room { 0 < vec_len buf.old }
    ensures ok { IfOk result (TakesTurn T.rule (point_of (T.held replier.old (map (λ l. hearer (state l)) listeners.old.items) (F.files shelf.old) steps.old) pending.old) (point_of (T.held replier.new (map (λ l. hearer (state l)) listeners.new.items) (F.files shelf.new) steps.new) pending.new) (vec_len buf.old) (S.left input.old) (S.left input.new) (K.written out.old) (K.written out.new)) }
    ensures err { IfErr result (BreaksPart T.rule (MayLeave (F.keep_faults shelf.old) (F.keep_faults shelf.new) T.Stops T.Lacks) (point_of (T.held replier.old (map (λ l. hearer (state l)) listeners.old.items) (F.files shelf.old) steps.old) pending.old) (point_of (T.held replier.new (map (λ l. hearer (state l)) listeners.new.items) (F.files shelf.new) steps.new) pending.new) (vec_len buf.old) (S.left input.old) (S.left input.new) (K.written out.old) (K.written out.new)) }
    ensures cause { IfErr result (IsCause (F.take_faults shelf.old) (F.take_faults shelf.new) (F.keep_faults shelf.old) (F.keep_faults shelf.new) (K.faults out.old) (K.faults out.new) (S.faults input.old) (S.faults input.new)) }
    ensures later_input { S.faults input.old ≤ S.faults input.new }
    ensures later { K.faults out.old ≤ K.faults out.new }
    ensures later_take { F.take_faults shelf.old ≤ F.take_faults shelf.new }
    ensures later_keep { F.keep_faults shelf.old ≤ F.keep_faults shelf.new }
    ensures room { vec_len buf.new ≡ vec_len buf.old }
{
    pass_on(out)?;
    read_turn(
        alloc, replier, shelf, listeners, steps, pending, buf, input, out,
    )
}

/// Reads the input up to its end, or to the most that is read, and carries out each line that is whole.
fn take_lines<T: Replier<L>, F: Shelf, S: Source, K: Sink, L: Ledger>(
    alloc: Global,
    replier: &mut T,
    shelf: &mut F,
    listeners: &mut Vec<Box<dyn Listener>>,
    steps: &mut Steps<L>,
    pending: &mut Pending,
    buf: &mut Vec<u8>,
    input: &mut S,
    out: &mut K,
) -> Result<Ending, Halt>
    requires going { IsGoing T.rule (T.held replier.old (map (λ l. hearer (state l)) listeners.old.items) (F.files shelf.old) steps.old) }
    requires part { IsPart pending.old.bytes.items }
    requires room { 0 < vec_len buf.old }
    ensures ok { IfOk result (TakesLines T.rule (point_of (T.held replier.old (map (λ l. hearer (state l)) listeners.old.items) (F.files shelf.old) steps.old) pending.old) (point_of (T.held replier.new (map (λ l. hearer (state l)) listeners.new.items) (F.files shelf.new) steps.new) pending.new) MOST_INPUT (S.left input.old) (S.left input.new) (K.written out.old) (K.written out.new)) }
    ensures err { IfErr result (BreaksPart T.rule (MayLeave (F.keep_faults shelf.old) (F.keep_faults shelf.new) T.Stops T.Lacks) (point_of (T.held replier.old (map (λ l. hearer (state l)) listeners.old.items) (F.files shelf.old) steps.old) pending.old) (point_of (T.held replier.new (map (λ l. hearer (state l)) listeners.new.items) (F.files shelf.new) steps.new) pending.new) MOST_INPUT (S.left input.old) (S.left input.new) (K.written out.old) (K.written out.new)) }
    ensures cause { IfErr result (IsCause (F.take_faults shelf.old) (F.take_faults shelf.new) (F.keep_faults shelf.old) (F.keep_faults shelf.new) (K.faults out.old) (K.faults out.new) (S.faults input.old) (S.faults input.new)) }
    ensures later_input { S.faults input.old ≤ S.faults input.new }
    ensures later { K.faults out.old ≤ K.faults out.new }
    ensures later_take { F.take_faults shelf.old ≤ F.take_faults shelf.new }
    ensures later_keep { F.keep_faults shelf.old ≤ F.keep_faults shelf.new }
{
    let mut left = MOST_INPUT;
    while left > 0 {
        buf.truncate(left);
        match take_turn(
            alloc, replier, shelf, listeners, steps, pending, buf, input, out,
        )? {
            Turn::End => return Ok(Ending::End),
            Turn::Over => return Ok(Ending::Over),
            Turn::Read(count) => left -= count,
        }
    }
    Ok(Ending::Full)
}

/// Asks for one more byte, and answers whether the input is at its end.
fn is_at_end<S: Source>(input: &mut S) -> Result<bool, Failed>
    ensures bytes { IfOk result (Probes (S.left input.old) (S.left input.new)) }
    ensures err { OnErr result (Keeps (S.left input.old) (S.left input.new)) }
    ensures cause { HasCause (S.faults input.old) (S.faults input.new) result }
{
    let mut last = [0];
    Ok(input.read(&mut last)? == 0)
}

/// Room for a piece.
fn buffer(alloc: Global) -> Result<Vec<u8>, AllocError>
    ensures { IfOk result (λ buf. 0 < vec_len buf) }
{
    vec![in alloc; 0; PIECE]
}

/// Reads the input from a point on to where the talk ends, and writes what its lines print.
fn go_on<T: Replier<L>, F: Shelf, S: Source, K: Sink, L: Ledger>(
    alloc: Global,
    replier: &mut T,
    shelf: &mut F,
    listeners: &mut Vec<Box<dyn Listener>>,
    steps: &mut Steps<L>,
    pending: &mut Pending,
    buf: &mut Vec<u8>,
    input: &mut S,
    out: &mut K,
) -> Result<(), Halt>
    requires going { IsGoing T.rule (T.held replier.old (map (λ l. hearer (state l)) listeners.old.items) (F.files shelf.old) steps.old) }
    requires part { IsPart pending.old.bytes.items }
    requires room { 0 < vec_len buf.old }
    ensures ok { OnOk result (Feeds T.rule (point_of (T.held replier.old (map (λ l. hearer (state l)) listeners.old.items) (F.files shelf.old) steps.old) pending.old) (T.held replier.new (map (λ l. hearer (state l)) listeners.new.items) (F.files shelf.new) steps.new) MOST_INPUT (S.left input.old) (S.left input.new) (K.written out.old) (K.written out.new)) }
    ensures err { IfErr result (FeedBreaks T.rule (MayLeave (F.keep_faults shelf.old) (F.keep_faults shelf.new) T.Stops T.Lacks) (point_of (T.held replier.old (map (λ l. hearer (state l)) listeners.old.items) (F.files shelf.old) steps.old) pending.old) (point_of (T.held replier.new (map (λ l. hearer (state l)) listeners.new.items) (F.files shelf.new) steps.new) pending.new) MOST_INPUT (S.left input.old) (S.left input.new) (K.written out.old) (K.written out.new)) }
    ensures cause { IfErr result (IsCause (F.take_faults shelf.old) (F.take_faults shelf.new) (F.keep_faults shelf.old) (F.keep_faults shelf.new) (K.faults out.old) (K.faults out.new) (S.faults input.old) (S.faults input.new)) }
    ensures later_input { S.faults input.old ≤ S.faults input.new }
    ensures later { K.faults out.old ≤ K.faults out.new }
    ensures later_take { F.take_faults shelf.old ≤ F.take_faults shelf.new }
    ensures later_keep { F.keep_faults shelf.old ≤ F.keep_faults shelf.new }
{
    match take_lines(
        alloc, replier, shelf, listeners, steps, pending, buf, input, out,
    )? {
        Ending::Over => Ok(()),
        Ending::End => finish(alloc, replier, shelf, listeners, steps, pending, out),
        Ending::Full => {
            let Ok(ended) = is_at_end(input) else {
                return Err(Halt::Input);
            };
            if ended {
                finish(alloc, replier, shelf, listeners, steps, pending, out)
            } else {
                Err(Halt::Limit)
            }
        }
    }
}

/// Reads the input to where the talk ends, and writes its transcript. `fewer` holds of each vector, and tells callers that
/// no listener is made.
pub fn converse<T: Replier<L>, F: Shelf, S: Source, K: Sink, L: Ledger>(
    alloc: Global,
    replier: &mut T,
    shelf: &mut F,
    listeners: &mut Vec<Box<dyn Listener>>,
    steps: &mut Steps<L>,
    input: &mut S,
    out: &mut K,
) -> Result<(), Halt>
    requires fewer { length listeners.old.items < 2 ^ 64 }
    ensures ok { OnOk result (Converses T.rule
        (T.held replier.old (map (λ l. hearer (state l)) listeners.old.items) (F.files shelf.old) steps.old)
        (T.held replier.new (map (λ l. hearer (state l)) listeners.new.items) (F.files shelf.new) steps.new) MOST_INPUT
        (S.left input.old) (S.left input.new) (K.written out.old) (K.written out.new)) }
    ensures err { IfErr result (Halts T.rule
        (MayLeave (F.keep_faults shelf.old) (F.keep_faults shelf.new) T.Stops T.Lacks)
        (T.held replier.old (map (λ l. hearer (state l)) listeners.old.items) (F.files shelf.old) steps.old)
        (T.held replier.new (map (λ l. hearer (state l)) listeners.new.items) (F.files shelf.new) steps.new) MOST_INPUT
        (S.left input.old) (S.left input.new) (K.written out.old) (K.written out.new)) }
    ensures cause { IfErr result (IsCause (F.take_faults shelf.old) (F.take_faults shelf.new)
        (F.keep_faults shelf.old) (F.keep_faults shelf.new) (K.faults out.old) (K.faults out.new)
        (S.faults input.old) (S.faults input.new)) }
    ensures later_input { S.faults input.old ≤ S.faults input.new }
    ensures later { K.faults out.old ≤ K.faults out.new }
    ensures later_take { F.take_faults shelf.old ≤ F.take_faults shelf.new }
    ensures later_keep { F.keep_faults shelf.old ≤ F.keep_faults shelf.new }
{
    let mut pending = Pending {
        bytes: Vec::new(alloc),
        fresh: true,
    };
    let mut buf = buffer(alloc)?;
    let over = ask(alloc, replier, shelf, listeners, steps, out)?;
    if over {
        return Ok(());
    }
    go_on(
        alloc,
        replier,
        shelf,
        listeners,
        steps,
        &mut pending,
        &mut buf,
        input,
        out,
    )
}

/// Laws over the transcripts of what answers lines: an input may be cut at any line feed, and where each line prints one text,
/// lines have one transcript.
pub fn cut_anywhere<T: Replier<L>, L: Ledger>()
    ensures anywhere { CutsAnywhere T.rule }
    ensures one { HasOneTranscript T.rule }
{}
