// The run of the program.
ghost use Rattle.std.specs.Prelude.{◌≡◌, ◌<◌, ◌^◌, ℕ, List, None, Some, length, map};
ghost use Rattle.opa_listen.specs.Hearing.{hearer};
ghost use Rattle.std.specs.Option.{option_map};
ghost use Rattle.opa_top.specs.Usage.Asked.{asked_of, report_of};
ghost use Rattle.opa_top.specs.declared.usage.reading.Mode.TheVariants as modes;
ghost use Rattle.opa_top.specs.Checking.{Checks};
ghost use Rattle.opa_top.specs.Generating.{IsGenerated};
ghost use Rattle.opa_top.specs.Promises.{Asks, Promises, words_of};
ghost use Rattle.opa_top.specs.Running.{outside, IsUnused, Runs, a_run, an_interview};
ghost use Rattle.opa_top.specs.Statuses.{SaysUsage};
ghost use Rattle.opa_top.specs.Verifying.{Verifies};

use crate::asking::open_and_ask;
use crate::check::{check, tell};
use crate::generating::generated;
use crate::meaning::shown_is_meant;
use crate::talk::open_and_talk;
use crate::usage::{Mode, WordsFault, read_words};
use crate::verifying::verify;
use opa_io::{Shelf, Sink, Source, Status, Steps};
use opa_laws::{one_opening, one_transcript};
use opa_listen::Listener;
use opa_verify::one_verdict;
use std::alloc::Global;
use std::sync::ledger::Ledger;

const USAGE: &str = "usage: opa MODE NAME [NAME]\n";

/// Judges a report, whose name the words have.
fn verify_named<F: Shelf, K: Sink>(
    alloc: Global,
    name: &str,
    report: Option<&str>,
    shelf: &mut F,
    out: &mut K,
) -> Status
    ensures verifies { (text : List ℕ) → option_map (λ r. r.now) report.entry ≡ Some text → Verifies (F.files shelf.old) name.now text (K.written out.old) (K.written out.new) (F.take_faults shelf.old) (F.take_faults shelf.new) (K.faults out.old) (K.faults out.new) result }
    ensures files { F.files shelf.new ≡ F.files shelf.old }
{
    match report {
        Some(report) => verify(alloc, name, report, shelf, out),
        None => tell(Status::Usage, out, USAGE),
    }
}

/// Does what the words of the command line say.
fn run_words<S: Source, F: Shelf, K: Sink, L: Ledger>(
    alloc: Global,
    words: &[String],
    shelf: &mut F,
    input: &mut S,
    out: &mut K,
    listeners: &mut Vec<Box<dyn Listener>>,
    steps: &mut Steps<L>,
) -> Status
    requires fewer { length listeners.old.items < 2 ^ 64 }
    ensures usage { asked_of (words_of words.now) ≡ None → SaysUsage
        (outside F.files F.take_faults F.keep_faults S.left S.faults K.written K.faults shelf.old (map (λ l. hearer (state l)) listeners.old.items) input.old out.old steps.old)
        (outside F.files F.take_faults F.keep_faults S.left S.faults K.written K.faults shelf.new (map (λ l. hearer (state l)) listeners.new.items) input.new out.new steps.new) result }
    ensures checked { (name : List ℕ) → Asks words.now modes.Check name → Checks (F.files shelf.old) name (K.written out.old) (K.written out.new) (F.take_faults shelf.old) (F.take_faults shelf.new) (K.faults out.old) (K.faults out.new) result }
    ensures unused { (name : List ℕ) → Asks words.now modes.Check name → IsUnused
        (outside F.files F.take_faults F.keep_faults S.left S.faults K.written K.faults shelf.old (map (λ l. hearer (state l)) listeners.old.items) input.old out.old steps.old)
        (outside F.files F.take_faults F.keep_faults S.left S.faults K.written K.faults shelf.new (map (λ l. hearer (state l)) listeners.new.items) input.new out.new steps.new) }
    ensures verified { (name report : List ℕ) → Asks words.now modes.Verify name → report_of (words_of words.now) ≡ Some report → Verifies (F.files shelf.old) name report (K.written out.old) (K.written out.new) (F.take_faults shelf.old) (F.take_faults shelf.new) (K.faults out.old) (K.faults out.new) result }
    ensures still { (name : List ℕ) → Asks words.now modes.Verify name → IsUnused
        (outside F.files F.take_faults F.keep_faults S.left S.faults K.written K.faults shelf.old (map (λ l. hearer (state l)) listeners.old.items) input.old out.old steps.old)
        (outside F.files F.take_faults F.keep_faults S.left S.faults K.written K.faults shelf.new (map (λ l. hearer (state l)) listeners.new.items) input.new out.new steps.new) }
    ensures runs { (name : List ℕ) → Asks words.now modes.Run name → Runs a_run name
        (outside F.files F.take_faults F.keep_faults S.left S.faults K.written K.faults shelf.old (map (λ l. hearer (state l)) listeners.old.items) input.old out.old steps.old)
        (outside F.files F.take_faults F.keep_faults S.left S.faults K.written K.faults shelf.new (map (λ l. hearer (state l)) listeners.new.items) input.new out.new steps.new) result }
    ensures asks { (name : List ℕ) → Asks words.now modes.Interview name → Runs an_interview name
        (outside F.files F.take_faults F.keep_faults S.left S.faults K.written K.faults shelf.old (map (λ l. hearer (state l)) listeners.old.items) input.old out.old steps.old)
        (outside F.files F.take_faults F.keep_faults S.left S.faults K.written K.faults shelf.new (map (λ l. hearer (state l)) listeners.new.items) input.new out.new steps.new) result }
    ensures generated { (number : List ℕ) → Asks words.now modes.Generate number → IsGenerated number
        (outside F.files F.take_faults F.keep_faults S.left S.faults K.written K.faults shelf.old (map (λ l. hearer (state l)) listeners.old.items) input.old out.old steps.old)
        (outside F.files F.take_faults F.keep_faults S.left S.faults K.written K.faults shelf.new (map (λ l. hearer (state l)) listeners.new.items) input.new out.new steps.new) result }
{
    match read_words(alloc, words) {
        Ok(asked) => match asked.mode {
            Mode::Run => open_and_talk(alloc, asked.name, shelf, listeners, steps, input, out),
            Mode::Interview => open_and_ask(alloc, asked.name, shelf, listeners, steps, input, out),
            Mode::Check => check(alloc, asked.name, shelf, out),
            Mode::Verify => verify_named(alloc, asked.name, asked.report, shelf, out),
            Mode::Generate => generated(alloc, asked.name, shelf, input, out, listeners, steps),
        },
        Err(WordsFault::Usage) => tell(Status::Usage, out, USAGE),
        Err(WordsFault::NoMemory) => Status::NoMemory,
    }
}

/// Does what the words of the command line say, and answers how it ended.
pub fn run<S: Source, F: Shelf, K: Sink, L: Ledger>(
    alloc: Global,
    words: &[String],
    shelf: &mut F,
    input: &mut S,
    out: &mut K,
    listeners: &mut Vec<Box<dyn Listener>>,
    steps: &mut Steps<L>,
) -> Status
    // It holds of each vector, and tells the checker that no listener is made here.
    requires fewer { length listeners.old.items < 2 ^ 64 }
    // Usage, transcript, causes and completeness: specs/Promises, field by field.
    ensures promises { Promises words.now
        (outside F.files F.take_faults F.keep_faults S.left S.faults K.written K.faults shelf.old (map (λ l. hearer (state l)) listeners.old.items) input.old out.old steps.old)
        (outside F.files F.take_faults F.keep_faults S.left S.faults K.written K.faults shelf.new (map (λ l. hearer (state l)) listeners.new.items) input.new out.new steps.new) result }
{
    shown_is_meant();
    one_opening();
    one_transcript();
    one_verdict();
    run_words(alloc, words, shelf, input, out, listeners, steps)
}
