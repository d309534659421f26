// The mode `generate`.
ghost use Rattle.std.specs.Prelude.{◌≡◌, ◌≢◌, ◌≤◌, ◌<◌, ◌^◌, List, ℕ, Some, length, map, codes, IfOk, MatchOption};
ghost use Rattle.opa_listen.specs.Hearing.{hearer};
ghost use Rattle.opa_script.specs.Examples.{rules_text, input_text};
ghost use Rattle.opa_io.specs.declared.fault.Status.TheVariants.{Refused};
ghost use Rattle.opa_top.specs.Generating.{IsGenerated, IsNoSize, IsSize, Generates, generated_files, unless_lacking as meant};
ghost use Rattle.opa_top.specs.Running.{outside};

use crate::check::tell;
use crate::example::{ExampleInput, ExampleShelf};
use crate::talk::open_and_talk;
use opa_io::{MemShelf, NoMemory, Shelf, Sink, Source, Status, Steps};
use opa_laws::{generated_is_accepted, one_opening, one_transcript};
use opa_listen::Listener;
use opa_script::generate;
use opa_value::Number;
use std::alloc::Global;
use std::sync::ledger::Ledger;

/// The name of the generated rulebase.
const NAME: &str = "generated.txt";

/// How many people a number asks for, where it is from 1 to 1,000.
fn size_of(number: &str) -> Option<u32>
    ensures { MatchOption result (IsNoSize number.now) (IsSize number.now) }
{
    let Ok(value) = Number::parse(number) else {
        return None;
    };
    let count = value.count();
    if count < 10_000 || count > 10_000_000 {
        return None;
    }
    u32::try_from(count / 10_000).ok()
}

/// The generated rulebase on a shelf in memory.
fn shelf_of(alloc: Global, rules: &str) -> Result<ExampleShelf, NoMemory>
    requires { rules.now ≡ rules_text }
    ensures files { IfOk result (λ s. ⟦<ExampleShelf as Shelf>⟧.files s ≡ Some generated_files) }
{
    let mut files = Vec::new(alloc);
    let name = String::from_str(alloc, NAME)?;
    let bytes = rules.as_bytes().to_vec(alloc)?;
    files.push((name, bytes))?;
    let shelf = MemShelf::new(alloc, files, Vec::new(alloc), Vec::new(alloc));
    Ok(ExampleShelf::new(shelf))
}

/// An input in memory.
fn input_of(alloc: Global, input: &str) -> Result<ExampleInput, NoMemory>
    ensures { IfOk result (λ s. ⟦<ExampleInput as Source>⟧.left s ≡ Some input.now) }
{
    let bytes = input.as_bytes().to_vec(alloc)?;
    Ok(ExampleInput::new(bytes))
}

/// A generated rulebase on its shelf, and the input for it.
#[derive(Drop)]
struct Example {
    shelf: ExampleShelf,
    input: ExampleInput,
}

/// The generated rulebase, and the input of so many people.
fn make_example(alloc: Global, size: u32) -> Result<Example, NoMemory>
    requires least { 1 ≤ size }
    requires most { size ≤ 1000 }
    ensures files { IfOk result (λ m. ⟦<ExampleShelf as Shelf>⟧.files m.shelf ≡ Some generated_files) }
    ensures input { IfOk result (λ m. ⟦<ExampleInput as Source>⟧.left m.input ≡ Some (input_text 1 size)) }
{
    let made = generate(alloc, 1, size)?;
    let shelf = shelf_of(alloc, made.rules.as_str())?;
    let input = input_of(alloc, made.input.as_str())?;
    Ok(Example { shelf, input })
}

/// Carries out the generated input over the generated rulebase.
fn talk_over<S: Source, F: Shelf, K: Sink, L: Ledger>(
    alloc: Global,
    size: u32,
    shelf: &F,
    input: &S,
    out: &mut K,
    listeners: &mut Vec<Box<dyn Listener>>,
    steps: &mut Steps<L>,
) -> Status
    requires least { 1 ≤ size }
    requires most { size ≤ 1000 }
    requires fewer { length listeners.old.items < 2 ^ 64 }
    ensures made { Generates size
        (outside F.files F.take_faults F.keep_faults S.left S.faults K.written K.faults shelf.now (map (λ l. hearer (state l)) listeners.old.items) input.now out.old steps.old)
        (outside F.files F.take_faults F.keep_faults S.left S.faults K.written K.faults shelf.now (map (λ l. hearer (state l)) listeners.new.items) input.now out.new steps.new) result }
    ensures accepted { result ≢ Refused }
{
    let Ok(found) = make_example(alloc, size) else {
        return Status::NoMemory;
    };
    let mut rules = found.shelf;
    let mut lines = found.input;
    one_opening();
    one_transcript();
    generated_is_accepted();
    let status = open_and_talk(alloc, NAME, &mut rules, listeners, steps, &mut lines, out);
    unless_lacking(status, rules.has_lacked())
}

/// How it ended; where memory ran out while a file was kept, that is why nothing could be written.
fn unless_lacking(status: Status, has_lacked: bool) -> Status
    ensures { result ≡ meant status has_lacked }
{
    match status {
        Status::WriteFault if has_lacked => Status::NoMemory,
        other => other,
    }
}

/// The transcript of the generated rulebase and its input, or the refusal of a number.
#[tactic(auto, using(crate::proofs::GenerateLaws::numbers))]
pub(crate) fn generated<S: Source, F: Shelf, K: Sink, L: Ledger>(
    alloc: Global,
    number: &str,
    shelf: &F,
    input: &S,
    out: &mut K,
    listeners: &mut Vec<Box<dyn Listener>>,
    steps: &mut Steps<L>,
) -> Status
    requires fewer { length listeners.old.items < 2 ^ 64 }
    ensures { IsGenerated number.now
        (outside F.files F.take_faults F.keep_faults S.left S.faults K.written K.faults shelf.now (map (λ l. hearer (state l)) listeners.old.items) input.now out.old steps.old)
        (outside F.files F.take_faults F.keep_faults S.left S.faults K.written K.faults shelf.now (map (λ l. hearer (state l)) listeners.new.items) input.now out.new steps.new) result }
{
    match size_of(number) {
        None => tell(Status::Refused, out, "refused: number\n"),
        Some(size) => talk_over(alloc, size, shelf, input, out, listeners, steps),
    }
}
