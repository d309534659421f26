// The texts of changes, and what is said of those that were kept.
ghost use Rattle.std.specs.Prelude.{◌≡◌, ◌++◌, ◌∷◌, [], length, Some, IfOk, OnOk, OnErr};
ghost use Rattle.opa_listen.specs.Words.{values_text as values_text_of, dated_text as dated_text_of, change_text as change_text_of, change_lines as change_lines_of, count_text as count_text_of, latest, words as words_of};

use crate::Change;
use opa_io::{NoMemory, Txt, front};
use opa_text::{date_text, point_text, value_text};
use std::alloc::Global;

/// `OLD to NEW`.
#[tactic(auto, using(crate::proofs::Dated::in_calendar))]
fn values_text(alloc: Global, change: &Change) -> Result<Txt, NoMemory>
    ensures { IfOk result (λ t. t ≡ values_text_of change.entry.now) }
{
    let was = value_text(alloc, change.kind, &change.was)?;
    let now = value_text(alloc, change.kind, &change.now)?;
    let text = format!(in alloc; "{} to {}", was.as_str(), now.as_str())?;
    Ok(Txt::from_string(text))
}

/// `DATE: OLD to NEW`.
fn dated_text(alloc: Global, change: &Change) -> Result<Txt, NoMemory>
    ensures { IfOk result (λ t. t ≡ dated_text_of change.entry.now) }
{
    let day = date_text(alloc, change.day)?;
    let values = values_text(alloc, change)?;
    let text = format!(in alloc; "{}: {}", day.as_str(), values.as_str())?;
    Ok(Txt::from_string(text))
}

/// `POINT on DATE: OLD to NEW`.
fn change_text(alloc: Global, change: &Change) -> Result<Txt, NoMemory>
    ensures { IfOk result (λ t. t ≡ change_text_of change.entry.now) }
{
    let point = point_text(alloc, &change.phrase, &change.inst)?;
    let dated = dated_text(alloc, change)?;
    let text = format!(in alloc; "{} on {}", point.as_str(), dated.as_str())?;
    Ok(Txt::from_string(text))
}

/// A line for each change.
fn change_lines(alloc: Global, kept: &[Change]) -> Result<Txt, NoMemory>
    ensures { IfOk result (λ t. t ≡ change_lines_of kept.now) }
{
    let mut out = String::new(alloc);
    let mut rest = kept;
    while let Some((change, later)) = front(rest) {
        out.push_str(change_text(alloc, change)?.as_str())?;
        out.push_str("\n")?;
        rest = later;
    }
    Ok(Txt::from_string(out))
}

/// A line that says how many changes there are, and the last of them.
fn count_line(alloc: Global, kept: &[Change]) -> Result<Txt, NoMemory>
    ensures { IfOk result (λ t. t ≡ count_text_of (length kept.now) (latest kept.now) ++ 10 ∷ []) }
{
    match kept.last() {
        None => Txt::from_str(alloc, "0 changes\n"),
        Some(change) => last_line(alloc, kept.len(), change),
    }
}

fn last_line(alloc: Global, count: usize, change: &Change) -> Result<Txt, NoMemory>
    ensures { IfOk result (λ t. t ≡ count_text_of count (Some change.entry.now) ++ 10 ∷ []) }
{
    let last = change_text(alloc, change)?;
    let text = format!(in alloc; "{count} changes, last: {}\n", last.as_str())?;
    Ok(Txt::from_string(text))
}

/// What is said of the changes that were kept: in style 0 each of them, in style 1 how many they are and the last, in
/// style 2 nothing.
pub fn words(alloc: Global, style: u32, kept: &[Change]) -> Result<Txt, NoMemory>
    ensures { IfOk result (λ t. t ≡ words_of style kept.now) }
{
    match style {
        0 => change_lines(alloc, kept),
        1 => count_line(alloc, kept),
        _ => Txt::from_str(alloc, ""),
    }
}

/// Adds a text.
pub(crate) fn add_text(out: &mut Vec<u8>, text: &Txt) -> Result<(), NoMemory>
    ensures ok { OnOk result (out.new.items ≡ out.old.items ++ text.now) }
    ensures err { OnErr result (out.new.items ≡ out.old.items) }
{
    out.extend_from_slice(text.as_str().as_bytes())?;
    Ok(())
}
