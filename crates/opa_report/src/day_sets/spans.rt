// Sets of days that are made of spans.
ghost use Rattle.std.specs.Prelude.{◌≡◌, ◌<◌, [], length, map, IfOk};
ghost use Rattle.opa_date.specs.declared.TheConstants.{DAYS};
ghost use Rattle.opa_line.specs.Lines.{StandsFor};
ghost use Rattle.opa_report.specs.DaySets.Spans as meant;

use crate::day_sets::sets::{either, nothing};
use opa_io::{NoMemory, Same, front};
use opa_line::{Builder, DAYS, Line};
use std::alloc::Global;

/// The days from a first one on and below an end; none where the end isn't after the first.
#[derive(Clone, Copy, Debug)]
pub struct Span {
    pub first: u32,
    pub end: u32,
}

impl Same for Span {
    fn same(&self, other: &Span) -> bool {
        self.first == other.first && self.end == other.end
    }
}

/// The days of a span.
fn of_span(alloc: Global, span: Span) -> Result<Line<bool>, NoMemory>
    ensures { IfOk result (StandsFor DAYS (meant.has span)) }
{
    let end = span.end.min(DAYS);
    if end <= span.first {
        return nothing(alloc);
    }
    let mut days = Builder::new(alloc);
    days.until(span.first, false)?;
    days.until(end, true)?;
    days.until(DAYS, false)?;
    Ok(days.finish())
}

/// The days that one of the spans has. The spans are halved until one is left.
fn of_spans(alloc: Global, spans: &[Span]) -> Result<Line<bool>, NoMemory>
    ensures { IfOk result (StandsFor DAYS (meant.one_has spans.now)) }
{
    if spans.len() < 2 {
        return of_few(alloc, spans);
    }
    let middle = spans.len() / 2;
    let first = of_spans(alloc, &spans[..middle])?;
    let second = of_spans(alloc, &spans[middle..])?;
    either(alloc, &first, &second)
}

fn of_few(alloc: Global, spans: &[Span]) -> Result<Line<bool>, NoMemory>
    requires { length spans.now < 2 }
    ensures { IfOk result (StandsFor DAYS (meant.one_has spans.now)) }
{
    match front(spans) {
        None => nothing(alloc),
        Some((span, _)) => of_span(alloc, *span),
    }
}

/// The days that the spans of a line have.
pub fn covered(alloc: Global, spans: &Line<Span>) -> Result<Line<bool>, NoMemory>
    ensures { IfOk result (meant.Covers spans.now) }
{
    let each = spans_of(alloc, spans.segments())?;
    of_spans(alloc, &each)
}

fn spans_of(alloc: Global, pairs: &[(u32, Span)]) -> Result<Vec<Span>, NoMemory>
    ensures { IfOk result (λ spans. spans.items ≡ map (λ p. p.1) pairs.now) }
{
    let mut spans = Vec::new(alloc);
    for pair in pairs {
        spans.push(pair.1)?;
    }
    Ok(spans)
}

/// The days that are looked back to from the days of a set: of each so many days that end with it.
pub fn looked_back(alloc: Global, days: &Line<bool>, count: u32) -> Result<Line<bool>, NoMemory>
    ensures { IfOk result (meant.LooksBack days.now count) }
{
    if count == 0 {
        return none_ahead(alloc, days);
    }
    let spans = back_spans(alloc, days.segments(), count)?;
    of_spans(alloc, &spans)
}

/// No day is one of no days.
fn none_ahead(alloc: Global, days: &Line<bool>) -> Result<Line<bool>, NoMemory>
    ensures { IfOk result (meant.LooksBack days.now 0) }
{
    nothing(alloc)
}

fn back_spans(alloc: Global, pairs: &[(u32, bool)], count: u32) -> Result<Vec<Span>, NoMemory>
    ensures { IfOk result (λ spans. spans.items ≡ meant.back_spans count pairs.now) }
{
    let mut spans = Vec::new(alloc);
    let mut rest = pairs;
    while let Some((pair, later)) = front(rest) {
        if pair.1 {
            let span = Span {
                first: pair.0.saturating_sub(count.saturating_sub(1)),
                end: upto(later),
            };
            spans.push(span)?;
        }
        rest = later;
    }
    Ok(spans)
}

fn upto(pairs: &[(u32, bool)]) -> u32
    ensures { result ≡ meant.upto pairs.now }
{
    match pairs {
        [] => DAYS,
        [pair, ..] => pair.0,
    }
}
