// The grammar of a line as a table.
ghost use Rattle.std.specs.Prelude.{◌≡◌, ◌+◌, ◌++◌, ◌∷◌, [], ◌<◌, IfOk};
ghost use Rattle.std.specs.Option.{option_map};
ghost use Rattle.opa_sentence.specs.Cursors.{seen};
ghost use Rattle.opa_sentence.specs.Steps.{move_of};
ghost use Rattle.opa_sentence.specs.Table.{finished as finished_of, phrase as phrase_of, relation_at as relation_of, minus as minus_of, past_open as past_open_of, function as function_of, factor as factor_of, line_after as line_after_of, operand_after as operand_after_of, term_after as term_after_of, bracket_after as bracket_after_of, all_after as all_after_of, any_after as any_after_of, relation_taken, number_first as number_first_of, argument_in as argument_of, closed as closed_of, argument_after as argument_after_of, production as production_of, resume as resume_of};
ghost use Rattle.opa_sentence.specs.Functions as functions;
ghost use Rattle.opa_sentence.specs.Measures.{bounded};
ghost use Rattle.opa_sentence.specs.Moves.{call};
ghost use Rattle.opa_sentence.specs.Readings.{one_part};
ghost use Rattle.opa_sentence.specs.declared.sorts.Sort.TheVariants as sort;
ghost use Rattle.opa_sentence.specs.declared.sorts.Frame.TheVariants as frame;

use crate::calls::call;
use crate::functions::argument_at;
use crate::literals::{date_literal, negative_literal, number_in, number_literal};
use crate::{
    Argument, Arguments, Class, Cursor, Frame, Function, Names, Parts, Reading, Relation, Sort,
};
use opa_io::NoMemory;
use opa_tree::OpKind;
use opa_value::Value;
use opa_words::unquoted;
use std::alloc::Global;

/// What stands at the front of tokens.
#[derive(Debug, Drop)]
pub enum Step<'t> {
    Fail,
    Done(Reading, Cursor<'t>),
    Next(Sort, Cursor<'t>),
    Call(Sort, Frame, Cursor<'t>),
}

fn finished<'t>(found: Option<Reading>, rest: Cursor<'t>) -> Step<'t>
    ensures { move_of result ≡ finished_of found (seen rest.entry) }
{
    match found {
        None => Step::Fail,
        Some(reading) => Step::Done(reading, rest),
    }
}

fn phrase<'t>(alloc: Global, names: &Names, tokens: Cursor<'t>) -> Result<Step<'t>, NoMemory>
    ensures { IfOk result (λ m. move_of m ≡ phrase_of bounded names.now (seen tokens.entry)) }
{
    match tokens.longest(&names.operands) {
        None => Ok(Step::Done(Reading::unnamed(), tokens.past_words())),
        Some((place, count)) => {
            let meaning = names.meanings.as_slice().get(place as usize).copied();
            Ok(Step::Done(Reading::operand(alloc, meaning)?, tokens.skip(count)))
        }
    }
}

/// The relation whose phrase stands at the front, and what follows it.
pub fn relation_at<'t>(names: &Names, tokens: Cursor<'t>) -> Option<(Relation, Cursor<'t>)>
    ensures { option_map (λ x. (x.0, seen x.1)) result ≡ relation_of names.now (seen tokens.entry) }
{
    let (class, _, _) = tokens.first()?;
    if !class.is_word() {
        return None;
    }
    match tokens.longest(&names.relations) {
        None => Some((Relation::Unnamed, tokens.past_words())),
        Some((place, count)) => match names.related.as_slice().get(place as usize) {
            None => Some((Relation::Unnamed, tokens.skip(count))),
            Some(relation) => Some((*relation, tokens.skip(count))),
        },
    }
}

fn minus<'t>(tokens: Cursor<'t>) -> Step<'t>
    ensures { move_of result ≡ minus_of bounded (seen tokens.entry) }
{
    match tokens.first() {
        Some((Class::Number, text, rest)) => finished(negative_literal(text), rest),
        _ => Step::Call(Sort::Factor, Frame::Negate, tokens),
    }
}

/// What follows an opening bracket.
fn past_open<'t>(tokens: Cursor<'t>) -> Option<Cursor<'t>>
    ensures { option_map (λ c. seen c) result ≡ past_open_of (seen tokens.entry) }
{
    match tokens.first() {
        Some((Class::Open, _, rest)) => Some(rest),
        _ => None,
    }
}

/// A function's name with its bracket begins a call; without one it is a word.
fn function<'t>(
    alloc: Global,
    names: &Names,
    function: Function,
    tokens: Cursor<'t>,
    opened: Option<Cursor<'t>>,
) -> Result<Step<'t>, NoMemory>
    ensures { IfOk result (λ m. move_of m ≡ function_of bounded names.now function (seen tokens.entry) (option_map (λ c. seen c) opened.entry)) }
{
    match opened {
        None => phrase(alloc, names, tokens),
        Some(rest) => {
            let first = Sort::Argument(function, 0, Arguments::none(alloc));
            Ok(Step::Next(first, rest))
        }
    }
}

fn factor<'t>(alloc: Global, names: &Names, tokens: Cursor<'t>) -> Result<Step<'t>, NoMemory>
    ensures { IfOk result (λ m. move_of m ≡ factor_of bounded names.now (seen tokens.entry)) }
{
    let Some((class, text, rest)) = tokens.first() else {
        return Ok(Step::Fail);
    };
    match class {
        Class::Number => Ok(finished(number_literal(text), rest)),
        Class::Date => Ok(finished(date_literal(text), rest)),
        Class::Text => {
            let literal = Reading::literal(Value::Words(unquoted(alloc, text)?.shared()?));
            Ok(Step::Done(literal, rest))
        }
        Class::True => Ok(Step::Done(Reading::literal(Value::Bool(true)), rest)),
        Class::False => Ok(Step::Done(Reading::literal(Value::Bool(false)), rest)),
        Class::Uncertain => Ok(Step::Done(Reading::literal(Value::Uncertain), rest)),
        Class::Minus => Ok(minus(rest)),
        Class::Not => Ok(Step::Call(Sort::Factor, Frame::Deny, rest)),
        Class::Open => Ok(Step::Call(Sort::Line, Frame::Bracket, rest)),
        Class::Function(name) => function(alloc, names, name, tokens, past_open(rest)),
        Class::Word => phrase(alloc, names, tokens),
        Class::And => phrase(alloc, names, tokens),
        Class::Or => phrase(alloc, names, tokens),
        _ => Ok(Step::Fail),
    }
}

fn line_after<'t>(first: Reading, tokens: Cursor<'t>) -> Step<'t>
    ensures { move_of result ≡ line_after_of first (seen tokens.entry) }
{
    match tokens.first() {
        Some((Class::Compare(kind), _, rest)) => {
            Step::Call(Sort::Operand, Frame::Compare(kind, first), rest)
        }
        _ => Step::Done(first, tokens),
    }
}

fn operand_after<'t>(before: Reading, tokens: Cursor<'t>) -> Step<'t>
    ensures { move_of result ≡ operand_after_of before (seen tokens.entry) }
{
    match tokens.first() {
        Some((Class::Plus, _, rest)) => {
            Step::Call(Sort::Term, Frame::Join(OpKind::Add, before), rest)
        }
        Some((Class::Minus, _, rest)) => {
            Step::Call(Sort::Term, Frame::Join(OpKind::Sub, before), rest)
        }
        _ => Step::Done(before, tokens),
    }
}

fn term_after<'t>(before: Reading, tokens: Cursor<'t>) -> Step<'t>
    ensures { move_of result ≡ term_after_of before (seen tokens.entry) }
{
    match tokens.first() {
        Some((Class::Times, _, rest)) => {
            Step::Call(Sort::Factor, Frame::Scale(OpKind::Mul, before), rest)
        }
        Some((Class::Slash, _, rest)) => {
            Step::Call(Sort::Factor, Frame::Scale(OpKind::Div, before), rest)
        }
        _ => Step::Done(before, tokens),
    }
}

fn bracket_after<'t>(
    alloc: Global,
    first: Reading,
    tokens: Cursor<'t>,
) -> Result<Step<'t>, NoMemory>
    ensures { IfOk result (λ m. move_of m ≡ bracket_after_of bounded first (seen tokens.entry)) }
{
    match tokens.first() {
        Some((Class::Close, _, rest)) => Ok(Step::Done(first.nested(), rest)),
        Some((Class::And, _, rest)) => all_of(alloc, first, rest),
        Some((Class::Or, _, rest)) => any_of(alloc, first, rest),
        _ => Ok(Step::Fail),
    }
}

/// More lines after a first one, joined by `and`.
fn all_of<'t>(alloc: Global, first: Reading, rest: Cursor<'t>) -> Result<Step<'t>, NoMemory>
    ensures { IfOk result (λ m. move_of m ≡ call sort.Line (frame.All (one_part bounded first)) (seen rest.entry)) }
{
    let parts = Parts::one(alloc, first)?;
    Ok(Step::Call(Sort::Line, Frame::All(parts), rest))
}

/// More lines after a first one, joined by `or`.
fn any_of<'t>(alloc: Global, first: Reading, rest: Cursor<'t>) -> Result<Step<'t>, NoMemory>
    ensures { IfOk result (λ m. move_of m ≡ call sort.Line (frame.Any (one_part bounded first)) (seen rest.entry)) }
{
    let parts = Parts::one(alloc, first)?;
    Ok(Step::Call(Sort::Line, Frame::Any(parts), rest))
}

fn all_after<'t>(parts: Parts, tokens: Cursor<'t>) -> Step<'t>
    ensures { move_of result ≡ all_after_of bounded parts (seen tokens.entry) }
{
    match tokens.first() {
        Some((Class::Close, _, rest)) => Step::Done(parts.all().nested(), rest),
        Some((Class::And, _, rest)) => Step::Call(Sort::Line, Frame::All(parts), rest),
        _ => Step::Fail,
    }
}

fn any_after<'t>(parts: Parts, tokens: Cursor<'t>) -> Step<'t>
    ensures { move_of result ≡ any_after_of bounded parts (seen tokens.entry) }
{
    match tokens.first() {
        Some((Class::Close, _, rest)) => Step::Done(parts.any().nested(), rest),
        Some((Class::Or, _, rest)) => Step::Call(Sort::Line, Frame::Any(parts), rest),
        _ => Step::Fail,
    }
}

/// A relation in the place of an argument.
fn relation_argument<'t>(
    names: &Names,
    function: Function,
    place: usize,
    arguments: Arguments,
    tokens: Cursor<'t>,
) -> Step<'t>
    requires { place < 4 }
    ensures { move_of result ≡ relation_taken function place arguments (relation_of names.now (seen tokens.entry)) }
{
    match relation_at(names, tokens) {
        None => Step::Fail,
        Some((relation, rest)) => {
            let arguments = Arguments {
                relation,
                number: arguments.number,
                lines: arguments.lines,
            };
            Step::Next(Sort::ArgumentAfter(function, place + 1, arguments), rest)
        }
    }
}

/// A number in the place of an argument.
fn number_argument<'t>(
    function: Function,
    place: usize,
    arguments: Arguments,
    tokens: Cursor<'t>,
) -> Step<'t>
    requires { place < 4 }
    ensures { move_of result ≡ number_first_of function place arguments (seen tokens.entry) }
{
    match tokens.first() {
        Some((Class::Number, text, rest)) => match number_in(text) {
            None => Step::Fail,
            Some(number) => {
                let arguments = Arguments {
                    relation: arguments.relation,
                    number: Some(number),
                    lines: arguments.lines,
                };
                Step::Next(Sort::ArgumentAfter(function, place + 1, arguments), rest)
            }
        },
        _ => Step::Fail,
    }
}

fn argument<'t>(
    names: &Names,
    function: Function,
    place: usize,
    arguments: Arguments,
    tokens: Cursor<'t>,
) -> Step<'t>
    ensures { move_of result ≡ argument_of names.now function place arguments (functions.argument_at function place) (seen tokens.entry) }
{
    match argument_at(function, place) {
        None => Step::Fail,
        Some(Argument::Line) => Step::Call(
            Sort::Line,
            Frame::Argument(function, place + 1, arguments),
            tokens,
        ),
        Some(Argument::Relation) => relation_argument(names, function, place, arguments, tokens),
        Some(Argument::Number) => number_argument(function, place, arguments, tokens),
    }
}

fn closed<'t>(
    alloc: Global,
    names: &Names,
    function: Function,
    arguments: Arguments,
    left: Option<Argument>,
    rest: Cursor<'t>,
) -> Result<Step<'t>, NoMemory>
    ensures { IfOk result (λ m. move_of m ≡ closed_of bounded names.now function arguments left (seen rest.entry)) }
{
    match left {
        None => {
            let reading = call(alloc, names.members.as_slice(), function, arguments)?;
            Ok(Step::Done(reading, rest))
        }
        Some(_) => Ok(Step::Fail),
    }
}

fn argument_after<'t>(
    alloc: Global,
    names: &Names,
    function: Function,
    place: usize,
    arguments: Arguments,
    tokens: Cursor<'t>,
) -> Result<Step<'t>, NoMemory>
    ensures { IfOk result (λ m. move_of m ≡ argument_after_of bounded names.now function place arguments (seen tokens.entry)) }
{
    match tokens.first() {
        Some((Class::Comma, _, rest)) => {
            Ok(Step::Next(Sort::Argument(function, place, arguments), rest))
        }
        Some((Class::Close, _, rest)) => {
            let left = argument_at(function, place);
            closed(alloc, names, function, arguments, left, rest)
        }
        _ => Ok(Step::Fail),
    }
}

/// What is to be read next, by the tokens that stand there.
pub fn production<'t>(
    alloc: Global,
    names: &Names,
    sort: Sort,
    tokens: Cursor<'t>,
) -> Result<Step<'t>, NoMemory>
    ensures { IfOk result (λ m. move_of m ≡ production_of bounded names.now sort (seen tokens.entry)) }
{
    match sort {
        Sort::Line => Ok(Step::Call(Sort::Operand, Frame::Line, tokens)),
        Sort::Operand => Ok(Step::Call(Sort::Term, Frame::Operand, tokens)),
        Sort::Term => Ok(Step::Call(Sort::Factor, Frame::Term, tokens)),
        Sort::Factor => factor(alloc, names, tokens),
        Sort::LineAfter(first) => Ok(line_after(first, tokens)),
        Sort::OperandAfter(before) => Ok(operand_after(before, tokens)),
        Sort::TermAfter(before) => Ok(term_after(before, tokens)),
        Sort::Whole(reading) => Ok(Step::Done(reading, tokens)),
        Sort::BracketAfter(first) => bracket_after(alloc, first, tokens),
        Sort::AllAfter(parts) => Ok(all_after(parts, tokens)),
        Sort::AnyAfter(parts) => Ok(any_after(parts, tokens)),
        Sort::Argument(function, place, arguments) => {
            Ok(argument(names, function, place, arguments, tokens))
        }
        Sort::ArgumentAfter(function, place, arguments) => {
            argument_after(alloc, names, function, place, arguments, tokens)
        }
    }
}

/// What is to be read next, once the part of a frame was read.
pub fn resume(alloc: Global, frame: Frame, part: Reading) -> Result<Sort, NoMemory>
    ensures { IfOk result (λ s. s ≡ resume_of bounded frame part) }
{
    match frame {
        Frame::Line => Ok(Sort::LineAfter(part)),
        Frame::Operand => Ok(Sort::OperandAfter(part)),
        Frame::Term => Ok(Sort::TermAfter(part)),
        Frame::Compare(kind, first) => {
            Ok(Sort::Whole(Reading::between(alloc, kind, first, part)?))
        }
        Frame::Join(kind, before) => {
            Ok(Sort::OperandAfter(Reading::between(alloc, kind, before, part)?))
        }
        Frame::Scale(kind, before) => {
            Ok(Sort::TermAfter(Reading::between(alloc, kind, before, part)?))
        }
        Frame::Deny => Ok(Sort::Whole(part.denial(alloc)?.nested())),
        Frame::Negate => {
            let negated = Parts::one(alloc, part)?.operation(OpKind::Neg);
            Ok(Sort::Whole(negated.nested()))
        }
        Frame::Bracket => Ok(Sort::BracketAfter(part)),
        Frame::All(parts) => Ok(Sort::AllAfter(parts.with(part)?)),
        Frame::Any(parts) => Ok(Sort::AnyAfter(parts.with(part)?)),
        Frame::Argument(function, place, arguments) => {
            Ok(Sort::ArgumentAfter(function, place, arguments.with_line(part)?))
        }
    }
}

impl Arguments {
    fn with_line(self, line: Reading) -> Result<Arguments, NoMemory>
        ensures { IfOk result (λ a. a ≡ record self { lines = self.lines ++ line ∷ [] }) }
    {
        let Arguments {
            relation,
            number,
            lines,
        } = self;
        let mut lines = lines;
        lines.push(line)?;
        Ok(Arguments {
            relation,
            number,
            lines,
        })
    }
}
