// What the rest of a line, behind the name of its case, asks for.
ghost use Rattle.std.specs.Prelude.{◌≡◌, nat_lt, length, IfOk, IfErr};
ghost use Rattle.opa_words.specs.Pieces.{seen, AreOfKind};
ghost use Rattle.opa_script.specs.Lines.{is_idle as idle_text};
ghost use Rattle.opa_cases.specs.Orders as meant;
ghost use Rattle.opa_cases.specs.Orders.{IsOrder, IsOrderInRange, OrdersNothing, IsCut, IsNotCut};

use opa_io::limits::MOST_LINE;
use opa_model::Model;
use opa_script::{CmdFault, Command, commands_are_in_range, is_idle, is_well_formed, read_command};
use opa_words::{Pieces, Token, TokenKind, WordFault, tokens};
use std::alloc::Global;

/// What the tokens of a line ask for, before its command is read: one of the words of suppositions and of closing alone, a
/// command that a caseload takes, or nothing that there is.
#[derive(Clone, Copy, Debug, PartialEq, Eq)]
pub enum Asked {
    Suppose,
    Undo,
    Close,
    Command,
    Nothing,
}

/// What the rest of a line asks for: nothing, a supposition and its end, the end of the case, or a command.
#[derive(Drop)]
pub enum Order {
    Nothing,
    Suppose,
    Undo,
    Close,
    Does(Command),
}

/// What a word asks for that stands in front.
fn asked_by_word(word: &str, alone: bool) -> Asked
    ensures { result ≡ meant.asked_by_word word.now alone }
{
    match word {
        "answer" => Asked::Command,
        "withdraw" => Asked::Command,
        "list" => Asked::Command,
        "forget" => Asked::Command,
        "show" => Asked::Command,
        "goals" => Asked::Command,
        "next" => Asked::Command,
        "stats" => Asked::Command,
        "suppose" => only(alone, Asked::Suppose),
        "undo" => only(alone, Asked::Undo),
        "close" => only(alone, Asked::Close),
        _ => Asked::Nothing,
    }
}

/// This is asked for, if it stands alone.
fn only(alone: bool, asked: Asked) -> Asked
    ensures { result ≡ meant.only alone asked }
{
    if alone { asked } else { Asked::Nothing }
}

/// What a token asks for that stands in front.
fn asked_by(kind: TokenKind, text: &str, alone: bool) -> Asked
    ensures { result ≡ meant.asked_by kind text.now alone }
{
    match kind {
        TokenKind::Word => asked_by_word(text, alone),
        TokenKind::Number | TokenKind::Date | TokenKind::Text | TokenKind::Symbol => Asked::Nothing,
    }
}

/// What tokens ask for.
fn asked_of(pieces: Pieces<'_>) -> Asked
    requires { AreOfKind pieces }
    ensures { result ≡ meant.asked_of (seen pieces.entry) }
{
    match pieces.first() {
        None => Asked::Nothing,
        Some((kind, text, rest)) => asked_by(kind, text, rest.is_empty()),
    }
}

/// Whether a text has more bytes than a line may have.
fn is_long(text: &str) -> bool
    ensures { result ≡ nat_lt 65536 (length text.now) }
{
    text.len() > MOST_LINE
}

/// The tokens of a text that isn't too long.
fn cut(alloc: Global, text: &str) -> Result<Vec<Token>, CmdFault>
    ensures cut { IfOk result (λ v. IsCut text.now v.items) }
    ensures fault { IfErr result (IsNotCut text.now) }
{
    if is_long(text) {
        return Err(CmdFault::NotACommand);
    }
    match tokens(alloc, text) {
        Ok(found) => Ok(found),
        Err(WordFault::Place(_)) => Err(CmdFault::NotACommand),
        Err(WordFault::NoMemory) => Err(CmdFault::NoMemory),
    }
}

/// What the tokens of a text ask for; a text that isn't cut into tokens asks for nothing that there is.
fn asked_in(alloc: Global, text: &str) -> Result<Asked, CmdFault>
    ensures asked { IfOk result (meant.Asks text.now) }
    ensures fault { IfErr result (IsNotCut text.now) }
{
    match cut(alloc, text) {
        Err(fault) => Err(fault),
        Ok(found) => Ok(asked_of(Pieces::new(text, &found))),
    }
}

/// The command that a line is.
fn command(alloc: Global, model: &Model, line: &str) -> Result<Order, CmdFault>
    ensures ok { IfOk result (meant.IsCommandOrder model.now line.now) }
    ensures range { IfOk result (IsOrderInRange model.now) }
    ensures fault { IfErr result (meant.IsNoCommandOrder model.now line.now) }
{
    commands_are_in_range();
    match read_command(alloc, model, line.as_bytes()) {
        Err(fault) => Err(fault),
        Ok(command) => {
            is_well_formed(&command);
            Ok(Order::Does(command))
        }
    }
}

/// Whether the rest of a line is blank or a comment.
fn is_nothing(text: &str) -> bool
    ensures { result ≡ idle_text text.now }
{
    is_idle(text.as_bytes())
}

/// What the rest of a line asks for.
pub(crate) fn read_order(alloc: Global, model: &Model, line: &str) -> Result<Order, CmdFault>
    ensures ok { IfOk result (IsOrder model.now line.now) }
    ensures range { IfOk result (IsOrderInRange model.now) }
    ensures fault { IfErr result (OrdersNothing model.now line.now) }
{
    if is_nothing(line) {
        return Ok(Order::Nothing);
    }
    match asked_in(alloc, line) {
        Err(fault) => Err(fault),
        Ok(Asked::Suppose) => Ok(Order::Suppose),
        Ok(Asked::Undo) => Ok(Order::Undo),
        Ok(Asked::Close) => Ok(Order::Close),
        Ok(Asked::Command) => command(alloc, model, line),
        Ok(Asked::Nothing) => Err(CmdFault::NotACommand),
    }
}
