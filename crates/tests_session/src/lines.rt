// Lines that are read as commands, and as replies to questions.
use crate::samples::{load_text, texts};
use opa_case::{ChangeCommand, InstanceId, Question};
use opa_model::{AttrId, Model, RelId};
use opa_script::{CmdFault, Command, read_command, read_reply};
use std::alloc::Global;
use std::test::Fail;

fn fault_word(fault: CmdFault) -> &'static str {
    match fault {
        CmdFault::NotACommand => "1",
        CmdFault::Name => "2",
        CmdFault::Value => "3",
        CmdFault::NoMemory => "no memory",
    }
}

fn change_word(change: &ChangeCommand) -> &'static str {
    match change {
        ChangeCommand::Answer(_, _, _) => "answer",
        ChangeCommand::Withdraw(_, _) => "withdraw",
        ChangeCommand::SetList(_, _, _) => "list",
        ChangeCommand::Forget(_, _) => "forget",
    }
}

fn command_word(command: &Command) -> &'static str {
    match command {
        Command::Nothing => "nothing",
        Command::Change(change) => change_word(change),
        Command::ShowAttr(_, _) => "show",
        Command::ShowMembers(_, _) => "members",
        Command::Goals => "goals",
        Command::Next => "next",
        Command::Screen => "screen",
        Command::Report(_, _, _) => "report",
        Command::Save(_) => "save",
        Command::Load(_) => "load",
        Command::Stats => "stats",
        Command::Dismiss(_) => "dismiss",
    }
}

/// What is read: a command, or the number of its fault.
fn word(read: &Result<Command, CmdFault>) -> &'static str {
    match read {
        Ok(command) => command_word(command),
        Err(fault) => fault_word(*fault),
    }
}

/// The pairs of an answer, or the names of a list.
fn change_size(change: &ChangeCommand) -> usize {
    match change {
        ChangeCommand::Answer(_, _, line) => line.segments().len(),
        ChangeCommand::SetList(_, _, names) => names.as_slice().len(),
        ChangeCommand::Withdraw(_, _) | ChangeCommand::Forget(_, _) => 0,
    }
}

/// What else a command holds: a size, a day, or a number.
fn size(read: &Result<Command, CmdFault>) -> usize {
    match read {
        Ok(Command::Change(change)) => change_size(change),
        Ok(Command::Report(_, _, day)) => *day as usize,
        Ok(Command::Dismiss(count)) => *count as usize,
        Ok(_) | Err(_) => 0,
    }
}

/// A front, so many letters `a`, an end, the word of what is read, and what else it holds.
type Row = (&'static str, u32, &'static str, &'static str, usize);

/// Lines over the claimant's rulebase.
const COMMANDS: [Row; 16] = [
    ("goals", 0, "", "goals", 0),
    ("next", 0, "", "next", 0),
    ("screen", 0, "", "screen", 0),
    ("stats", 0, "", "stats", 0),
    (
        "report the claimant is entitled at 1600-01-02",
        0,
        "",
        "report",
        1,
    ),
    ("load \"a \"\"b\"\"\"", 0, "", "load", 0),
    ("dismiss 02", 0, "", "dismiss", 2),
    ("dismiss 2.0", 0, "", "dismiss", 2),
    ("dismiss 4294967295", 0, "", "dismiss", 4_294_967_295),
    ("dismiss 4294967296", 0, "", "3", 0),
    (
        "answer the claimant is an adult of \"x\" = false; from 2024-01-01 true",
        0,
        "",
        "answer",
        2,
    ),
    ("show the  claimant\tis entitled", 0, "", "show", 0),
    ("show ", 65_531, "", "2", 0),
    ("show ", 65_532, "", "1", 0),
    (
        "answer the claimant is entitled = \"",
        1_000,
        "\"",
        "answer",
        1,
    ),
    ("answer the claimant is entitled = \"", 1_001, "\"", "3", 0),
];

/// Replies to the question whether the claimant is an adult.
const REPLIES: [Row; 14] = [
    ("/show the claimant is an adult", 0, "", "show", 0),
    ("  / show the claimant is an adult", 0, "", "show", 0),
    ("perhaps", 0, "", "3", 0),
    ("false", 0, "", "answer", 1),
    (" \tfalse; from 2024-01-01 true", 0, "", "answer", 2),
    ("", 0, "", "nothing", 0),
    ("# no", 0, "", "nothing", 0),
    ("/", 0, "", "nothing", 0),
    ("/# no", 0, "", "nothing", 0),
    ("/hello", 0, "", "1", 0),
    ("/show the claimant is an elf", 0, "", "2", 0),
    ("$", 0, "", "1", 0),
    ("", 65_536, "", "3", 0),
    ("", 65_537, "", "1", 0),
];

/// Replies to the question which the children are.
const LISTED: [Row; 3] = [
    ("none", 0, "", "list", 0),
    ("\"Anna\", \"Ben\"", 0, "", "list", 2),
    ("true", 0, "", "3", 0),
];

/// The line of a row.
fn line(alloc: Global, row: &Row) -> Result<String, Fail> {
    let (front, letters, end, _, _) = row;
    let mut line = String::from_str(alloc, front)?;
    for _ in 0..*letters {
        line.push_str("a")?;
    }
    line.push_str(end)?;
    Ok(line)
}

/// The first line that isn't read as its row says: as a command, or as a reply where there is a question.
fn first_other(
    alloc: Global,
    model: &Model,
    question: Option<&Question>,
    rows: &[Row],
) -> Result<Option<usize>, Fail> {
    for (place, row) in rows.iter().enumerate() {
        let line = line(alloc, row)?;
        let bytes = line.as_str().as_bytes();
        let read = match question {
            Some(question) => read_reply(alloc, model, question, bytes),
            None => read_command(alloc, model, bytes),
        };
        let (_, _, _, want, count) = row;
        if word(&read) != *want || size(&read) != *count {
            return Ok(Some(place));
        }
    }
    Ok(None)
}

/// The same over a rulebase.
fn first_other_over(
    alloc: Global,
    text: &str,
    question: Option<&Question>,
    rows: &[Row],
) -> Result<Option<usize>, Fail> {
    let base = load_text(alloc, text)?;
    let other = first_other(alloc, &base.model, question, rows);
    drop(base);
    other
}

#[test]
fn of_the_claimant(rt: HostRuntime) -> Result<(), Fail> {
    let alloc = rt.alloc();
    assert_eq!(rt;
        first_other_over(alloc, texts::CLAIMANT, None, &COMMANDS)?,
        None
    );
    let question = Question::Attr(AttrId(1), InstanceId::global(alloc)?);
    assert_eq!(rt;
        first_other_over(alloc, texts::CLAIMANT, Some(&question), &REPLIES)?,
        None
    );
    Ok(())
}

#[test]
fn of_the_children(rt: HostRuntime) -> Result<(), Fail> {
    let alloc = rt.alloc();
    let question = Question::Members(RelId(0), InstanceId::global(alloc)?);
    assert_eq!(rt;
        first_other_over(alloc, texts::FAMILY, Some(&question), &LISTED)?,
        None
    );
    Ok(())
}
