// The grammar of groups as a table.
ghost use Rattle.std.specs.Prelude.{◌≡◌, ◌+◌, IfOk, Some};
ghost use Rattle.opa_parse.specs.GroupTable.{ended as ended_of, same as same_of, extended as extended_of, go_on as go_on_of, after_line as after_line_of, line_item as line_item_of, head_item as head_item_of, item as item_of, connector as connector_of, after_group as after_group_of, case_line as case_line_of, first_case as first_case_of, last_line as last_line_of, next_case as next_case_of, production as production_of, resume as resume_of};
ghost use Rattle.opa_parse.specs.Steps.{move_of};

use crate::{Cases, Ending, Frame, Front, Group, Items, Joint, Line, Lines, Said, Several, Sort};
use opa_io::NoMemory;
use opa_sentence::Names;
use std::alloc::Global;

/// What stands at the front of lines.
#[derive(Drop)]
pub enum Step {
    Fail,
    Done(Group, Lines),
    Next(Sort, Lines),
    Call(Sort, Frame, Lines),
}

impl Front {
    /// With an item that is the last.
    fn ended(self, item: Said) -> Result<Group, NoMemory>
        ensures { IfOk result (λ g. g ≡ ended_of self item) }
    {
        match self {
            Front::Nothing => Ok(Group {
                joint: None,
                said: item,
            }),
            Front::Joined(joint, several) => Ok(several.with(item)?.group(joint)),
        }
    }

    /// With an item that carries a connector, if that is the group's.
    fn extended(self, alloc: Global, item: Said, joint: Joint) -> Result<Option<Front>, NoMemory>
        ensures { IfOk result (λ f. f ≡ extended_of self item joint) }
    {
        match self {
            Front::Nothing => Ok(Some(Front::Joined(joint, Several::one(alloc, item)?))),
            Front::Joined(before, several) => {
                if is_same(before, joint) {
                    Ok(Some(Front::Joined(before, several.with(item)?)))
                } else {
                    Ok(None)
                }
            }
        }
    }
}

fn is_same(first: Joint, second: Joint) -> bool
    ensures { result ≡ same_of first second }
{
    match (first, second) {
        (Joint::And, Joint::And) => true,
        (Joint::Or, Joint::Or) => true,
        _ => false,
    }
}

fn go_on(level: u32, front: Option<Front>, lines: Lines) -> Step
    ensures { move_of result ≡ go_on_of level front lines }
{
    match front {
        None => Step::Fail,
        Some(front) => Step::Next(Sort::Item(Items { level, front }), lines),
    }
}

impl Items {
    /// With an item and its connector.
    fn joined(self, alloc: Global, item: Said, joint: Joint, lines: Lines) -> Result<Step, NoMemory>
        ensures { IfOk result (λ m. move_of m ≡ go_on_of self.level (extended_of self.front item joint) lines) }
    {
        let Items { level, front } = self;
        Ok(go_on(level, front.extended(alloc, item, joint)?, lines))
    }

    fn after_line(
        self,
        alloc: Global,
        item: Said,
        ending: Ending,
        lines: Lines,
    ) -> Result<Step, NoMemory>
        ensures { IfOk result (λ m. move_of m ≡ after_line_of self item ending lines) }
    {
        match ending {
            Ending::Nothing => Ok(Step::Done(self.front.ended(item)?, lines)),
            Ending::And => self.joined(alloc, item, Joint::And, lines),
            Ending::Or => self.joined(alloc, item, Joint::Or, lines),
            Ending::If => Ok(Step::Fail),
            Ending::Otherwise => Ok(Step::Fail),
        }
    }

    fn line_item(self, alloc: Global, line: Line, lines: Lines) -> Result<Step, NoMemory>
        ensures { IfOk result (λ m. move_of m ≡ line_item_of self line line.says lines) }
    {
        let number = line.number;
        let ending = line.ending;
        match line.says {
            None => Ok(Step::Fail),
            Some(reading) => {
                let item = Said::of_line(alloc, number, reading)?;
                self.after_line(alloc, item, ending, lines)
            }
        }
    }

    fn head_item(self, below: u32, line: Line, lines: Lines) -> Step
        requires { below ≡ self.level + 1 }
        ensures { move_of result ≡ head_item_of self line line.ending line.head lines }
    {
        match (line.ending, line.head) {
            (Ending::Nothing, Some(head)) => Step::Call(
                Sort::Item(Items {
                    level: below,
                    front: Front::Nothing,
                }),
                Frame::Head(self, line.number, head),
                lines,
            ),
            _ => Step::Fail,
        }
    }

    fn item(self, alloc: Global, lines: Lines) -> Result<Step, NoMemory>
        ensures { IfOk result (λ m. move_of m ≡ item_of self lines) }
    {
        match lines.first() {
            None => Ok(Step::Fail),
            Some((line, rest)) => {
                if line.level != self.level {
                    return Ok(Step::Fail);
                }
                match rest.level_below(self.level) {
                    Some(below) => Ok(self.head_item(below, line, rest)),
                    None => self.line_item(alloc, line, rest),
                }
            }
        }
    }

    fn connector(
        self,
        alloc: Global,
        item: Said,
        ending: Ending,
        lines: Lines,
    ) -> Result<Step, NoMemory>
        ensures { IfOk result (λ m. move_of m ≡ connector_of self item ending lines) }
    {
        match ending {
            Ending::And => self.joined(alloc, item, Joint::And, lines),
            Ending::Or => self.joined(alloc, item, Joint::Or, lines),
            Ending::Nothing => Ok(Step::Fail),
            Ending::If => Ok(Step::Fail),
            Ending::Otherwise => Ok(Step::Fail),
        }
    }

    /// After an item that had deeper lines.
    fn after_group(self, alloc: Global, item: Said, lines: Lines) -> Result<Step, NoMemory>
        ensures { IfOk result (λ m. move_of m ≡ after_group_of self item lines) }
    {
        if lines.is_above(self.level) {
            return Ok(Step::Done(self.front.ended(item)?, lines));
        }
        match lines.first() {
            None => Ok(Step::Fail),
            Some((line, rest)) => {
                if line.level == self.level && line.is_bare {
                    self.connector(alloc, item, line.ending, rest)
                } else {
                    Ok(Step::Fail)
                }
            }
        }
    }
}

impl Cases {
    fn case_line(self, alloc: Global, line: Line, lines: Lines) -> Result<Step, NoMemory>
        ensures { IfOk result (λ m. move_of m ≡ case_line_of self line line.ending line.says lines) }
    {
        match (line.ending, line.says) {
            (Ending::If, Some(reading)) => {
                let value = Said::of_line(alloc, line.number, reading)?;
                let group = Items {
                    level: 2,
                    front: Front::Nothing,
                };
                Ok(Step::Call(Sort::Item(group), Frame::Case(self, value), lines))
            }
            _ => Ok(Step::Fail),
        }
    }

    fn last_line(self, alloc: Global, line: Line, lines: Lines) -> Result<Step, NoMemory>
        ensures { IfOk result (λ m. move_of m ≡ last_line_of self line line.ending line.says lines) }
    {
        match line.ending {
            Ending::Otherwise => self.otherwise(alloc, line, lines),
            _ => self.case_line(alloc, line, lines),
        }
    }

    fn otherwise(self, alloc: Global, line: Line, lines: Lines) -> Result<Step, NoMemory>
        requires { line.ending ≡ Ending.Otherwise }
        ensures { IfOk result (λ m. move_of m ≡ last_line_of self line line.ending line.says lines) }
    {
        let number = line.number;
        match line.says {
            None => Ok(Step::Fail),
            Some(reading) => {
                let value = Said::of_line(alloc, number, reading)?;
                let group = Group {
                    joint: None,
                    said: self.table(alloc, value)?,
                };
                Ok(Step::Done(group, lines))
            }
        }
    }

    fn next_case(self, alloc: Global, lines: Lines) -> Result<Step, NoMemory>
        ensures { IfOk result (λ m. move_of m ≡ next_case_of self lines) }
    {
        match lines.first() {
            None => Ok(Step::Fail),
            Some((line, rest)) => {
                if line.level == 1 {
                    self.last_line(alloc, line, rest)
                } else {
                    Ok(Step::Fail)
                }
            }
        }
    }
}

fn first_case(alloc: Global, lines: Lines) -> Result<Step, NoMemory>
    ensures { IfOk result (λ m. move_of m ≡ first_case_of lines) }
{
    match lines.first() {
        None => Ok(Step::Fail),
        Some((line, rest)) => {
            if line.level == 1 {
                Cases::none(alloc).case_line(alloc, line, rest)
            } else {
                Ok(Step::Fail)
            }
        }
    }
}

/// What is read next, by the line that stands there.
pub fn production(alloc: Global, sort: Sort, lines: Lines) -> Result<Step, NoMemory>
    ensures { IfOk result (λ m. move_of m ≡ production_of sort lines) }
{
    match sort {
        Sort::Item(items) => items.item(alloc, lines),
        Sort::After(items, item) => items.after_group(alloc, item, lines),
        Sort::FirstCase => first_case(alloc, lines),
        Sort::Case(cases) => cases.next_case(alloc, lines),
        Sort::Wrong => Ok(Step::Fail),
    }
}

/// What is read next, once the group of a frame was read.
pub fn resume(alloc: Global, names: &Names, frame: Frame, group: Group) -> Result<Sort, NoMemory>
    ensures { IfOk result (λ s. s ≡ resume_of names.now frame group) }
{
    match frame {
        Frame::Head(items, number, head) => {
            if head.takes(group.joint) {
                let item = head.over(alloc, names, number, group.said)?;
                Ok(Sort::After(items, item))
            } else {
                Ok(Sort::Wrong)
            }
        }
        Frame::Case(cases, value) => Ok(Sort::Case(cases.with(value, group.said)?)),
    }
}
