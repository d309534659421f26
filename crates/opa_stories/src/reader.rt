// Reads stories.
use crate::numbers::number;
use crate::spelled::add_spelled;
use crate::story::{Failing, Fault, Story, StoryFile};
use opa_io::Shelf;
use std::alloc::Global;

/// How many bytes a file that a story puts on the shelf by its name has at most.
const MOST: u64 = 1_048_576;

/// Where the next lines of text belong.
#[derive(Clone, Copy, Debug, Drop)]
enum Part {
    Nothing,
    Shelf,
    Input,
    Prints,
    After,
}

/// A story as far as it is read.
#[derive(Drop)]
struct Reading {
    story: Story,
    part: Part,
}

/// Adds bytes to the last of the files. Answers whether there is one.
fn add_to_last(files: &mut Vec<StoryFile>, bytes: &[u8]) -> Result<bool, Fault> {
    let Some(file) = files.last_mut() else {
        return Ok(false);
    };
    file.bytes.extend_from_slice(bytes)?;
    Ok(true)
}

/// Adds bytes where they belong. Answers whether they belong anywhere.
fn add(reading: &mut Reading, bytes: &[u8]) -> Result<bool, Fault> {
    match reading.part {
        Part::Nothing => Ok(false),
        Part::Shelf => add_to_last(&mut reading.story.shelf, bytes),
        Part::After => add_to_last(&mut reading.story.after, bytes),
        Part::Input => {
            reading.story.input.extend_from_slice(bytes)?;
            Ok(true)
        }
        Part::Prints => {
            let Some(prints) = reading.story.prints.as_mut() else {
                return Ok(false);
            };
            prints.extend_from_slice(bytes)?;
            Ok(true)
        }
    }
}

/// A line of text: whether it is spelled shorter than it is, whether a line feed follows it, and its text.
#[derive(Drop)]
struct TextLine<'a> {
    is_spelled: bool,
    ends: bool,
    text: &'a str,
}

/// The line of text, where the line is one: `| text`, `% text`, or `- text` without a line feed behind it.
fn text_line(line: &str) -> Option<TextLine<'_>> {
    let (is_spelled, ends, text) = match line.as_bytes().first()? {
        b'|' => (false, true, line.strip_prefix('|')?),
        b'%' => (true, true, line.strip_prefix('%')?),
        b'-' => (true, false, line.strip_prefix('-')?),
        _ => return None,
    };
    let text = text.strip_prefix(' ').unwrap_or(text);
    Some(TextLine {
        is_spelled,
        ends,
        text,
    })
}

/// Adds a line of text so many times. Answers whether it has a meaning.
fn add_line(
    alloc: Global,
    reading: &mut Reading,
    times: u64,
    line: TextLine<'_>,
) -> Result<bool, Fault> {
    let mut bytes = Vec::new(alloc);
    for turn in 0..times {
        bytes.clear();
        if !line.is_spelled {
            bytes.extend_from_slice(line.text.as_bytes())?;
        } else if !add_spelled(alloc, &mut bytes, line.text, turn.saturating_add(1))? {
            return Ok(false);
        }
        if line.ends {
            bytes.extend_from_slice(b"\n")?;
        }
        if !add(reading, &bytes)? {
            return Ok(false);
        }
    }
    Ok(true)
}

/// The words that blanks part.
fn words(alloc: Global, rest: &str) -> Result<Vec<String>, Fault> {
    let mut found = Vec::new(alloc);
    for word in rest.split_whitespace() {
        found.push(String::from_str(alloc, word)?)?;
    }
    Ok(found)
}

/// The numbers that blanks part; none where one is no number.
fn numbers(alloc: Global, rest: &str) -> Result<Option<Vec<u64>>, Fault> {
    let mut found = Vec::new(alloc);
    for word in rest.split_whitespace() {
        let Some(value) = number(word) else {
            return Ok(None);
        };
        found.push(value)?;
    }
    Ok(Some(found))
}

/// Begins a file of this name.
fn begin(alloc: Global, files: &mut Vec<StoryFile>, name: &str) -> Result<(), Fault> {
    let name = String::from_str(alloc, name)?;
    files.push(StoryFile {
        name,
        bytes: Vec::new(alloc),
    })?;
    Ok(())
}

/// The bytes of a file of the data.
fn taken<F: Shelf>(alloc: Global, shelf: &mut F, path: &str) -> Result<Vec<u8>, Fault> {
    match shelf.take(alloc, path, MOST) {
        Ok(bytes) => Ok(bytes),
        Err(_) => Err(Fault::Missing),
    }
}

/// The bytes of a file of the data; none where no path is given.
fn given<F: Shelf>(alloc: Global, shelf: &mut F, path: &str) -> Result<Vec<u8>, Fault> {
    if path.is_empty() {
        return Ok(Vec::new(alloc));
    }
    taken(alloc, shelf, path)
}

/// Takes a file of the data into the story's shelf, under its last name.
fn take<F: Shelf>(
    alloc: Global,
    shelf: &mut F,
    story: &mut Story,
    path: &str,
) -> Result<(), Fault> {
    let bytes = taken(alloc, shelf, path)?;
    let name = match path.rsplit_once('/') {
        Some((_, name)) => name,
        None => path,
    };
    let name = String::from_str(alloc, name)?;
    story.shelf.push(StoryFile { name, bytes })?;
    Ok(())
}

/// Reads which calls fail. Answers whether the heading and its numbers have a meaning.
fn read_failing(
    alloc: Global,
    failing: &mut Failing,
    heading: &str,
    rest: &str,
) -> Result<bool, Fault> {
    let Some(calls) = numbers(alloc, rest)? else {
        return Ok(false);
    };
    match heading {
        "failing reads" => failing.reads = calls,
        "failing writes" => failing.writes = calls,
        "failing takes" => failing.takes = calls,
        "failing keeps" => failing.keeps = calls,
        _ => return Ok(false),
    }
    Ok(true)
}

/// Reads a number that a heading gives. Answers whether it has a meaning.
fn read_number(story: &mut Story, heading: &str, rest: &str) -> bool {
    let Some(value) = number(rest) else {
        return false;
    };
    match heading {
        "status" => story.status = value,
        "watched" => story.watched = u32::try_from(value).unwrap_or(u32::MAX),
        "refuses" => story.refuses = u32::try_from(value).unwrap_or(u32::MAX),
        "bytes a read" => story.read = usize::try_from(value).unwrap_or(usize::MAX),
        "bytes a write" => story.written = usize::try_from(value).unwrap_or(usize::MAX),
        _ => return false,
    }
    true
}

/// Reads a heading that lines of text follow. Answers which part they belong to, where it is one.
fn read_part<F: Shelf>(
    alloc: Global,
    shelf: &mut F,
    story: &mut Story,
    heading: &str,
    rest: &str,
) -> Result<Option<Part>, Fault> {
    match heading {
        "file" => {
            begin(alloc, &mut story.shelf, rest)?;
            Ok(Some(Part::Shelf))
        }
        "after" => {
            begin(alloc, &mut story.after, rest)?;
            Ok(Some(Part::After))
        }
        "input" => {
            story.input = given(alloc, shelf, rest)?;
            Ok(Some(Part::Input))
        }
        "prints" => {
            story.prints = Some(given(alloc, shelf, rest)?);
            Ok(Some(Part::Prints))
        }
        _ => Ok(None),
    }
}

/// Reads a heading and what stands behind it. Answers whether it has a meaning.
fn read_heading<F: Shelf>(
    alloc: Global,
    shelf: &mut F,
    reading: &mut Reading,
    heading: &str,
    rest: &str,
) -> Result<bool, Fault> {
    if let Some(part) = read_part(alloc, shelf, &mut reading.story, heading, rest)? {
        reading.part = part;
        return Ok(true);
    }
    reading.part = Part::Nothing;
    match heading {
        "words" => reading.story.words = words(alloc, rest)?,
        "shelf" => {
            for path in rest.split_whitespace() {
                take(alloc, shelf, &mut reading.story, path)?;
            }
        }
        "gone" => reading.story.gone.push(String::from_str(alloc, rest)?)?,
        "status" | "watched" | "refuses" | "bytes a read" | "bytes a write" => {
            return Ok(read_number(&mut reading.story, heading, rest));
        }
        _ => return read_failing(alloc, &mut reading.story.failing, heading, rest),
    }
    Ok(true)
}

/// Reads a line. Answers whether it is one of a story.
fn read_line<F: Shelf>(
    alloc: Global,
    shelf: &mut F,
    reading: &mut Reading,
    line: &str,
) -> Result<bool, Fault> {
    if line.is_empty() || line.starts_with('#') {
        return Ok(true);
    }
    if let Some(text) = text_line(line) {
        return add_line(alloc, reading, 1, text);
    }
    if let Some((times, rest)) = line.split_once(" times ")
        && let Some(times) = number(times)
    {
        return match text_line(rest) {
            Some(text) => add_line(alloc, reading, times, text),
            None => Ok(false),
        };
    }
    let Some((heading, rest)) = line.split_once(':') else {
        return Ok(false);
    };
    read_heading(alloc, shelf, reading, heading, rest.trim())
}

/// Reads the lines of a story, which must say what is printed.
fn read_lines<F: Shelf>(
    alloc: Global,
    shelf: &mut F,
    reading: &mut Reading,
    text: &str,
) -> Result<(), Fault> {
    let mut number = 0u64;
    for line in text.split('\n') {
        number = number.saturating_add(1);
        if !read_line(alloc, shelf, reading, line)? {
            return Err(Fault::Line(number));
        }
    }
    if reading.story.prints.is_none() {
        return Err(Fault::Line(0));
    }
    Ok(())
}

/// The story that a file's bytes tell.
pub fn read_story<F: Shelf>(alloc: Global, shelf: &mut F, bytes: &[u8]) -> Result<Story, Fault> {
    let Ok(text) = str::from_utf8(bytes) else {
        return Err(Fault::Line(1));
    };
    let mut reading = Reading {
        story: Story::new(alloc),
        part: Part::Nothing,
    };
    match read_lines(alloc, shelf, &mut reading, text) {
        Ok(()) => Ok(reading.story),
        Err(fault) => {
            drop(reading);
            Err(fault)
        }
    }
}
