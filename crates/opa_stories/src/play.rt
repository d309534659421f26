// Plays a story: the public call over a shelf, a source and a sink in memory.
ghost use Rattle.std.specs.Prelude.{◌≡◌, ◌<◌, ◌^◌, length};

use crate::story::{Fault, Story, StoryFile};
use opa_desk::desk;
use opa_io::{List, MemShelf, MemSink, MemSource, NoMemory, Shelf, Sink, Source, Status, Steps};
use opa_listen::{Journal, Listener, Watch};
use opa_model::AttrId;
use opa_top::run;
use std::alloc::Global;
use std::marker::Brand;
use std::sync::ledger::{Blank, Ledger};
use tests_listen::Fussy;

/// What a run did otherwise than its story says.
#[derive(Drop)]
pub enum Difference {
    Status(u8),
    Prints(Vec<u8>),
    After(String),
    Gone(String),
}

/// The files, as a shelf in memory has them.
fn held(alloc: Global, files: &[StoryFile]) -> Result<Vec<(String, Vec<u8>)>, Fault> {
    let mut held = Vec::new(alloc);
    for file in files {
        let name = String::from_str(alloc, file.name.as_str())?;
        held.push((name, file.bytes.as_slice().to_vec(alloc)?))?;
    }
    Ok(held)
}

/// The first file that isn't as it must be afterwards.
fn other_file(alloc: Global, story: &Story, shelf: &MemShelf) -> Result<Option<Difference>, Fault> {
    for file in story.after.as_slice() {
        if shelf
            .file(file.name.as_str())
            .is_none_or(|bytes| bytes != file.bytes.as_slice())
        {
            return Ok(Some(Difference::After(String::from_str(alloc, file.name.as_str())?)));
        }
    }
    for name in story.gone.as_slice() {
        if shelf.file(name.as_str()).is_some() {
            return Ok(Some(Difference::Gone(String::from_str(alloc, name.as_str())?)));
        }
    }
    Ok(None)
}

/// A watch on one attribute.
fn watch(alloc: Global, attribute: u32) -> Result<Watch, NoMemory> {
    let mut attrs = List::new(alloc);
    attrs.push(AttrId(attribute))?;
    Ok(Watch::new(alloc, attrs))
}

/// Does what the words ask for, of the program that the first of them names.
fn status_of<S: Source, F: Shelf, K: Sink, L: Ledger>(
    alloc: Global,
    words: &[String],
    shelf: &mut F,
    source: &mut S,
    sink: &mut K,
    listeners: &mut Vec<Box<dyn Listener>>,
    steps: &mut Steps<L>,
) -> Status
    requires fewer { length listeners.old.items < 2 ^ 64 }
{
    if words.first().is_some_and(|name| name.as_str() == "desk") {
        desk(alloc, words, shelf, source, sink, steps)
    } else {
        run(alloc, words, shelf, source, sink, listeners, steps)
    }
}

/// The shelf of a story.
fn shelf_of(alloc: Global, story: &Story) -> Result<MemShelf, Fault> {
    let files = held(alloc, &story.shelf)?;
    let takes = story.failing.takes.as_slice().to_vec(alloc)?;
    let keeps = story.failing.keeps.as_slice().to_vec(alloc)?;
    Ok(MemShelf::new(alloc, files, takes, keeps))
}

/// The input of a story.
fn source_of(alloc: Global, story: &Story) -> Result<MemSource, Fault> {
    let input = story.input.as_slice().to_vec(alloc)?;
    let reads = story.failing.reads.as_slice().to_vec(alloc)?;
    Ok(MemSource::new(input, reads, story.read.max(1)))
}

/// What takes the output of a story.
fn sink_of(alloc: Global, story: &Story) -> Result<MemSink, Fault> {
    let writes = story.failing.writes.as_slice().to_vec(alloc)?;
    Ok(MemSink::new(alloc, writes, story.written.max(1)))
}

/// What a run did otherwise than its story says.
fn what_differs(
    alloc: Global,
    story: &Story,
    status: u8,
    printed: &[u8],
    shelf: &MemShelf,
) -> Result<Option<Difference>, Fault> {
    if u64::from(status) != story.status {
        return Ok(Some(Difference::Status(status)));
    }
    if story
        .prints
        .as_ref()
        .is_none_or(|prints| prints.as_slice() != printed)
    {
        return Ok(Some(Difference::Prints(printed.to_vec(alloc)?)));
    }
    other_file(alloc, story, shelf)
}

/// Runs what the story asks for on its shelf, with its steps on a ledger of its own.
fn counted<L: Ledger>(
    alloc: Global,
    blank: Blank,
    story: &Story,
    shelf: &mut MemShelf,
    source: &mut MemSource,
    sink: &mut MemSink,
    listeners: &mut Vec<Box<dyn Listener>>,
) -> Status
    requires name { blank.name ≡ L.name }
    requires parts { blank.parts ≡ L.parts }
    requires some { 0 < blank.parts }
{
    let mut steps: Steps<L> = Steps::open(blank);
    // The count shows that there are fewer than 2^64.
    let _count = listeners.len();
    status_of(
        alloc,
        &story.words,
        shelf,
        source,
        sink,
        listeners,
        &mut steps,
    )
}

/// Plays a story on its shelf, over its input. A journal of all changes, a watch on one attribute, and one that wants memory listen.
fn played(
    alloc: Global,
    story: &Story,
    shelf: &mut MemShelf,
    source: &mut MemSource,
    sink: &mut MemSink,
) -> Result<Option<Difference>, Fault> {
    let mut listeners: Vec<Box<dyn Listener>> = Vec::new(alloc);
    listeners.push(Box::new(alloc, Journal::new(alloc))?)?;
    let watch = watch(alloc, story.watched)?;
    listeners.push(Box::new(alloc, watch)?)?;
    if story.refuses > 0 {
        listeners.push(Box::new(alloc, Fussy::new(alloc, story.refuses, 1))?)?;
    }
    let blank = Blank::new(1);
    let status = counted::<Brand>(alloc, blank, story, shelf, source, sink, &mut listeners);
    what_differs(alloc, story, status.number(), sink.bytes(), shelf)
}

/// Runs what the story asks for. Answers what differs, where something does.
pub fn play(alloc: Global, story: &Story) -> Result<Option<Difference>, Fault> {
    let mut shelf = shelf_of(alloc, story)?;
    let mut source = source_of(alloc, story)?;
    let mut sink = sink_of(alloc, story)?;
    played(alloc, story, &mut shelf, &mut source, &mut sink)
}
