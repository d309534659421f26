// The outside in memory and of the system; texts, lists and boxes.
use opa_io::{
    Boxed, FileShelf, List, MemShelf, Same, Shelf, Sink, Source, Status, StdSink, StdSource,
    TakeFault, Txt, front, write_all_of,
};
use std::cmp::Ordering;
use std::test::Fail;

#[test]
fn a_reader_is_a_source(rt: HostRuntime) -> Result<(), Fail> {
    let mut source = StdSource::new(b"abc".as_slice());
    let mut buf = [0; 2];
    assert_eq!(rt; source.read(&mut buf), Ok(2));
    assert_eq!(rt; buf, [b'a', b'b']);
    assert_eq!(rt; source.read(&mut buf), Ok(1));
    assert_eq!(rt; buf[0], b'c');
    assert_eq!(rt; source.read(&mut buf), Ok(0));
    Ok(())
}

#[test]
fn a_writer_is_a_sink(rt: HostRuntime) -> Result<(), Fail> {
    let mut sink = StdSink::new(rt.stdout());
    assert_eq!(rt; sink.write(b""), Ok(0));
    assert_eq!(rt; write_all_of(&mut sink, b"written\n"), Ok(()));
    Ok(())
}

#[test]
fn files_are_a_shelf(rt: HostRuntime) -> Result<(), Fail> {
    let alloc = rt.alloc();
    let mut shelf = FileShelf::new(&rt);
    assert_eq!(rt; shelf.keep("kept.txt", b"longer"), Ok(()));
    assert_eq!(rt; shelf.keep("kept.txt", b"abc"), Ok(()));
    assert!(rt;
        matches!(
            shelf.take(alloc, "kept.txt.opa-saving", 3),
            Err(TakeFault::Missing)
        )
    );
    assert_eq!(rt; shelf.keep("/dev/null", b"abc"), Ok(()));
    assert_eq!(rt;
        shelf.keep("no such folder/kept.txt", b"abc").is_err(),
        true
    );
    let taken = shelf.take(alloc, "kept.txt", 3);
    assert_eq!(rt;
        taken.is_ok_and(|bytes| bytes.as_slice() == b"abc".as_slice()),
        true
    );
    assert!(rt; matches!(shelf.take(alloc, "kept.txt", 2), Err(TakeFault::TooLong)));
    assert!(rt; matches!(shelf.take(alloc, ".", 3), Err(TakeFault::Failed)));
    assert!(rt;
        matches!(
            shelf.take(alloc, "no such file.txt", 3),
            Err(TakeFault::Missing)
        )
    );
    Ok(())
}

#[test]
fn a_shelf_in_memory(rt: HostRuntime) -> Result<(), Fail> {
    let alloc = rt.alloc();
    let none = Vec::new(alloc);
    let mut shelf = MemShelf::new(alloc, Vec::new(alloc), none, vec![in alloc; 1]?);
    assert_eq!(rt; shelf.keep("a", b"first").is_err(), true);
    assert_eq!(rt; shelf.file("a"), None);
    assert_eq!(rt; shelf.keep("a", b"second"), Ok(()));
    assert_eq!(rt; shelf.keep("a", b"third"), Ok(()));
    assert_eq!(rt;
        shelf
            .file("a")
            .is_some_and(|bytes| bytes == b"third".as_slice()),
        true
    );
    Ok(())
}

#[test]
fn texts_lists_and_boxes(rt: HostRuntime) -> Result<(), Fail> {
    let alloc = rt.alloc();
    let text = Txt::from_str(alloc, "a text")?;
    assert_eq!(rt; text.as_str(), "a text");
    assert_eq!(rt; Txt::from_bytes(alloc, b"\xff")?.is_none(), true);
    let mut list = List::new(alloc);
    list.push(7u32)?;
    let other = List::from_vec(vec![in alloc; 7u32]?);
    assert_eq!(rt; list.same(&other), true);
    list.push(8)?;
    assert_eq!(rt; list.same(&other), false);
    assert_eq!(rt; list.as_slice().len(), 2);
    assert_eq!(rt; list.into_vec().len(), 2);
    let boxed = Boxed::new(alloc, 5u32)?;
    assert_eq!(rt; *boxed.get(), 5);
    assert_eq!(rt; boxed.into_inner(), 5);
    assert_eq!(rt; Status::InputLimit.number(), 6);
    Ok(())
}

#[test]
fn ends_of_lists_and_the_order_of_texts(rt: HostRuntime) -> Result<(), Fail> {
    let alloc = rt.alloc();
    let mut list = List::new(alloc);
    list.push(7u32)?;
    list.push(8)?;
    assert_eq!(rt; list.len(), 2);
    assert_eq!(rt; front(list.as_slice()).map(|parts| *parts.0), Some(7));
    assert_eq!(rt; list.pop(), Some(8));
    assert_eq!(rt; list.pop(), Some(7));
    assert_eq!(rt; list.pop(), None);
    assert_eq!(rt; front(list.as_slice()).is_none(), true);
    let text = Txt::from_str(alloc, "Ben")?;
    let longer = Txt::from_str(alloc, "Benno")?;
    assert_eq!(rt; text.copy(alloc)? == text, true);
    assert_eq!(rt; text.cmp(&longer), Ordering::Less);
    assert_eq!(rt; longer.partial_cmp(&text), Some(Ordering::Greater));
    Ok(())
}
