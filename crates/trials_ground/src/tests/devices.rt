use outside::{FileShelf, Got, MemShelf, MemSink, Shelf, ShelfFault, Sink, SinkFault, StdSink};
use std::alloc::Global;
use std::cell::RefCell;
use std::fmt::Display;
use std::test::Fail;
use std::{fs, io};

// What a read answers, and whether it gave this content.
fn read_of<S: Shelf>(
    alloc: Global,
    shelf: &mut S,
    limit: u64,
    content: &[u8],
) -> (Result<Got, ShelfFault>, bool) {
    let mut out = Vec::new(alloc);
    let result = shelf.read(alloc, "names", limit, &mut out);
    (result, out.as_slice() == content)
}

#[test]
fn a_file_is_read_whole_up_to_its_length(rt: HostRuntime) -> Result<(), Fail> {
    let alloc = rt.alloc();
    let mut shelf = FileShelf::new(alloc, &rt);
    assert!(rt; read_of(alloc, &mut shelf, 20_000, b"") == (Err(ShelfFault::Failed), true));
    // longer than what one turn takes
    let content = vec![in alloc; b'x'; 20_000]?;
    fs::write(&rt, "names", content.as_slice())?;
    assert!(rt; read_of(alloc, &mut shelf, 19_999, b"") == (Ok(Got::TooLong), true));
    assert!(rt; read_of(alloc, &mut shelf, 20_000, &content) == (Ok(Got::Whole), true));
    fs::remove_file(&rt, "names")?;
    Ok(())
}

// A printer with room for five bytes, which takes up to three at a time.
#[derive(Drop)]
struct Page {
    bytes: RefCell<Vec<u8>>,
}

impl Print for Page {
    fn print<D: Display + Drop>(&self, _value: D) -> io::Result<()> {
        Ok(())
    }

    fn println<D: Display + Drop>(&self, _value: D) -> io::Result<()> {
        Ok(())
    }

    fn write_all(&self, _bytes: &[u8]) -> io::Result<()> {
        Ok(())
    }

    fn write_some(&self, bytes: &[u8]) -> io::Result<usize> {
        let Ok(mut page) = self.bytes.try_borrow_mut() else {
            return Ok(0);
        };
        let room = 5_usize.saturating_sub(page.len());
        let count = bytes.len().min(3).min(room);
        page.extend_from_slice(&bytes[..count])?;
        Ok(count)
    }
}

#[test]
fn a_printer_is_handed_each_piece(rt: HostRuntime) -> Result<(), Fail> {
    let page = Page {
        bytes: RefCell::new(Vec::new(rt.alloc())),
    };
    let mut sink = StdSink::new(&page);
    assert!(rt; sink.write(b"abcd") == Ok(3));
    assert!(rt; sink.write(b"def") == Ok(2));
    assert!(rt; sink.write(b"f") == Err(SinkFault));
    assert!(rt;
        matches!(page.bytes.try_borrow(), Ok(bytes) if bytes.as_slice() == b"abcde".as_slice())
    );
    assert!(rt; matches!(StdSink::new(&rt).write(b"a,b\n"), Ok(1..=4)));
    Ok(())
}

#[test]
fn devices_in_memory_do_as_they_are_set(rt: HostRuntime) -> Result<(), Fail> {
    let alloc = rt.alloc();
    let mut shelf = MemShelf::new(alloc);
    shelf.put("names", b"old")?;
    shelf.put("names", b"news")?;
    shelf.fail_at(2)?;
    assert!(rt; read_of(alloc, &mut shelf, 3, b"") == (Ok(Got::TooLong), true));
    assert!(rt; read_of(alloc, &mut shelf, 4, b"") == (Err(ShelfFault::Failed), true));
    assert!(rt; read_of(alloc, &mut shelf, 4, b"news") == (Ok(Got::Whole), true));

    let mut sink = MemSink::new(alloc, 5, 3)?;
    sink.fail_at(2)?;
    assert!(rt; sink.write(b"abcd") == Ok(3));
    assert!(rt; sink.write(b"d") == Err(SinkFault));
    assert!(rt; sink.write(b"def") == Ok(2));
    assert!(rt; sink.write(b"f") == Err(SinkFault));
    assert!(rt; sink.bytes() == b"abcde".as_slice());
    Ok(())
}
