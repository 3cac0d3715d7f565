// What no clause says, and no text in memory shows: that a list goes through its calls, and what the system's edge gives
// and takes.
use super::*;
use std::alloc::{Allocator, Global};
use std::fmt::Display;
use std::fs;
use std::io::{self, BufRead, Lines};
use std::test::Fail;

// Whether the source gives just this text.
fn gives<S: Source>(alloc: Global, source: &mut S, text: &[u8]) -> Result<bool, ReadFault> {
    match read_all(alloc, source, text.len())? {
        Whole::Bytes(bytes) => Ok(bytes.as_slice() == text),
        Whole::Longer => Ok(false),
    }
}

#[test]
fn keeps_a_list(rt: HostRuntime) -> Result<(), Fail> {
    let alloc = rt.alloc();
    let mut list = List::new(alloc);
    assert!(rt; list.is_empty() && list.pop().is_none());
    list.append(b"hello")?;
    list.push(b'!')?;
    list.set(0, b'j');
    assert_eq!(rt; list.as_slice(), b"jello!".as_slice());
    assert!(rt; list == list.clone()?);
    list.truncate(9);
    assert_eq!(rt; list.len(), 6);
    list.truncate(2);
    assert_eq!(rt; list.pop(), Some(b'e'));
    assert_eq!(rt; list.as_slice(), b"j".as_slice());
    Ok(())
}

// A terminal at which a text was typed, and which takes at most two bytes a call, or none.
#[derive(Clone, Copy)]
struct Terminal {
    takes: bool,
}

impl Input for Terminal {
    type Reader = &'static [u8];

    fn read_line<A: Allocator + Clone>(&self, buf: &mut String<A>) -> io::Result<usize> {
        self.reader().read_line(buf)
    }

    fn lines<A: Allocator>(&self, alloc: A) -> Lines<&'static [u8], A> {
        self.reader().lines(alloc)
    }

    fn reader(&self) -> &'static [u8] {
        b"typed"
    }
}

impl Print for Terminal {
    fn print<D: Display + Drop>(&self, _: D) -> io::Result<()> {
        Ok(())
    }

    fn println<D: Display + Drop>(&self, _: D) -> io::Result<()> {
        Ok(())
    }

    fn write_all(&self, _: &[u8]) -> io::Result<()> {
        Ok(())
    }

    fn write_some(&self, bytes: &[u8]) -> io::Result<usize> {
        Ok(if self.takes { bytes.len().min(2) } else { 0 })
    }
}

#[test]
fn passes_the_streams_on(rt: HostRuntime) -> Result<(), Fail> {
    let terminal = Terminal { takes: true };
    assert!(rt; gives(rt.alloc(), &mut StdSource::new(&terminal), b"typed")?);
    assert!(rt; write_all(&mut StdSink::new(&terminal), b"printed").is_ok());
    assert!(rt; write_all(&mut StdSink::new(&rt), b"printed\n").is_ok());
    let full = Terminal { takes: false };
    assert_eq!(rt;
        write_all(&mut StdSink::new(&full), b"printed"),
        Err(Failed)
    );
    assert!(rt; write_all(&mut StdSink::new(&full), b"").is_ok());
    Ok(())
}

#[test]
fn reads_files(rt: HostRuntime) -> Result<(), Fail> {
    let alloc = rt.alloc();
    let path = "qm_io_reads_files";
    let mut missing = FileSource::new(&rt, String::from_str(alloc, path)?);
    assert!(rt; matches!(read_all(alloc, &mut missing, 9), Err(ReadFault::Read)));
    fs::write(&rt, path, "on disk")?;
    let found = gives(alloc, &mut missing, b"on disk");
    fs::remove_file(&rt, path)?;
    assert!(rt; found?);
    let mut unnamed = FileSource::new(&rt, String::new(alloc));
    assert!(rt; matches!(read_all(alloc, &mut unnamed, 9), Err(ReadFault::Read)));
    Ok(())
}
