//! What no contract says: that the calls succeed, and what the adapters do over files and writers.

ghost use Rattle.std.specs.Prelude.{None};

use fib_io::{
    ByName, FileInputs, FlushWrite, InFault, Inputs, MemInputs, MemSink, OutFault, Sink, StdSink,
    SureInputs, SureSink, write_all,
};
use std::alloc::Global;
use std::cell::Cell;
use std::fs::{self, File};
use std::io::{self, ErrorKind, Write};
use std::test::Fail;

/// A writer that takes `most` octets at most and counts them, and whose flush may fail.
#[derive(Drop)]
struct Pipe<'a> {
    most: usize,
    is_broken: bool,
    taken: &'a Cell<usize>,
}

impl Write for Pipe<'_> {
    fn write(&mut self, piece: &[u8]) -> io::Result<usize> {
        let n = self.most.min(piece.len());
        self.taken.set(self.taken.get().saturating_add(n));
        Ok(n)
    }

    fn flush(&mut self) -> io::Result<()> {
        if self.is_broken {
            Err(ErrorKind::BrokenPipe.into())
        } else {
            Ok(())
        }
    }
}

impl FlushWrite for Pipe<'_> {
    ghost flushed = { λ _. None };

    fn flush_all(&mut self) -> io::Result<()> {
        self.flush()
    }
}

/// A system that opens nothing, always for this reason.
#[derive(Drop)]
struct Closed {
    why: ErrorKind,
}

impl ByName for Closed {
    type Reader = File;

    ghost content = { λ _ _. None };

    ghost opened = { λ _. None };

    fn open(&mut self, _name: &str) -> io::Result<File> {
        Err(self.why.into())
    }
}

/// Two pairs with one name.
fn names_of(alloc: Global) -> Result<Vec<(String, Vec<u8>)>, Fail> {
    let mut names = Vec::new(alloc);
    for octets in [b"hello", b"other"] {
        let name = String::from_str(alloc, "dump")?;
        names.push((name, Vec::from_slice(alloc, octets)?))?;
    }
    Ok(names)
}

#[test]
fn reads_by_name_and_place(rt: HostRuntime) -> Result<(), Fail> {
    let alloc = rt.alloc();
    let mut inputs = MemInputs::new(names_of(alloc)?, vec![in alloc; 2]?);
    let mut buf = [0u8; 4];
    for (case, name, at, due, held) in [
        ("the front", "dump", 0, Ok(4), b"hell"),
        ("the second read", "dump", 4, Err(InFault::Failed), b"hell"),
        ("the last octet", "dump", 4, Ok(1), b"oell"),
        ("the end", "dump", 5, Ok(0), b"oell"),
        ("past the end", "dump", u64::MAX, Ok(0), b"oell"),
        ("no such name", "asks", 0, Err(InFault::Failed), b"oell"),
    ] {
        assert!(rt; inputs.read(name, at, &mut buf) == due, "{case}");
        assert!(rt; &buf == held, "{case}");
    }
    inputs.at_most(3);
    assert!(rt; inputs.read("dump", 1, &mut buf) == Ok(3));
    assert!(rt; &buf == b"elll", "three octets and no more");

    let mut sure = SureInputs::new(names_of(alloc)?);
    for (name, at, due) in [("dump", 1, Ok(4)), ("asks", 0, Ok(0))] {
        assert!(rt; sure.read(name, at, &mut buf) == due, "{name}");
        assert!(rt; &buf == b"ello", "{name}");
    }
    Ok(())
}

#[test]
fn writes_what_fits(rt: HostRuntime) -> Result<(), Fail> {
    let alloc = rt.alloc();
    let mut sink = MemSink::new(alloc, 4, vec![in alloc; 2]?)?;
    let writes: [(&str, &[u8], Result<usize, OutFault>); 5] = [
        ("all of it", b"ab", Ok(2)),
        ("the second write", b"xy", Err(OutFault)),
        ("two octets fit", b"cdef", Ok(2)),
        ("nothing", b"", Ok(0)),
        ("no room", b"ef", Err(OutFault)),
    ];
    for (case, piece, due) in writes {
        assert!(rt; sink.write(piece) == due, "{case}");
    }
    assert!(rt; sink.written() == b"abcd".as_slice());
    assert!(rt; write_all(&mut SureSink::new(), b"abcdef") == Ok(()));
    Ok(())
}

#[test]
fn writes_on_after_a_part(rt: HostRuntime) -> Result<(), Fail> {
    let alloc = rt.alloc();
    for (most, taken) in [(1, 1), (3, 3)] {
        let mut sink = MemSink::new(alloc, 4, Vec::new(alloc))?;
        sink.at_most(most);
        assert!(rt; sink.write(b"abcdef") == Ok(taken));
        assert!(rt; write_all(&mut sink, b"bcdef") == Err(OutFault));
        assert_eq!(rt; sink.written().len(), 4);
    }
    Ok(())
}

#[test]
fn memory_that_is_wanting_is_no_failed_read(rt: HostRuntime) -> Result<(), Fail> {
    for (why, due) in [
        (ErrorKind::OutOfMemory, InFault::NoMemory),
        (ErrorKind::NotFound, InFault::Failed),
    ] {
        let mut inputs = FileInputs::over(rt.alloc(), Closed { why });
        assert!(rt; inputs.read("dump", 0, &mut [0u8; 4]) == Err(due));
    }
    Ok(())
}

#[test]
fn adapters_keep_files_open_and_count_faults(rt: HostRuntime) -> Result<(), Fail> {
    let mut inputs = FileInputs::new(rt.alloc(), &rt);
    let mut buf = [0u8; 4];
    fs::write(&rt, "hello.txt", "hello")?;
    assert!(rt; inputs.read("hello.txt", 2, &mut buf) == Ok(3));
    assert!(rt; &buf == b"llo\0");

    // another file takes its place under that name
    fs::write(&rt, "other.txt", "other")?;
    fs::rename(&rt, "other.txt", "hello.txt")?;
    for (case, name, at, due, held) in [
        ("the file that was opened", "hello.txt", 0, Ok(4), b"hell"),
        ("the end", "hello.txt", 5, Ok(0), b"hell"),
        (
            "no such file",
            "other.txt",
            0,
            Err(InFault::Failed),
            b"hell",
        ),
        ("a folder", "/", 0, Err(InFault::Failed), b"hell"),
    ] {
        assert!(rt; inputs.read(name, at, &mut buf) == due, "{case}");
        assert!(rt; &buf == held, "{case}");
    }

    for (most, is_broken, due, octets) in [
        (4, false, Ok(()), 6),
        (4, true, Err(OutFault), 4),
        (0, false, Err(OutFault), 0),
    ] {
        let taken = Cell::new(0);
        let mut sink = StdSink::new(Pipe {
            most,
            is_broken,
            taken: &taken,
        });
        assert!(rt; write_all(&mut sink, b"abcdef") == due);
        assert_eq!(rt; taken.get(), octets);
    }
    Ok(())
}
