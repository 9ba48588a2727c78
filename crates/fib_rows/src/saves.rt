//! Printed texts that are compared, and checkpoints.

use crate::harness::{Rows, octets_of, push_hex, text_of, words_of};
use crate::records::{GONE_AND_BACK, PEERS, TEN};
use crate::texts::{ROWS_OF_REPAIR, ROWS_OF_SNAPSHOT};
use fib_io::{MemInputs, MemSink};
use fib_main::run_fib;
use std::alloc::Global;
use std::process::Abort;
use std::test::Fail;

/// What is written, and how it ends.
#[derive(Drop)]
pub(crate) struct Written {
    pub(crate) status: u8,
    pub(crate) out: MemSink,
    pub(crate) err: MemSink,
}

/// Runs on inputs of these names.
pub(crate) fn run_on(
    alloc: Global,
    words: &[&str],
    names: Vec<(String, Vec<u8>)>,
) -> Result<Written, Fail> {
    let words = words_of(alloc, words)?;
    let mut inputs = MemInputs::new(names, Vec::new(alloc));
    let mut out = MemSink::new(alloc, 10_000, Vec::new(alloc))?;
    let mut err = MemSink::new(alloc, 100, Vec::new(alloc))?;
    let outcome = run_fib(alloc, &words, &mut inputs, &mut out, &mut err);
    Ok(Written {
        status: outcome.status(),
        out,
        err,
    })
}

/// Adds an input.
pub(crate) fn add_input(
    alloc: Global,
    names: &mut Vec<(String, Vec<u8>)>,
    name: &str,
    octets: &[u8],
) -> Result<(), Fail> {
    names.push((
        String::from_str(alloc, name)?,
        Vec::from_slice(alloc, octets)?,
    ))?;
    Ok(())
}

/// What comparing texts comes to: the words, the status, the row and the line.
#[derive(Clone, Copy)]
struct Compared<'a> {
    words: &'a [&'a str],
    status: u8,
    out: &'a [u8],
    err: &'a [u8],
}

const ALIKE: Compared<'static> = Compared {
    words: &["fib", "same", "whole", "whole"],
    status: 0,
    out: b"alike\n",
    err: b"",
};

/// What each comparison comes to.
const COMPARED: [Compared; 14] = [
    ALIKE,
    Compared {
        words: &["fib", "same", "whole", "half"],
        status: 13,
        out: b"differ,2,128.0.0.0,192.0.2.1,none\n",
        err: b"fib: differ\n",
    },
    Compared {
        words: &["fib", "same", "whole", "whole", "half"],
        status: 13,
        out: b"differ,3,128.0.0.0,192.0.2.1,none\n",
        err: b"fib: differ\n",
    },
    // an entry that drops answers as none does
    Compared {
        words: &["fib", "same", "empty", "drop"],
        ..ALIKE
    },
    // rows of another kind aren't compared
    Compared {
        words: &["fib", "same", "whole", "half", "--rows", "least"],
        ..ALIKE
    },
    Compared {
        words: &["fib", "same", "--rows=route", "whole", "routes"],
        status: 13,
        out: b"differ,2,10.0.0.0,none,192.0.2.2\n",
        err: b"fib: differ\n",
    },
    // a text is judged before the next one is read
    Compared {
        words: &["fib", "same", "whole", "twice", "bad"],
        status: 1,
        out: b"no,twice,10.0.0.0/8\n",
        err: b"fib: no\n",
    },
    Compared {
        words: &["fib", "same", "whole", "half", "bad"],
        status: 8,
        out: b"",
        err: b"fib: bad line text3 2 why 2\n",
    },
    Compared {
        words: &["fib", "same", "whole", "missing"],
        status: 3,
        out: b"",
        err: b"fib: read fault\n",
    },
    Compared {
        words: &["fib", "same", "whole"],
        status: 2,
        out: b"",
        err: b"fib: usage\n",
    },
    Compared {
        words: &["fib", "same", "whole", "half", "--rows", "cert"],
        status: 2,
        out: b"",
        err: b"fib: usage\n",
    },
    // a kept table as a repair left it and as a snapshot does send all addresses alike
    Compared {
        words: &["fib", "same", "repaired", "renewed"],
        ..ALIKE
    },
    Compared {
        words: &["fib", "same", "repaired", "renewed", "--rows=route"],
        ..ALIKE
    },
    Compared {
        words: &["fib", "same", "repaired", "renewed", "--rows=least"],
        ..ALIKE
    },
];

/// The texts by their names.
const TEXTS: [(&str, Rows<'static>); 9] = [
    ("whole", &[&["table,0.0.0.0/0,192.0.2.1"]]),
    ("half", &[&["table,0.0.0.0/1,192.0.2.1"]]),
    ("empty", &[]),
    ("drop", &[&["table,10.0.0.0/8,drop"]]),
    ("routes", &[&["route,10.0.0.0/8,192.0.2.2"]]),
    (
        "twice",
        &[&["table,10.0.0.0/8,drop", "table,10.0.0.0/8,drop"]],
    ),
    ("bad", &[&["table,10.0.0.0/8,drop", "no row"]]),
    ("repaired", ROWS_OF_REPAIR),
    ("renewed", ROWS_OF_SNAPSHOT),
];

#[test]
fn compared_texts(rt: HostRuntime) -> Result<(), Fail> {
    let alloc = rt.alloc();
    for row in &COMPARED {
        let mut names = Vec::new(alloc);
        for (name, rows) in &TEXTS {
            names.push((String::from_str(alloc, name)?, text_of(alloc, rows)?))?;
        }
        let came = run_on(alloc, row.words, names)?;
        assert_eq!(rt; came.status, row.status);
        assert_eq!(rt; came.out.written(), row.out);
        assert_eq!(rt; came.err.written(), row.err);
    }
    Ok(())
}

/// A checkpoint of no candidate: a peer table of no peer.
const NONE: &str = "00000000 000d 0001 00000008 00000000 0000 0000";

/// That of a candidate: its peer, and its prefix with an entry.
const ONE: &str = "00000000 000d 0001 00000015 00000000 0000 0001 02 00000000 c0000201 0000fbf4
00000000 000d 0002 00000020 00000000 08 0a 0001 0000 00000000 0010 400206 0201 0000fbf4 400304 c0000201";

/// Saves these inputs, and compares the octets.
fn compare_saved<R: Abort + Alloc<A = Global>>(
    rt: &R,
    dump: Vec<u8>,
    saved: &str,
) -> Result<(), Fail> {
    let alloc = rt.alloc();
    let mut names = Vec::new(alloc);
    names.push((String::from_str(alloc, "dump")?, dump))?;
    let came = run_on(alloc, &["fib", "save", "dump"], names)?;
    let mut octets = Vec::new(alloc);
    push_hex(&mut octets, saved)?;
    assert_eq!(rt; came.status, 0);
    assert_eq!(rt; came.out.written(), octets.as_slice());
    assert_eq!(rt; came.err.written(), b"".as_slice());
    Ok(())
}

#[test]
fn checkpoints(rt: HostRuntime) -> Result<(), Fail> {
    let alloc = rt.alloc();
    compare_saved(&rt, Vec::new(alloc), NONE)?;
    compare_saved(&rt, octets_of(alloc, &[PEERS, TEN])?, ONE)
}

/// What a run prints, with these updates after this dump.
fn run_behind(alloc: Global, dump: &[u8], updates: &[u8]) -> Result<Vec<u8>, Fail> {
    let mut names = Vec::new(alloc);
    add_input(alloc, &mut names, "dump", dump)?;
    add_input(alloc, &mut names, "updates", updates)?;
    let came = run_on(
        alloc,
        &["fib", "run", "dump", "--updates", "updates"],
        names,
    )?;
    Ok(Vec::from_slice(alloc, came.out.written())?)
}

/// What is read after a checkpoint comes to what it comes to after its inputs.
#[test]
fn checkpoint_for_inputs(rt: HostRuntime) -> Result<(), Fail> {
    let alloc = rt.alloc();
    let dump = octets_of(alloc, &[PEERS, TEN])?;
    let updates = octets_of(alloc, &[GONE_AND_BACK])?;
    let mut names = Vec::new(alloc);
    add_input(alloc, &mut names, "dump", &dump)?;
    let saved = run_on(alloc, &["fib", "save", "dump"], names)?;
    let behind_inputs = run_behind(alloc, &dump, &updates)?;
    let behind_checkpoint = run_behind(alloc, saved.out.written(), &updates)?;
    assert!(rt; !behind_inputs.is_empty());
    assert_eq!(rt; behind_checkpoint.as_slice(), behind_inputs.as_slice());
    Ok(())
}
