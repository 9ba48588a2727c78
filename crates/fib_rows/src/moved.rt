//! What a router must change, over texts in memory.

use crate::harness::{Rows, text_of};
use crate::saves::run_on;
use std::alloc::Global;
use std::process::Abort;
use std::test::Fail;

/// The texts by their names.
const TEXTS: &[(&str, Rows<'static>)] = &[
    (
        "routes",
        &[&[
            "route,0.0.0.0/0,192.0.2.1",
            "route,64.0.0.0/2,192.0.2.2",
            "route,192.0.0.0/2,192.0.2.2",
            "route,8000::/1,2001:db8::1",
        ]],
    ),
    ("empty", &[]),
    (
        "right",
        &[&[
            "least,0.0.0.0/0,192.0.2.1",
            "least,64.0.0.0/2,192.0.2.2",
            "least,192.0.0.0/2,192.0.2.2",
            "least,8000::/1,2001:db8::1",
        ]],
    ),
    (
        "wrong",
        &[&[
            "least,0.0.0.0/0,192.0.2.3",
            "least,64.0.0.0/2,192.0.2.2",
            "least,192.0.0.0/2,192.0.2.2",
            "least,8000::/1,2001:db8::1",
        ]],
    ),
    (
        "six",
        &[&["least,8000::/1,2001:db8::2", "least,c000::/2,drop"]],
    ),
    (
        "twice",
        &[&["least,10.0.0.0/8,drop", "least,10.0.0.0/8,drop"]],
    ),
    (
        "again",
        &[&["route,10.0.0.0/8,192.0.2.1", "route,10.0.0.0/8,192.0.2.2"]],
    ),
    ("bad", &[&["least,10.0.0.0/8,none"]]),
    ("default", &[&["least,0.0.0.0/0,192.0.2.1"]]),
    ("specific", &[&["route,64.0.0.0/2,192.0.2.2"]]),
    ("told", &[TOLD, PROOF4, PROOF6]),
    ("untold", &[PROOF4, PROOF6]),
    ("five", &[FIVE, PROOF4, PROOF6]),
    (
        "no_such_entry",
        &[TOLD, &["change,1,-,8000::/2"], PROOF4, PROOF6],
    ),
    ("half", &[TOLD, PROOF4]),
    ("join", &[TOLD, WRONG_JOIN, PROOF6]),
    ("leaf", &[TOLD, PROOF4, WRONG_LEAF]),
];

/// The one change that makes the router of `wrong` forward as `routes` do.
const TOLD: &[&str] = &["change,1,=,0.0.0.0/0,192.0.2.1"];

/// Five that do.
const FIVE: &[&str] = &[
    "change,1,=,64.0.0.0/2,192.0.2.1",
    "change,1,=,64.0.0.0/2,192.0.2.2",
    "change,1,-,192.0.0.0/2",
    "change,1,+,192.0.0.0/2,192.0.2.2",
    "change,1,=,0.0.0.0/0,192.0.2.1",
];

/// What proves that one is needed, and none for IPv6.
const PROOF4: &[&str] = &[
    "cert,leaf,0.0.0.0/2,192.0.2.1",
    "cert,leaf,64.0.0.0/2,192.0.2.2",
    "cert,join,0.0.0.0/1,0",
    "cert,leaf,128.0.0.0/2,192.0.2.1",
    "cert,leaf,192.0.0.0/2,192.0.2.2",
    "cert,join,128.0.0.0/1,0",
    "cert,join,0.0.0.0/0,1",
    "cert,bound,4,1",
];

const PROOF6: &[&str] = &[
    "cert,leaf,::/1,none",
    "cert,leaf,8000::/1,2001:db8::1",
    "cert,join,::/0,0",
    "cert,bound,6,0",
];

/// The seventh row says 0: that the hop at 0.0.0.0/0 may stay.
const WRONG_JOIN: &[&str] = &[
    "cert,leaf,0.0.0.0/2,192.0.2.1",
    "cert,leaf,64.0.0.0/2,192.0.2.2",
    "cert,join,0.0.0.0/1,0",
    "cert,leaf,128.0.0.0/2,192.0.2.1",
    "cert,leaf,192.0.0.0/2,192.0.2.2",
    "cert,join,128.0.0.0/1,0",
    "cert,join,0.0.0.0/0,0",
    "cert,bound,4,0",
];

/// The second row says another hop than the route.
const WRONG_LEAF: &[&str] = &[
    "cert,leaf,::/1,none",
    "cert,leaf,8000::/1,2001:db8::2",
    "cert,join,::/0,0",
    "cert,bound,6,0",
];

/// What words come to: the status, the rows and the line.
#[derive(Clone, Copy)]
struct Moved<'a> {
    words: &'a [&'a str],
    status: u8,
    out: &'a [&'a str],
    err: &'a [u8],
}

/// What a router's text and a printed one come to.
const MOVED: &[Moved<'static>] = &[
    Moved {
        words: &["fib", "moves", "empty", "routes"],
        status: 0,
        out: &[
            "change,1,+,0.0.0.0/0,192.0.2.1",
            "change,1,+,64.0.0.0/2,192.0.2.2",
            "change,1,+,192.0.0.0/2,192.0.2.2",
            "change,1,+,8000::/1,2001:db8::1",
            "moves,1,4",
            "cert,leaf,0.0.0.0/2,192.0.2.1",
            "cert,leaf,64.0.0.0/2,192.0.2.2",
            "cert,join,0.0.0.0/1,1",
            "cert,leaf,128.0.0.0/2,192.0.2.1",
            "cert,leaf,192.0.0.0/2,192.0.2.2",
            "cert,join,128.0.0.0/1,1",
            "cert,join,0.0.0.0/0,2",
            "cert,bound,4,3",
            "cert,leaf,::/1,none",
            "cert,leaf,8000::/1,2001:db8::1",
            "cert,join,::/0,1",
            "cert,bound,6,1",
        ],
        err: b"",
    },
    Moved {
        words: &["fib", "moves", "right", "routes"],
        status: 0,
        out: &[
            "moves,1,0",
            "cert,leaf,0.0.0.0/2,192.0.2.1",
            "cert,leaf,64.0.0.0/2,192.0.2.2",
            "cert,join,0.0.0.0/1,0",
            "cert,leaf,128.0.0.0/2,192.0.2.1",
            "cert,leaf,192.0.0.0/2,192.0.2.2",
            "cert,join,128.0.0.0/1,0",
            "cert,join,0.0.0.0/0,0",
            "cert,bound,4,0",
            "cert,leaf,::/1,none",
            "cert,leaf,8000::/1,2001:db8::1",
            "cert,join,::/0,0",
            "cert,bound,6,0",
        ],
        err: b"",
    },
    Moved {
        words: &["fib", "moves", "wrong", "routes"],
        status: 0,
        out: &[
            "change,1,=,0.0.0.0/0,192.0.2.1",
            "moves,1,1",
            "cert,leaf,0.0.0.0/2,192.0.2.1",
            "cert,leaf,64.0.0.0/2,192.0.2.2",
            "cert,join,0.0.0.0/1,0",
            "cert,leaf,128.0.0.0/2,192.0.2.1",
            "cert,leaf,192.0.0.0/2,192.0.2.2",
            "cert,join,128.0.0.0/1,0",
            "cert,join,0.0.0.0/0,1",
            "cert,bound,4,1",
            "cert,leaf,::/1,none",
            "cert,leaf,8000::/1,2001:db8::1",
            "cert,join,::/0,0",
            "cert,bound,6,0",
        ],
        err: b"",
    },
    Moved {
        words: &["fib", "moves", "six", "routes"],
        status: 0,
        out: &[
            "change,1,+,0.0.0.0/0,192.0.2.1",
            "change,1,+,64.0.0.0/2,192.0.2.2",
            "change,1,+,192.0.0.0/2,192.0.2.2",
            "change,1,=,8000::/1,2001:db8::1",
            "change,1,-,c000::/2",
            "moves,1,5",
            "cert,leaf,0.0.0.0/2,192.0.2.1",
            "cert,leaf,64.0.0.0/2,192.0.2.2",
            "cert,join,0.0.0.0/1,1",
            "cert,leaf,128.0.0.0/2,192.0.2.1",
            "cert,leaf,192.0.0.0/2,192.0.2.2",
            "cert,join,128.0.0.0/1,1",
            "cert,join,0.0.0.0/0,2",
            "cert,bound,4,3",
            "cert,leaf,::/1,none",
            "cert,leaf,8000::/2,2001:db8::1",
            "cert,leaf,c000::/2,2001:db8::1",
            "cert,join,8000::/1,2",
            "cert,join,::/0,2",
            "cert,bound,6,2",
        ],
        err: b"",
    },
    Moved {
        words: &["fib", "moves", "right", "empty"],
        status: 0,
        out: &[
            "change,1,-,0.0.0.0/0",
            "change,1,-,64.0.0.0/2",
            "change,1,-,192.0.0.0/2",
            "change,1,-,8000::/1",
            "moves,1,4",
            "cert,leaf,0.0.0.0/2,none",
            "cert,leaf,64.0.0.0/2,none",
            "cert,join,0.0.0.0/1,1",
            "cert,leaf,128.0.0.0/2,none",
            "cert,leaf,192.0.0.0/2,none",
            "cert,join,128.0.0.0/1,1",
            "cert,join,0.0.0.0/0,3",
            "cert,bound,4,3",
            "cert,leaf,::/1,none",
            "cert,leaf,8000::/1,none",
            "cert,join,::/0,1",
            "cert,bound,6,1",
        ],
        err: b"",
    },
    Moved {
        words: &["fib", "moves", "twice", "bad"],
        status: 1,
        out: &["no,twice,10.0.0.0/8"],
        err: b"fib: no\n",
    },
    Moved {
        words: &["fib", "moves", "right", "again"],
        status: 1,
        out: &["no,twice,10.0.0.0/8"],
        err: b"fib: no\n",
    },
    Moved {
        words: &["fib", "moves", "bad", "missing"],
        status: 8,
        out: &[],
        err: b"fib: bad line text1 1 why 1\n",
    },
    Moved {
        words: &["fib", "moves", "right", "bad"],
        status: 8,
        out: &[],
        err: b"fib: bad line text2 1 why 1\n",
    },
    Moved {
        words: &["fib", "moves", "right", "missing"],
        status: 3,
        out: &[],
        err: b"fib: read fault\n",
    },
];

/// In steady order entries are set before any is removed, the longest prefix first.
const STEADY: &[Moved<'static>] = &[
    Moved {
        words: &["fib", "moves", "default", "specific", "--steady"],
        status: 0,
        out: &[
            "change,1,+,64.0.0.0/2,192.0.2.2",
            "change,1,-,0.0.0.0/0",
            "moves,1,2",
            "cert,leaf,0.0.0.0/2,none",
            "cert,leaf,64.0.0.0/2,192.0.2.2",
            "cert,join,0.0.0.0/1,1",
            "cert,leaf,128.0.0.0/1,none",
            "cert,join,0.0.0.0/0,2",
            "cert,bound,4,2",
            "cert,leaf,::/0,none",
            "cert,bound,6,0",
        ],
        err: b"",
    },
    Moved {
        words: &["fib", "moves", "--steady", "empty", "routes"],
        status: 0,
        out: &[
            "change,1,+,64.0.0.0/2,192.0.2.2",
            "change,1,+,192.0.0.0/2,192.0.2.2",
            "change,1,+,0.0.0.0/0,192.0.2.1",
            "change,1,+,8000::/1,2001:db8::1",
            "moves,1,4",
            "cert,leaf,0.0.0.0/2,192.0.2.1",
            "cert,leaf,64.0.0.0/2,192.0.2.2",
            "cert,join,0.0.0.0/1,1",
            "cert,leaf,128.0.0.0/2,192.0.2.1",
            "cert,leaf,192.0.0.0/2,192.0.2.2",
            "cert,join,128.0.0.0/1,1",
            "cert,join,0.0.0.0/0,2",
            "cert,bound,4,3",
            "cert,leaf,::/1,none",
            "cert,leaf,8000::/1,2001:db8::1",
            "cert,join,::/0,1",
            "cert,bound,6,1",
        ],
        err: b"",
    },
];

/// A verdict that is no.
const NO: &[u8] = b"fib: no\n";

/// Changes of the router of `wrong`, checked.
const CHECKED: &[Moved<'static>] = &[
    Moved {
        words: &["fib", "moves", "--check", "wrong", "routes", "told"],
        status: 0,
        out: &["yes"],
        err: b"",
    },
    Moved {
        words: &["fib", "moves", "wrong", "routes", "untold", "--check"],
        status: 1,
        out: &["no,notsame,0.0.0.0,192.0.2.1,192.0.2.3"],
        err: NO,
    },
    Moved {
        words: &["fib", "moves", "--check", "wrong", "routes", "five"],
        status: 1,
        out: &["no,notshortest,4,5,1"],
        err: NO,
    },
    Moved {
        words: &[
            "fib",
            "moves",
            "--check",
            "wrong",
            "routes",
            "no_such_entry",
        ],
        status: 1,
        out: &["no,apply,6,1"],
        err: NO,
    },
    Moved {
        words: &["fib", "moves", "--check", "wrong", "routes", "empty"],
        status: 1,
        out: &["no,notsame,0.0.0.0,192.0.2.1,192.0.2.3"],
        err: NO,
    },
    Moved {
        words: &["fib", "moves", "--check", "wrong", "routes", "half"],
        status: 1,
        out: &["no,shape,6,1"],
        err: NO,
    },
    Moved {
        words: &["fib", "moves", "--check", "wrong", "routes", "join"],
        status: 1,
        out: &["no,joinwrong,4,7,0,1"],
        err: NO,
    },
    Moved {
        words: &["fib", "moves", "--check", "wrong", "routes", "leaf"],
        status: 1,
        out: &["no,leafwrong,6,2"],
        err: NO,
    },
    Moved {
        words: &["fib", "moves", "--check", "twice", "bad", "bad"],
        status: 1,
        out: &["no,twice,10.0.0.0/8"],
        err: NO,
    },
    Moved {
        words: &["fib", "moves", "--check", "wrong", "again", "bad"],
        status: 1,
        out: &["no,twice,10.0.0.0/8"],
        err: NO,
    },
    Moved {
        words: &["fib", "moves", "--check", "wrong", "routes", "bad"],
        status: 8,
        out: &[],
        err: b"fib: bad line text3 1 why 1\n",
    },
    Moved {
        words: &["fib", "moves", "--check", "wrong", "bad", "missing"],
        status: 8,
        out: &[],
        err: b"fib: bad line text2 1 why 1\n",
    },
    Moved {
        words: &["fib", "moves", "--check", "wrong", "routes", "missing"],
        status: 3,
        out: &[],
        err: b"fib: read fault\n",
    },
    Moved {
        words: &["fib", "moves", "wrong", "routes", "told"],
        status: 2,
        out: &[],
        err: b"fib: usage\n",
    },
    Moved {
        words: &["fib", "moves", "--check", "wrong", "routes"],
        status: 2,
        out: &[],
        err: b"fib: usage\n",
    },
];

/// Whether each line of words comes to what stands beside it.
fn come_to(rt: &impl Abort, alloc: Global, cases: &[Moved<'_>]) -> Result<(), Fail> {
    for case in cases {
        let mut names = Vec::new(alloc);
        for (name, rows) in TEXTS {
            names.push((String::from_str(alloc, name)?, text_of(alloc, rows)?))?;
        }
        let came = run_on(alloc, case.words, names)?;
        assert_eq!(rt; came.status, case.status);
        assert_eq!(rt; came.out.written(), text_of(alloc, &[case.out])?.as_slice());
        assert_eq!(rt; came.err.written(), case.err);
    }
    Ok(())
}

#[test]
fn moved_routers(rt: HostRuntime) -> Result<(), Fail> {
    come_to(&rt, rt.alloc(), MOVED)
}

#[test]
fn steadily_moved_routers(rt: HostRuntime) -> Result<(), Fail> {
    come_to(&rt, rt.alloc(), STEADY)
}

#[test]
fn checked_moves(rt: HostRuntime) -> Result<(), Fail> {
    come_to(&rt, rt.alloc(), CHECKED)
}
