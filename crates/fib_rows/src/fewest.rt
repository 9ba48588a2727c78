//! With the fewest changes asked for: each event that changes a chosen hop has a row, and if a repair would do less the changes
//! differ.

use crate::harness::{ALL, Expected, FIRST, Given, Rows, WITH_FEWEST, compare};
use crate::records::{
    ALL_TWICE, GONE_AND_BACK, LONGER, LOST, LOWER_HALF, PEERS, TEN, TEN_ONE, TEN_ONE_BY_A,
    TEN_TWICE, TWO_PEERS, UPPER_HALF,
};
use crate::texts::{
    CERT_OF_HALVES, CERT_OF_KEPT_HOP, CERT_OF_NOTHING, CERT_OF_OTHER_HOP, CERT_OF_TEN,
    COUNTS_OF_GONE_AND_BACK, COUNTS_OF_KEPT_HOP, COUNTS_OF_LONGER, COUNTS_OF_LOST,
    COUNTS_OF_ONE_ENTRY, COUNTS_OF_TWO_ENTRIES, HALVES_ROUTES, ROWS_OF_REDUNDANT,
};
use fib_main::Outcome;
use std::test::Fail;

/// A replaced path changes one entry.
const LONGER_FEWEST: Rows<'static> = &[
    &[
        "route,10.0.0.0/8,192.0.2.2",
        "change,0,+,10.0.0.0/8,192.0.2.1",
        "change,1,=,10.0.0.0/8,192.0.2.2",
        "moves,1,1",
        "table,10.0.0.0/8,192.0.2.2",
        "least,10.0.0.0/8,192.0.2.2",
    ],
    CERT_OF_OTHER_HOP,
    COUNTS_OF_LONGER,
];

/// Each of both events changes one.
const GONE_AND_BACK_FEWEST: Rows<'static> = &[
    &[
        "route,10.0.0.0/8,192.0.2.1",
        "change,0,+,10.0.0.0/8,192.0.2.1",
        "change,1,-,10.0.0.0/8",
        "change,2,+,10.0.0.0/8,192.0.2.1",
        "moves,1,1",
        "moves,2,1",
        "table,10.0.0.0/8,192.0.2.1",
        "least,10.0.0.0/8,192.0.2.1",
    ],
    CERT_OF_TEN,
    COUNTS_OF_GONE_AND_BACK,
];

/// So does each withdrawal of a lost session.
const LOST_FEWEST: Rows<'static> = &[
    &[
        "change,0,+,10.0.0.0/8,192.0.2.1",
        "change,0,+,10.1.0.0/16,192.0.2.2",
        "change,1,-,10.0.0.0/8",
        "change,2,-,10.1.0.0/16",
        "moves,1,1",
        "moves,2,1",
    ],
    CERT_OF_NOTHING,
    COUNTS_OF_LOST,
];

/// The other half comes by the same next hop: an entry above both answers for it, while a repair would add the half.
const UPPER_HALF_FEWEST: Rows<'static> = &[
    HALVES_ROUTES,
    &[
        "change,1,+,0.0.0.0/0,192.0.2.1",
        "moves,1,1",
        "table,0.0.0.0/0,192.0.2.1",
        "table,0.0.0.0/1,192.0.2.1",
    ],
    CERT_OF_HALVES,
    COUNTS_OF_TWO_ENTRIES,
];

/// The snapshot after it has one change, which doesn't count.
const SNAPSHOT_FEWEST: Rows<'static> = &[
    HALVES_ROUTES,
    &[
        "change,1,+,0.0.0.0/0,192.0.2.1",
        "change,1,-,0.0.0.0/1",
        "moves,1,1",
        "table,0.0.0.0/0,192.0.2.1",
    ],
    CERT_OF_HALVES,
    COUNTS_OF_ONE_ENTRY,
];

/// The old hop is kept, and the half added.
const KEPT_HOP_FEWEST: Rows<'static> = &[
    &[
        "route,0.0.0.0/0,192.0.2.2",
        "route,128.0.0.0/1,192.0.2.1",
        "change,0,+,0.0.0.0/0,192.0.2.2",
        "change,1,+,128.0.0.0/1,192.0.2.1",
        "moves,1,1",
        "table,0.0.0.0/0,192.0.2.2",
        "table,128.0.0.0/1,192.0.2.1",
        "least,0.0.0.0/0,192.0.2.2",
        "least,128.0.0.0/1,192.0.2.1",
    ],
    CERT_OF_KEPT_HOP,
    COUNTS_OF_KEPT_HOP,
];

#[test]
fn rows_with_the_fewest_changes(rt: HostRuntime) -> Result<(), Fail> {
    let given = Given {
        words: WITH_FEWEST,
        ..FIRST
    };
    let cases = [
        (
            "a redundant prefix",
            Given {
                words: &["fib", "run", "--fewest", "dump"],
                dump: &[PEERS, TEN, TEN_ONE_BY_A],
                ..given
            },
            ROWS_OF_REDUNDANT,
        ),
        (
            "a longer path",
            Given {
                dump: &[TWO_PEERS, TEN_TWICE],
                updates: &[LONGER],
                ..given
            },
            LONGER_FEWEST,
        ),
        (
            "withdrawn and announced",
            Given {
                updates: &[GONE_AND_BACK],
                ..given
            },
            GONE_AND_BACK_FEWEST,
        ),
        (
            "a session is lost",
            Given {
                dump: &[PEERS, TEN_ONE, TEN],
                updates: &[LOST, LOST],
                ..given
            },
            LOST_FEWEST,
        ),
        (
            "an entry above instead of a repair",
            Given {
                dump: &[TWO_PEERS, LOWER_HALF],
                updates: &[UPPER_HALF],
                ..given
            },
            UPPER_HALF_FEWEST,
        ),
        (
            "and a snapshot",
            Given {
                words: &[
                    "fib",
                    "run",
                    "dump",
                    "--updates",
                    "updates",
                    "--every",
                    "1",
                    "--fewest",
                ],
                dump: &[TWO_PEERS, LOWER_HALF],
                updates: &[UPPER_HALF],
                ..given
            },
            SNAPSHOT_FEWEST,
        ),
        (
            "the old hop is kept",
            Given {
                dump: &[TWO_PEERS, ALL_TWICE],
                updates: &[UPPER_HALF],
                ..given
            },
            KEPT_HOP_FEWEST,
        ),
    ];
    for (name, given, out) in cases {
        let done = Expected {
            outcome: Outcome::Done,
            status: 0,
            out,
            out_len: ALL,
            err: b"",
        };
        compare(&rt, name, &given, &done)?;
    }
    Ok(())
}
