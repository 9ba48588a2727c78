//! Runs in steps: lookups that pause beside the stores of updates.

use crate::harness::{Expected, FIRST, Given, Record, YES, compare, inputs_of, run_on};
use crate::records::{PEERS, SIX, SIX_TO_SECOND, SIX_TO_THIRD, TEN, TEN_TO_A, TEN_TO_B};
use fib_addr::Family;
use fib_main::{Outcome, Which};
use poptrie_build::TrieFull;
use router_steps::StepError;
use std::test::Fail;

/// Tries of 2 nodes and 8 leaves.
const SMALL: &[&str] = &[
    "fib", "steps", "dump", "updates", "script", "--direct", "0", "--nodes", "1", "--leaves", "3",
];

/// Tries of 4 nodes and 16 leaves.
const LARGER: &[&str] = &[
    "fib", "steps", "dump", "updates", "script", "--direct", "0", "--nodes", "2", "--leaves", "4",
];

/// Tries of 1 node, and of as many leaves as are usual.
const ONE_NODE: &[&str] = &[
    "fib", "steps", "dump", "updates", "script", "--direct", "0", "--nodes", "0",
];

/// Tries of as many nodes and leaves as are usual.
const USUAL: &[&str] = &["fib", "steps", "dump", "updates", "script", "--direct", "0"];

/// The dump of 10.0.0.0/8 by A, and updates that announce it by B and then by A.
const STEPS: Given<'static> = Given {
    words: SMALL,
    updates: &[TEN_TO_B, TEN_TO_A],
    ..FIRST
};

/// A lookup that pauses keeps its version, and the update after it waits for it.
const PAUSED: &[u8] =
    b"open 10.1.2.3\ngo 0\nprepare\nstore\nend\nprepare\nopen 10.1.2.3\ngo 1\ngo 1\ngo 1\ngo 0\ngo 0\nprepare\ncancel\n";

/// Its rows.
const PAUSED_ROWS: &[&str] = &[
    "step,1,open,0",
    "step,2,on,0",
    "step,3,prepared",
    "step,4,stored",
    "step,5,ended",
    "step,6,pinned,0",
    "step,7,open,1",
    "step,8,on,1",
    "step,9,on,1",
    "step,10,hop,1,192.0.2.2",
    "step,11,on,0",
    "step,12,hop,0,192.0.2.1",
    "step,13,prepared",
    "step,14,cancelled",
];

/// Each step in each state of an update.
const EVERY_STATE: &[u8] =
    b"store\nend\ncancel\nprepare\nprepare\nend\ncancel\nprepare\nstore\ncancel\nstore\nend\ngo 0\nopen ::1\ngo 64\n";

/// Its rows.
const EVERY_STATE_ROWS: &[&str] = &[
    "step,1,nothing",
    "step,2,nothing",
    "step,3,nothing",
    "step,4,prepared",
    "step,5,busy",
    "step,6,left",
    "step,7,cancelled",
    "step,8,prepared",
    "step,9,stored",
    "step,10,late",
    "step,11,nothing",
    "step,12,ended",
    "step,13,notopen,0",
    "step,14,open,64",
    "step,15,hop,64,none",
];

/// The update of the sixth step.
const SIX_STEPS: &[u8] = b"open 10.1.2.3\ngo 0\nprepare\nstore\nend\nprepare\n";

/// If the copy fits beside the old blocks.
const SIX_ROWS: &[&str] = &[
    "step,1,open,0",
    "step,2,on,0",
    "step,3,prepared",
    "step,4,stored",
    "step,5,ended",
    "step,6,prepared",
];

/// The first script in IPv6; what is begun at its end has no row.
const PAUSED_SIX: &[u8] =
    b"open 2001:db8::1\ngo 64\nprepare\nstore\ngo 64\nend\nprepare\nopen 2001:db8::\ngo 65\ngo 64\ngo 64\ngo 64\ngo 64\ngo 64\ngo 64\nprepare\nstore\nstore\n";

/// Its rows.
const PAUSED_SIX_ROWS: &[&str] = &[
    "step,1,open,64",
    "step,2,on,64",
    "step,3,prepared",
    "step,4,stored",
    "step,5,on,64",
    "step,6,ended",
    "step,7,pinned,64",
    "step,8,open,65",
    "step,9,on,65",
    "step,10,on,64",
    "step,11,on,64",
    "step,12,on,64",
    "step,13,on,64",
    "step,14,hop,64,2001:db8::1",
    "step,15,notopen,64",
    "step,16,prepared",
    "step,17,stored",
    "step,18,nothing",
];

/// A run in steps that is refused: its name, the dump, the updates, the script, and the outcome with its status and line.
type RefusedRun = (
    &'static str,
    &'static [Record<'static>],
    &'static [Record<'static>],
    &'static [u8],
    Outcome,
    u8,
    &'static [u8],
);

/// A line of the script that breaks a rule, and routes that need more than one node, of an update and of the load.
const REFUSED: [RefusedRun; 3] = [
    (
        "look-up 128",
        &[PEERS, TEN],
        &[TEN_TO_B],
        b"go 128\n",
        Outcome::BadLine {
            input: Which::Script,
            line: 1,
            why: 5,
        },
        8,
        b"fib: bad line script 1 why 5\n",
    ),
    (
        "an event whose routes need more",
        &[PEERS],
        &[TEN_TO_A],
        b"open 10.0.0.0\ngo 0\nprepare\nend\n",
        Outcome::TrieFull {
            event: 1,
            need: 2,
            have: 1,
            arena: 0,
        },
        6,
        b"fib: trie full at event 1: arena 0 needs 2 of 1\n",
    ),
    (
        "a load whose routes need more",
        &[PEERS, TEN],
        &[TEN_TO_A],
        b"open 10.0.0.0\n",
        Outcome::TrieFull {
            event: 0,
            need: 2,
            have: 1,
            arena: 0,
        },
        6,
        b"fib: trie full at event 0: arena 0 needs 2 of 1\n",
    ),
];

#[test]
fn steps_and_their_rows(rt: HostRuntime) -> Result<(), Fail> {
    let cases: [(&str, &[&str], &[u8], &[&str]); 4] = [
        ("a paused look-up", SMALL, PAUSED, PAUSED_ROWS),
        (
            "each state of an update",
            SMALL,
            EVERY_STATE,
            EVERY_STATE_ROWS,
        ),
        ("room beside", LARGER, SIX_STEPS, SIX_ROWS),
        ("usual room", USUAL, SIX_STEPS, SIX_ROWS),
    ];
    for (name, words, script, rows) in cases {
        let given = Given {
            words,
            script,
            ..STEPS
        };
        let expected = Expected {
            out: &[rows],
            ..YES
        };
        compare(&rt, name, &given, &expected)?;
    }
    Ok(())
}

#[test]
fn steps_in_ipv6(rt: HostRuntime) -> Result<(), Fail> {
    let given = Given {
        words: &[
            "fib", "steps", "dump", "updates", "script", "--direct", "0", "--nodes", "3",
            "--leaves", "3",
        ],
        dump: &[PEERS, SIX],
        updates: &[SIX_TO_SECOND, SIX_TO_THIRD],
        script: PAUSED_SIX,
        ..FIRST
    };
    let expected = Expected {
        out: &[PAUSED_SIX_ROWS],
        ..YES
    };
    compare(&rt, "a paused look-up", &given, &expected)
}

#[test]
fn runs_in_steps_that_are_refused(rt: HostRuntime) -> Result<(), Fail> {
    for (name, dump, updates, script, outcome, status, err) in REFUSED {
        let given = Given {
            words: ONE_NODE,
            dump,
            updates,
            script,
            ..STEPS
        };
        let expected = Expected {
            outcome,
            status,
            out: &[],
            out_len: 0,
            err,
        };
        compare(&rt, name, &given, &expected)?;
    }
    Ok(())
}

#[test]
fn no_number_for_the_65th_look_up(rt: HostRuntime) -> Result<(), Fail> {
    let alloc = rt.alloc();
    let mut script = Vec::new(alloc);
    for _ in 0..65 {
        script.extend_from_slice(b"open 10.1.2.3\n")?;
    }
    let given = Given {
        script: &script,
        ..STEPS
    };
    let came = run_on(alloc, &given, inputs_of(alloc, &given)?)?;
    assert_eq!(&rt; came.outcome, Outcome::Done);
    let end: &[u8] = b"step,63,open,62\nstep,64,open,63\nstep,65,full\n";
    assert!(&rt; came.out.written().ends_with(end));
    Ok(())
}

#[test]
fn a_refusal_has_its_numbers_in_place(rt: HostRuntime) -> Result<(), Fail> {
    let alloc = rt.alloc();
    let full = TrieFull {
        arena: 3,
        need: 5,
        have: 4,
    };
    let refused = StepError::TrieFull(7, Family::V6, full);
    let text = "V6 after event 7: arena 3 needs 5 of 4";
    assert_eq!(rt; format!(in alloc; "{refused}")?.as_str(), text);
    Ok(())
}
