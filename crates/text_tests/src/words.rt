//! Words and what they ask for.

use fib_words::{CommandWords, WordsError, read_words};
use printed_text::Kind;
use std::alloc::Global;
use std::test::Fail;

/// What words ask for.
#[derive(Clone, Copy, Debug, PartialEq, Eq)]
enum Asked<'a> {
    /// They aren't a command.
    Nothing,
    /// The names of the dump, the updates and the asks, how many events a snapshot follows, and the sizes: direct bits, and the
    /// orders of the arenas of nodes and of leaves.
    Run(&'a str, Option<&'a str>, Option<&'a str>, u32, [u8; 3]),
    /// The names of the dump and of the list of VRPs, in a run that names one.
    Judged(&'a str, &'a str),
    /// The name of the dump, in a run whose events make the fewest changes, and whether they come in steady order.
    Fewest(&'a str, bool),
    /// The name of the dump, in a run whose changes come in steady order.
    Steadily(&'a str),
    Check(&'a str),
    /// How many routes, and the seed.
    Make(u32, u64),
    /// The names of the dump, the updates and the script, and the sizes.
    Steps(&'a str, &'a str, &'a str, [u8; 3]),
    /// The names of the first text and of the others, and which rows of them.
    Same(&'a str, &'a [&'a str], Kind),
    /// The names of the dump and the updates.
    Save(&'a str, Option<&'a str>),
    /// The names of the router's text and of the printed one, and whether the changes come in steady order.
    Moves(&'a str, &'a str, bool),
    /// The names of both texts and of the one with the changes.
    CheckMoves(&'a str, &'a str, &'a str),
}

/// Words, and what they ask for.
type Case<'a> = (&'a [&'a str], Asked<'a>);

/// The sizes if the words name none.
const USUAL: [u8; 3] = [16, 16, 18];

/// Runs and checks, and words that are no command.
const COMMANDS: &[Case<'static>] = &[
    (&["fib", "run", "D"], Asked::Run("D", None, None, 0, USUAL)),
    (
        &["fib", "run", "D", "--ask", "A"],
        Asked::Run("D", None, Some("A"), 0, USUAL),
    ),
    (
        &["fib", "run", "D", "--ask=A"],
        Asked::Run("D", None, Some("A"), 0, USUAL),
    ),
    (
        &["fib", "run", "--ask", "A", "D"],
        Asked::Run("D", None, Some("A"), 0, USUAL),
    ),
    (
        &["any", "run", "D", "--updates", "U"],
        Asked::Run("D", Some("U"), None, 0, USUAL),
    ),
    (
        &["fib", "run", "--ask", "A", "--updates", "U", "D"],
        Asked::Run("D", Some("U"), Some("A"), 0, USUAL),
    ),
    (
        &["fib", "run", "--", "-D"],
        Asked::Run("-D", None, None, 0, USUAL),
    ),
    (&["fib", "run", "-"], Asked::Run("-", None, None, 0, USUAL)),
    (
        &["fib", "run", "D", "--ask", "-"],
        Asked::Run("D", None, Some("-"), 0, USUAL),
    ),
    (
        &["fib", "run", "help"],
        Asked::Run("help", None, None, 0, USUAL),
    ),
    (
        &["fib", "run", "D", "--every", "1000"],
        Asked::Run("D", None, None, 1000, USUAL),
    ),
    (
        &["fib", "run", "--every=4294967295", "D", "--ask", "A"],
        Asked::Run("D", None, Some("A"), 4_294_967_295, USUAL),
    ),
    (
        &["fib", "run", "D", "--every", "0"],
        Asked::Run("D", None, None, 0, USUAL),
    ),
    (
        &["fib", "run", "D", "--every", "4294967296"],
        Asked::Nothing,
    ),
    (&["fib", "run", "D", "--every", "01"], Asked::Nothing),
    (&["fib", "run", "D", "--every", "+1"], Asked::Nothing),
    (&["fib", "run", "D", "--every", ""], Asked::Nothing),
    (&["fib", "run", "D", "--every"], Asked::Nothing),
    (&["fib", "run", "D", "--fewest"], Asked::Fewest("D", false)),
    (
        &["fib", "run", "--steady", "--fewest", "D"],
        Asked::Fewest("D", true),
    ),
    (&["fib", "run", "D", "--fewest=1"], Asked::Nothing),
    (&["fib", "run", "D", "--fewest", "--fewest"], Asked::Nothing),
    (&["fib", "save", "D", "--fewest"], Asked::Nothing),
    (&["fib", "run", "D", "--steady"], Asked::Steadily("D")),
    (&["fib", "run", "--steady", "D"], Asked::Steadily("D")),
    (&["fib", "run", "D", "--steady=true"], Asked::Nothing),
    (&["fib", "run", "D", "--steady", "E"], Asked::Nothing),
    (&["fib", "run", "D", "--steady", "--steady"], Asked::Nothing),
    (&["fib", "check", "P", "--steady"], Asked::Nothing),
    (&[], Asked::Nothing),
    (&["fib"], Asked::Nothing),
    (&["fib", "run"], Asked::Nothing),
    (&["fib", "run", "-D"], Asked::Nothing),
    (&["fib", "run", "D", "E"], Asked::Nothing),
    (&["fib", "run", "D", "--ask"], Asked::Nothing),
    (&["fib", "run", "D", "--ask", "-A"], Asked::Nothing),
    (
        &["fib", "run", "D", "--ask", "A", "--ask", "A"],
        Asked::Nothing,
    ),
    (&["fib", "run", "--help"], Asked::Nothing),
    (&["fib", "--help"], Asked::Nothing),
    (&["fib", "--version"], Asked::Nothing),
    (&["fib", "help"], Asked::Nothing),
    (&["fib", "check", "P"], Asked::Check("P")),
    (&["fib", "check"], Asked::Nothing),
    (&["fib", "check", "P", "--ask", "A"], Asked::Nothing),
];

/// Numbers are plain and in their ranges.
const NUMBERS: &[Case<'static>] = &[
    (&["fib", "run", "D"], Asked::Run("D", None, None, 0, USUAL)),
    (
        &["fib", "run", "D", "--direct", "0"],
        Asked::Run("D", None, None, 0, [0, 16, 18]),
    ),
    (
        &["fib", "run", "D", "--direct", "18"],
        Asked::Run("D", None, None, 0, [18, 16, 18]),
    ),
    (
        &["fib", "run", "D", "--nodes=24", "--leaves=26"],
        Asked::Run("D", None, None, 0, [16, 24, 26]),
    ),
    (
        &["fib", "run", "D", "--nodes", "0", "--leaves", "0"],
        Asked::Run("D", None, None, 0, [16, 0, 0]),
    ),
    (
        &[
            "fib", "run", "D", "--leaves", "9", "--every", "3", "--direct", "8",
        ],
        Asked::Run("D", None, None, 3, [8, 16, 9]),
    ),
    (&["fib", "run", "D", "--direct", "19"], Asked::Nothing),
    (&["fib", "run", "D", "--nodes", "25"], Asked::Nothing),
    (&["fib", "run", "D", "--leaves", "27"], Asked::Nothing),
    (&["fib", "run", "D", "--direct", "05"], Asked::Nothing),
    (&["fib", "run", "D", "--direct", "+5"], Asked::Nothing),
    (&["fib", "run", "D", "--direct", "-1"], Asked::Nothing),
    (&["fib", "run", "D", "--nodes", "00"], Asked::Nothing),
    (&["fib", "run", "D", "--leaves", "256"], Asked::Nothing),
    (
        &["fib", "run", "D", "--leaves", "18446744073709551634"],
        Asked::Nothing,
    ),
    (&["fib", "run", "D", "--direct", ""], Asked::Nothing),
    (
        &["fib", "run", "D", "--direct", "8", "--direct", "8"],
        Asked::Nothing,
    ),
];

/// Routes are made from a seed.
const MADE: &[Case<'static>] = &[
    (&["fib", "make", "1", "--seed", "0"], Asked::Make(1, 0)),
    (
        &["fib", "make", "--seed=7", "200000"],
        Asked::Make(200_000, 7),
    ),
    (
        &["fib", "make", "200", "--seed", "18446744073709551615"],
        Asked::Make(200, u64::MAX),
    ),
    (&["fib", "make", "0", "--seed", "1"], Asked::Nothing),
    (&["fib", "make", "200001", "--seed", "1"], Asked::Nothing),
    (&["fib", "make", "01", "--seed", "1"], Asked::Nothing),
    (
        &["fib", "make", "1", "--seed", "18446744073709551616"],
        Asked::Nothing,
    ),
    (&["fib", "make", "1", "--seed", "+1"], Asked::Nothing),
    (&["fib", "make", "1", "--seed", "00"], Asked::Nothing),
    (&["fib", "make", "1"], Asked::Nothing),
    (&["fib", "make", "--seed", "1"], Asked::Nothing),
    (
        &["fib", "make", "1", "--seed", "1", "--every", "1"],
        Asked::Nothing,
    ),
];

/// Runs in steps name three inputs.
const IN_STEPS: &[Case<'static>] = &[
    (
        &["fib", "steps", "D", "U", "S"],
        Asked::Steps("D", "U", "S", USUAL),
    ),
    (
        &[
            "fib",
            "steps",
            "--direct",
            "0",
            "D",
            "--nodes=24",
            "U",
            "S",
            "--leaves",
            "26",
        ],
        Asked::Steps("D", "U", "S", [0, 24, 26]),
    ),
    (
        &["fib", "steps", "--direct=18", "--", "D", "-U", "S"],
        Asked::Steps("D", "-U", "S", [18, 16, 18]),
    ),
    (&["fib", "steps", "D", "U"], Asked::Nothing),
    (&["fib", "steps", "D", "U", "S", "T"], Asked::Nothing),
    (
        &["fib", "steps", "D", "--updates", "U", "S"],
        Asked::Nothing,
    ),
    (
        &["fib", "steps", "D", "U", "S", "--every", "1"],
        Asked::Nothing,
    ),
    (
        &["fib", "steps", "D", "U", "S", "--direct", "19"],
        Asked::Nothing,
    ),
    (
        &["fib", "steps", "D", "U", "S", "--nodes", "024"],
        Asked::Nothing,
    ),
    (
        &["fib", "steps", "D", "U", "S", "--leaves", "27"],
        Asked::Nothing,
    ),
    (&["fib", "steps", "--help"], Asked::Nothing),
];

/// Lists of VRPs, texts that are compared, and checkpoints.
const JUDGED_COMPARED_SAVED: &[Case<'static>] = &[
    (&["fib", "run", "D", "--vrps", "V"], Asked::Judged("D", "V")),
    (&["fib", "run", "--vrps=V", "D"], Asked::Judged("D", "V")),
    (&["fib", "run", "D", "--vrps"], Asked::Nothing),
    (
        &["fib", "run", "D", "--vrps", "V", "--vrps", "V"],
        Asked::Nothing,
    ),
    (&["fib", "check", "P", "--vrps", "V"], Asked::Nothing),
    (
        &["fib", "same", "P", "Q"],
        Asked::Same("P", &["Q"], Kind::Table),
    ),
    (
        &["fib", "same", "P", "Q", "R", "--rows", "least"],
        Asked::Same("P", &["Q", "R"], Kind::Least),
    ),
    (
        &["fib", "same", "--rows=route", "P", "Q"],
        Asked::Same("P", &["Q"], Kind::Route),
    ),
    (&["fib", "same"], Asked::Nothing),
    (&["fib", "same", "P"], Asked::Nothing),
    (&["fib", "same", "P", "Q", "--rows", "cert"], Asked::Nothing),
    (&["fib", "same", "P", "Q", "--rows"], Asked::Nothing),
    (&["fib", "save", "D"], Asked::Save("D", None)),
    (
        &["fib", "save", "D", "--updates", "U"],
        Asked::Save("D", Some("U")),
    ),
    (&["fib", "save"], Asked::Nothing),
    (&["fib", "save", "D", "U"], Asked::Nothing),
    (&["fib", "save", "D", "--ask", "A"], Asked::Nothing),
    (&["fib", "save", "D", "--vrps", "V"], Asked::Nothing),
];

/// What a router must change, and the check of such changes.
const MOVES: &[Case<'static>] = &[
    (&["fib", "moves", "R", "P"], Asked::Moves("R", "P", false)),
    (
        &["fib", "moves", "R", "P", "--steady"],
        Asked::Moves("R", "P", true),
    ),
    (
        &["fib", "moves", "--steady", "R", "P"],
        Asked::Moves("R", "P", true),
    ),
    (
        &["fib", "moves", "--check", "R", "P", "M"],
        Asked::CheckMoves("R", "P", "M"),
    ),
    (
        &["fib", "moves", "R", "P", "M", "--check"],
        Asked::CheckMoves("R", "P", "M"),
    ),
    (
        &["fib", "moves", "R", "--check", "P", "--", "-M"],
        Asked::CheckMoves("R", "P", "-M"),
    ),
    (&["fib", "moves"], Asked::Nothing),
    (&["fib", "moves", "R"], Asked::Nothing),
    (&["fib", "moves", "R", "--steady"], Asked::Nothing),
    (&["fib", "moves", "R", "P", "M"], Asked::Nothing),
    (&["fib", "moves", "R", "P", "--check"], Asked::Nothing),
    (&["fib", "moves", "R", "P", "M", "--steady"], Asked::Nothing),
    (
        &["fib", "moves", "R", "P", "--check", "--steady"],
        Asked::Nothing,
    ),
    (
        &["fib", "moves", "R", "P", "M", "--check", "--steady"],
        Asked::Nothing,
    ),
    (
        &["fib", "moves", "R", "P", "M", "N", "--check"],
        Asked::Nothing,
    ),
    (
        &["fib", "moves", "R", "P", "M", "--check", "--check"],
        Asked::Nothing,
    ),
    (&["fib", "moves", "R", "P", "--check=M"], Asked::Nothing),
    (
        &["fib", "moves", "R", "P", "--rows", "least"],
        Asked::Nothing,
    ),
];

/// The words, in memory.
fn words_of(alloc: Global, texts: &[&str]) -> Result<Vec<String>, Fail> {
    let mut words = Vec::new(alloc);
    for text in texts {
        words.push(String::from_str(alloc, text)?)?;
    }
    Ok(words)
}

/// Whether the words ask for this.
fn ask_for(alloc: Global, texts: &[&str], due: Asked<'_>) -> Result<bool, Fail> {
    let words = words_of(alloc, texts)?;
    let asked = match read_words(alloc, &words) {
        Ok(CommandWords::Run(run)) => {
            let sizes = [run.direct, run.nodes, run.leaves];
            match run.vrps {
                Some(vrps) => Asked::Judged(run.dump, vrps),
                None if run.fewest => Asked::Fewest(run.dump, run.steady),
                None if run.steady => Asked::Steadily(run.dump),
                None => Asked::Run(run.dump, run.updates, run.asks, run.every, sizes),
            }
        }
        Ok(CommandWords::Check(name)) => Asked::Check(name),
        Ok(CommandWords::Make(made)) => Asked::Make(made.routes, made.seed),
        Ok(CommandWords::Steps(steps)) => {
            let sizes = [steps.direct, steps.nodes, steps.leaves];
            Asked::Steps(steps.dump, steps.updates, steps.script, sizes)
        }
        Ok(CommandWords::Same(same)) => {
            return Ok(Asked::Same(same.first, &same.rest, same.rows) == due);
        }
        Ok(CommandWords::Save(save)) => Asked::Save(save.dump, save.updates),
        Ok(CommandWords::Moves(moves)) => Asked::Moves(moves.router, moves.printed, moves.steady),
        Ok(CommandWords::CheckMoves(check)) => {
            Asked::CheckMoves(check.router, check.printed, check.moves)
        }
        Err(WordsError::Usage) => Asked::Nothing,
        Err(WordsError::NoMemory) => return Ok(false),
    };
    Ok(asked == due)
}

#[test]
fn takes_what_the_definition_takes(rt: HostRuntime) -> Result<(), Fail> {
    for (table, cases) in [
        ("commands", COMMANDS),
        ("numbers", NUMBERS),
        ("made", MADE),
        ("steps", IN_STEPS),
        ("judged, compared, saved", JUDGED_COMPARED_SAVED),
        ("moves", MOVES),
    ] {
        for (place, (texts, due)) in cases.iter().enumerate() {
            assert!(rt; ask_for(rt.alloc(), texts, *due)?, "{table}, case {place}");
        }
    }
    Ok(())
}
