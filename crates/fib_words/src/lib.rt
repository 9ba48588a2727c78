//! The words of the command line.
//!
//! The command line is defined by clap's builder, and clap takes exactly the words that its definition takes; all others are
//! Usage, `help`, `--help` and `--version` among them. Names borrow from the words.
#![tactic(auto)]

ghost use Rattle.std.specs.Prelude.{◌≡◌, ◌≢◌, ◌≤◌, ◌+◌, ◌^◌, ◌↔◌, IfOk, IfSome, Some, codes, map, option_map};
ghost use Rattle.std.specs.Option.{option_and_then};
ghost use Rattle.std.specs.String.{string_bytes};
ghost use Rattle.clap.specs.Words.{app_of, found_of, rows_of, subcommand_name_of, subcommand_rows_of, with_rule, with_subcommand};
ghost use Rattle.clap.specs.Values.{kind_of};
ghost use Rattle.fib_words.specs.Commands.{AreSizes, asked_as, asked_in, bare_app, changing_app, check_app, command_of, due_option_rule, fib_app, flag_rule, from_one, HasApp, IsCommand, IsLocal, AreWithinLimits, is_on, kind_or, made_by, make_app, moves_app, moves_asked, moves_by, named_as, named_by, number_or, option_rule, run_app, same_app, same_as, same_by, save_app, save_as, save_by, several_rule, sized_app, named_sizes_as, sizes_by, spare_rule, steps_app, steps_as, steps_by, word_rule};
ghost use Rattle.fib_addr.specs.Text.{number_below};
ghost use Rattle.fib_words.specs.declared.WordsError.TheVariants.{NoMemory};

use clap::error::ErrorKind;
use clap::{Arg, ArgAction, ArgMatches, Command, Error};
use fib_addr::read_number;
use printed_text::Kind;
use std::alloc::{AllocError, Global};

/// A run, as the words ask for it.
#[derive(Clone, Copy, Debug)]
pub struct RunWords<'a> {
    /// The dump.
    pub dump: &'a str,
    /// The updates, if there are any.
    pub updates: Option<&'a str>,
    /// The addresses that are asked for, if any are.
    pub asks: Option<&'a str>,
    /// The list of validated ROA payloads (VRPs) that announcements are judged by, if there is one.
    pub vrps: Option<&'a str>,
    /// How many elementary events of the updates a snapshot follows; 0 is never.
    pub every: u32,
    /// Whether an event that changes a chosen hop makes the fewest changes, instead of a repair at its prefix.
    pub fewest: bool,
    /// Whether the changes of an event come in steady order: no packet goes astray while a router makes them one by one.
    pub steady: bool,
    /// The direct bits of a trie: 18 at most.
    pub direct: u8,
    /// The order of a trie's arena of nodes: 24 at most.
    pub nodes: u8,
    /// The order of a trie's arena of leaves: 26 at most.
    pub leaves: u8,
}

/// Routes that are made, as the words ask for them.
#[derive(Clone, Copy, Debug)]
pub struct MakeWords {
    /// What all is drawn from.
    pub seed: u64,
    /// How many routes: from 1 to 200,000.
    pub routes: u32,
}

/// A run in steps, as the words ask for it.
#[derive(Clone, Copy, Debug)]
pub struct StepsWords<'a> {
    /// The dump.
    pub dump: &'a str,
    /// The updates.
    pub updates: &'a str,
    /// The script.
    pub script: &'a str,
    /// The direct bits of a trie: 18 at most.
    pub direct: u8,
    /// The order of a trie's arena of nodes: 24 at most.
    pub nodes: u8,
    /// The order of a trie's arena of leaves: 26 at most.
    pub leaves: u8,
}

/// A comparison of printed texts, as the words ask for it.
#[derive(Debug, Drop)]
pub struct SameWords<'a> {
    /// The first text.
    pub first: &'a str,
    /// The texts that are compared with it, in their order: one or more.
    pub rest: Vec<&'a str>,
    /// Which rows of them.
    pub rows: Kind,
}

/// A checkpoint, as the words ask for it.
#[derive(Clone, Copy, Debug)]
pub struct SaveWords<'a> {
    /// The dump.
    pub dump: &'a str,
    /// The updates, if there are any.
    pub updates: Option<&'a str>,
}

/// What a router must change, as the words ask for it.
#[derive(Clone, Copy, Debug)]
pub struct MovesWords<'a> {
    /// The text with the table that the router has.
    pub router: &'a str,
    /// The text with the routes that it is to forward as.
    pub printed: &'a str,
    /// Whether the changes come in steady order: no packet goes astray while the router makes them one by one.
    pub steady: bool,
}

/// The check of what a router was told to change, as the words ask for it.
#[derive(Clone, Copy, Debug)]
pub struct CheckMovesWords<'a> {
    /// The text with the table that the router has.
    pub router: &'a str,
    /// The text with the routes that it is to forward as.
    pub printed: &'a str,
    /// The text with the changes and the rows that are to prove that no fewer would do.
    pub moves: &'a str,
}

/// What the words ask for.
#[derive(Debug, Drop)]
pub enum CommandWords<'a> {
    /// A run.
    Run(RunWords<'a>),
    /// A check of the printed text of this name.
    Check(&'a str),
    /// A run on routes that are made.
    Make(MakeWords),
    /// A run in steps.
    Steps(StepsWords<'a>),
    /// A comparison of printed texts.
    Same(SameWords<'a>),
    /// A checkpoint of what a dump and updates bring.
    Save(SaveWords<'a>),
    /// The fewest changes that make a router forward as printed routes do.
    Moves(MovesWords<'a>),
    /// A check of such changes.
    CheckMoves(CheckMovesWords<'a>),
}

/// The sizes of a trie, as the words ask for them.
#[derive(Clone, Copy)]
struct SizesWords {
    /// The direct bits: 18 at most.
    direct: u8,
    /// The order of the arena of nodes: 24 at most.
    nodes: u8,
    /// The order of the arena of leaves: 26 at most.
    leaves: u8,
}

/// The orders and direct bits of a run whose words name none.
const USUAL_DIRECT: u8 = 16;

const USUAL_NODES: u8 = 16;

const USUAL_LEAVES: u8 = 18;

/// Why the words gave no command.
#[derive(Clone, Copy, Debug, PartialEq, Eq, thiserror::Error)]
pub enum WordsError {
    /// They aren't a command.
    #[error("the words aren't a command")]
    Usage,
    /// Memory ran out.
    #[error("no memory")]
    NoMemory,
}

impl From<AllocError> for WordsError {
    ghost from_gives = { λ _ e. e ≡ NoMemory };

    fn from(_e: AllocError) -> WordsError {
        WordsError::NoMemory
    }
}

/// The command with one more option.
fn with_option<'a>(
    alloc: Global,
    command: Command<'a>,
    name: &'a str,
) -> Result<Command<'a>, AllocError>
    requires { IsLocal command }
    ensures { IfOk result (λ c. HasApp c (with_rule (app_of command.entry)
        (option_rule name.entry.now))) }
{
    let option = Arg::new(alloc, name).long(name);
    command.arg(option)
}

/// The command with one more option, which has to be there.
fn with_due_option<'a>(
    alloc: Global,
    command: Command<'a>,
    name: &'a str,
) -> Result<Command<'a>, AllocError>
    requires { IsLocal command }
    ensures { IfOk result (λ c. HasApp c (with_rule (app_of command.entry)
        (due_option_rule name.entry.now))) }
{
    let option = Arg::new(alloc, name).long(name).required(true);
    command.arg(option)
}

/// The command with one more flag.
fn with_flag<'a>(
    alloc: Global,
    command: Command<'a>,
    name: &'a str,
) -> Result<Command<'a>, AllocError>
    requires { IsLocal command }
    ensures { IfOk result (λ c. HasApp c (with_rule (app_of command.entry)
        (flag_rule name.entry.now))) }
{
    let flag = Arg::new(alloc, name).long(name).action(ArgAction::SetTrue);
    command.arg(flag)
}

/// The command with one more word that has to be there.
fn with_word<'a>(
    alloc: Global,
    command: Command<'a>,
    name: &'a str,
) -> Result<Command<'a>, AllocError>
    requires { IsLocal command }
    ensures { IfOk result (λ c. HasApp c (with_rule (app_of command.entry)
        (word_rule name.entry.now))) }
{
    let word = Arg::new(alloc, name).required(true);
    command.arg(word)
}

/// The command with one more word that may be there.
fn with_spare<'a>(
    alloc: Global,
    command: Command<'a>,
    name: &'a str,
) -> Result<Command<'a>, AllocError>
    requires { IsLocal command }
    ensures { IfOk result (λ c. HasApp c (with_rule (app_of command.entry)
        (spare_rule name.entry.now))) }
{
    let word = Arg::new(alloc, name);
    command.arg(word)
}

/// The command with one more word, which has to be there and may stand several times.
fn with_several<'a>(
    alloc: Global,
    command: Command<'a>,
    name: &'a str,
) -> Result<Command<'a>, AllocError>
    requires { IsLocal command }
    ensures { IfOk result (λ c. HasApp c (with_rule (app_of command.entry)
        (several_rule name.entry.now))) }
{
    let words = Arg::new(alloc, name)
        .required(true)
        .action(ArgAction::Append);
    command.arg(words)
}

/// The command with one more command under it.
fn with_command<'a>(command: Command<'a>, inner: Command<'a>) -> Result<Command<'a>, AllocError>
    requires command { IsLocal command }
    requires inner { IsLocal inner }
    ensures { IfOk result (λ c. HasApp c (with_subcommand (app_of command.entry)
        (app_of inner.entry).top)) }
{
    command.subcommand(inner)
}

/// The command with the sizes of a trie: `[--direct S] [--nodes N] [--leaves N]`.
fn with_sizes<'a>(alloc: Global, command: Command<'a>) -> Result<Command<'a>, AllocError>
    requires { IsLocal command }
    ensures { IfOk result (λ c. HasApp c (sized_app (app_of command.entry))) }
{
    let command = with_option(alloc, command, "direct")?;
    let command = with_option(alloc, command, "nodes")?;
    with_option(alloc, command, "leaves")
}

/// The command with what decides the changes of a kept table: `[--every K] [--fewest] [--steady]`.
fn with_changes<'a>(alloc: Global, command: Command<'a>) -> Result<Command<'a>, AllocError>
    requires { IsLocal command }
    ensures { IfOk result (λ c. HasApp c (changing_app (app_of command.entry))) }
{
    let command = with_option(alloc, command, "every")?;
    let command = with_flag(alloc, command, "fewest")?;
    with_flag(alloc, command, "steady")
}

/// `run DUMP [--updates F] [--ask F] [--vrps F] [--every K] [--fewest] [--steady] [--direct S] [--nodes N] [--leaves N]`.
fn run_command<'a>(alloc: Global) -> Result<Command<'a>, AllocError>
    ensures { IfOk result (λ c. HasApp c run_app) }
{
    let command = with_word(alloc, Command::new(alloc, "run"), "dump")?;
    let command = with_option(alloc, command, "updates")?;
    let command = with_option(alloc, command, "ask")?;
    let command = with_option(alloc, command, "vrps")?;
    let command = with_changes(alloc, command)?;
    with_sizes(alloc, command)
}

/// `check PRINTED`.
fn check_command<'a>(alloc: Global) -> Result<Command<'a>, AllocError>
    ensures { IfOk result (λ c. HasApp c check_app) }
{
    with_word(alloc, Command::new(alloc, "check"), "printed")
}

/// `make N --seed X`.
fn make_command<'a>(alloc: Global) -> Result<Command<'a>, AllocError>
    ensures { IfOk result (λ c. HasApp c make_app) }
{
    let command = with_word(alloc, Command::new(alloc, "make"), "routes")?;
    with_due_option(alloc, command, "seed")
}

/// `steps DUMP UPDATES SCRIPT [--direct S] [--nodes N] [--leaves N]`.
fn steps_command<'a>(alloc: Global) -> Result<Command<'a>, AllocError>
    ensures { IfOk result (λ c. HasApp c steps_app) }
{
    let command = with_word(alloc, Command::new(alloc, "steps"), "dump")?;
    let command = with_word(alloc, command, "updates")?;
    let command = with_word(alloc, command, "script")?;
    with_sizes(alloc, command)
}

/// `same FIRST REST.. [--rows route|table|least]`.
fn same_command<'a>(alloc: Global) -> Result<Command<'a>, AllocError>
    ensures { IfOk result (λ c. HasApp c same_app) }
{
    let command = with_word(alloc, Command::new(alloc, "same"), "first")?;
    let command = with_several(alloc, command, "rest")?;
    with_option(alloc, command, "rows")
}

/// `save DUMP [--updates F]`.
fn save_command<'a>(alloc: Global) -> Result<Command<'a>, AllocError>
    ensures { IfOk result (λ c. HasApp c save_app) }
{
    let command = with_word(alloc, Command::new(alloc, "save"), "dump")?;
    with_option(alloc, command, "updates")
}

/// `moves ROUTER PRINTED [MOVES] [--check] [--steady]`.
fn moves_command<'a>(alloc: Global) -> Result<Command<'a>, AllocError>
    ensures { IfOk result (λ c. HasApp c moves_app) }
{
    let command = with_word(alloc, Command::new(alloc, "moves"), "router")?;
    let command = with_word(alloc, command, "printed")?;
    let command = with_spare(alloc, command, "moves")?;
    let command = with_flag(alloc, command, "check")?;
    with_flag(alloc, command, "steady")
}

/// `fib`, with no command under it yet.
fn bare_command<'a>(alloc: Global) -> Command<'a>
    ensures { HasApp result bare_app }
{
    Command::new(alloc, "fib").subcommand_required(true)
}

/// `fib COMMAND`.
fn fib_command<'a>(alloc: Global) -> Result<Command<'a>, AllocError>
    ensures { IfOk result (λ c. HasApp c fib_app) }
{
    let run = run_command(alloc)?;
    let command = with_command(bare_command(alloc), run)?;
    let check = check_command(alloc)?;
    let command = with_command(command, check)?;
    let make = make_command(alloc)?;
    let command = with_command(command, make)?;
    let steps = steps_command(alloc)?;
    let command = with_command(command, steps)?;
    let same = same_command(alloc)?;
    let command = with_command(command, same)?;
    let save = save_command(alloc)?;
    let command = with_command(command, save)?;
    let moves = moves_command(alloc)?;
    with_command(command, moves)
}

/// How many events a snapshot follows, by the word after `--every`, and 0 if there is none. `None` exactly if the word isn't
/// a number from 0 to 4,294,967,295 in plain decimal.
fn every_of(word: Option<&str>) -> Option<u32>
    ensures { result ≡ number_or 0 (2 ^ 32) (option_map (λ w. w.now) word.entry) }
{
    match word {
        Some(word) => {
            let number = read_number(word.as_bytes(), u64::from(u32::MAX))?;
            Some(number as u32)
        }
        None => Some(0),
    }
}

/// Direct bits, or the order of an arena: the number that the word writes, or the usual one if there is none. `None` exactly
/// if the word isn't a number from 0 to `most` in plain decimal.
fn size_of(word: Option<&str>, usual: u8, most: u8) -> Option<u8>
    requires { usual ≤ most }
    ensures same { result ≡ number_or usual (most + 1) (option_map (λ w. w.now) word.entry) }
    ensures within { IfSome result (λ size. size ≤ most) }
{
    match word {
        Some(word) => {
            let number = read_number(word.as_bytes(), u64::from(most))?;
            Some(number as u8)
        }
        None => Some(usual),
    }
}

/// The sizes of a trie that the matches name.
fn sizes_of(matches: &ArgMatches<'_>) -> Option<SizesWords>
    ensures same { option_map named_sizes_as result ≡ sizes_by (rows_of (found_of matches.now)) }
    ensures within { IfSome result AreSizes }
{
    let direct = size_of(matches.get_str("direct"), USUAL_DIRECT, 18)?;
    let nodes = size_of(matches.get_str("nodes"), USUAL_NODES, 24)?;
    let leaves = size_of(matches.get_str("leaves"), USUAL_LEAVES, 26)?;
    Some(SizesWords {
        direct,
        nodes,
        leaves,
    })
}

/// Whether a flag stands: clap gives it the word `true`.
fn is_on(word: Option<&str>) -> bool
    ensures { result ≡ is_on (option_map (λ w. w.now) word.entry) }
{
    match word {
        Some(word) => word == "true",
        None => false,
    }
}

/// What the matches of `run` name.
fn run_words<'a>(matches: &ArgMatches<'a>) -> Option<RunWords<'a>>
    ensures same { option_map named_as result ≡ named_by (rows_of (found_of matches.now)) }
    ensures within { IfSome result (λ run. AreWithinLimits (CommandWords.Run run)) }
{
    let dump = matches.get_str("dump")?;
    let every = every_of(matches.get_str("every"))?;
    let sizes = sizes_of(matches)?;
    Some(RunWords {
        dump,
        updates: matches.get_str("updates"),
        asks: matches.get_str("ask"),
        vrps: matches.get_str("vrps"),
        every,
        fewest: is_on(matches.get_str("fewest")),
        steady: is_on(matches.get_str("steady")),
        direct: sizes.direct,
        nodes: sizes.nodes,
        leaves: sizes.leaves,
    })
}

/// How many routes the word asks for. `None` exactly if it isn't a number from 1 to 200,000 in plain decimal.
fn routes_of(word: &str) -> Option<u32>
    ensures same { result ≡ option_and_then from_one (number_below 200001 word.now) }
    ensures within { IfSome result (λ routes. (1 ≤ routes) × (routes ≤ 200000)) }
{
    match read_number(word.as_bytes(), 200_000)? {
        0 => None,
        routes => Some(routes as u32),
    }
}

/// What all is drawn from, by its word. `None` exactly if it isn't a number below 2^64 in plain decimal.
fn seed_of(word: &str) -> Option<u64>
    ensures { result ≡ number_below (2 ^ 64) word.now }
{
    read_number(word.as_bytes(), u64::MAX)
}

/// What the matches of `make` ask for.
fn make_words(matches: &ArgMatches<'_>) -> Option<MakeWords>
    ensures same { option_map (λ made. asked_as (CommandWords.Make made)) result
        ≡ made_by (rows_of (found_of matches.now)) }
    ensures within { IfSome result (λ made. AreWithinLimits (CommandWords.Make made)) }
{
    let routes = routes_of(matches.get_str("routes")?)?;
    let seed = seed_of(matches.get_str("seed")?)?;
    Some(MakeWords { seed, routes })
}

/// What the matches of `steps` name.
fn steps_words<'a>(matches: &ArgMatches<'a>) -> Option<StepsWords<'a>>
    ensures same { option_map steps_as result ≡ steps_by (rows_of (found_of matches.now)) }
    ensures within { IfSome result (λ steps. AreWithinLimits (CommandWords.Steps steps)) }
{
    let dump = matches.get_str("dump")?;
    let updates = matches.get_str("updates")?;
    let script = matches.get_str("script")?;
    let sizes = sizes_of(matches)?;
    Some(StepsWords {
        dump,
        updates,
        script,
        direct: sizes.direct,
        nodes: sizes.nodes,
        leaves: sizes.leaves,
    })
}

/// Why clap refused the words.
fn why(error: &Error) -> WordsError
    ensures usage { result ≡ WordsError.Usage ↔ kind_of error.now ≢ ErrorKind.OutOfMemory }
    ensures memory { result ≡ WordsError.NoMemory ↔ kind_of error.now ≡ ErrorKind.OutOfMemory }
{
    match error.kind() {
        ErrorKind::OutOfMemory => WordsError::NoMemory,
        _ => WordsError::Usage,
    }
}

/// Which rows are compared: those that the word after `--rows` names, and the tables if there is none. `None` exactly if the word is none
/// of `route`, `table` and `least`.
fn kind_of(word: Option<&str>) -> Option<Kind>
    ensures { result ≡ kind_or (option_map (λ w. w.now) word.entry) }
{
    let Some(word) = word else {
        return Some(Kind::Table);
    };
    if word == "route" {
        return Some(Kind::Route);
    }
    if word == "table" {
        return Some(Kind::Table);
    }
    if word == "least" {
        return Some(Kind::Least);
    }
    None
}

/// What the matches of `same` name. `None` exactly if they lack a text, or `--rows` has another word.
fn same_words<'a>(
    alloc: Global,
    matches: &ArgMatches<'a>,
) -> Result<Option<SameWords<'a>>, AllocError>
    ensures { IfOk result (λ same. option_map same_as same ≡ same_by (rows_of (found_of matches.now))) }
{
    let Some(first) = matches.get_str("first") else {
        return Ok(None);
    };
    let Some(rest) = matches.get_strs("rest") else {
        return Ok(None);
    };
    let Some(rows) = kind_of(matches.get_str("rows")) else {
        return Ok(None);
    };
    let rest = Vec::from_slice(alloc, rest)?;
    Ok(Some(SameWords { first, rest, rows }))
}

/// What the matches of `save` name.
fn save_words<'a>(matches: &ArgMatches<'a>) -> Option<SaveWords<'a>>
    ensures { option_map save_as result ≡ save_by (rows_of (found_of matches.now)) }
{
    let dump = matches.get_str("dump")?;
    Some(SaveWords {
        dump,
        updates: matches.get_str("updates"),
    })
}

/// What `moves` asks for: what a router must change, or the check of a third text with such changes. `None` exactly if the flag of
/// a check stands without a third text, or that text without the flag, or a check is to be in steady order.
fn moves_of<'a>(
    router: &'a str,
    printed: &'a str,
    moves: Option<&'a str>,
    check: bool,
    steady: bool,
) -> Option<CommandWords<'a>>
    ensures same { option_map asked_as result ≡ moves_asked router.now printed.now
        (option_map (λ w. w.now) moves.entry) check steady }
    ensures within { IfSome result AreWithinLimits }
{
    match (moves, check, steady) {
        (None, false, _) => Some(CommandWords::Moves(MovesWords {
            router,
            printed,
            steady,
        })),
        (Some(moves), true, false) => Some(CommandWords::CheckMoves(CheckMovesWords {
            router,
            printed,
            moves,
        })),
        _ => None,
    }
}

/// What the matches of `moves` ask for.
fn moves_words<'a>(matches: &ArgMatches<'a>) -> Option<CommandWords<'a>>
    ensures same { option_map asked_as result ≡ moves_by (rows_of (found_of matches.now)) }
    ensures within { IfSome result AreWithinLimits }
{
    let router = matches.get_str("router")?;
    let printed = matches.get_str("printed")?;
    let moves = matches.get_str("moves");
    let check = is_on(matches.get_str("check"));
    let steady = is_on(matches.get_str("steady"));
    moves_of(router, printed, moves, check, steady)
}

/// The command in the matches, unless it is `same`.
fn other_command<'a>(matches: &ArgMatches<'a>) -> Option<CommandWords<'a>>
    requires { subcommand_name_of matches.now ≢ Some (codes "same") }
    ensures same { option_map asked_as result ≡ option_and_then asked_in
        (subcommand_rows_of matches.now) }
    ensures within { IfSome result AreWithinLimits }
{
    if let Some(run) = matches.subcommand_matches("run") {
        let names = run_words(run)?;
        return Some(CommandWords::Run(names));
    }
    if let Some(check) = matches.subcommand_matches("check") {
        let printed = check.get_str("printed")?;
        return Some(CommandWords::Check(printed));
    }
    if let Some(make) = matches.subcommand_matches("make") {
        let made = make_words(make)?;
        return Some(CommandWords::Make(made));
    }
    if let Some(steps) = matches.subcommand_matches("steps") {
        let names = steps_words(steps)?;
        return Some(CommandWords::Steps(names));
    }
    if let Some(save) = matches.subcommand_matches("save") {
        let names = save_words(save)?;
        return Some(CommandWords::Save(names));
    }
    let moves = matches.subcommand_matches("moves")?;
    moves_words(moves)
}

/// The command in the matches.
fn command_in<'a>(
    alloc: Global,
    matches: &ArgMatches<'a>,
) -> Result<Option<CommandWords<'a>>, AllocError>
    ensures same { IfOk result (λ command. option_map asked_as command ≡ option_and_then asked_in
        (subcommand_rows_of matches.now)) }
    ensures within { IfOk result (λ command. IfSome command AreWithinLimits) }
{
    let Some(same) = matches.subcommand_matches("same") else {
        return Ok(other_command(matches));
    };
    match same_words(alloc, same)? {
        Some(names) => Ok(Some(CommandWords::Same(names))),
        None => Ok(None),
    }
}

/// Reads the words of the command line, the program's name first.
///
/// Unless memory runs out, `Usage` comes exactly if the words are no command: clap's definition of the command line doesn't take
/// them; or what it takes names no command with its words; or a word that should be a number is none, or is out of its range.
/// What comes is in its ranges.
pub fn read_words<'a>(alloc: Global, words: &'a [String]) -> Result<CommandWords<'a>, WordsError>
    ensures command { IsCommand result (command_of (map string_bytes words.now)) }
    ensures within { IfOk result AreWithinLimits }
{
    let command: Command<'a> = fib_command(alloc)?;
    let matches = match command.try_get_matches_from(words) {
        Ok(matches) => matches,
        Err(error) => return Err(why(&error)),
    };
    let named = command_in(alloc, &matches)?;
    match named {
        Some(command) => Ok(command),
        None => Err(WordsError::Usage),
    }
}
