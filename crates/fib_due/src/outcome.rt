//! What a run or a check comes to.

ghost use Rattle.std.specs.Prelude.{◌≡◌, ◌+◌, ◌++◌, ◌≤◌, decimal, length};
ghost use Rattle.arrayvec.specs.ArrayVec.{array_vec_len};
ghost use Rattle.fib_due.specs.Ends.{outcome_line, name_of, status_of};
ghost use Rattle.fib_due.specs.Stops.{input_of};
ghost use Rattle.fib_due.specs.declared.outcome.Outcome.TheVariants.{Malformed as IsMalformed, HopsFull as IsHopsFull, TrieFull as IsTrieFull, BadLine as IsBadLine, TooLarge as IsTooLarge, PeersFull as IsPeersFull, PathTooLong as IsPathTooLong};

use arrayvec::ArrayVec;
use cert_check::No;
use fib_prefix::{MOST_TEXT, Prefix, prefix_text};
use fib_same::Difference;
use itoa::Buffer;
use router_moves::WrongMoves;

/// Room for the line that reports an outcome.
pub const MOST_LINE: usize = 128;

/// An input, by what it is for.
#[derive(Clone, Copy, Debug, PartialEq, Eq)]
pub enum Which {
    /// The addresses that are asked for.
    Asks,
    /// The list of validated ROA payloads (VRPs).
    Vrps,
    /// The dump of routes.
    Dump,
    /// The updates to them.
    Updates,
    /// The printed text that is checked.
    Printed,
    /// The script of a run in steps.
    Script,
    /// A printed text that is compared with others, by its number from 1.
    Text(u64),
}

/// An input of MRT records.
#[derive(Clone, Copy, Debug, PartialEq, Eq)]
pub enum MrtInput {
    /// The dump of routes.
    Dump,
    /// The updates to them.
    Updates,
}

impl MrtInput {
    /// The input, among all.
    pub fn which(self) -> Which
        ensures { result ≡ input_of self }
    {
        match self {
            MrtInput::Dump => Which::Dump,
            MrtInput::Updates => Which::Updates,
        }
    }
}

/// What a run or a check comes to.
#[derive(Clone, Copy, Debug, PartialEq, Eq)]
pub enum Outcome {
    /// All was accepted, read to its end, and written.
    Done,
    /// A printed text was checked and isn't proved; out has a row that says why.
    CheckNo(No),
    /// A printed text says another table than the first one; out has a row that says where.
    Differ(Difference),
    /// What a router was told to change was checked and isn't proved to be the fewest changes; out has a row that says why.
    MovesNo(WrongMoves),
    /// The words aren't a command.
    Usage,
    /// An input couldn't be read.
    ReadFault,
    /// The output couldn't be written; its first n octets were, for some n.
    WriteFault,
    /// A record of this input breaks a rule of reading.
    Malformed {
        /// The input.
        input: Which,
        /// The record's number in its input, from 0.
        number: u64,
        /// The rule of reading that it breaks, by its number in docs/FORMATS.md.
        rule: u8,
    },
    /// An event brings the 65,535th different next hop.
    HopsFull {
        /// The number of the elementary event in the updates, from 1; 0 for the load.
        event: u64,
    },
    /// Tries of the routes after an event need more places than an arena has.
    TrieFull {
        /// The number of the elementary event in the updates, from 1; 0 for the end of the load.
        event: u64,
        /// The places that they need, at most 2^64 - 1.
        need: u64,
        /// The places that there are.
        have: u64,
        /// The first such arena: 0 that of IPv4's nodes, 1 of its leaves, 2 of IPv6's nodes, 3 of its leaves.
        arena: u8,
    },
    /// A line of this input isn't of its form.
    BadLine {
        /// The input.
        input: Which,
        /// The line's number, from 1.
        line: u64,
        /// What is wrong with it. Of asks 1: it is no address. Of a list of VRPs, of printed texts and of a script `printed_text::why` names
        /// it, and of a list of VRPs `fib_rov::BAD_MAXLEN` too.
        why: u8,
    },
    /// Memory ran out.
    NoMemory,
    /// This input has more than 2^36 octets.
    TooLarge {
        /// The input.
        input: Which,
    },
    /// More peers have a candidate than the peer table of a dump holds: more than 65,535.
    PeersFull {
        /// How many have one.
        peers: u64,
    },
    /// The path of a candidate is too long to be written: longer than 15,000.
    PathTooLong {
        /// The prefix of the first such candidate.
        prefix: Prefix,
        /// The length of its path.
        length: u32,
    },
}

/// The line that reports an outcome, in octets.
pub type Line = ArrayVec<u8, MOST_LINE>;

/// Adds a text to a line.
fn push(line: &mut Line, text: &[u8])
    requires { array_vec_len line.old + length text.now ≤ MOST_LINE }
    ensures text { line.new.items ≡ line.old.items ++ text.now }
    ensures len { array_vec_len line.new ≡ array_vec_len line.old + length text.now }
{
    let _ = line.try_extend_from_slice(text);
}

/// Adds a number to a line.
fn push_number(line: &mut Line, number: u64)
    requires { array_vec_len line.old + 20 ≤ MOST_LINE }
    ensures text { line.new.items ≡ line.old.items ++ decimal number }
    ensures len { array_vec_len line.new ≤ array_vec_len line.old + 20 }
{
    push(line, Buffer::new().format(number).as_bytes());
}

/// Adds what an input is called to a line: `asks`, `vrps`, `dump`, `updates`, `printed`, `script`, or `text` with its number.
fn push_name(line: &mut Line, input: Which)
    requires { array_vec_len line.old + 24 ≤ MOST_LINE }
    ensures text { line.new.items ≡ line.old.items ++ name_of input }
    ensures len { array_vec_len line.new ≤ array_vec_len line.old + 24 }
{
    match input {
        Which::Asks => push(line, b"asks"),
        Which::Vrps => push(line, b"vrps"),
        Which::Dump => push(line, b"dump"),
        Which::Updates => push(line, b"updates"),
        Which::Printed => push(line, b"printed"),
        Which::Script => push(line, b"script"),
        Which::Text(number) => {
            push(line, b"text");
            push_number(line, number);
        }
    }
}

/// `fib: malformed INPUT record NUMBER rule RULE`.
fn malformed_line(input: Which, number: u64, rule: u8) -> Line
    ensures { result.items ≡ outcome_line (IsMalformed input number rule) }
{
    let mut line = Line::new();
    push(&mut line, b"fib: malformed ");
    push_name(&mut line, input);
    push(&mut line, b" record ");
    push_number(&mut line, number);
    push(&mut line, b" rule ");
    push_number(&mut line, u64::from(rule));
    push(&mut line, b"\n");
    line
}

/// `fib: too many hops at event EVENT`.
fn hops_full(event: u64) -> Line
    ensures { result.items ≡ outcome_line (IsHopsFull event) }
{
    let mut line = Line::new();
    push(&mut line, b"fib: too many hops at event ");
    push_number(&mut line, event);
    push(&mut line, b"\n");
    line
}

/// `fib: trie full at event EVENT: arena ARENA needs NEED of HAVE`.
fn trie_full(event: u64, need: u64, have: u64, arena: u8) -> Line
    ensures { result.items ≡ outcome_line (IsTrieFull event need have arena) }
{
    let mut line = Line::new();
    push(&mut line, b"fib: trie full at event ");
    push_number(&mut line, event);
    push(&mut line, b": arena ");
    push_number(&mut line, u64::from(arena));
    push(&mut line, b" needs ");
    push_number(&mut line, need);
    push(&mut line, b" of ");
    push_number(&mut line, have);
    push(&mut line, b"\n");
    line
}

/// `fib: bad line INPUT LINE why WHY`.
fn bad_line(input: Which, number: u64, why: u8) -> Line
    ensures { result.items ≡ outcome_line (IsBadLine input number why) }
{
    let mut line = Line::new();
    push(&mut line, b"fib: bad line ");
    push_name(&mut line, input);
    push(&mut line, b" ");
    push_number(&mut line, number);
    push(&mut line, b" why ");
    push_number(&mut line, u64::from(why));
    push(&mut line, b"\n");
    line
}

/// `fib: too large INPUT`.
fn too_large(input: Which) -> Line
    ensures { result.items ≡ outcome_line (IsTooLarge input) }
{
    let mut line = Line::new();
    push(&mut line, b"fib: too large ");
    push_name(&mut line, input);
    push(&mut line, b"\n");
    line
}

/// `fib: too many peers: PEERS`.
fn peers_full(peers: u64) -> Line
    ensures { result.items ≡ outcome_line (IsPeersFull peers) }
{
    let mut line = Line::new();
    push(&mut line, b"fib: too many peers: ");
    push_number(&mut line, peers);
    push(&mut line, b"\n");
    line
}

/// `fib: path too long at PREFIX: LENGTH`.
fn path_too_long(prefix: &Prefix, length: u32) -> Line
    ensures { result.items ≡ outcome_line (IsPathTooLong prefix.now length) }
{
    let mut buffer = [0; MOST_TEXT];
    let mut line = Line::new();
    push(&mut line, b"fib: path too long at ");
    push(&mut line, prefix_text(&mut buffer, prefix));
    push(&mut line, b": ");
    push_number(&mut line, u64::from(length));
    push(&mut line, b"\n");
    line
}

/// A line that is always the same.
fn plain(text: &[u8]) -> Line
    requires { length text.now ≤ MOST_LINE }
    ensures { result.items ≡ text.now }
{
    let mut line = Line::new();
    push(&mut line, text);
    line
}

impl Outcome {
    /// The number that the program ends with.
    pub fn status(&self) -> u8
        ensures { result ≡ status_of self.now }
    {
        match self {
            Outcome::Done => 0,
            Outcome::CheckNo(_) | Outcome::MovesNo(_) => 1,
            Outcome::Usage => 2,
            Outcome::ReadFault => 3,
            Outcome::WriteFault => 4,
            Outcome::Malformed { .. } => 5,
            Outcome::TrieFull { .. } => 6,
            Outcome::HopsFull { .. } => 7,
            Outcome::BadLine { .. } => 8,
            Outcome::NoMemory => 9,
            Outcome::TooLarge { .. } => 10,
            Outcome::PathTooLong { .. } => 11,
            Outcome::PeersFull { .. } => 12,
            Outcome::Differ(_) => 13,
        }
    }

    /// The line that reports it, with its line feed; nothing for Done.
    pub fn line(&self) -> Line
        ensures { result.items ≡ outcome_line self.now }
    {
        match *self {
            Outcome::Done => plain(b""),
            Outcome::CheckNo(_) | Outcome::MovesNo(_) => plain(b"fib: no\n"),
            Outcome::Usage => plain(b"fib: usage\n"),
            Outcome::ReadFault => plain(b"fib: read fault\n"),
            Outcome::WriteFault => plain(b"fib: write fault\n"),
            Outcome::Malformed {
                input,
                number,
                rule,
            } => malformed_line(input, number, rule),
            Outcome::HopsFull { event } => hops_full(event),
            Outcome::TrieFull {
                event,
                need,
                have,
                arena,
            } => trie_full(event, need, have, arena),
            Outcome::BadLine { input, line, why } => bad_line(input, line, why),
            Outcome::NoMemory => plain(b"fib: no memory\n"),
            Outcome::TooLarge { input } => too_large(input),
            Outcome::PathTooLong { prefix, length } => path_too_long(&prefix, length),
            Outcome::PeersFull { peers } => peers_full(peers),
            Outcome::Differ(_) => plain(b"fib: differ\n"),
        }
    }
}
