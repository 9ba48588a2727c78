//! Routes and entries come and go.

ghost use Rattle.std.specs.Prelude.{◌≡◌, IfOk};
ghost use Rattle.table_model.specs.declared.family.Family.TheVariants.{V4};

use crate::common::{Seen, prefix};
use fib_addr::{Addr, Answers, Entry, Family, Hop, Prefix};
use orig_tree::{EntriesOf, RoutesOf, Tree};
use std::alloc::{AllocError, Global};

/// A prefix's bits and length.
type Net = (u32, u8);

/// A prefix and its hop.
type Row = (Net, u16);

/// A change of the tree.
#[derive(Clone, Copy)]
enum Change {
    SetRoute(Net, u16),
    SetEntry(Net, u16),
    ClearRoute(Net),
    ClearEntry(Net),
    PutBack,
    Room(Net),
    Trim(Net),
}

/// A question, and its answer.
#[derive(Clone, Copy)]
enum Ask {
    Routes(&'static [Row]),
    Entries(&'static [Row]),
    EntriesWithin(Net, &'static [Row]),
    Route(Net, Option<u16>),
    /// What the routes and what the entries answer for an address.
    Answers(u32, u16, u16),
    /// What they answer for a whole prefix, if that is one hop.
    Uniform(Net, Option<u16>, Option<u16>),
    /// What a prefix inherits from the entries.
    Inherited(Net, u16),
    /// The k of the whole space.
    K(u64),
    /// Whether there is a node for the upper half.
    HasUpper(bool),
}

const ALL: Net = (0, 0);

const LOWER: Net = (0x4000_0000, 2);

const UPPER: Net = (0x8000_0000, 1);

/// 10/8.
const WIDE: Net = (0x0a00_0000, 8);

/// 10.1/16.
const NARROW: Net = (0x0a01_0000, 16);

/// 10.2/16.
const BESIDE: Net = (0x0a02_0000, 16);

/// An address in 10.1/16.
const INSIDE: u32 = 0x0a01_0001;

/// Routes at 10/8 and 10.1/16, and an entry at 10/8.
const FILLED: &[Change] = &[
    Change::SetRoute(NARROW, 2),
    Change::SetRoute(WIDE, 1),
    Change::SetEntry(WIDE, 3),
];

/// Changes of an empty tree, and then questions.
const CASES: [(&str, &[Change], &[Ask]); 6] = [
    (
        "routes and entries",
        FILLED,
        &[
            Ask::Routes(&[(WIDE, 1), (NARROW, 2)]),
            Ask::Entries(&[(WIDE, 3)]),
            Ask::EntriesWithin(WIDE, &[(WIDE, 3)]),
            Ask::EntriesWithin(NARROW, &[]),
            Ask::Route(NARROW, Some(2)),
            Ask::Answers(INSIDE, 2, 3),
            Ask::Uniform(NARROW, Some(2), Some(3)),
            Ask::Uniform(WIDE, None, Some(3)),
            Ask::Uniform(BESIDE, Some(1), Some(3)),
            Ask::Uniform(ALL, None, None),
            Ask::Inherited(NARROW, 3),
            Ask::Inherited(WIDE, 0),
            Ask::K(2),
        ],
    ),
    (
        "what is taken away is gone",
        &[
            Change::SetRoute(NARROW, 2),
            Change::SetRoute(WIDE, 1),
            Change::SetEntry(WIDE, 3),
            Change::ClearRoute(NARROW),
            Change::ClearEntry(WIDE),
        ],
        &[
            Ask::Answers(INSIDE, 1, 0),
            Ask::Uniform(WIDE, Some(1), Some(0)),
            Ask::K(1),
        ],
    ),
    (
        "a change is put back",
        &[
            Change::SetRoute(NARROW, 2),
            Change::SetRoute(WIDE, 1),
            Change::ClearRoute(NARROW),
            Change::PutBack,
        ],
        &[Ask::Route(NARROW, Some(2)), Ask::K(2)],
    ),
    (
        "room that something may use",
        &[Change::Room(UPPER), Change::Room(LOWER)],
        &[Ask::HasUpper(true)],
    ),
    (
        "room that nothing uses is given back",
        &[Change::Room(UPPER), Change::Trim(UPPER)],
        &[Ask::HasUpper(false)],
    ),
    (
        "a route stays",
        &[
            Change::Room(UPPER),
            Change::SetRoute(UPPER, 1),
            Change::Trim(UPPER),
        ],
        &[Ask::HasUpper(true), Ask::Routes(&[(UPPER, 1)])],
    ),
];

fn net(net: Net) -> Prefix
    ensures { result.family ≡ V4 }
{
    prefix(net.0, net.1.min(32))
}

/// Whether the entries are these.
fn are_rows(entries: &[Entry], due: &[Row]) -> bool {
    entries.len() == due.len()
        && entries.iter().zip(due).all(|(entry, (at, hop))| entry.prefix == net(*at)
            && entry.hop == Hop(*hop))
}

fn make(tree: &mut Tree, change: Change) -> Result<(), AllocError>
    requires { tree.old.family ≡ V4 }
    ensures { tree.new.family ≡ tree.old.family }
{
    match change {
        Change::SetRoute(at, hop) => tree.set_route(&net(at), Hop(hop.max(1)))?,
        Change::SetEntry(at, hop) => tree.set_entry(&net(at), Hop(hop))?,
        Change::ClearRoute(at) => tree.clear_route(&net(at))?,
        Change::ClearEntry(at) => tree.clear_entry(&net(at)),
        Change::PutBack => tree.put_back(),
        Change::Room(at) => tree.room(&net(at))?,
        Change::Trim(at) => tree.trim(&net(at)),
    }
    Ok(())
}

/// The tree that these changes make of an empty one.
fn tree_of(alloc: Global, changes: &[Change]) -> Result<Tree, AllocError>
    ensures { IfOk result (λ t. t.family ≡ V4) }
{
    let mut tree = Tree::new(alloc, Family::V4);
    for change in changes {
        make(&mut tree, *change)?;
    }
    Ok(tree)
}

/// What a table answers about a whole prefix, asked as any such table is.
fn uniform<A: Answers>(table: &A, prefix: &Prefix) -> Option<Hop>
    requires { prefix.now.family ≡ A.of table.now }
{
    table.uniform(prefix)
}

/// Whether the answer is the one that is due.
fn is_right(tree: &Tree, ask: Ask) -> Result<bool, AllocError>
    requires { tree.now.family ≡ V4 }
{
    Ok(match ask {
        Ask::Routes(due) => are_rows(&tree.routes()?, due),
        Ask::Entries(due) => are_rows(&tree.entries()?, due),
        Ask::EntriesWithin(at, due) => are_rows(&tree.entries_within(&net(at))?, due),
        Ask::Route(at, due) => tree.route(&net(at)) == due.map(Hop),
        Ask::Answers(bits, route, entry) => {
            let addr = Addr::v4(bits);
            tree.answer_route(&addr) == Hop(route) && tree.answer_entry(&addr) == Hop(entry)
        }
        Ask::Uniform(at, route, entry) => {
            uniform(&RoutesOf(tree), &net(at)) == route.map(Hop)
                && uniform(&EntriesOf(tree), &net(at)) == entry.map(Hop)
        }
        Ask::Inherited(at, due) => tree.inherited(&net(at)) == Hop(due),
        Ask::K(due) => tree.region(&net(ALL)).k() == due,
        Ask::HasUpper(due) => tree.root().half(true).is_some() == due,
    })
}

/// The place of the first question whose answer isn't the one that is due, if there is one.
fn first_wrong(
    alloc: Global,
    changes: &[Change],
    asks: &[Ask],
) -> Result<Option<usize>, AllocError> {
    let tree = tree_of(alloc, changes)?;
    for (place, ask) in asks.iter().enumerate() {
        if !is_right(&tree, *ask)? {
            return Ok(Some(place));
        }
    }
    Ok(None)
}

#[test]
fn routes_and_entries_come_and_go(rt: HostRuntime) -> Result<(), AllocError> {
    for (name, changes, asks) in CASES {
        assert_eq!(rt; first_wrong(rt.alloc(), changes, asks)?, None, "{name}");
    }
    Ok(())
}

fn entries_of(alloc: Global, rows: &[Row]) -> Result<Vec<Entry>, AllocError> {
    let mut entries = Vec::new(alloc);
    for (at, hop) in rows {
        entries.push(Entry {
            prefix: net(*at),
            hop: Hop(*hop),
        })?;
    }
    Ok(entries)
}

/// Whether a tree of these routes that is given them as entries too, some after one of IPv6, has these routes, entries, nodes
/// within 10/8 and k.
fn is_loaded(
    alloc: Global,
    given: &[Row],
    due: &[Row],
    counts: (u64, u64),
) -> Result<bool, AllocError> {
    let mut rows = entries_of(alloc, given)?;
    rows.push(Entry {
        prefix: Prefix::whole(Family::V6),
        hop: Hop(9),
    })?;
    let tree = Tree::load(alloc, Family::V4, &rows)?.insert_entries(&rows)?;
    Ok(
        are_rows(&tree.routes()?, due)
            && are_rows(&tree.entries()?, due)
            && (tree.nodes_within(&net(WIDE)), tree.region(&net(ALL)).k()) == counts,
    )
}

#[test]
fn lists_come_in_any_order_and_the_last_at_a_prefix_counts(
    rt: HostRuntime,
) -> Result<(), AllocError> {
    const DUE: &[Row] = &[(WIDE, 1), (NARROW, 2), (BESIDE, 3)];
    let cases: [&[Row]; 3] = [
        DUE,
        &[(BESIDE, 3), (NARROW, 2), (WIDE, 1)],
        &[(BESIDE, 7), (WIDE, 7), (WIDE, 1), (NARROW, 2), (BESIDE, 3)],
    ];
    for given in cases {
        assert!(rt; is_loaded(rt.alloc(), given, DUE, (11, 3))?);
    }
    Ok(())
}

#[test]
fn changes_of_routes_cost_the_way_and_what_is_within(rt: HostRuntime) -> Result<(), AllocError> {
    let mut halves = tree_of(rt.alloc(), &[Change::SetRoute((0, 1), 1)])?;
    let mut beside = Seen { steps: 0 };
    halves.set_route_counted(&net(UPPER), Hop(2), &mut beside)?;
    assert_eq!(rt; beside.steps, 2);
    let mut tree = tree_of(rt.alloc(), FILLED)?;
    let mut cleared = Seen { steps: 0 };
    tree.clear_route_counted(&net(WIDE), &mut cleared)?;
    assert!(rt; cleared.steps <= 8 + 1 + 9);
    Ok(())
}
