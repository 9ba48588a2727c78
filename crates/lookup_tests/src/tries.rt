//! What tries of one route need, and of two.

ghost use Rattle.std.specs.Prelude.{◌≡◌, IfOk};
ghost use Rattle.table_model.specs.declared.family.Family.TheVariants.{V4};

use fib_addr::{Addr, Family, Hop, Prefix};
use orig_tree::Tree;
use route_tries::{Needs, TrieFull, need_after, need_at, need_of};
use std::alloc::{AllocError, Global};
use std::test::Fail;

const TEN: u32 = 0x0a00_0000;

const OTHER: u32 = 0xc000_0000;

/// An IPv4 tree of one route.
fn tree_of(alloc: Global, bits: u32, len: u8) -> Result<Tree, AllocError>
    ensures { IfOk result (λ t. t.family ≡ V4) }
{
    let mut tree = Tree::new(alloc, Family::V4);
    tree.set_route(&Prefix::new(&Addr::v4(bits), len.min(32)), Hop(1))?;
    Ok(tree)
}

fn needs(nodes: u64, leaves: u64) -> Needs {
    Needs { nodes, leaves }
}

/// A route's bits and length, direct bits, and what its trie needs.
const WHOLE: [((u32, u8), u8, (u64, u64)); 3] = [
    ((TEN, 8), 0, (2, 5)),
    ((TEN, 8), 16, (0, 0)),
    ((TEN + 1, 32), 16, (3, 6)),
];

/// A prefix's bits and length, and what the trie of 10.0.0.1/32 needs at it: from the node on of 10.0.0.0/28 or of 10.0.0.0/22 where
/// that lasts, as 10.0.0.1 is beside the prefix.
const ON_THE_WAY: [((u32, u8), (u64, u64)); 6] = [
    ((TEN, 0), (3, 6)),
    ((TEN + 7, 30), (1, 4)),
    ((TEN + 64, 26), (2, 1)),
    ((TEN + 1, 32), (3, 6)),
    ((TEN + 32768, 17), (2, 1)),
    ((OTHER, 20), (0, 0)),
];

/// What is needed at a prefix of an IPv4 address.
fn at(tree: &Tree, direct: u8, bits: u32, len: u8) -> Needs
    requires { tree.now.family ≡ V4 }
{
    need_at(
        tree,
        direct.min(18),
        &Prefix::new(&Addr::v4(bits), len.min(32)),
    )
}

#[test]
fn needs_are_counted(rt: HostRuntime) -> Result<(), AllocError> {
    for ((bits, len), direct, (nodes, leaves)) in WHOLE {
        let tree = tree_of(rt.alloc(), bits, len)?;
        assert_eq!(rt; need_of(&tree, direct.min(18)), needs(nodes, leaves));
    }
    let host = tree_of(rt.alloc(), TEN + 1, 32)?;
    for ((bits, len), (nodes, leaves)) in ON_THE_WAY {
        assert_eq!(rt; at(&host, 16, bits, len), needs(nodes, leaves));
    }
    assert_eq!(rt;
        need_after(needs(5, 9), needs(3, 6), needs(1, 2)),
        needs(3, 5)
    );
    Ok(())
}

/// A tree of one route, and one with the other beside it.
fn one_and_both(alloc: Global) -> Result<(Tree, Tree), AllocError>
    ensures { IfOk result (λ t. (t.0.family ≡ V4) × (t.1.family ≡ V4)) }
{
    let one = tree_of(alloc, TEN, 8)?;
    let mut both = tree_of(alloc, TEN, 8)?;
    both.set_route(&Prefix::new(&Addr::v4(OTHER), 8), Hop(1))?;
    Ok((one, both))
}

#[test]
fn a_change_moves_the_need(rt: HostRuntime) -> Result<(), AllocError> {
    let (one, both) = one_and_both(rt.alloc())?;
    assert_eq!(rt; at(&one, 0, 0, 5), needs(2, 1));
    assert_eq!(rt; at(&one, 0, TEN, 5), needs(2, 5));
    let before = at(&one, 0, OTHER, 8);
    let after = at(&both, 0, OTHER, 8);
    assert_eq!(rt; before, needs(2, 1));
    assert_eq!(rt; after, needs(3, 3));
    assert_eq!(rt; need_after(needs(2, 5), before, after), needs(3, 7));
    assert_eq!(rt; need_of(&both, 0), needs(3, 7));
    Ok(())
}

#[test]
fn a_refusal_has_its_numbers_in_place(rt: HostRuntime) -> Result<(), Fail> {
    let alloc = rt.alloc();
    let full = TrieFull {
        arena: 1,
        need: 5,
        have: 4,
    };
    assert_eq!(rt;
        format!(in alloc; "{full}")?.as_str(),
        "arena 1 needs 5 of 4"
    );
    Ok(())
}
