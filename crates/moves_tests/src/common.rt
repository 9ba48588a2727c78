//! Tables, changes and rows, written down shortly: a prefix by its family's first 32 bits and its length.

ghost use Rattle.std.specs.Prelude.{◌≡◌, ◌∷◌, [], map, IfOk, OnOk};
ghost use Rattle.cert_model.specs.Views.{row_as};
ghost use Rattle.fib_addr.specs.Views.{entry_as};
ghost use Rattle.fib_delta.specs.Views.{change_as};
ghost use Rattle.moves_check.specs.Views.{AreEntriesOf, AreChangesOf, AreRowsOf};

use cert_model::Row;
use fib_addr::{Addr, Entry, Family, Hop, Prefix};
use fib_delta::Change;
use std::alloc::{AllocError, Global};

/// A prefix, and a hop.
pub(crate) type Net = (u32, u8, u16);

/// A change.
#[derive(Clone, Copy)]
pub(crate) enum Told {
    Add(u32, u8, u16),
    Replace(u32, u8, u16),
    Remove(u32, u8),
}

/// A row: a leaf with its hop, a join with its k, or the bound.
#[derive(Clone, Copy)]
pub(crate) enum Step {
    Leaf(u32, u8, u16),
    Join(u32, u8, u64),
    Bound(u64),
}

pub(crate) fn prefix(family: Family, bits: u32, len: u8) -> Prefix
    ensures { result.family ≡ family }
{
    match family {
        Family::V4 => Prefix::new(&Addr::v4(bits), len.min(32)),
        Family::V6 => Prefix::new(&Addr::v6(u128::from(bits) << 96), len.min(128)),
    }
}

fn push_net(family: Family, net: Net, list: &mut Vec<Entry>) -> Result<(), AllocError>
    requires { AreEntriesOf family (map entry_as list.old.items) }
    ensures { OnOk result (AreEntriesOf family (map entry_as list.new.items)) }
{
    let prefix = prefix(family, net.0, net.1);
    let hop = Hop(net.2);
    list.push(Entry { prefix, hop })?;
    Ok(())
}

pub(crate) fn entries_of(
    alloc: Global,
    family: Family,
    nets: &[Net],
) -> Result<Vec<Entry>, AllocError>
    ensures { IfOk result (λ v. AreEntriesOf family (map entry_as v.items)) }
{
    let mut list = Vec::new(alloc);
    for net in nets {
        push_net(family, *net, &mut list)?;
    }
    Ok(list)
}

fn change(family: Family, told: Told) -> Change
    ensures { AreChangesOf family (change_as result ∷ []) }
{
    match told {
        Told::Add(bits, len, hop) => Change::Add(prefix(family, bits, len), Hop(hop)),
        Told::Replace(bits, len, hop) => Change::Replace(prefix(family, bits, len), Hop(hop)),
        Told::Remove(bits, len) => Change::Remove(prefix(family, bits, len)),
    }
}

fn push_change(family: Family, told: Told, list: &mut Vec<Change>) -> Result<(), AllocError>
    requires { AreChangesOf family (map change_as list.old.items) }
    ensures { OnOk result (AreChangesOf family (map change_as list.new.items)) }
{
    let change = change(family, told);
    list.push(change)?;
    Ok(())
}

pub(crate) fn changes_of(
    alloc: Global,
    family: Family,
    told: &[Told],
) -> Result<Vec<Change>, AllocError>
    ensures { IfOk result (λ v. AreChangesOf family (map change_as v.items)) }
{
    let mut list = Vec::new(alloc);
    for change in told {
        push_change(family, *change, &mut list)?;
    }
    Ok(list)
}

fn row(family: Family, step: Step) -> Row
    ensures { AreRowsOf family (row_as result ∷ []) }
{
    match step {
        Step::Leaf(bits, len, hop) => Row::Leaf(prefix(family, bits, len), Hop(hop)),
        Step::Join(bits, len, k) => Row::Join(prefix(family, bits, len), k),
        Step::Bound(bound) => Row::Bound(family, bound),
    }
}

fn push_step(family: Family, step: Step, list: &mut Vec<Row>) -> Result<(), AllocError>
    requires { AreRowsOf family (map row_as list.old.items) }
    ensures { OnOk result (AreRowsOf family (map row_as list.new.items)) }
{
    let row = row(family, step);
    list.push(row)?;
    Ok(())
}

pub(crate) fn rows_of(alloc: Global, family: Family, steps: &[Step]) -> Result<Vec<Row>, AllocError>
    ensures { IfOk result (λ v. AreRowsOf family (map row_as v.items)) }
{
    let mut list = Vec::new(alloc);
    for step in steps {
        push_step(family, *step, &mut list)?;
    }
    Ok(list)
}
