//! The direct words of a prefix's slots, made anew beside the old ones.

ghost use Rattle.std.specs.Prelude.{◌≡◌, ℕ, ◌+◌, ◌-◌, ◌^◌, ◌<◌, ◌≤◌, [], IfErr, OnOk, OnErr, drop, length, slice_index};
ghost use Rattle.table_model.specs.Bits.{bits_of};
ghost use Rattle.table_model.specs.Width.{width};
ghost use Rattle.buddy_arena.specs.Space.{IsSized};
ghost use Rattle.buddy_arena.specs.Places.{is_out};
ghost use Rattle.buddy_arena.specs.Arrays.{AreApart};
ghost use Rattle.buddy_arena.specs.Blocks.{blocks_of, cancelled};
ghost use Rattle.fib_addr.specs.Views.{prefix_as};
ghost use Rattle.fib_addr.specs.Answers.{part};
ghost use Rattle.poptrie_build.specs.Stands.{blank};
ghost use Rattle.path_copying.specs.Changes.{Gains};
ghost use Rattle.path_copying.specs.Ways.{IsOldWord};
ghost use Rattle.path_copying.specs.Stores.{stored, AreStores};
ghost use Rattle.poptrie_set.specs.Renewals.{Rebuilds, SetsAside, MeetsRenewal, MeetsNotRenewal, KeepsRenewal, GivesAllBack};

use fib_addr::{Prefix, Region};
use path_copying::{Arenas, Refusal, Store, Way, copy_slots};

/// The part of a region whose addresses have these bits next, one at least.
fn part_of<R: Region>(region: &R, number: u32, depth: u8) -> R
    requires some { 0 < depth }
    requires few { depth ≤ 18 }
    requires fits { depth ≤ R.bits region.now }
    ensures bits { R.bits result + depth ≡ R.bits region.now }
    ensures answers { R.answers result ≡ part (bits_of depth number) (R.answers region.now) }
{
    let at = depth - 1;
    let half = region.half((number >> at) & 1 == 1);
    if at == 0 {
        return half;
    }
    part_of(&half, number, at)
}

/// Makes the direct words of the slots that have addresses of a prefix anew beside the old ones, for the answers of the region of
/// all addresses, and lists those that differ. Its answers are as they were outside `within`: what is beside the way there isn't
/// compared.
///
/// # Errors
///
/// Out of memory, or a block is refused. What was taken is listed, and what was to be replaced too.
fn rebuild<R: Region>(
    region: &R,
    prefix: &Prefix,
    within: &Prefix,
    direct_bits: u8,
    words: &[u32],
    arenas: &mut Arenas,
    stores: &mut Vec<Store>,
) -> Result<(), Refusal>
    requires bits { R.bits region.now ≡ width prefix.now.family }
    requires family { within.now.family ≡ prefix.now.family }
    requires few { direct_bits ≤ 18 }
    requires many { length words.now ≡ 2 ^ direct_bits }
    requires nodes_sized { IsSized arenas.old.nodes }
    requires leaves_sized { IsSized arenas.old.leaves }
    requires nodes_time { arenas.old.node_blocks.time < 18446744073709551615 }
    requires leaves_time { arenas.old.leaf_blocks.time < 18446744073709551615 }
    requires words { (v : ℕ) → v < 2 ^ direct_bits → IsOldWord arenas.old.nodes arenas.old.leaves
        (slice_index words.now v) (drop direct_bits (prefix_as within.now).bits) (R.bits region.now
        - direct_bits) (part (bits_of direct_bits v) (R.answers region.now)) }
    requires none { stores.old.items ≡ [] }
    ensures nodes { Gains blank arenas.old.nodes arenas.old.node_blocks arenas.new.nodes
        arenas.new.node_blocks }
    ensures leaves { Gains 0 arenas.old.leaves arenas.old.leaf_blocks arenas.new.leaves
        arenas.new.leaf_blocks }
    ensures stores { OnOk result (AreStores words.now stores.new.items (2 ^ direct_bits)) }
    ensures rebuilds { OnOk result (Rebuilds arenas.old.nodes arenas.old.node_blocks
        arenas.old.leaves arenas.old.leaf_blocks (stored [] words.now) arenas.new.nodes
        arenas.new.node_blocks arenas.new.leaves arenas.new.leaf_blocks (stored stores.new.items
        words.now) (prefix_as prefix.now).bits direct_bits (R.bits region.now - direct_bits)
        (R.answers region.now)) }
    ensures aside { OnOk result (SetsAside arenas.old.nodes arenas.old.node_blocks arenas.old.leaves
        arenas.old.leaf_blocks (stored [] words.now) arenas.new.nodes arenas.new.node_blocks
        arenas.new.leaves arenas.new.leaf_blocks direct_bits (R.bits region.now - direct_bits)) }
    ensures kept { OnOk result (KeepsRenewal arenas.old.nodes arenas.old.leaves words.now
        stores.new.items (prefix_as prefix.now).bits direct_bits (R.bits region.now - direct_bits)
        (R.answers region.now)) }
    ensures met { OnOk result (MeetsRenewal arenas.old.nodes arenas.old.leaves words.now
        arenas.new.nodes arenas.new.leaves (prefix_as prefix.now).bits direct_bits (R.bits
        region.now - direct_bits) (R.answers region.now)) }
    ensures refused { IfErr result (λ e. MeetsNotRenewal arenas.old.nodes arenas.old.leaves
        words.now (prefix_as prefix.now).bits direct_bits (R.bits region.now - direct_bits)
        (R.answers region.now) e) }
{
    let way = Way::to(within);
    let bits = prefix.family.width();
    let len = prefix.len.min(direct_bits);
    if len == 0 {
        return copy_slots(region, &way, direct_bits, 0, words, arenas, stores);
    }
    let number = (prefix.bits >> (bits - len)) as u32;
    let depth = direct_bits - len;
    copy_slots(
        &part_of(region, number, len),
        &way.below(len),
        depth,
        number << depth,
        words,
        arenas,
        stores,
    )
}

/// Makes the direct words of a prefix's slots anew as `rebuild` does, or leaves all as it was.
///
/// # Errors
///
/// Out of memory, or a block is refused. What was taken is given back, and nothing is listed.
pub(crate) fn rebuild_or_undo<R: Region>(
    region: &R,
    prefix: &Prefix,
    within: &Prefix,
    direct_bits: u8,
    words: &[u32],
    arenas: &mut Arenas,
    stores: &mut Vec<Store>,
) -> Result<(), Refusal>
    requires bits { R.bits region.now ≡ width prefix.now.family }
    requires family { within.now.family ≡ prefix.now.family }
    requires few { direct_bits ≤ 18 }
    requires many { length words.now ≡ 2 ^ direct_bits }
    requires nodes_sized { IsSized arenas.old.nodes }
    requires leaves_sized { IsSized arenas.old.leaves }
    requires nodes_time { arenas.old.node_blocks.time < 18446744073709551615 }
    requires leaves_time { arenas.old.leaf_blocks.time < 18446744073709551615 }
    requires words { (v : ℕ) → v < 2 ^ direct_bits → IsOldWord arenas.old.nodes arenas.old.leaves
        (slice_index words.now v) (drop direct_bits (prefix_as within.now).bits) (R.bits region.now
        - direct_bits) (part (bits_of direct_bits v) (R.answers region.now)) }
    requires none { stores.old.items ≡ [] }
    requires nodes_quiet { arenas.old.node_blocks ≡ cancelled arenas.old.node_blocks }
    requires leaves_quiet { arenas.old.leaf_blocks ≡ cancelled arenas.old.leaf_blocks }
    requires nodes_held { AreApart (is_out arenas.old.nodes.free) (blocks_of
        arenas.old.node_blocks.retired) }
    requires leaves_held { AreApart (is_out arenas.old.leaves.free) (blocks_of
        arenas.old.leaf_blocks.retired) }
    ensures nodes { OnOk result (Gains blank arenas.old.nodes arenas.old.node_blocks
        arenas.new.nodes arenas.new.node_blocks) }
    ensures leaves { OnOk result (Gains 0 arenas.old.leaves arenas.old.leaf_blocks arenas.new.leaves
        arenas.new.leaf_blocks) }
    ensures stores { OnOk result (AreStores words.now stores.new.items (2 ^ direct_bits)) }
    ensures rebuilds { OnOk result (Rebuilds arenas.old.nodes arenas.old.node_blocks
        arenas.old.leaves arenas.old.leaf_blocks (stored [] words.now) arenas.new.nodes
        arenas.new.node_blocks arenas.new.leaves arenas.new.leaf_blocks (stored stores.new.items
        words.now) (prefix_as prefix.now).bits direct_bits (R.bits region.now - direct_bits)
        (R.answers region.now)) }
    ensures aside { OnOk result (SetsAside arenas.old.nodes arenas.old.node_blocks arenas.old.leaves
        arenas.old.leaf_blocks (stored [] words.now) arenas.new.nodes arenas.new.node_blocks
        arenas.new.leaves arenas.new.leaf_blocks direct_bits (R.bits region.now - direct_bits)) }
    ensures kept { OnOk result (KeepsRenewal arenas.old.nodes arenas.old.leaves words.now
        stores.new.items (prefix_as prefix.now).bits direct_bits (R.bits region.now - direct_bits)
        (R.answers region.now)) }
    ensures met { OnOk result (MeetsRenewal arenas.old.nodes arenas.old.leaves words.now
        arenas.new.nodes arenas.new.leaves (prefix_as prefix.now).bits direct_bits (R.bits
        region.now - direct_bits) (R.answers region.now)) }
    ensures refused { IfErr result (λ e. MeetsNotRenewal arenas.old.nodes arenas.old.leaves
        words.now (prefix_as prefix.now).bits direct_bits (R.bits region.now - direct_bits)
        (R.answers region.now) e) }
    ensures nodes_back { OnErr result (GivesAllBack blank arenas.old.nodes arenas.new.nodes ×
        (arenas.new.node_blocks ≡ arenas.old.node_blocks)) }
    ensures leaves_back { OnErr result (GivesAllBack 0 arenas.old.leaves arenas.new.leaves ×
        (arenas.new.leaf_blocks ≡ arenas.old.leaf_blocks)) }
    ensures no_stores { OnErr result (stores.new.items ≡ []) }
{
    let rebuilt = rebuild(region, prefix, within, direct_bits, words, arenas, stores);
    match rebuilt {
        Ok(()) => Ok(()),
        Err(refusal) => {
            arenas.node_blocks.cancel(&mut arenas.nodes);
            arenas.leaf_blocks.cancel(&mut arenas.leaves);
            stores.clear();
            Err(refusal)
        }
    }
}
