//! The slots of a region, asked by halves.

ghost use Rattle.std.specs.Prelude.{◌≡◌, ◌+◌, ◌^◌, ◌<◌, ◌≤◌, length};
ghost use Rattle.table_model.specs.Bits.{bits_of};
ghost use Rattle.fib_addr.specs.Answers.{part};
ghost use Rattle.poptrie_build.specs.Slots.{AreSlots};

use fib_addr::Region;

/// The one hop of each part of a region that `depth` more bits tell apart, or nothing if it has none.
pub fn ask<R: Region>(region: &R, depth: u8, slots: &mut [Option<u16>])
    requires many { length slots.old ≡ 2 ^ depth }
    requires few { depth ≤ 6 }
    ensures { AreSlots depth (R.bits region.now) (R.answers region.now) slots.new }
{
    match region.only() {
        Some(hop) => {
            for slot in slots.iter_mut() {
                *slot = Some(hop.0);
            }
        }
        None => {
            if depth == 0 {
                slots[0] = None;
                return;
            }
            let half = slots.len() / 2;
            let (low, high) = slots.split_at_mut(half);
            ask(&region.half(false), depth - 1, low);
            ask(&region.half(true), depth - 1, high);
        }
    }
}

/// The part of a region that has these next bits, one at least.
pub fn descend<R: Region>(region: &R, bits: u8, depth: u8) -> R
    requires some { 0 < depth }
    requires few { depth ≤ 8 }
    requires fits { depth ≤ R.bits region.now }
    ensures bits { R.bits result + depth ≡ R.bits region.now }
    ensures answers { R.answers result ≡ part (bits_of depth bits) (R.answers region.now) }
{
    let mut at = depth - 1;
    let mut part = region.half((bits >> at) & 1 == 1);
    while at > 0 {
        at -= 1;
        part = part.half((bits >> at) & 1 == 1);
    }
    part
}
