//! How far changes reach.

ghost use Rattle.std.specs.Prelude.{◌≡◌, true, map};
ghost use Rattle.table_model.specs.Halves.{is_within};
ghost use Rattle.kept_model.specs.Between.{place_of};
ghost use Rattle.fib_addr.specs.Views.{prefix_as};
ghost use Rattle.fib_delta.specs.Views.{change_as};
ghost use Rattle.smalta_keep.specs.Rooms.{AreOf};
ghost use Rattle.smalta_keep.specs.Reach.{AreWithin};

use crate::back::place_of;
use fib_addr::Prefix;
use fib_delta::Change;

/// A prefix that both are within: one of them, or the whole space.
fn join(left: Prefix, right: Prefix) -> Prefix
    requires { right.family ≡ left.family }
    ensures family { result.family ≡ left.family }
    ensures left { is_within (prefix_as left) (prefix_as result) ≡ true }
    ensures right { is_within (prefix_as right) (prefix_as result) ≡ true }
{
    if right.is_within(&left) {
        left
    } else if left.is_within(&right) {
        right
    } else {
        Prefix::whole(left.family)
    }
}

/// A prefix that a prefix and all changes are within. It is the prefix itself if they are within it, and that of a change if
/// this holds the prefix and all others.
pub fn reach_of(prefix: &Prefix, changes: &[Change]) -> Prefix
    requires { AreOf prefix.now.family (map change_as changes.now) }
    ensures family { result.family ≡ prefix.now.family }
    ensures within { AreWithin (prefix_as result) (map change_as changes.now) }
{
    let mut reach = *prefix;
    for change in changes {
        reach = join(reach, place_of(change));
    }
    reach
}
