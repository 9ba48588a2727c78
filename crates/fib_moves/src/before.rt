//! The table before an event.

ghost use Rattle.std.specs.Prelude.{◌≡◌, ℕ};
ghost use Rattle.table_model.specs.Address.{Prefix, IsPrefix};
ghost use Rattle.table_model.specs.Width.{width};
ghost use Rattle.table_model.specs.Table.{Alike};
ghost use Rattle.table_model.specs.Entries.{Entries, of_family};
ghost use Rattle.kept_model.specs.Patched.{with_route};
ghost use Rattle.orig_tree.specs.Views.{InPlace};
ghost use Rattle.fib_moves.specs.Event.{AlikeBefore};

/// A law: a table that answered as the routes before one of them was set or taken away is as [`near_after`](crate::near_after) asks.
pub fn route_law()
    ensures { (R T : Entries) (p : Prefix) (h : ℕ) → IsPrefix p → InPlace R →
        Alike (width p.family) (of_family p.family R) (of_family p.family T) →
        AlikeBefore (width p.family) p.bits (of_family p.family (with_route p h R)) (of_family p.family T) }
{}
