//! Laws of the orders of families and prefixes: each function does nothing, and its clause holds for all values.

ghost use Rattle.std.specs.Prelude.{◌≡◌};
ghost use Rattle.table_model.specs.Address.{Prefix, IsPrefix};
ghost use Rattle.table_model.specs.Derived.{code_family_cmp};
ghost use Rattle.table_model.specs.Order.{family_cmp, prefix_cmp, path_cmp};
ghost use Rattle.table_model.specs.declared.family.Family.{Family};

/// `cmp` of families is their order: IPv4 before IPv6.
pub fn family_order_law()
    ensures { (f g : Family) → code_family_cmp f g ≡ family_cmp f g }
{}

/// Prefixes of one family stand in the order of their bits.
pub fn path_law()
    ensures { (p q : Prefix) → IsPrefix p → IsPrefix q → p.family ≡ q.family
        → prefix_cmp p q ≡ path_cmp p.bits q.bits }
{}
