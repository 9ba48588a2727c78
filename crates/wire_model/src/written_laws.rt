//! How numbers, addresses, prefixes, path attributes and MRT records are written as octets.
//!
//! The definitions stand in `specs/`. The function here is a law: it does nothing, and its clauses hold for all values.

ghost use Rattle.std.specs.Prelude.{◌≡◌, ◌<◌, ◌≤◌, ◌^◌, ◌++◌, ℕ, List, length, Ok};
ghost use Rattle.table_model.specs.Address.{Address, IsAddress, Prefix, IsPrefix};
ghost use Rattle.octet_fields.specs.Field.{number_at};
ghost use Rattle.wire_model.specs.declared.rule.Rule.{Rule};
ghost use Rattle.wire_model.specs.Path.{path_of, path_length_of};
ghost use Rattle.wire_model.specs.Record.{most_length, record_at};
ghost use Rattle.wire_model.specs.Wire.{address_at, prefix_at};
ghost use Rattle.wire_model.specs.Octets.{number_octets, address_octets, prefix_octets, as_path_octets, repeated_path, record_octets};

/// What is written is read as it, whatever follows: a number that fits, an address, a prefix, a path, of which the AS number fits if
/// its origin is to be read, and a record.
pub fn written_law()
    ensures number { (fault : Rule) (k n : ℕ) (rest : List ℕ) → n < 256 ^ k
        → number_at fault k (number_octets k n ++ rest) ≡ Ok (n, rest) }
    ensures address { (cut : Rule) (a : Address) (rest : List ℕ) → IsAddress a
        → address_at cut a.family (address_octets a ++ rest) ≡ Ok (a, rest) }
    ensures prefix { (cut : Rule) (p : Prefix) (rest : List ℕ) → IsPrefix p
        → prefix_at cut p.family (prefix_octets p ++ rest) ≡ Ok (p, rest) }
    ensures path { (asn n : ℕ) → asn < 2 ^ 32 → path_of 4 (as_path_octets asn n) ≡ Ok (repeated_path asn n) }
    ensures path_length { (asn n : ℕ) → path_length_of 4 (as_path_octets asn n) ≡ Ok n }
    ensures mrt_record { (kind subtype : ℕ) (body rest : List ℕ)
        → kind < 2 ^ 16 → subtype < 2 ^ 16 → length body ≤ most_length
        → record_at (record_octets kind subtype body ++ rest)
        ≡ Ok (record { kind = kind; subtype = subtype; body = body }, rest) }
{}
