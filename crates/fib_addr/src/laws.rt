//! Laws: each function does nothing, and its clauses hold for all values.

ghost use Rattle.std.specs.Prelude.{◌≡◌, ◌<◌, ◌≤◌, List, ℕ, Some, IsSome, false, true, fold, length};
ghost use Rattle.std.specs.List.{IsDistinct};
ghost use Rattle.table_model.specs.Address.{Address, IsAddress, Prefix, IsPrefix, same_address};
ghost use Rattle.table_model.specs.Order.{prefix_cmp};
ghost use Rattle.table_model.specs.Width.{width};
ghost use Rattle.table_model.specs.Halves.{half_at};
ghost use Rattle.table_model.specs.declared.family.Family.TheVariants.{V4};
ghost use Rattle.std.specs.Net.Text.{longest_zero_run};
ghost use Rattle.fib_addr.specs.Groups.{IsLongestZeroRun};
ghost use Rattle.table_model.specs.Entries.{Entries};
ghost use Rattle.table_model.specs.Uniform.{AllGet, TwoDiffer};
ghost use Rattle.fib_addr.specs.Hops.{hop_at, number_of, with_hop};
ghost use Rattle.fib_addr.specs.Order.{code_cmp};
ghost use Rattle.fib_addr.specs.Views.{prefix_as};
ghost use Rattle.fib_addr.specs.Text.{address_in, address_text, prefix_in, prefix_text};
ghost use Rattle.fib_addr.specs.declared.prefix.Prefix as code_prefix;

/// What is written of an address is read as it, and what is read as an address is one. An IPv4 address has one text alone,
/// which is its printed one; IPv6 addresses have more. The zero groups that are written `::` are a longest run, and the first
/// such.
pub fn text_law()
    ensures written { (a : Address) → IsAddress a → address_in (address_text a) ≡ Some a }
    ensures read { (text : List ℕ) (a : Address) → address_in text ≡ Some a → IsAddress a }
    ensures one_text { (text : List ℕ) (a : Address) → address_in text ≡ Some a → a.family ≡ V4
        → text ≡ address_text a }
    ensures longest { (groups : List ℕ) → IsLongestZeroRun groups (longest_zero_run groups) }
{}

/// What is written of a prefix is read as it, and what is read as a prefix is one. An IPv4 prefix has one text alone.
pub fn prefix_text_law()
    ensures written { (p : Prefix) → IsPrefix p → prefix_in (prefix_text p) ≡ Some p }
    ensures read { (text : List ℕ) (p : Prefix) → prefix_in text ≡ Some p → IsPrefix p }
    ensures one_text { (text : List ℕ) (p : Prefix) → prefix_in text ≡ Some p → p.family ≡ V4
        → text ≡ prefix_text p }
{}

/// `cmp` of prefixes is their order: IPv4 before IPv6, then by the bits filled with zeros as a number, then the shorter
/// first.
pub fn order_law()
    ensures prefixes { (p q : code_prefix.Prefix) → code_cmp p q
        ≡ prefix_cmp (prefix_as p) (prefix_as q) }
{}

/// Of n hops each number from 1 to n is a hop's. The hop of a hop's number is that hop, and if no hop stands twice, the number
/// of a number's hop is that number, so different numbers have different hops. No hop stands twice as more are numbered.
pub fn hops_law()
    ensures there { (hops : List Address) (n : ℕ) → 1 ≤ n → n ≤ length hops
        → IsSome (hop_at hops n) }
    ensures hop { (hops : List Address) (a : Address) (n : ℕ) → number_of hops a ≡ Some n
        → hop_at hops n ≡ Some a }
    ensures number { (hops : List Address) (a : Address) (n : ℕ) → IsDistinct same_address hops
        → hop_at hops n ≡ Some a → number_of hops a ≡ Some n }
    ensures distinct { (hops used : List Address) → IsDistinct same_address hops
        → IsDistinct same_address (fold with_hop hops used) }
{}

/// A prefix gets one hop exactly if both its halves get it; it gets one hop at most, and none if two of its addresses
/// differ.
pub fn uniform_law()
    ensures halves { (L : Entries) (p : Prefix) (h : ℕ) → AllGet L p h
        → AllGet L (half_at false p) h × AllGet L (half_at true p) h }
    ensures joined { (L : Entries) (p : Prefix) (h : ℕ) → length p.bits < width p.family
        → AllGet L (half_at false p) h → AllGet L (half_at true p) h → AllGet L p h }
    ensures once { (L : Entries) (p : Prefix) (h k : ℕ) → IsPrefix p → AllGet L p h → AllGet L p k
        → h ≡ k }
    ensures apart { (L : Entries) (p : Prefix) (h : ℕ) → AllGet L p h → TwoDiffer L p → ⊥ }
{}
