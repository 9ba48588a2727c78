//! What a pass over a least table leaves as it is.
//!
//! The downward pass keeps an old entry's hop if that is best (`table_model`). So a pass over entries that a pass gave, with
//! nothing changed since and the same hop inherited, gives them again, and that holds in each region below, under what it
//! inherits there. A pass may leave out such a region. Marks say where something changed: a region stays that no dirty prefix is strictly
//! within, and that is within no wide dirty prefix. A prefix gets a wide dirty prefix if it changes; if its own region stays
//! again, but those that hold it may not, the dirty prefix is wide no more.

ghost use Rattle.std.specs.Prelude.{◌≡◌, ℕ, suc, ◌-◌, List, [], ◌∷◌, Bool, false, None, length};
ghost use Rattle.table_model.specs.Table.{Table, half, root, inherit, cut};
ghost use Rattle.table_model.specs.Regions.{above, entry_at, SameOutside};
ghost use Rattle.table_model.specs.Sets.{side, agg, answers};
ghost use Rattle.kept_model.specs.Stays.{Stays, is_wide_mark, Settled, IsMarked, GetsMark};

/// What a pass gave stays in the next.
pub fn again_law()
    ensures { (d : ℕ) (f : List Bool → ℕ) (L : Table) (h : ℕ) → Stays d f (agg d f L h) h }
{}

/// If a region's entries stay, those of its halves do, under what they inherit.
pub fn halves_law()
    ensures { (d : ℕ) (f : List Bool → ℕ) (L : Table) (h : ℕ) (b : Bool) → Stays (suc d) f L h
        → Stays d (side b f) (half b L) (inherit (root L) h) }
{}

/// If a region's entries stay, every region in it is clean, whatever is marked. So is every region off the dirty prefixes in a
/// half, if the whole region isn't marked wide; and a clean region stays that isn't, and has no dirty prefix strictly within it.
pub fn settled_law()
    ensures all { (d : ℕ) (f : List Bool → ℕ) (L : Table) (h : ℕ) (M : Table) → Stays d f L h
        → Settled d f L h M }
    ensures halves { (d : ℕ) (f : List Bool → ℕ) (L : Table) (h : ℕ) (M : Table) (b : Bool) →
        Settled (suc d) f L h M → is_wide_mark (root M) ≡ false
        → Settled d (side b f) (half b L) (inherit (root L) h) (half b M) }
    ensures clean { (d : ℕ) (f : List Bool → ℕ) (L : Table) (h : ℕ) (M : Table) →
        Settled d f L h M → is_wide_mark (root M) ≡ false → ((b : Bool) (r : List Bool) → entry_at (b ∷ r) M ≡ None)
        → Stays d f L h }
{}

/// If routes and entries change within a prefix alone, and it is marked wide, what is off the dirty prefixes stays clean.
pub fn change_law()
    ensures { (w : ℕ) (p : List Bool) (R S T U M N : Table) (h : ℕ) → SameOutside p R S → SameOutside p T U →
        IsMarked p M N → Settled w (answers R []) T h M → Settled w (answers S []) U h N }
{}

/// If entries change within a prefix alone, and then stay there, what is off the dirty prefixes is clean with another dirty
/// prefix at the prefix, or none that is wide.
pub fn mended_law()
    ensures { (w : ℕ) (p : List Bool) (R T U M N : Table) (h : ℕ) → SameOutside p T U → GetsMark p M N →
        Stays (w - length p) (answers R p) (cut p U) (above p U h) →
        Settled w (answers R []) T h M → Settled w (answers R []) U h N }
{}
