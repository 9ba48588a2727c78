//! The model of the shortest list of changes after one event. The old table answers as the routes do outside one prefix, the event's.
//! Then the nearest table differs from it within the prefix and at one prefix above at most, which the old table alone
//! determines.
//!
//! The definitions stand in `specs/`. Each function here is a law: it does nothing, and its clauses hold for all values.

ghost use Rattle.std.specs.Prelude.{◌≡◌, ◌≢◌, ℕ, suc, ◌+◌, ◌-◌, ◌≤◌, List, Bool, [], ◌∷◌, ◌++◌, true, false, cond, length, Some, None};
ghost use Rattle.table_model.specs.Bits.{begins};
ghost use Rattle.table_model.specs.Table.{Table, lpm, IsTable, Alike, root, half, inherit, cut};
ghost use Rattle.table_model.specs.Regions.{SameEntries, SameOutside, entry_at, above};
ghost use Rattle.table_model.specs.Sets.{answers, side};
ghost use Rattle.moves_model.specs.Sets.{is_allowed, inner_set, near_set, near_k, near_of};
ghost use Rattle.moves_model.specs.Nearest.{AnswersAs, nearest};
ghost use Rattle.moves_model.specs.Way.{fills, allowed_beside, GivesBeside, allowed_at, is_clear, turn, AlikeBeside, SameBut, turn_entry, event_hop, is_blocked, turn_by, FilledGive};

/// A region in which the table gives the answers under h may inherit any hop if each of its addresses is within an entry there, else
/// h alone, and it needs no change then. Under another hop it gets one entry at its prefix, which had none, of h, and all below
/// stays.
pub fn aside_law()
    ensures set { (d : ℕ) (f : List Bool → ℕ) (T : Table) (h : ℕ) → AnswersAs d f T h → near_set d f T ≡ allowed_beside d T h }
    ensures free { (d : ℕ) (f : List Bool → ℕ) (T : Table) (h : ℕ) → AnswersAs d f T h → near_k d f T ≡ 0 }
    ensures stays { (d : ℕ) (f : List Bool → ℕ) (T : Table) (g h : ℕ) → IsTable d T → AnswersAs d f T h →
        is_allowed g (allowed_beside d T h) ≡ true → SameEntries (near_of d f T g) T }
    ensures comes { (d : ℕ) (f : List Bool → ℕ) (T : Table) (g h : ℕ) → AnswersAs d f T h →
        is_allowed g (allowed_beside d T h) ≡ false → (root T ≡ None) × (root (near_of d f T g) ≡ Some h) }
    ensures below { (d : ℕ) (f : List Bool → ℕ) (T : Table) (g h : ℕ) (b : Bool) (q : List Bool) → IsTable d T →
        AnswersAs d f T h → is_allowed g (allowed_beside d T h) ≡ false → entry_at (b ∷ q) (near_of d f T g) ≡ entry_at (b ∷ q) T }
{}

/// On the way to p, outside which the table gives the answers: if the way is clear from a region on, the hops that its own entry may
/// have are those that p's may; else what comes from its entry in the table, or from above, is one of those that it may have.
pub fn way_law()
    ensures clear { (p : List Bool) (d : ℕ) (f : List Bool → ℕ) (T : Table) (h : ℕ) → length p ≤ d →
        GivesBeside p d f T h → is_clear p d T ≡ true → inner_set d f T ≡ allowed_at d f T p }
    ensures held { (p : List Bool) (d : ℕ) (f : List Bool → ℕ) (T : Table) (h : ℕ) → length p ≤ d →
        GivesBeside p d f T h → is_clear p d T ≡ false → is_allowed (inherit (root T) h) (inner_set d f T) ≡ true }
{}

/// The nearest table to one that answers as R outside p differs from it within p and at the turn, and nowhere else. At the turn
/// stands what the hops that p's entry may have make of the entry there; within p stands what the pass over p's region alone gives,
/// under the hop that comes from the turn. So all changes are within the turn, and p is within it; and
/// they are within p if the turn's entry stays.
pub fn event_way_law()
    ensures off { (w : ℕ) (R T : Table) (p q : List Bool) → length p ≤ w → IsTable w T → AlikeBeside w p R T →
        begins p q ≡ false → q ≢ turn p w T → entry_at q (nearest w R T) ≡ entry_at q T }
    ensures turn { (w : ℕ) (R T : Table) (p : List Bool) → length p ≤ w → IsTable w T → AlikeBeside w p R T →
        begins p (turn p w T) ≡ false → entry_at (turn p w T) (nearest w R T) ≡ turn_entry w R p T }
    ensures within { (w : ℕ) (R T : Table) (p : List Bool) → length p ≤ w → IsTable w T → AlikeBeside w p R T →
        SameEntries (cut p (nearest w R T)) (near_of (w - length p) (answers R p) (cut p T) (event_hop w R p T)) }
    ensures way { (p : List Bool) (d : ℕ) (T : Table) → begins (turn p d T) p ≡ true }
    ensures mark { (w : ℕ) (R T : Table) (p : List Bool) → length p ≤ w → IsTable w T → AlikeBeside w p R T →
        SameOutside (turn p w T) (nearest w R T) T }
    ensures kept { (w : ℕ) (R T : Table) (p : List Bool) → length p ≤ w → IsTable w T → AlikeBeside w p R T →
        entry_at (turn p w T) (nearest w R T) ≡ entry_at (turn p w T) T → SameOutside p (nearest w R T) T }
{}

/// A table that answered as the routes before these changed within p answers as they do outside p. If they changed at p alone, it
/// also gives the answers in each region that p isn't in, and each of whose addresses is within a route there.
pub fn before_law()
    ensures beside { (w : ℕ) (R S T : Table) (p : List Bool) → Alike w R T → SameOutside p R S → AlikeBeside w p S T }
    ensures filled { (w : ℕ) (R S T : Table) (p q : List Bool) → length q ≤ w → Alike w R T → SameBut p R S →
        begins q p ≡ false → fills (w - length q) (cut q S) ≡ true →
        AnswersAs (w - length q) (answers S q) (cut q T) (above q T 0) }
{}

/// The turn is found on the way down: it is the last prefix at which the way is blocked, or the first if it never is.
pub fn turn_law()
    ensures start { (p : List Bool) (d : ℕ) (T : Table) → turn p d T ≡ turn_by [] [] p d T }
    ensures step { (q r : List Bool) (b : Bool) (s : List Bool) (d : ℕ) (T : Table) → turn_by q r (b ∷ s) (suc d) T
        ≡ turn_by (q ++ b ∷ []) (cond (is_blocked b d T) (q ++ b ∷ []) r) s d (half b T) }
    ensures end { (q r : List Bool) (d : ℕ) (T : Table) → turn_by q r [] d T ≡ r }
{}

/// If the routes changed at p alone, the table gives the answers in each part of a half of p's region that routes fill. What holds of
/// all such parts of a region holds of those of its halves, and of the region itself if routes fill it.
pub fn filled_law()
    ensures event { (w : ℕ) (R S T : Table) (p : List Bool) (b : Bool) (d : ℕ) → w ≡ length p + suc d → Alike w R T →
        SameBut p R S → FilledGive d (side b (answers S p)) (half b (cut p S)) (half b (cut p T))
        (inherit (root (cut p T)) (above p T 0)) }
    ensures half { (b : Bool) (d : ℕ) (f : List Bool → ℕ) (S T : Table) (h : ℕ) → FilledGive (suc d) f S T h →
        FilledGive d (side b f) (half b S) (half b T) (inherit (root T) h) }
    ensures here { (d : ℕ) (f : List Bool → ℕ) (S T : Table) (h : ℕ) → FilledGive d f S T h →
        fills d S ≡ true → AnswersAs d f T h }
{}

/// Entries fill a region if what it inherits reaches none of its addresses, and don't if it reaches one.
pub fn fills_law()
    ensures all { (d : ℕ) (T : Table) → ((a : List Bool) → length a ≡ d → (g h : ℕ) → lpm T a g ≡ lpm T a h) → fills d T ≡ true }
    ensures some { (d : ℕ) (T : Table) (a : List Bool) → length a ≡ d → ((h : ℕ) → lpm T a h ≡ h) → fills d T ≡ false }
{}
