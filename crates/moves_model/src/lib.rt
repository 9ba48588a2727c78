//! The model of shortest lists of changes: at how few prefixes a table must change to answer as the routes do, and the table that
//! changes at so few.
//!
//! The definitions stand in `specs/`. Each function here is a law: it does nothing, and its clause holds for all values.
#![tactic(auto)]

mod cert_laws;
mod event_laws;
mod feed_laws;
mod router_laws;

ghost use Rattle.std.specs.Prelude.{◌≡◌, ◌≤◌, ◌↔◌, ◌+◌, ℕ, List, Bool, true, Some};
ghost use Rattle.table_model.specs.Table.{Table, IsTable, Alike, half, root};
ghost use Rattle.table_model.specs.Regions.{SameEntries};
ghost use Rattle.moves_model.specs.Sets.{is_allowed, near_set, near_k, near_of};
ghost use Rattle.moves_model.specs.Dist.{distance};
ghost use Rattle.moves_model.specs.Nearest.{Nearest, nearest, near_bound, AnswersAs};

pub use cert_laws::{
    cert_near_law, count_law, not_shortest_law, right_law, soundness_law, verdict_law,
};
pub use event_laws::{
    aside_law, before_law, event_way_law, filled_law, fills_law, turn_law, way_law,
};
pub use feed_laws::{
    event_law, longer_law, meanwhile_law, nearest_law, order_law, pair_law, repaired_law,
    shortest_law, table_alike_law, told_stays_law, told_step_law, told_sum_law,
};
pub use router_laws::{both_law, claim_law, claims_meanwhile_law, parts_law};

/// No table that answers as R differs from T at fewer prefixes than the bound, whatever its prefixes and its hops.
pub fn bound_law()
    ensures { (w : ℕ) (R T U : Table) → Alike w R U → near_bound w R T ≤ distance T U }
{}

/// The downward pass gives a table that answers as R and differs from T at exactly that many prefixes. So no table that does is
/// nearer.
pub fn near_law()
    ensures { (w : ℕ) (R T : Table) → IsTable w T →
        IsTable w (nearest w R T) × Nearest w R T (nearest w R T) × (distance T (nearest w R T) ≡ near_bound w R T) }
{}

/// A region in which the table gives the answers if some hop is inherited needs no change then, and its set is just the hops under
/// which it gives them. Under another hop it gets one entry at its prefix, of a hop under which it does, and all below stays.
pub fn keeps_law()
    ensures set { (d : ℕ) (f : List Bool → ℕ) (T : Table) (g h : ℕ) → AnswersAs d f T h
        → (is_allowed g (near_set d f T) ≡ true) ↔ AnswersAs d f T g }
    ensures free { (d : ℕ) (f : List Bool → ℕ) (T : Table) (h : ℕ) → AnswersAs d f T h → near_k d f T ≡ 0 }
    ensures stays { (d : ℕ) (f : List Bool → ℕ) (T : Table) (h : ℕ) → IsTable d T → AnswersAs d f T h
        → SameEntries (near_of d f T h) T }
    ensures comes { (d : ℕ) (f : List Bool → ℕ) (T : Table) (g h : ℕ) → AnswersAs d f T h
        → (AnswersAs d f T g → ⊥) → root (near_of d f T g) ≡ Some h }
    ensures below { (b : Bool) (d : ℕ) (f : List Bool → ℕ) (T : Table) (g h : ℕ) → IsTable (d + 1) T →
        AnswersAs (d + 1) f T h → (AnswersAs (d + 1) f T g → ⊥)
        → SameEntries (half b (near_of (d + 1) f T g)) (half b T) }
{}
