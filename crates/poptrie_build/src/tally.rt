//! What the slots of a node need, counted one after the other.

ghost use Rattle.std.specs.Prelude.{◌≡◌, ℕ, ◌+◌, ◌<◌, ◌≤◌, Option, None};
ghost use Rattle.buddy_arena.specs.Powers.{up};
ghost use Rattle.poptrie_build.specs.Need.{children, runs};
ghost use Rattle.poptrie_build.specs.Strides.{total};
ghost use Rattle.poptrie_build.specs.Tally.{AreLeaves, IsTally, IsNeed};

use crate::counts::Needs;
use buddy_arena::block_size;

/// What the slots so far of a node are, and what they need.
#[derive(Clone, Copy)]
pub struct Tally {
    /// The hop of the last leaf.
    pub last: Option<u16>,
    /// How many slots have nodes.
    pub nodes: u32,
    /// How many runs of leaves there are.
    pub leaves: u32,
    /// What the arrays below the nodes need.
    pub below: Needs,
}

impl Tally {
    /// The tally of no slots.
    pub fn new() -> Tally
        ensures tally { (g : ℕ → Option ℕ) (N L : ℕ → ℕ) → IsTally result g N L 0 }
        ensures none { (result.nodes ≡ 0) × (result.leaves ≡ 0) }
    {
        Tally {
            last: None,
            nodes: 0,
            leaves: 0,
            below: Needs {
                nodes: 0,
                leaves: 0,
            },
        }
    }

    /// Adds more slots, one at least, that are all leaves of this hop.
    pub fn add_leaves(&mut self, hop: u16)
        requires { self.old.leaves < 64 }
        ensures tally { (g : ℕ → Option ℕ) (N L : ℕ → ℕ) (v n : ℕ) → 0 < n
            → AreLeaves hop g N L v n → IsTally self.old g N L v → IsTally self.new g N L (v + n) }
        ensures few { (self.new.nodes ≡ self.old.nodes) × (self.new.leaves ≤ self.old.leaves + 1) }
    {
        if self.last == Some(hop) {
            return;
        }
        self.last = Some(hop);
        self.leaves += 1;
    }

    /// Adds one more slot that has a node, of which this is what the arrays below it need.
    pub fn add_node(&mut self, need: Needs)
        requires { self.old.nodes < 64 }
        ensures tally { (g : ℕ → Option ℕ) (N L : ℕ → ℕ) (v : ℕ) → g v ≡ None
            → IsNeed need (N v) (L v) → IsTally self.old g N L v → IsTally self.new g N L (v + 1) }
        ensures few { (self.new.nodes ≡ self.old.nodes + 1) × (self.new.leaves ≡ self.old.leaves) }
    {
        self.nodes += 1;
        self.below = Needs {
            nodes: self.below.nodes.saturating_add(need.nodes),
            leaves: self.below.leaves.saturating_add(need.leaves),
        };
    }

    /// What the arrays below a node need of whose slots this is the tally: the node's own, and those below its slots.
    pub fn needs(&self) -> Needs
        ensures { (g : ℕ → Option ℕ) (N L : ℕ → ℕ) → IsTally self.now g N L 64
            → IsNeed result (up (children g) + total N 64) (up (runs g) + total L 64) }
    {
        Needs {
            nodes: block_size(self.nodes).saturating_add(self.below.nodes),
            leaves: block_size(self.leaves).saturating_add(self.below.leaves),
        }
    }
}
