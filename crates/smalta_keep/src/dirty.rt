//! Marks of where the routes changed since the last snapshot.
//!
//! They are entries of a tree of their own. A region that no dirty prefix is strictly within, and that is at no wide dirty prefix and within none,
//! has the entries that a snapshot would give it under the hop that it inherits. A plan marks its prefix wide; once its repair is
//! made the entries within the prefix are what a snapshot would give there, and the dirty prefix is wide no more. Without that tree
//! everything counts as marked wide. If no snapshot is to come no marks are kept: then there is never a tree.

ghost use Rattle.std.specs.Prelude.{◌≡◌, true, Some, None, OnOk, option_map};
ghost use Rattle.std.specs.Option.{ForSome};
ghost use Rattle.fib_addr.specs.Views.{prefix_as};
ghost use Rattle.smalta_keep.specs.Known.{IsOfFamily, IsTouched, IsTouchedAt, IsEased, IsEasedAt, IsWholeSpace, AreMore, AreLeft};

use fib_addr::{Family, Hop, Prefix};
use orig_tree::Tree;
use std::alloc::{AllocError, Global};

/// How many dirty prefixes there are at most, so that their memory has a bound. After more changes a snapshot goes over the whole tree,
/// which costs little for each of them.
const MOST: u32 = 16384;

/// Where the routes changed since the last snapshot.
#[derive(Drop)]
pub struct DirtySet {
    /// The marked prefixes, as a tree's entries, wide ones with hop 1 and others with none; without it everything counts as marked
    /// wide.
    pub tree: Option<Tree>,
    /// How often a prefix was marked.
    count: u32,
    /// Whether marks are kept; if not, everything counts as marked wide.
    is_kept: bool,
}

/// Marks a prefix wide in the tree of dirty prefixes. It takes no memory if the prefix is marked.
fn set_mark(dirty: &mut Tree, prefix: &Prefix) -> Result<(), AllocError>
    requires { prefix.now.family ≡ dirty.old.family }
    ensures marked { OnOk result (IsTouched (prefix_as prefix.now) (Some dirty.old) (Some dirty.new)) }
    ensures more { AreMore (Some dirty.old) (Some dirty.new) }
{
    // the dirty prefixes stand in order
    let _family = dirty.family();
    dirty.set_entry(prefix, Hop(1))?;
    Ok(())
}

/// Makes a prefix's mark one that isn't wide. It takes no memory if the prefix is marked.
fn ease_mark(dirty: &mut Tree, prefix: &Prefix) -> Result<(), AllocError>
    requires { prefix.now.family ≡ dirty.old.family }
    ensures { OnOk result (IsEased (prefix_as prefix.now) (Some dirty.old) (Some dirty.new)) }
{
    // the dirty prefixes stand in order
    let _family = dirty.family();
    dirty.set_entry(prefix, Hop::NONE)?;
    Ok(())
}

/// The same, if there is a tree of dirty prefixes.
fn ease_in(dirty: &mut Option<Tree>, prefix: &Prefix) -> Result<(), AllocError>
    requires { IsOfFamily prefix.now.family dirty.old }
    ensures { OnOk result (IsEased (prefix_as prefix.now) dirty.old dirty.new) }
{
    match dirty {
        Some(dirty) => ease_mark(dirty, prefix),
        None => Ok(()),
    }
}

/// Marks a prefix wide, if there is a tree of dirty prefixes.
fn mark_in(dirty: &mut Option<Tree>, prefix: &Prefix) -> Result<(), AllocError>
    requires { IsOfFamily prefix.now.family dirty.old }
    ensures marked { OnOk result (IsTouched (prefix_as prefix.now) dirty.old dirty.new) }
    ensures more { AreMore dirty.old dirty.new }
{
    match dirty {
        Some(dirty) => set_mark(dirty, prefix),
        None => Ok(()),
    }
}

/// A tree of no marks if marks are kept.
fn no_marks(alloc: Global, family: Family, is_kept: bool) -> Option<Tree>
    ensures { IsOfFamily family result }
{
    if is_kept {
        Some(Tree::new(alloc, family))
    } else {
        None
    }
}

/// Whether there is a prefix, and it is the whole space.
pub fn is_whole(at: Option<Prefix>) -> bool
    ensures { result ≡ true → IsWholeSpace (option_map prefix_as at) }
{
    match at {
        Some(prefix) => prefix.len == 0,
        None => false,
    }
}

impl DirtySet {
    /// Everything counts as marked. Marks are kept from the next snapshot on.
    pub fn all() -> DirtySet
        ensures { result.tree ≡ None }
    {
        DirtySet::all_if(true)
    }

    /// Everything counts as marked, after a snapshot too unless marks are kept.
    pub fn all_if(is_kept: bool) -> DirtySet
        ensures { result.tree ≡ None }
    {
        DirtySet {
            tree: None,
            count: 0,
            is_kept,
        }
    }

    /// Counts one more mark; if there would be too many, everything counts as marked.
    fn count(&mut self)
        ensures { AreMore self.old.tree self.new.tree }
    {
        if self.count < MOST {
            self.count += 1;
        } else {
            self.tree = None;
        }
    }

    /// Marks a prefix wide.
    ///
    /// # Errors
    ///
    /// Out of memory; then what was marked still is.
    pub fn mark(&mut self, prefix: &Prefix) -> Result<(), AllocError>
        requires { IsOfFamily prefix.now.family self.old.tree }
        ensures marked { OnOk result (IsTouched (prefix_as prefix.now) self.old.tree self.new.tree) }
        ensures more { AreMore self.old.tree self.new.tree }
    {
        self.count();
        mark_in(&mut self.tree, prefix)
    }

    /// Counts one more mark to come, if there is a prefix for it; if there would be too many, everything counts as marked.
    pub fn expect(&mut self, at: Option<Prefix>)
        ensures { AreMore self.old.tree self.new.tree }
    {
        if at.is_some() {
            self.count();
        }
    }

    /// Sees to it that a prefix, if there is one, is marked wide. If there is no memory for it everything counts as marked.
    pub fn keep(&mut self, at: Option<Prefix>)
        requires { ForSome at (λ p. IsOfFamily p.family self.old.tree) }
        ensures { IsTouchedAt (option_map prefix_as at) self.old.tree self.new.tree }
    {
        if let Some(prefix) = at {
            self.keep_one(&prefix);
        }
    }

    /// The same of one prefix.
    fn keep_one(&mut self, prefix: &Prefix)
        requires { IsOfFamily prefix.now.family self.old.tree }
        ensures { IsTouched (prefix_as prefix.now) self.old.tree self.new.tree }
    {
        if mark_in(&mut self.tree, prefix).is_err() {
            self.tree = None;
        }
    }

    /// Makes the dirty prefix of a prefix, if there is one, a dirty prefix that isn't wide. It takes no memory if the prefix is
    /// marked.
    pub fn ease(&mut self, at: Option<Prefix>)
        requires { ForSome at (λ p. IsOfFamily p.family self.old.tree) }
        ensures { IsEasedAt (option_map prefix_as at) self.old.tree self.new.tree }
    {
        if let Some(prefix) = at {
            self.ease_one(&prefix);
        }
    }

    /// The same of one prefix. If there is no memory for it everything counts as marked.
    fn ease_one(&mut self, prefix: &Prefix)
        requires { IsOfFamily prefix.now.family self.old.tree }
        ensures { IsEased (prefix_as prefix.now) self.old.tree self.new.tree }
    {
        if ease_in(&mut self.tree, prefix).is_err() {
            self.tree = None;
        }
    }

    /// Nothing is marked if marks are kept, else everything counts as marked.
    fn clear(&mut self, alloc: Global, family: Family)
        ensures { IsOfFamily family self.new.tree }
    {
        self.tree = no_marks(alloc, family, self.is_kept);
        self.count = 0;
    }

    /// What is marked once a plan's changes are made: nothing after a snapshot, else the plan's prefix, if it has one, still is, and
    /// wide after a repair of the fewest changes. Any other repair of the whole space is as good as a snapshot.
    pub fn leave(
        &mut self,
        alloc: Global,
        family: Family,
        snapshot: bool,
        fewest: bool,
        at: Option<Prefix>,
    )
        requires { ForSome at (λ p. IsOfFamily p.family self.old.tree) }
        ensures { AreLeft snapshot fewest family (option_map prefix_as at) self.old.tree self.new.tree }
    {
        if snapshot {
            self.clear(alloc, family);
        } else if fewest {
            self.keep(at);
        } else if is_whole(at) {
            self.clear(alloc, family);
        } else {
            self.ease(at);
        }
    }
}
