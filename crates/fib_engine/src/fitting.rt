//! A plan of both tables, with what tries of its routes need.

ghost use Rattle.std.specs.Prelude.{◌≡◌, Some, None, IfOk, OnOk, OnErr, IsErrOf, length, map};
ghost use Rattle.fib_delta.specs.Views.{change_as};
ghost use Rattle.smalta_keep.specs.Views.{moved_of};
ghost use Rattle.orig_tree.specs.Views.{InPlace};
ghost use Rattle.route_tries.specs.Sizes.{AreFew, first_short, shortage_as, sizes_as};
ghost use Rattle.route_tries.specs.declared.sizes.TrieFull.{TrieFull};
ghost use Rattle.fib_engine.specs.Tables.{AreAlike, AreBoth, AreTold, ArePlanned, ArePut, AreUndone, IsReplaced, KeepRoutes, KeepTables, both_firsts, gathered, needs_in, needs_put};

use crate::error::EngineError;
use crate::tables::{Plan, Tables};
use fib_prefix::{Family, Hop, Prefix};
use route_tries::{FamilyNeeds, Needs, Sizes, need_after, need_at};
use std::alloc::Global;

/// A plan of both tables, and what tries need of the routes with the plan's route.
#[derive(Drop)]
pub struct FittingPlan {
    pub(crate) plan: Plan,
    pub(crate) needs: FamilyNeeds,
}

/// What both tries need if one thing was needed at a prefix of this family and another is now.
fn replace_need(needs: FamilyNeeds, family: Family, before: Needs, after: Needs) -> FamilyNeeds
    ensures { IsReplaced family needs before after result }
{
    match family {
        Family::V4 => FamilyNeeds {
            v4: need_after(needs.v4, before, after),
            v6: needs.v6,
        },
        Family::V6 => FamilyNeeds {
            v4: needs.v4,
            v6: need_after(needs.v6, before, after),
        },
    }
}

/// Plans as `Tables::plan` with a route, and counts what tries of the routes need then.
fn plan_route(
    tables: &mut Tables,
    alloc: Global,
    route: (Prefix, Hop),
    snapshot: bool,
    fewest: bool,
    needs: FamilyNeeds,
    sizes: &Sizes,
) -> Result<FittingPlan, EngineError>
    requires both { AreBoth tables.old }
    requires alike { AreAlike tables.old }
    requires order { InPlace tables.old.v4.routes × InPlace tables.old.v6.routes }
    requires needs { needs ≡ needs_in sizes.now.direct tables.old }
    requires few { AreFew needs }
    ensures tables { KeepTables tables.old tables.new }
    ensures put { OnOk result (ArePut (Some route) tables.old tables.new) }
    ensures planned { IfOk result (λ p. ArePlanned tables.new p.plan) }
    ensures told { IfOk result (λ p. AreTold tables.new fewest (Some route) snapshot p.plan.v4
        p.plan.v6) }
    ensures changes { IfOk result (λ p. map change_as p.plan.changes.changes.items
        ≡ gathered (moved_of p.plan.v4) (moved_of p.plan.v6)) }
    ensures first { IfOk result (λ p. p.plan.changes.first
        ≡ length (both_firsts (moved_of p.plan.v4) (moved_of p.plan.v6))) }
    ensures undone { IfOk result (λ p. AreUndone p.plan tables.new tables.old) }
    ensures needs { IfOk result (λ p. p.needs ≡ needs_put sizes.now.direct (Some route) tables.old) }
    ensures fits { OnOk result (first_short (sizes_as sizes.now)
        (needs_put sizes.now.direct (Some route) tables.old) ≡ None) }
    ensures hops { ¬ (IsErrOf result EngineError.HopsFull) }
    ensures short { (t : TrieFull) → IsErrOf result (EngineError.TrieFull t)
        → first_short (sizes_as sizes.now) (needs_put sizes.now.direct (Some route) tables.old)
        ≡ Some (shortage_as t) }
    ensures err { OnErr result (KeepRoutes tables.old tables.new) }
{
    let prefix = route.0;
    let before = need_at(tables.tree(prefix.family), sizes.direct, &prefix);
    let plan = tables.plan(alloc, Some(route), snapshot, fewest)?;
    let after = need_at(tables.tree(prefix.family), sizes.direct, &prefix);
    let needs = replace_need(needs, prefix.family, before, after);
    match needs.fit(sizes) {
        Ok(()) => Ok(FittingPlan { plan, needs }),
        Err(full) => {
            tables.undo(plan);
            Err(EngineError::TrieFull(full))
        }
    }
}

/// Plans as `Tables::plan`, and counts what tries of the routes need then; without a route nothing is counted.
///
/// # Errors
///
/// `TrieFull` exactly if an arena is too small for that, or out of memory; then routes and tables are as they were.
pub fn plan_fitting(
    tables: &mut Tables,
    alloc: Global,
    route: Option<(Prefix, Hop)>,
    snapshot: bool,
    fewest: bool,
    needs: FamilyNeeds,
    sizes: &Sizes,
) -> Result<FittingPlan, EngineError>
    requires both { AreBoth tables.old }
    requires alike { AreAlike tables.old }
    requires order { InPlace tables.old.v4.routes × InPlace tables.old.v6.routes }
    requires needs { needs ≡ needs_in sizes.now.direct tables.old }
    requires fits { first_short (sizes_as sizes.now) (needs_in sizes.now.direct tables.old) ≡ None }
    ensures tables { KeepTables tables.old tables.new }
    ensures put { OnOk result (ArePut route tables.old tables.new) }
    ensures planned { IfOk result (λ p. ArePlanned tables.new p.plan) }
    ensures told { IfOk result (λ p. AreTold tables.new fewest route snapshot p.plan.v4 p.plan.v6) }
    ensures changes { IfOk result (λ p. map change_as p.plan.changes.changes.items
        ≡ gathered (moved_of p.plan.v4) (moved_of p.plan.v6)) }
    ensures first { IfOk result (λ p. p.plan.changes.first
        ≡ length (both_firsts (moved_of p.plan.v4) (moved_of p.plan.v6))) }
    ensures undone { IfOk result (λ p. AreUndone p.plan tables.new tables.old) }
    ensures needs { IfOk result (λ p. p.needs ≡ needs_put sizes.now.direct route tables.old) }
    ensures fits { OnOk result (first_short (sizes_as sizes.now)
        (needs_put sizes.now.direct route tables.old) ≡ None) }
    ensures hops { ¬ (IsErrOf result EngineError.HopsFull) }
    ensures short { (t : TrieFull) → IsErrOf result (EngineError.TrieFull t)
        → first_short (sizes_as sizes.now) (needs_put sizes.now.direct route tables.old)
        ≡ Some (shortage_as t) }
    ensures err { OnErr result (KeepRoutes tables.old tables.new) }
{
    match route {
        Some(route) => plan_route(tables, alloc, route, snapshot, fewest, needs, sizes),
        None => {
            let plan = tables.plan(alloc, None, snapshot, fewest)?;
            Ok(FittingPlan { plan, needs })
        }
    }
}
