//! The numbers of next hops while an elementary event is planned, and the route that it changes.

ghost use Rattle.std.specs.Prelude.{◌≡◌, ◌≤◌, ◌<◌, ◌↔◌, [], ◌∷◌, List, length, not, option_map, false, Some, IfOk, IfSome, IsSome, IsErr};
ghost use Rattle.table_model.specs.Address.{Address};
ghost use Rattle.route_model.specs.Events.{Elem as model_elem};
ghost use Rattle.kept_model.specs.Feed.{hops_after, number_in};
ghost use Rattle.kept_model.specs.Kept.{is_other};
ghost use Rattle.fib_addr.specs.Hops.{most_hops, number_of, with_hop};
ghost use Rattle.fib_addr.specs.Views.{addr_as};
ghost use Rattle.fib_prefix.specs.Views.{elem_as};
ghost use Rattle.fib_engine.specs.Numbers.{HasNumber, IsNewNumber, IsOwnNumber, IsRouteOf, brought_as, brought_by};

use fib_prefix::{Addr, Elem, Hop, HopTable, HopsFull, Prefix};
use route_choice::Choice;

/// The number that an elementary event's hop has or gets, if it puts a route.
pub(crate) fn number_put(hops: &HopTable, elem: &Elem) -> Result<Option<Hop>, HopsFull>
    requires { length hops.now.list ≤ most_hops }
    ensures full { IsErr result ↔ (most_hops
        < length (hops_after hops.now.list (elem_as elem.now ∷ []))) }
    ensures number { IfOk result (IsNewNumber hops.now.list
        (hops_after hops.now.list (elem_as elem.now ∷ []))) }
    ensures own { IfOk result (IsOwnNumber hops.now.list elem.now) }
{
    match elem {
        Elem::Put(_, _, _, hop) => Ok(Some(hops.next(hop)?)),
        Elem::Cut(_, _) => Ok(None),
    }
}

/// Whether this is the number of none of the hops.
fn is_new(hops: &HopTable, own: Option<Hop>) -> bool
    ensures { result ≡ false → IfSome own (λ n. n.0 ≤ length hops.now.list) × IsSome own }
{
    match own {
        Some(number) => hops.addr(number).is_none(),
        None => true,
    }
}

/// Numbers the hop of an elementary event, if it puts a route and the hop has no number yet; `own` is the number that it has or
/// gets. There is room for it, so it takes no memory.
pub(crate) fn number_hop(hops: &mut HopTable, own: Option<Hop>, elem: &Elem)
    requires room { 1 ≤ hops.old.spare }
    requires few { length (hops_after hops.old.list (elem_as elem.now ∷ [])) ≤ most_hops }
    requires own { IsOwnNumber hops.old.list elem.now own }
    ensures { hops.new.list ≡ hops_after hops.old.list (elem_as elem.now ∷ []) }
{
    if let Elem::Put(_, _, _, hop) = elem {
        if is_new(hops, own) {
            let _number = hops.number(hop);
        }
    }
}

/// The hop that an elementary event gives a number, with that number; none if it puts no route, or one whose hop has a number. `own`
/// is the number that its hop has or gets.
pub(crate) fn number_brought(hops: &HopTable, own: Option<Hop>, elem: &Elem) -> Option<(Hop, Addr)>
    requires { IsOwnNumber hops.now.list elem.now own }
    ensures { brought_as result ≡ brought_by hops.now.list (elem_as elem.now) }
{
    let Elem::Put(_, _, _, hop) = elem else {
        return None;
    };
    match hops.find(hop) {
        Some(_) => None,
        None => match own {
            Some(number) => Some((number, *hop)),
            None => None,
        },
    }
}

/// The number that the hop of a route has or gets.
pub(crate) fn number_next(hops: &HopTable, hop: &Addr) -> Result<Hop, HopsFull>
    requires { length hops.now.list ≤ most_hops }
    ensures full { IsErr result ↔ (most_hops < length (with_hop hops.now.list (addr_as hop.now))) }
    ensures own { IfOk result (λ n. Some n.0 ≡ number_of (with_hop hops.now.list (addr_as hop.now)) (addr_as hop.now)) }
{
    let own = hops.next(hop)?;
    Ok(own)
}

/// Numbers the hop of a route, if it has no number yet; `own` is the number that it has or gets. There is room for it, so it takes
/// no memory.
pub(crate) fn number_route(hops: &mut HopTable, own: Hop, hop: &Addr)
    requires room { 1 ≤ hops.old.spare }
    requires few { length (with_hop hops.old.list (addr_as hop.now)) ≤ most_hops }
    requires own { Some own.0 ≡ number_of (with_hop hops.old.list (addr_as hop.now)) (addr_as hop.now) }
    ensures { hops.new.list ≡ with_hop hops.old.list (addr_as hop.now) }
{
    if is_new(hops, Some(own)) {
        let _number = hops.number(hop);
    }
}

/// The number of a hop once an elementary event was taken: the one that it has, or the one that the event gives.
fn number_after(hops: &HopTable, own: Option<Hop>, hop: &Addr) -> Hop
    ensures { (after : List Address) (elem : model_elem)
        → after ≡ hops_after hops.now.list (elem ∷ [])
        → IsNewNumber hops.now.list after own → HasNumber after (Some (addr_as hop.now))
        → result.0 ≡ number_in after (addr_as hop.now) }
{
    hops.find(hop).or(own).unwrap_or(Hop::NONE)
}

/// Whether both hops are one, or there is none before and after.
fn is_same(before: &Option<Addr>, after: &Option<Addr>) -> bool
    ensures { is_other (option_map addr_as before.now) (option_map addr_as after.now) ≡ not result }
{
    match (before, after) {
        (None, None) => true,
        (Some(before), Some(after)) => before == after,
        _ => false,
    }
}

/// The route of a choice that changes its hop, with the number of the hop after; `Hop::NONE` if there is none.
pub(crate) fn changed_route(
    hops: &HopTable,
    own: Option<Hop>,
    choice: &Choice,
) -> Option<(Prefix, Hop)>
    ensures { (after : List Address) (elem : model_elem)
        → after ≡ hops_after hops.now.list (elem ∷ []) → IsNewNumber hops.now.list after own
        → HasNumber after (option_map addr_as choice.now.after)
        → IsRouteOf after choice.now result }
{
    if is_same(&choice.before, &choice.after) {
        return None;
    }
    let hop = match choice.after {
        Some(hop) => number_after(hops, own, &hop),
        None => Hop::NONE,
    };
    Some((choice.prefix, hop))
}
