//! The model of routes: what peers say, the routes that they offer, which are the candidates of a prefix, and the one of them
//! that is chosen.
//!
//! The definitions stand in `specs/`. Each function here is a law: it does nothing, and its clause holds for all values.
#![tactic(auto)]

ghost use Rattle.std.specs.Prelude.{◌≡◌, ◌≤◌, List, [], ◌++◌, Some, is_some, false};
ghost use Rattle.std.specs.List.{AllByRecursion, list_any};
ghost use Rattle.std.specs.List.Sorted.{IsStrictlySortedBy};
ghost use Rattle.std.specs.Map.{lookup, keys_of};
ghost use Rattle.std.specs.declared.cmp.Ordering.TheVariants.{Less};
ghost use Rattle.table_model.specs.Address.{Prefix, same_prefix};
ghost use Rattle.table_model.specs.Order.{prefix_cmp};
ghost use Rattle.route_model.specs.Events.{Event, IsEvent, Elem, via_cmp, elem_prefix};
ghost use Rattle.route_model.specs.Choice.{Place, PathAttrs, Candidates, AreCandidates, IsHeld, IsChosen, IsElem, same_place, after_elem, after_elems, elems_of, elems_after, last_attrs, routes_of, chosen_for};

/// The candidate at a place is what the last elementary event about it offers.
pub fn last_said_law()
    ensures { (at : Place) (elems : List Elem) → AllByRecursion IsElem elems
        → lookup (same_place at) (after_elems [] elems) ≡ last_attrs at elems }
{}

/// Candidates stay in strict order of their places.
pub fn order_law()
    ensures start { AreCandidates [] }
    ensures stay { (held : Candidates) (elem : Elem) → AreCandidates held → IsElem elem
        → AreCandidates (after_elem held elem) }
{}

/// If a prefix has candidates, exactly one of them is chosen: the route of the shortest path, and among those that of the
/// least path source: of the least peer, and of its routes that of the least path identifier.
pub fn choice_law()
    ensures one { (held : Candidates) (c : Place × PathAttrs) → AreCandidates held → IsHeld held c
        → (d : Place × PathAttrs) × IsChosen held d × (d.0.prefix ≡ c.0.prefix) }
    ensures alone { (held : Candidates) (c d : Place × PathAttrs) → AreCandidates held → IsChosen held c
        → IsChosen held d → c.0.prefix ≡ d.0.prefix → c ≡ d }
    ensures candidate { (held : Candidates) (c : Place × PathAttrs) → AreCandidates held
        → IsChosen held c → IsHeld held c }
    ensures least_path { (held : Candidates) (c d : Place × PathAttrs) → AreCandidates held
        → IsChosen held c → IsHeld held d → c.0.prefix ≡ d.0.prefix → c.1.path ≤ d.1.path }
    ensures least_via { (held : Candidates) (c d : Place × PathAttrs) → AreCandidates held
        → IsChosen held c → IsHeld held d → c.0.prefix ≡ d.0.prefix → c.1.path ≡ d.1.path
        → via_cmp d.0.via c.0.via ≡ Less → ⊥ }
{}

/// The routes stand in strict order of their prefixes, and hold exactly the prefixes with a candidate, each with the next
/// hop of its chosen one.
pub fn routes_law()
    ensures sorted { (held : Candidates) → AreCandidates held
        → IsStrictlySortedBy prefix_cmp (keys_of (routes_of held)) }
    ensures held { (held : Candidates) (p : Prefix) → AreCandidates held
        → is_some (chosen_for held p) ≡ list_any (λ c. same_prefix p c.0.prefix) held }
    ensures hop { (held : Candidates) (c : Place × PathAttrs) → AreCandidates held → IsChosen held c
        → chosen_for held c.0.prefix ≡ Some c.1.hop }
{}

/// An elementary event changes the route of its prefix alone.
pub fn elsewhere_law()
    ensures { (held : Candidates) (elem : Elem) (q : Prefix) → AreCandidates held → IsElem elem
        → same_prefix (elem_prefix elem) q ≡ false → chosen_for (after_elem held elem) q
        ≡ chosen_for held q }
{}

/// Events of what there is come to elementary events of what there is, and candidates stay candidates. Those of events one
/// after another are those of each, in order.
pub fn events_law()
    ensures stay { (held : Candidates) (elems : List Elem) → AreCandidates held
        → AllByRecursion IsElem elems → AreCandidates (after_elems held elems) }
    ensures one { (held : Candidates) (event : Event) → AreCandidates held → IsEvent event
        → AllByRecursion IsElem (elems_of held event) }
    ensures all { (held : Candidates) (events : List Event) → AreCandidates held
        → AllByRecursion IsEvent events → AllByRecursion IsElem (elems_after held events) }
    ensures more { (held : Candidates) (xs ys : List Event)
        → elems_after held (xs ++ ys) ≡ elems_after held xs
        ++ elems_after (after_elems held (elems_after held xs)) ys }
{}
