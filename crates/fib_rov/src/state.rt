//! What a list of VRPs says of a route.

/// The state of a route (RFC 6811, section 2), with the number of the VRP that decides it, from 0.
#[derive(Clone, Copy, Debug, PartialEq, Eq)]
pub enum State {
    /// A VRP matches: the first that does.
    Valid(u64),
    /// A VRP covers the route and none matches: the first that covers it.
    Invalid(u64),
    /// No VRP covers the route.
    NotFound,
}
