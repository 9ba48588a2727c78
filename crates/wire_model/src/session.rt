//! What the records of a session hold.

/// What a BGP4MP record holds, by its subtype (RFC 6396, sections 4.4.1 to 4.4.6; RFC 8050, section 3).
#[derive(Clone, Copy, Debug, PartialEq, Eq)]
pub enum Session {
    /// The states of the session before and after a change.
    StateChange {
        /// Whether AS numbers have four octets, or else two.
        wide: bool,
    },
    /// A BGP message.
    Message {
        /// Whether AS numbers have four octets, or else two, in the message too.
        wide: bool,
        /// Whether each prefix of the message has a path identifier.
        ids: bool,
    },
}
