//! Where an attribute list stands.

use table_model::Family;

/// Where an attribute list stands, which decides how some of its attributes are read.
#[derive(Clone, Copy, Debug, PartialEq, Eq)]
pub enum Place {
    /// In an entry of a RIB record of this family.
    Rib(Family),
    /// In an UPDATE.
    Update {
        /// Whether AS numbers have four octets, or else two.
        wide: bool,
        /// Whether each prefix has a path identifier (RFC 7911, section 3).
        ids: bool,
    },
}
