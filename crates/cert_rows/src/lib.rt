//! The rows of a certificate, held in few octets.
//!
//! A certificate goes through the regions of a family from the lowest address on, so most rows follow from the row before.
//! A join is of the region above it. A leaf begins where the other half of that region does. Of such a row only what
//! doesn't follow is kept, in four octets: a leaf's length and its hop, or a join's number. Any other row is kept whole, so
//! all rows are held as they were put, whoever wrote them and in whatever order.
#![tactic(auto)]

mod held;
mod left;
mod near;

pub use held::CertRows;
pub use left::RowsLeft;
