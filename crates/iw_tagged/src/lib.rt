//! Tagged messages: how a message is cut into segments, and how a segment is checked against registered memory and
//! placed there (RFC 5041 4.2, 5.2 and 7.1).
//!
//! No call allocates.
#![tactic(auto)]

mod cutting;
mod laws;
mod parts;
mod placing;

pub use cutting::cut;
pub use iw_octets::Part;
pub use laws::{known_parts, parts_cover, passes_where_allowed};
pub use parts::Cut;
pub use placing::{Placed, check, place};
