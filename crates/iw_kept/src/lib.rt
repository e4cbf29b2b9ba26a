//! The octets of a region: a vector of the application's own, or memory that a program keeps.
#![tactic(auto)]

mod kept;
mod octets;

pub use kept::Kept;
pub use octets::{RegionOctets, own_back};
pub use std_alloc::vec::Lodged;
