//! Frames of a direction with markers, found among octets that came in any order, before their turn (RFC 5044 4.3, 5).
//!
//! [`Judged`] holds a record of each frame that was judged early; [`Locator`] says which frame can be judged next.
#![tactic(auto)]

mod frame;
mod judged;
pub mod laws;
mod locator;
mod searching;
mod tracking;
mod unsearched;

pub use frame::{Frame, Next};
pub use judged::{Judged, Record, RecordRefusal, State};
pub use locator::Locator;
pub use unsearched::Unsearched;
