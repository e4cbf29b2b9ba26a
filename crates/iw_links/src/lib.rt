//! What `iwarp listen` and `iwarp connect` do on one connection, over any reader and writer.
//!
//! The listening end ([`serve`]) has a region, whose STag it passes in the private data of its MPA Reply. The
//! connecting end ([`ask`]) writes a text there, sends it too, and ends its output. The listening end then sends back
//! the front of its region. Both use an [`iw_endpoint::Endpoint`]: the input is read in place ([`iw_connection::take`]),
//! each read is one delivery, past all that came before, and what the endpoint emits is written in order.
//! Their start-up frames are of revision 1 of MPA, or enhanced ones of revision 2 (RFC 6581), as the [`Terms`] say.
#![tactic(auto)]

mod asking;
mod counted;
mod exchange;
mod link;
mod output;
mod plan;
mod report;
mod serving;

pub use asking::ask;
pub use counted::{Counted, ReadFault};
pub use exchange::Terms;
pub use iw_output::MOST_READS;
pub use link::{MOST_TEXT, caller, listener};
pub use output::{Half, Output};
pub use report::{Ended, Report};
pub use serving::serve;
