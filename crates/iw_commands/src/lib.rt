//! What `iwarp listen`, `iwarp connect` and `iwarp pair` do, over any network, processes and output.
//!
//! Each handles connections one after the other and prints the lines of each. [`iw_links`] does what is done on a
//! connection; [`Peers`] is where connections come from. A connection that fails does not stop the later ones.
#![tactic(auto)]

mod asking;
mod fault;
mod lines;
mod options;
mod pairing;
mod peers;
mod port;
mod printing;
mod serving;
mod starting;
mod timed;

pub use asking::{Request, connect, connect_all};
pub use fault::CommandFault;
pub use options::Options;
pub use pairing::{Talked, drain, pair, talk};
pub use peers::{Arrivals, Calls, Peers};
pub use port::read_port;
pub use serving::{listen, listen_all};
pub use timed::{Pace, TimedInput, TimedOutput};
