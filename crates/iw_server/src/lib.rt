//! A server of many connections at one endpoint, over sockets whose calls do not wait.
//!
//! [`serve`] is its loop, over a [`Host`]: what accepts connections, tells which sockets are ready, and keeps time.
//! [`Sockets`] is the host that a program has, over TCP. Each peer has a region of its own: it writes there and sends a Send,
//! and gets back as many octets of the region as the Send had.
//!
//! Nothing waits but [`Host::wait`]. What a socket does not take is kept at its connection, which is not read meanwhile. What a
//! connection lacks ends that connection alone, and one that opens no stream in time, or does nothing of use for too long, is dropped.
#![tactic(auto)]

mod acting;
mod closing;
mod connection;
mod domains;
mod effort;
mod host;
mod log;
mod opening;
mod options;
mod outlet;
mod places;
mod program;
mod server;
mod serving;
mod shared;
mod sockets;
mod terms;
mod turns;
mod unwritten;
mod workers;

pub use host::{Host, Socket, Waits};
pub use options::{Crew, Request, USAGE, WordsRefusal, request_of};
pub use outlet::Outlet;
pub use program::run;
pub use serving::{MOST_READY, ServeFault, Tally, serve};
pub use sockets::Sockets;
pub use terms::Terms;
