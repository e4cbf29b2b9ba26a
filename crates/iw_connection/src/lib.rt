//! The loop that carries a stream of an endpoint over a connection, such as a TCP socket, that the application owns.
//!
//! The application
//!
//! 1. when the connection is readable, calls [`take`], which reads once, right to where the octets are to stand, and then
//!    [`next`] until it answers [`Step::Idle`]. Each other answer is a step that the application has to act on: it accepts
//!    or rejects the peer's Request, uses a message that was received, or takes note of what is done or has ended;
//! 2. when the connection is writable, calls [`fill`], writes out what was appended, keeps what the connection did not take,
//!    and then calls [`next`] in the same way: messages may be done. So it goes on until [`fill`] answers [`Filled::All`];
//! 3. when the connection has ended, or a read or write failed, calls [`break_link`], and then [`next`] in the same way: what
//!    was posted is handed back.
//!
//! The application counts no octets. If a read would block, [`take`] answers an error of that kind, and the stream goes on.
//! [`take_some`] is [`take`] for a connection that brings little, and [`next_within`] is [`next`] for streams that share a pool
//! without trusting one another; [`next_marked`] also tells when one of them comes to have more of it than a high-water mark.
//!
//! After a fault ([`Step::Fault`], [`Filled::Fault`]) the application writes the Terminate that [`fill`] appends, and goes
//! on reading, by [`take`], until [`Intake::End`]. Only then it closes the socket: closing one that has unread octets makes
//! TCP send a reset, and a reset may destroy the Terminate before the peer has read it (RFC 1122 4.2.2.13).
//!
//! # Example
//!
//! Parts of `crates/embedding`, which is the whole program: what it does when the socket is readable, when it is writable,
//! and when it has closed.
//!
//! ```text
//! /// Call it when the socket is readable.
//! pub(crate) fn is_readable<R, S>(&mut self, rt: &R, socket: &mut S) -> Result<()>
//! where
//!     R: Runtime + AllocGlobal,
//!     S: Read,
//! {
//!     match take(&mut self.endpoint, STREAM, socket) {
//!         Ok(Intake::Came(_) | Intake::Full) => self.act(rt),
//!         Ok(Intake::End) => self.closed(rt),
//!         Err(CallRefusal::Refused(error)) if is_for_later(error.kind()) => Ok(()),
//!         Err(refusal) => bail!("take: {refusal}"),
//!     }
//! }
//!
//! /// Call it when the socket is writable. Returns whether there was anything to write.
//! pub(crate) fn is_writable<R, S>(&mut self, rt: &R, socket: &mut S) -> Result<bool>
//! where
//!     R: Runtime + AllocGlobal,
//!     S: Write,
//! {
//!     // What the socket did not take the last time is written first.
//!     let filled = if self.out.is_empty() {
//!         fill(&mut self.endpoint, STREAM, &mut self.out, MOST_WRITTEN)?
//!     } else {
//!         Filled::More
//!     };
//!     let any = filled != Filled::All || !self.out.is_empty();
//!     match socket.write(self.out.as_slice()) {
//!         Ok(taken) => drop(self.out.drain(..taken)),
//!         Err(error) if is_for_later(error.kind()) => {}
//!         Err(error) => return Err(error.into()),
//!     }
//!     // What was posted may be done now.
//!     self.act(rt)?;
//!     Ok(any)
//! }
//!
//! /// Call it when the connection closed. All that was posted and is not done is handed back.
//! pub(crate) fn closed<R: Runtime + AllocGlobal>(&mut self, rt: &R) -> Result<()> {
//!     break_link(&mut self.endpoint, STREAM)?;
//!     self.act(rt)
//! }
//!
//! // Does what the steps ask for, until there is nothing to do.
//! fn act<R: Runtime + AllocGlobal>(&mut self, rt: &R) -> Result<()> {
//!     for _ in 0..u64::MAX {
//!         match next(&mut self.endpoint, STREAM)? {
//!             Step::Idle => break,
//!             step => self.act_on(rt, step)?,
//!         }
//!     }
//!     Ok(())
//! }
//! ```
//!
//! `self.act_on` accepts the peer's Request ([`Step::Asked`]), uses a message that was received ([`Step::Received`]), and
//! prints the other steps.
#![tactic(auto)]

mod filling;
mod sharing;
mod taking;
mod working;

pub use filling::{Filled, fill, fill_frames};
pub use iw_endpoint::{CallRefusal, Endpoint, Intake, Octets, Step};
pub use sharing::{is_above_mark, next_marked, next_within, passes_over};
pub use taking::{break_link, close, take, take_some};
pub use working::{Refusal, is_progress, next};

/// The number of a stream of an endpoint.
pub type StreamNumber = u32;
