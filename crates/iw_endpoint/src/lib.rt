//! What an application uses: an [`Endpoint`] holds the registered regions of one end and its streams, by number.
//!
//! An endpoint does no input or output but in `read_from` and `read_some`. Each stream is one connection, over a socket that the
//! application owns. The application
//!
//! 1. adds a protection domain (`add_domain`), registers the octets that peers may use (`register`, which returns the
//!    STag), and opens a stream in the domain, under a number from 0 to 63 that it picks (`open`), or under the next of
//!    those from 64 on, which the endpoint gives (`open_next`). As many streams may be open as memory has room for;
//! 2. posts receive buffers (`post_recv`) and, once the stream is open, messages and Reads (`post`). Streams opened
//!    with `open_shared` or `open_shared_next` take their receive buffers from their domain's pool instead (`share`, `post_shared`,
//!    `take_shared`);
//! 3. when the socket is writable, calls `emit` until it answers [`Emission::Nothing`], and writes out what was
//!    appended;
//! 4. when the socket is readable, reads from it right to where the octets are to stand (`read_from`), then calls `work` until
//!    it answers [`Step::Idle`]. Each call does one step and returns what it did. After [`Step::Asked`] the application calls
//!    `accept` or `reject`, then `work` again. Afterwards there may be more to emit.
//!
//! `read_some` is `read_from` for a connection that brings little: it reads less, and takes less memory. Streams that share a pool
//! without trusting one another are worked by `work_within`, each with a share of the pool's buffers: while the shares fit the
//! pool, none wants for a buffer because of another ([`steps_keep_shares`], [`shares_suffice`]).
//!
//! In place of `read_from`, a program that reads by a call of its own reads to the place that `lend_place` names, and tells by
//! `take_lent` how many octets it read there. One whose octets come in another order than the peer sent them hands them in by
//! `deliver`, with their sequence number.
//!
//! A stream ends by a fault, by the peer's Terminate, in its start-up, or when the application reports a broken link
//! (`break_link`), for example because the connection closed. `emit` still appends the Terminate that a fault makes
//! due, and `work` hands back what was posted. When nothing is left to hand back or to emit, `close` forgets the stream
//! and frees its memory.
//!
//! Frames are checked and placed when they come, some of them before earlier octets have come. A frame *has its turn*
//! when all octets before it have been processed: messages complete only then, in order.
//!
//! If a number has no stream, because none was opened under it or because that stream was closed, calls answer
//! [`NoSuchStream`] before any other refusal. A number stays taken once a stream was opened under it, even when the stream is
//! closed: no number is ever used for a second stream ([`numbers_are_used_once`]). What a domain's calls answer and change
//! does not depend on any other domain, but for the number that `open_next` gives, or that none is left
//! ([`domains_are_alone`]).
//!
//! A region is open to all streams of its domain, within its rights, or to one stream alone (`register_for`). No call on
//! another stream changes or emits an octet of it ([`limited_regions_are_apart`], and over lists of calls
//! [`limited_regions_stay_apart`] and [`limited_regions_are_hidden`]).
//!
//! `register_as` is `register`, `register_for`, `register_drawn`, `register_octets` and their kin in one: a [`Registration`] says
//! for whom the region is, where it begins, what it may be used for, and how its STag is chosen.
//!
//! A call that runs out of memory changes nothing and gives back what was handed in, and may be made again. docs/LIMITS.md names
//! the calls that take memory.
//!
//! # Example
//!
//! Parts of `crates/embedding`, which is the whole program: an endpoint with one domain and one stream; what the
//! program does when the socket is readable; how it hands in octets that it did not read from a socket; and what it does,
//! until the answer is `false`, when the socket is writable.
//!
//! ```text
//! let mut endpoint = Endpoint::new(alloc);
//! if let Err(refusal) = endpoint.add_domain(DOMAIN) {
//!     bail!("add_domain: {refusal}");
//! }
//! let config = Config {
//!     markers: true,
//!     crc: true,
//!     establishment: Establishment::Plain,
//!     private: PrivateData::new(),
//! };
//! if let Err(refusal) = endpoint.open(STREAM, DOMAIN, role, config) {
//!     bail!("open: {refusal}");
//! }
//!
//! pub(crate) fn is_readable<R, S>(&mut self, rt: &R, socket: &mut S) -> Result<()>
//! where
//!     R: Runtime + AllocGlobal,
//!     S: Read,
//! {
//!     match self.endpoint.read_from(STREAM, socket) {
//!         Ok(Intake::Came(_) | Intake::Full) => self.work(rt),
//!         Ok(Intake::End) => self.closed(rt),
//!         Err(CallRefusal::Refused(error)) if is_for_later(error.kind()) => Ok(()),
//!         Err(refusal) => bail!("read_from: {refusal}"),
//!     }
//! }
//!
//! // Hands in octets that came, of which the first has this sequence number.
//! fn deliver(&mut self, number: u32, octets: &[u8]) -> Result<()> {
//!     match self.endpoint.deliver(STREAM, number, octets) {
//!         Ok(Delivery::Kept) => Ok(()),
//!         // A stream that has ended drops what comes. On one that runs the octets would be missing for good.
//!         Ok(Delivery::Dropped) if self.has_ended() => Ok(()),
//!         Ok(Delivery::Dropped) => bail!("octets came too far ahead"),
//!         Err(refusal) => bail!("deliver: {refusal}"),
//!     }
//! }
//!
//! // Appends what is to be written next. Returns whether there was anything to do.
//! fn emit(&mut self, out: &mut Vec<u8>) -> Result<bool> {
//!     match self.endpoint.sent(STREAM) {
//!         Ok(sent) if sent <= MAX_PLACE => {}
//!         _ => bail!("too many octets were emitted"),
//!     }
//!     match self.endpoint.emit(STREAM, out) {
//!         // After a fault the Terminate is due.
//!         Ok(Emission::Frame { .. } | Emission::Fetched { .. } | Emission::Fault(_)) => Ok(true),
//!         Ok(Emission::Nothing) => Ok(false),
//!         Err(refusal) => bail!("emit: {refusal}"),
//!     }
//! }
//! ```
//!
//! `self.work` calls [`Endpoint::work`] until it answers [`Step::Idle`], and acts on each step.
#![tactic(auto)]

mod closed;
mod endpoint;
mod laws;
mod pools;
mod refusal;
mod registration;
mod scrap;
mod streams;

pub use endpoint::Endpoint;
pub use iw_kept::{Kept, Lodged, RegionOctets};
pub use iw_memory::{
    DeregisterRefusal, DomainRefusal, Facts, Memory, NoRegion, RegisterRefusal, Right, Rights,
    Stag, StoreRefusal,
};
pub use iw_octets::{Fault, MAX_PLACE, MAX_PRIVATE, Message, Octets, ReadRequest};
pub use iw_stream::{
    Agreed, AnswerRefusal, Config, Delivery, Emission, EnhancedData, Establishment, FirstRefusal,
    INSUFFICIENT_IRD, Intake, Kind, MAX_ENHANCED_PRIVATE, MOST_READ, NO_MATCHING_RTR, OpenRefusal,
    PeerOptions, PostRefusal, PrivateData, RecvRefusal, Request, Role, SizeRefusal, Standing,
    StartupFault, Step, TakeLentRefusal,
};
pub use laws::{
    calls_concern_one_domain, domains_are_alone, emit_comes_to_rest, known_calls, known_frames,
    limited_regions_are_apart, limited_regions_are_hidden, limited_regions_stay_apart,
    numbers_are_used_once, refuses_copied_octets, refuses_sent_again, refuses_told_again,
    registrations_are_calls, shares_suffice, steps_keep_shares, streams_know_their_numbers,
    work_comes_to_rest,
};
pub use refusal::{
    CallRefusal, LimitRefusal, NoSuchStream, NotAtRest, OpenNextRefusal, OpenSharedRefusal,
    PlaceRefusal, PoolRefusal, ShareRefusal, TakeRefusal,
};
pub use registration::{Registration, Scope};
pub use streams::STREAM_NUMBERS;
