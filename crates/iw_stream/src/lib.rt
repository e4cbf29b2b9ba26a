//! One stream of an endpoint: its start-up, the messages and Reads that are posted, the frames that are emitted, the octets
//! that came, and the frames in them, which are judged in order or before their turn.
//!
//! A [`Stream`] belongs to a protection domain and has a [`Role`]: open at once, or opened by MPA's start-up frames
//! (RFC 5044 7.1, RFC 6581). Its owner
//!
//! 1. posts receive buffers (`post_recv`) and, once the stream is open, messages and Reads (`post`);
//! 2. sends what `emit` appends, until it answers [`Emission::Nothing`];
//! 3. reads octets from the connection right to where they are to stand (`read_from`, or `read_some` for less; with a call of
//!    its own, as C does, `lend_place` and `take_lent`), or hands in octets that came, with their sequence number (`deliver`;
//!    `first_number` sets that of the peer's first octet), in any order;
//! 4. calls `work` until it answers [`Step::Idle`]: each call does one step and says what it did. If it answers
//!    [`Step::Asked`], the owner accepts or rejects the peer's Request.
//!
//! A stream ends by a fault, by the peer's Terminate, in its start-up, or when its owner says that the link broke
//! (`break_link`). After a fault `emit` appends one Terminate, behind a start-up frame that is still due, and nothing more; a
//! responder at which no frame of the peer had its turn sends none (RFC 5044 7.1.2). `work` hands back what was posted. What
//! came and had no turn is given up in the step that ends the stream, and its memory given back; `is_at_rest` tells when nothing
//! is left to do.
//!
//! After 3 and 4 there may be more to emit. The regions that the peer may use are an `iw_memory::Memory`, lent to each call
//! of `work`, and of `emit`, which answers the peer's Reads from them. No call but `read_from` and `read_some` does input or
//! output. `post`, `post_recv`, `deliver`, `read_from`, `read_some`, `lend_place` and `emit` may be out of memory, and so may
//! `work` when it judges a frame before its turn; such a call changes nothing.
//!
//! # Example
//!
//! Parts of `crates/embedding`, which is the whole program: a stream at each end, and a message that goes from one to the
//! other, in one frame. `post_recv` and `post_send` call [`Stream::post_recv`] and [`Stream::post`], and make an error of a
//! refusal.
//!
//! ```text
//! // A stream that is open at once, without start-up frames.
//! fn open(alloc: Global) -> Result<Stream> {
//!     let config = Config { markers: true, crc: true, establishment: Establishment::Plain, private: PrivateData::new() };
//!     Ok(Stream::new(alloc, DOMAIN, Role::Preset, config)?)
//! }
//!
//! // Emits the next frame of `from`, and delivers it to `to` with the sequence number of its first octet.
//! fn pass(from: &mut Stream, to: &mut Stream, memory: &Memory, wire: &mut Vec<u8>) -> Result<()> {
//!     let place = from.sent();
//!     if place > MAX_PLACE {
//!         bail!("too many octets were emitted");
//!     }
//!     from.emit(memory, wire)?;
//!     to.deliver((place % (1 << 32)) as u32, wire.as_slice())?;
//!     Ok(())
//! }
//!
//! // Works up to a message that came whole, and returns how many octets it has.
//! fn receive(stream: &mut Stream, memory: &mut Memory) -> Result<Option<usize>> {
//!     for _ in 0..u64::MAX {
//!         if stream.in_order_point() > MAX_PLACE {
//!             bail!("too many octets came");
//!         }
//!         match stream.work(memory)? {
//!             Step::Received { len, .. } => return Ok(Some(len)),
//!             Step::Idle => break,
//!             _ => {}
//!         }
//!     }
//!     Ok(None)
//! }
//!
//! post_recv(receiver, vec![in alloc; 0; 64]?)?;
//! post_send(sender, Bytes::copy_from_slice(alloc, TEXT)?)?;
//! pass(sender, receiver, memory, &mut wire)?;
//! receive(receiver, memory)
//! ```
#![tactic(auto)]

mod answer;
mod effects;
mod ending;
mod incoming;
mod intake;
mod landing;
mod starting;
mod stream;
mod terminating;
mod writing;

pub use answer::{
    AnswerRefusal, Emission, FirstRefusal, INSUFFICIENT_IRD, NO_MATCHING_RTR, OpenRefusal,
    PostRefusal, RecvRefusal, Role, SizeRefusal, Standing, Step,
};
pub use ending::Ending;
pub use intake::{Intake, LendRefusal, MOST_READ, TakeLentRefusal};
pub use iw_queues::{Kind, Request};
pub use iw_ranges::Delivery;
pub use iw_reads::{Asked, Outstanding, ResponsePart};
pub use iw_startup::{
    Agreed, Config, EnhancedData, Establishment, MAX_ENHANCED_PRIVATE, PeerOptions, PrivateData,
    StartupFault,
};
pub use landing::{Landing, PlacedFrame, Turning};
pub use starting::exceeds_request;
pub use stream::Stream;
