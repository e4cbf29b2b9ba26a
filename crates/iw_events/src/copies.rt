//! Copies of what an end has, for the entries of a trace.

ghost use Rattle.std.specs.Prelude.{◌≡◌, ◌+◌, ◌-◌, ◌≤◌, ◌<◌, take, drop, length, Some, IfOk};
ghost use Rattle.iw_memory.specs.Table.{octets_at};

use bytes::Bytes;
use iw_memory::{Memory, Stag};
use iw_octets::{Message, Octets};
use iw_queues::Request;
use iw_startup::{MAX_PRIVATE, PrivateData};
use std::alloc::{AllocError, Allocator};

/// The same request; its octets are shared, not copied.
pub fn shared<A: Allocator>(request: &Request<Bytes<A>>) -> Result<Request<Bytes<A>>, AllocError>
    ensures { IfOk result (λ copy. copy ≡ request.now) }
{
    match request {
        Request::Message(Message::Write { stag, to, octets }) => {
            Ok(Request::Message(Message::Write {
                stag: *stag,
                to: *to,
                octets: octets.clone()?,
            }))
        }
        Request::Message(
            Message::Send {
                octets,
                solicited,
                invalidate,
            },
        ) => Ok(Request::Message(Message::Send {
            octets: octets.clone()?,
            solicited: *solicited,
            invalidate: *invalidate,
        })),
        Request::Read(read) => Ok(Request::Read(*read)),
    }
}

/// The `len` octets of a region at tagged offset `to`, or as many of them as the region has.
pub fn standing<A: Allocator + Copy>(
    alloc: A,
    memory: &Memory<A>,
    stag: Stag,
    to: u64,
    len: usize,
) -> Result<Bytes<A>, AllocError>
    ensures { IfOk result (λ octets. octets ≡ octets_at memory.now stag to len) }
{
    let (Some(facts), Some(octets)) = (memory.facts(stag), memory.local(stag)) else {
        return Ok(Bytes::new());
    };
    let at = to.saturating_sub(facts.base).min(octets.len() as u64) as usize;
    let rest = &octets[at..];
    Bytes::copy_from_slice(alloc, &rest[..len.min(rest.len())])
}

/// The private data of a start-up frame: the first 512 of these octets.
pub fn private_data(octets: &[u8]) -> PrivateData
    ensures { result ≡ record { items = take MAX_PRIVATE octets.now } }
{
    let mut private = PrivateData::new();
    let _ = private.try_extend_from_slice(&octets[..MAX_PRIVATE.min(octets.len())]);
    private
}

/// The message that a buffer holds: its first `len` octets.
pub fn message_in<A: Allocator + Copy>(
    buffer: Octets<A>,
    len: usize,
) -> Result<Bytes<A>, AllocError>
    ensures { IfOk result (λ message. message ≡ take len buffer) }
{
    let mut octets = Bytes::from_vec(buffer.into_vec())?;
    octets.truncate(len);
    Ok(octets)
}

/// All octets of a buffer.
pub fn whole<A: Allocator + Copy>(buffer: Octets<A>) -> Result<Bytes<A>, AllocError>
    ensures { IfOk result (λ octets. octets ≡ buffer) }
{
    Ok(Bytes::from_vec(buffer.into_vec())?)
}
