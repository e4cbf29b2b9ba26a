//! Posting messages whose octets are in memory that the program keeps.
ghost use Rattle.std.specs.Prelude.{◌≡◌, None, Some, [], IfSome, IfNone, IfOk, IfErr, IsErr, OnOk, OnErr};
ghost use Rattle.iw_queues.specs.Outgoing.{request_of as request_in};
ghost use Rattle.iw_queues.specs.Request.{payload};
ghost use Rattle.iw_handle.specs.Structs.{posting_from_refusal, request_of, refusal_to_post_from};
ghost use Rattle.iw_handle.specs.State.{refusal_in};
ghost use Rattle.iw_handle.specs.Streams.{refusal_to_post, held_posted, posted};

use crate::handle::Handle;
use crate::open_handle::Held;
use crate::refusal::{Refusal, post_reason};
use crate::struct_posting::check_posting_from;
use crate::structs::Posting;
use crate::words::{has_bit, invalidated_by, stag_of};
use iw_codes::numbers;
use iw_endpoint::{Kept, Lodged, Message};
use std::alloc::Global;

// The message that a struct describes, with these octets.
fn message_of(posting: &Posting, octets: Vec<u8, Lodged>) -> Message<Vec<u8, Lodged>>
    requires { posting_from_refusal posting.now ≡ None }
    ensures { request_in result ≡ request_of posting.now octets.items }
{
    if posting.kind == numbers::MESSAGE_WRITE {
        return Message::Write {
            stag: stag_of(posting.stag),
            to: posting.to,
            octets,
        };
    }
    let flags = posting.flags as u32;
    Message::Send {
        octets,
        solicited: has_bit(flags, numbers::SOLICITED),
        invalidate: invalidated_by(flags, posting.stag),
    }
}

// The memory that a message was to be sent from.
fn memory_of(message: Message<Vec<u8, Lodged>>) -> Kept
    ensures { result.octets ≡ payload (request_in message) }
{
    match message {
        Message::Write { octets, .. } => Kept::of_vec(octets),
        Message::Send { octets, .. } => Kept::of_vec(octets),
    }
}

// Posts a message, which the program knows by this token. An `Err` gives its memory back.
fn post_message(
    held: &mut Held,
    number: u32,
    message: Message<Vec<u8, Lodged>>,
    token: u64,
) -> Result<(), (Refusal, Kept)>
    // The first refusal that applies; if none does, only `NoMemory`.
    ensures refused { IfSome (refusal_to_post held.old.endpoint number (request_in message))
        (λ r. IfErr result (λ e. e.0 ≡ r) × IsErr result) }
    ensures memory { IfNone (refusal_to_post held.old.endpoint number (request_in message))
        (IfErr result (λ e. e.0 ≡ Refusal.NoMemory)) }
    ensures ok { OnOk result (held.new ≡ held_posted held.old number (request_in message) token) }
    ensures err { OnErr result (held.new ≡ held.old) }
    ensures back { IfErr result (λ e. e.1.octets ≡ payload (request_in message)) }
{
    match held.endpoint.post_kept(number, message) {
        Ok(()) => {
            held.lines.push(number, token);
            Ok(())
        }
        Err((refusal, message)) => Err((post_reason(refusal), memory_of(message))),
    }
}

// Posts a Send or a Write from the memory: none is left where it was.
fn post_this(
    held: &mut Held,
    number: u32,
    posting: &Posting,
    memory: &mut Kept,
) -> Result<(), Refusal>
    // The first refusal that applies; if none does, only `NoMemory`.
    ensures refused { IfSome (refusal_to_post_from held.old.endpoint number posting.now memory.old.octets)
        (λ r. result ≡ Err r) }
    ensures memory { IfNone (refusal_to_post_from held.old.endpoint number posting.now memory.old.octets)
        (IfErr result (λ e. e ≡ Refusal.NoMemory)) }
    ensures ok { OnOk result (held.new ≡ held_posted held.old number
        (request_of posting.now memory.old.octets) posting.now.token) }
    ensures taken { OnOk result (memory.new.octets ≡ []) }
    ensures err { OnErr result (held.new ≡ held.old) }
    ensures back { OnErr result (memory.new.octets ≡ memory.old.octets) }
{
    check_posting_from(posting)?;
    let octets = std::mem::replace(memory, Kept::none()).into_octets();
    let message = message_of(posting, octets);
    match post_message(held, number, message, posting.token) {
        Ok(()) => Ok(()),
        Err((refusal, back)) => {
            *memory = back;
            Err(refusal)
        }
    }
}

impl Handle {
    /// Posts the Send or Write that a struct describes, whose octets are in memory that the program keeps: they are copied into
    /// frames alone, as these are emitted, and none is allocated. Until `Done` or `Flushed` tells of the message, or the stream
    /// or the handle is closed, the program leaves the memory as it is. `BadStruct` also means that the struct describes a Read,
    /// which has no octets. An `Err` changes nothing. `NoMemory` comes only if no other refusal applies.
    pub fn post_memory(
        &mut self,
        alloc: Global,
        number: u32,
        posting: &Posting,
        memory: &mut Kept,
    ) -> Result<(), Refusal>
        ensures refused { IfSome (refusal_in self.old.state
            (λ e. refusal_to_post_from e number posting.now memory.old.octets)) (λ r. result ≡ Err r) }
        ensures memory { IfNone (refusal_in self.old.state
            (λ e. refusal_to_post_from e number posting.now memory.old.octets))
            (IfErr result (λ e. e ≡ Refusal.NoMemory)) }
        ensures ok { OnOk result (self.new.state ≡ posted self.old.state number
            (request_of posting.now memory.old.octets) posting.now.token) }
        ensures taken { OnOk result (memory.new.octets ≡ []) }
        ensures err { OnErr result (self.new.state ≡ self.old.state) }
        ensures back { OnErr result (memory.new.octets ≡ memory.old.octets) }
    {
        let Some(mut held) = self.take(alloc) else {
            return Err(Refusal::Closed);
        };
        let done = post_this(&mut held, number, posting, memory);
        self.put(held);
        done
    }
}
