//! Posting to a stream: Sends and Writes of copied octets, Reads, and receive buffers.
ghost use Rattle.std.specs.Prelude.{◌≡◌, ◌⊎◌, None, Some, length, IfSome, IfNone, IfOk, IfErr, IsErr, OnOk, OnErr};
ghost use Rattle.iw_endpoint.specs.Endpoint.{with_buffer};
ghost use Rattle.iw_handle.specs.Refusals.{post_reason};
ghost use Rattle.iw_handle.specs.State.{refusal_in, changed, length_refusal};
ghost use Rattle.iw_handle.specs.Streams.{refusal_to_post, refusal_to_lend, write_of, read_of, zeroes};
ghost use Rattle.iw_handle.specs.Streams.{refusal_to_send, send_of, sent, held_posted, posted};
ghost use Rattle.iw_handle.specs.Words.{bits_refusal};

use crate::copying::check_length;
use crate::handle::Handle;
use crate::open_handle::Held;
use crate::refusal::{Refusal, post_reason, recv_reason};
use crate::words::{check_bits, has_bit, invalidated_by};
use bytes::Bytes;
use iw_codes::numbers;
use iw_endpoint::{CallRefusal, Endpoint, Message, PostRefusal, ReadRequest, Request, Stag};
use std::alloc::{AllocError, Global};

// The reason of a refusal; the request is dropped.
pub(crate) fn reason_of(refused: (CallRefusal<PostRefusal>, Request<Bytes>)) -> Refusal
    ensures { result ≡ post_reason refused.0 }
{
    let (refusal, _) = refused;
    post_reason(refusal)
}

// Posts a request, which the program knows by this token.
pub(crate) fn post(
    held: &mut Held,
    number: u32,
    request: Request<Bytes>,
    token: u64,
) -> Result<(), Refusal>
    // The first refusal that applies; if none does, only `NoMemory`.
    ensures refused { IfSome (refusal_to_post held.old.endpoint number request) (λ r. result ≡ Err r) }
    ensures memory { IfNone (refusal_to_post held.old.endpoint number request)
        (IfErr result (λ e. e ≡ Refusal.NoMemory)) }
    ensures ok { OnOk result (held.new ≡ held_posted held.old number request token) }
    ensures err { OnErr result (held.new ≡ held.old) }
{
    match held.endpoint.post(number, request) {
        Ok(()) => {
            held.lines.push(number, token);
            Ok(())
        }
        Err(refused) => Err(reason_of(refused)),
    }
}

// A buffer of `n` zero octets.
pub(crate) fn zeroes(alloc: Global, n: usize) -> Result<Vec<u8>, AllocError>
    ensures { IfOk result (λ octets. octets.items ≡ zeroes n) }
{
    let octets = vec![in alloc; 0u8; n]?;
    Ok(octets)
}

fn lend(endpoint: &mut Endpoint, alloc: Global, number: u32, n: usize) -> Result<(), Refusal>
    // The first refusal that applies, or `NoMemory`.
    ensures refused { IfSome (refusal_to_lend endpoint.old number n) (λ _. IsErr result) }
    ensures why { IfErr result (λ e. (e ≡ Refusal.NoMemory) ⊎ (refusal_to_lend endpoint.old number n ≡ Some e)) }
    ensures long { IfSome (length_refusal n) (λ r. result ≡ Err r) }
    ensures ok { OnOk result (endpoint.new ≡ with_buffer endpoint.old number (zeroes n)) }
    ensures err { OnErr result (endpoint.new ≡ endpoint.old) }
{
    check_length(n)?;
    let Ok(buffer) = zeroes(alloc, n) else {
        return Err(Refusal::NoMemory);
    };
    match endpoint.post_recv(number, buffer) {
        Ok(()) => Ok(()),
        Err((refusal, _)) => Err(recv_reason(refusal)),
    }
}

impl Handle {
    /// Posts a Send of a copy of the octets ([`Endpoint::post`]). `flags` is a sum of 1 (it is solicited) and 2 (it
    /// invalidates the peer's region `stag`); `BadBits` means that it has another bit. `token` is told when the
    /// Send is done or flushed. An `Err` changes nothing. `NoMemory` may come in place of a refusal of the stream's, since the copy is made first.
    pub fn post_send(
        &mut self,
        alloc: Global,
        number: u32,
        octets: &[u8],
        flags: u32,
        stag: u32,
        token: u64,
    ) -> Result<(), Refusal>
        ensures refused { IfSome
            (refusal_in self.old.state (λ e. refusal_to_send e number octets.now flags stag))
            (λ _. IsErr result) }
        ensures why { IfErr result (λ e. (e ≡ Refusal.NoMemory) ⊎ (refusal_in self.old.state
            (λ e. refusal_to_send e number octets.now flags stag) ≡ Some e)) }
        ensures ok { OnOk result (self.new.state ≡ posted self.old.state number (sent octets.now flags stag) token) }
        ensures err { OnErr result (self.new.state ≡ self.old.state) }
        ensures bits { IfSome (refusal_in self.old.state (λ e. bits_refusal 4 flags)) (λ r. result ≡ Err r) }
    {
        let Some(mut held) = self.take(alloc) else {
            return Err(Refusal::Closed);
        };
        let done = post_send(&mut held, alloc, number, octets, flags, stag, token);
        self.put(held);
        done
    }

    /// Posts a Write of a copy of the octets to a region of the peer, at a tagged offset. An `Err` changes nothing.
    /// `NoMemory` may come in place of another refusal, since the copy is made first.
    pub fn post_write(
        &mut self,
        alloc: Global,
        number: u32,
        stag: Stag,
        to: u64,
        octets: &[u8],
        token: u64,
    ) -> Result<(), Refusal>
        ensures refused { IfSome
            (refusal_in self.old.state (λ e. refusal_to_post e number (write_of stag to octets.now)))
            (λ _. IsErr result) }
        ensures why { IfErr result (λ e. (e ≡ Refusal.NoMemory) ⊎
            (refusal_in self.old.state (λ e. refusal_to_post e number (write_of stag to octets.now)) ≡ Some e)) }
        ensures ok { OnOk result (self.new.state ≡ posted self.old.state number (write_of stag to octets.now) token) }
        ensures err { OnErr result (self.new.state ≡ self.old.state) }
    {
        let Some(mut held) = self.take(alloc) else {
            return Err(Refusal::Closed);
        };
        let done = post_write(&mut held, alloc, number, stag, to, octets, token);
        self.put(held);
        done
    }

    /// Posts a Read, from a region of the peer into one of this end. An `Err` changes nothing; `NoMemory` comes only if
    /// no other refusal applies.
    pub fn post_read(
        &mut self,
        alloc: Global,
        number: u32,
        request: ReadRequest,
        token: u64,
    ) -> Result<(), Refusal>
        ensures refused { IfSome (refusal_in self.old.state (λ e. refusal_to_post e number (read_of request)))
            (λ r. result ≡ Err r) }
        ensures memory { IfNone (refusal_in self.old.state (λ e. refusal_to_post e number (read_of request)))
            (IfErr result (λ e. e ≡ Refusal.NoMemory)) }
        ensures ok { OnOk result (self.new.state ≡ posted self.old.state number (read_of request) token) }
        ensures err { OnErr result (self.new.state ≡ self.old.state) }
    {
        let Some(mut held) = self.take(alloc) else {
            return Err(Refusal::Closed);
        };
        let done = post(&mut held, number, Request::Read(request), token);
        self.put(held);
        done
    }

    /// Posts a receive buffer of `n` zero octets, at most 16,777,216. An `Err` changes nothing. `NoMemory` may come in place
    /// of a refusal of the stream's, since the buffer is allocated first.
    pub fn post_recv(&mut self, alloc: Global, number: u32, n: usize) -> Result<(), Refusal>
        ensures refused { IfSome (refusal_in self.old.state (λ e. refusal_to_lend e number n)) (λ _. IsErr result) }
        ensures why { IfErr result
            (λ e. (e ≡ Refusal.NoMemory) ⊎ (refusal_in self.old.state (λ e. refusal_to_lend e number n) ≡ Some e)) }
        ensures long { IfSome (refusal_in self.old.state (λ e. length_refusal n)) (λ r. result ≡ Err r) }
        ensures ok { OnOk result (self.new.state ≡ changed self.old.state (λ e. with_buffer e number (zeroes n))) }
        ensures err { OnErr result (self.new.state ≡ self.old.state) }
    {
        let Some(mut held) = self.take(alloc) else {
            return Err(Refusal::Closed);
        };
        let done = lend(&mut held.endpoint, alloc, number, n);
        self.put(held);
        done
    }
}

// Posts a Send of a copy of the octets.
fn send_copy(
    held: &mut Held,
    alloc: Global,
    number: u32,
    octets: &[u8],
    solicited: bool,
    invalidate: Option<Stag>,
    token: u64,
) -> Result<(), Refusal>
    ensures refused { IfSome (refusal_to_post held.old.endpoint number (send_of octets.now solicited invalidate))
        (λ _. IsErr result) }
    ensures why { IfErr result (λ e. (e ≡ Refusal.NoMemory) ⊎
        (refusal_to_post held.old.endpoint number (send_of octets.now solicited invalidate) ≡ Some e)) }
    ensures ok { OnOk result (held.new ≡ held_posted held.old number (send_of octets.now solicited invalidate) token) }
    ensures err { OnErr result (held.new ≡ held.old) }
{
    let Ok(octets) = Bytes::copy_from_slice(alloc, octets) else {
        return Err(Refusal::NoMemory);
    };
    let message = Message::Send {
        octets,
        solicited,
        invalidate,
    };
    post(held, number, Request::Message(message), token)
}

// Posts a Send of a copy of the octets. Its flags are a number.
pub(crate) fn post_send(
    held: &mut Held,
    alloc: Global,
    number: u32,
    octets: &[u8],
    flags: u32,
    stag: u32,
    token: u64,
) -> Result<(), Refusal>
    ensures refused { IfSome (refusal_to_send held.old.endpoint number octets.now flags stag)
        (λ _. IsErr result) }
    ensures why { IfErr result (λ e. (e ≡ Refusal.NoMemory) ⊎
        (refusal_to_send held.old.endpoint number octets.now flags stag ≡ Some e)) }
    ensures ok { OnOk result (held.new ≡ held_posted held.old number (sent octets.now flags stag) token) }
    ensures err { OnErr result (held.new ≡ held.old) }
    ensures bits { IfSome (bits_refusal 4 flags) (λ r. result ≡ Err r) }
{
    check_bits(4, flags)?;
    let invalidate = invalidated_by(flags, stag);
    send_copy(
        held,
        alloc,
        number,
        octets,
        has_bit(flags, numbers::SOLICITED),
        invalidate,
        token,
    )
}

// Posts a Write of a copy of the octets.
pub(crate) fn post_write(
    held: &mut Held,
    alloc: Global,
    number: u32,
    stag: Stag,
    to: u64,
    octets: &[u8],
    token: u64,
) -> Result<(), Refusal>
    ensures refused { IfSome (refusal_to_post held.old.endpoint number (write_of stag to octets.now)) (λ _. IsErr result) }
    ensures why { IfErr result
        (λ e. (e ≡ Refusal.NoMemory) ⊎ (refusal_to_post held.old.endpoint number (write_of stag to octets.now) ≡ Some e)) }
    ensures ok { OnOk result (held.new ≡ held_posted held.old number (write_of stag to octets.now) token) }
    ensures err { OnErr result (held.new ≡ held.old) }
{
    let Ok(octets) = Bytes::copy_from_slice(alloc, octets) else {
        return Err(Refusal::NoMemory);
    };
    post(
        held,
        number,
        Request::Message(Message::Write { stag, to, octets }),
        token,
    )
}
