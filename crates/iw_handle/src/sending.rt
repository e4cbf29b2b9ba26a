//! Messages that are posted from a buffer: nothing is copied, and the octets come back once the message is done or flushed.
ghost use Rattle.std.specs.Prelude.{◌≡◌, ◌⊎◌, None, Some, [], IfSome, IfNone, IfOk, IfErr, IsErr, OnOk, OnErr};
ghost use Rattle.iw_lines.specs.Line.{with_sent};
ghost use Rattle.iw_lines.specs.Lines.{line_at, with_line};
ghost use Rattle.iw_handle.specs.Sending.{held_posted_from, posted_from, sent_in, held_with_sent, with_sent_in};
ghost use Rattle.iw_handle.specs.Sending.{HasKept, HasKeptIn};
ghost use Rattle.iw_handle.specs.State.{refusal_with, stream_refusal};
ghost use Rattle.iw_handle.specs.Streams.{refusal_to_post, refusal_to_send, send_of, sent, write_of};
ghost use Rattle.iw_handle.specs.Words.{bits_refusal};

use crate::copying::check_stream;
use crate::handle::Handle;
use crate::open_handle::Held;
use crate::posting::reason_of;
use crate::refusal::Refusal;
use crate::words::{check_bits, has_bit, invalidated_by};
use bytes::Bytes;
use iw_buffer::{Buffer, Contents};
use iw_codes::numbers;
use iw_endpoint::{Message, Request, Stag};
use iw_lines::{Lines, Payload};
use std::alloc::{AllocError, Global};

// Posts a request, which the program knows by this token, and keeps its octets. An `Err` gives them back.
fn post_payload(
    held: &mut Held,
    number: u32,
    request: Request<Bytes>,
    token: u64,
    payload: Payload,
) -> Result<(), (Refusal, Bytes)>
    // The first refusal that applies; if none does, only `NoMemory`.
    ensures refused { IfSome (refusal_to_post held.old.endpoint number request) (λ r. result ≡ Err (r, payload)) }
    ensures memory { IfNone (refusal_to_post held.old.endpoint number request)
        (IfErr result (λ e. e.0 ≡ Refusal.NoMemory)) }
    ensures ok { OnOk result (held.new ≡ held_posted_from held.old number request token payload) }
    ensures err { OnErr result (held.new ≡ held.old) }
    ensures back { IfErr result (λ e. e.1 ≡ payload) }
{
    match held.endpoint.post(number, request) {
        Ok(()) => {
            held.lines.push_payload(number, token, payload);
            Ok(())
        }
        Err(refused) => Err((reason_of(refused), payload.into_octets())),
    }
}

// Posts a Send that shares the octets. An `Err` gives them back.
fn send_shared(
    held: &mut Held,
    alloc: Global,
    number: u32,
    octets: Bytes,
    solicited: bool,
    invalidate: Option<Stag>,
    token: u64,
) -> Result<(), (Refusal, Bytes)>
    ensures refused { IfSome (refusal_to_post held.old.endpoint number (send_of octets solicited invalidate))
        (λ _. IsErr result) }
    ensures why { IfErr result (λ e. (e.0 ≡ Refusal.NoMemory) ⊎
        (refusal_to_post held.old.endpoint number (send_of octets solicited invalidate) ≡ Some e.0)) }
    ensures ok { OnOk result
        (held.new ≡ held_posted_from held.old number (send_of octets solicited invalidate) token octets) }
    ensures err { OnErr result (held.new ≡ held.old) }
    ensures back { IfErr result (λ e. e.1 ≡ octets) }
{
    let Ok(shared) = octets.clone() else {
        return Err((Refusal::NoMemory, octets));
    };
    let payload = match Payload::of(alloc, octets) {
        Ok(payload) => payload,
        Err(octets) => return Err((Refusal::NoMemory, octets)),
    };
    let message = Message::Send {
        octets: shared,
        solicited,
        invalidate,
    };
    post_payload(held, number, Request::Message(message), token, payload)
}

// Posts a Write that shares the octets. An `Err` gives them back.
fn write_shared(
    held: &mut Held,
    alloc: Global,
    number: u32,
    stag: Stag,
    to: u64,
    octets: Bytes,
    token: u64,
) -> Result<(), (Refusal, Bytes)>
    ensures refused { IfSome (refusal_to_post held.old.endpoint number (write_of stag to octets)) (λ _. IsErr result) }
    ensures why { IfErr result
        (λ e. (e.0 ≡ Refusal.NoMemory) ⊎ (refusal_to_post held.old.endpoint number (write_of stag to octets) ≡ Some e.0)) }
    ensures ok { OnOk result
        (held.new ≡ held_posted_from held.old number (write_of stag to octets) token octets) }
    ensures err { OnErr result (held.new ≡ held.old) }
    ensures back { IfErr result (λ e. e.1 ≡ octets) }
{
    let Ok(shared) = octets.clone() else {
        return Err((Refusal::NoMemory, octets));
    };
    let payload = match Payload::of(alloc, octets) {
        Ok(payload) => payload,
        Err(octets) => return Err((Refusal::NoMemory, octets)),
    };
    let message = Message::Write {
        stag,
        to,
        octets: shared,
    };
    post_payload(held, number, Request::Message(message), token, payload)
}

// Moves octets that were not posted back to where they were, and returns why they were not. If there is no memory for that,
// which no clause of `bytes` excludes, they wait at the stream.
fn give_back(
    lines: &mut Lines,
    alloc: Global,
    number: u32,
    shared: Bytes,
    octets: &mut Contents,
    refusal: Refusal,
) -> Refusal
    ensures { ((result ≡ refusal) × (lines.new ≡ lines.old) × (octets.new.octets ≡ shared)) ⊎ ((result ≡ Refusal.NoMemory)
        × (lines.new ≡ with_line lines.old number (with_sent (line_at lines.old number) shared))
        × (octets.new.octets ≡ octets.old.octets)) }
{
    match octets.take_back(alloc, shared) {
        Ok(()) => refusal,
        Err(shared) => {
            lines.keep_sent(number, shared);
            Refusal::NoMemory
        }
    }
}

// Posts a Send of the octets themselves: none are left where they were.
pub(crate) fn send_these(
    held: &mut Held,
    alloc: Global,
    number: u32,
    octets: &mut Contents,
    flags: u32,
    stag: u32,
    token: u64,
) -> Result<(), Refusal>
    ensures refused { IfSome (refusal_to_send held.old.endpoint number octets.old.octets flags stag)
        (λ _. IsErr result) }
    ensures why { IfErr result (λ e. (e ≡ Refusal.NoMemory) ⊎
        (refusal_to_send held.old.endpoint number octets.old.octets flags stag ≡ Some e)) }
    ensures bits { IfSome (bits_refusal 4 flags) (λ r. result ≡ Err r) }
    ensures ok { OnOk result
        (held.new ≡ held_posted_from held.old number (sent octets.old.octets flags stag) token octets.old.octets) }
    ensures taken { OnOk result (octets.new.octets ≡ []) }
    ensures err { IfErr result
        (λ e. HasKept (e ≡ Refusal.NoMemory) held.old number octets.old.octets held.new octets.new.octets) }
{
    check_bits(4, flags)?;
    let Ok(shared) = octets.share(alloc) else {
        return Err(Refusal::NoMemory);
    };
    let solicited = has_bit(flags, numbers::SOLICITED);
    let invalidate = invalidated_by(flags, stag);
    match send_shared(held, alloc, number, shared, solicited, invalidate, token) {
        Ok(()) => Ok(()),
        Err((refusal, shared)) => Err(give_back(
            &mut held.lines,
            alloc,
            number,
            shared,
            octets,
            refusal,
        )),
    }
}

// Posts a Write of the octets themselves: none are left where they were.
pub(crate) fn write_these(
    held: &mut Held,
    alloc: Global,
    number: u32,
    stag: Stag,
    to: u64,
    octets: &mut Contents,
    token: u64,
) -> Result<(), Refusal>
    ensures refused { IfSome (refusal_to_post held.old.endpoint number (write_of stag to octets.old.octets))
        (λ _. IsErr result) }
    ensures why { IfErr result (λ e. (e ≡ Refusal.NoMemory) ⊎
        (refusal_to_post held.old.endpoint number (write_of stag to octets.old.octets) ≡ Some e)) }
    ensures ok { OnOk result
        (held.new ≡ held_posted_from held.old number (write_of stag to octets.old.octets) token octets.old.octets) }
    ensures taken { OnOk result (octets.new.octets ≡ []) }
    ensures err { IfErr result
        (λ e. HasKept (e ≡ Refusal.NoMemory) held.old number octets.old.octets held.new octets.new.octets) }
{
    let Ok(shared) = octets.share(alloc) else {
        return Err(Refusal::NoMemory);
    };
    match write_shared(held, alloc, number, stag, to, shared, token) {
        Ok(()) => Ok(()),
        Err((refusal, shared)) => Err(give_back(
            &mut held.lines,
            alloc,
            number,
            shared,
            octets,
            refusal,
        )),
    }
}

// Moves out the octets of the message that a stream told last.
fn fetch_these(
    held: &mut Held,
    alloc: Global,
    number: u32,
    octets: &mut Contents,
) -> Result<(), Refusal>
    // The first refusal that applies; if none does, only `NoMemory`.
    ensures refused { IfSome (stream_refusal held.old.endpoint number) (λ r. result ≡ Err r) }
    ensures memory { IfNone (stream_refusal held.old.endpoint number) (IfErr result (λ e. e ≡ Refusal.NoMemory)) }
    ensures octets { OnOk result (octets.new.octets ≡ (line_at held.old.lines number).sent) }
    ensures ok { OnOk result (held.new ≡ held_with_sent held.old number []) }
    ensures err { OnErr result (held.new ≡ held.old) }
    ensures back { OnErr result (octets.new.octets ≡ octets.old.octets) }
{
    check_stream(&held.endpoint, number)?;
    match held.lines.fetch_sent(alloc, number, octets) {
        Ok(()) => Ok(()),
        Err(AllocError) => Err(Refusal::NoMemory),
    }
}

impl Handle {
    /// Posts a Send of a buffer's octets themselves, as [`Handle::post_send`] does of a copy: nothing is copied, and the buffer
    /// then has none. Once the Send is done or flushed, [`Handle::fetch_sent`] moves them into a buffer. An `Err` changes
    /// nothing, and the buffer keeps its octets; but with `NoMemory` they may wait at the stream in place of those that
    /// waited, if there is no memory to move them back either. `NoMemory` may come in place of a refusal of the stream's, since
    /// the count of who shares the octets is allocated first, and room for as many, which the buffer keeps for when they come
    /// back. That room is not written.
    pub fn post_send_buffer(
        &mut self,
        alloc: Global,
        number: u32,
        buffer: &mut Buffer,
        flags: u32,
        stag: u32,
        token: u64,
    ) -> Result<(), Refusal>
        ensures refused { IfSome (refusal_with self.old.state buffer.old.state
            (λ e octets. refusal_to_send e number octets flags stag)) (λ _. IsErr result) }
        ensures why { IfErr result (λ e. (e ≡ Refusal.NoMemory) ⊎ (refusal_with self.old.state buffer.old.state
            (λ e octets. refusal_to_send e number octets flags stag) ≡ Some e)) }
        ensures bits { IfSome (refusal_with self.old.state buffer.old.state (λ e octets. bits_refusal 4 flags))
            (λ r. result ≡ Err r) }
        ensures ok { OnOk result (IfSome buffer.old.state (λ octets.
            self.new.state ≡ posted_from self.old.state number (sent octets flags stag) token octets)) }
        ensures taken { OnOk result (buffer.new.state ≡ Some []) }
        ensures err { IfErr result (λ e. HasKeptIn (e ≡ Refusal.NoMemory)
            self.old.state number buffer.old.state self.new.state buffer.new.state) }
    {
        let Some(mut held) = self.take(alloc) else {
            return Err(Refusal::Closed);
        };
        let Some(mut lent) = buffer.take(alloc) else {
            self.put(held);
            return Err(Refusal::BufferMissing);
        };
        let done = send_these(&mut held, alloc, number, &mut lent, flags, stag, token);
        self.put(held);
        buffer.put(lent);
        done
    }

    /// Posts a Write of a buffer's octets themselves, as [`Handle::post_write`] does of a copy, and takes them and gives them
    /// back as [`Handle::post_send_buffer`] does.
    pub fn post_write_buffer(
        &mut self,
        alloc: Global,
        number: u32,
        stag: Stag,
        to: u64,
        buffer: &mut Buffer,
        token: u64,
    ) -> Result<(), Refusal>
        ensures refused { IfSome (refusal_with self.old.state buffer.old.state
            (λ e octets. refusal_to_post e number (write_of stag to octets))) (λ _. IsErr result) }
        ensures why { IfErr result (λ e. (e ≡ Refusal.NoMemory) ⊎ (refusal_with self.old.state buffer.old.state
            (λ e octets. refusal_to_post e number (write_of stag to octets)) ≡ Some e)) }
        ensures missing { IfSome (refusal_with self.old.state buffer.old.state (λ e octets. None)) (λ r. result ≡ Err r) }
        ensures ok { OnOk result (IfSome buffer.old.state (λ octets.
            self.new.state ≡ posted_from self.old.state number (write_of stag to octets) token octets)) }
        ensures taken { OnOk result (buffer.new.state ≡ Some []) }
        ensures err { IfErr result (λ e. HasKeptIn (e ≡ Refusal.NoMemory)
            self.old.state number buffer.old.state self.new.state buffer.new.state) }
    {
        let Some(mut held) = self.take(alloc) else {
            return Err(Refusal::Closed);
        };
        let Some(mut lent) = buffer.take(alloc) else {
            self.put(held);
            return Err(Refusal::BufferMissing);
        };
        let done = write_these(&mut held, alloc, number, stag, to, &mut lent, token);
        self.put(held);
        buffer.put(lent);
        done
    }

    /// Moves into a buffer the octets of the message that was done or flushed last at a stream, if it was posted from a
    /// buffer, and forgets them; none if it was not. The octets that the buffer had are freed. An `Err` changes nothing.
    /// They are not written, and can be posted again so; a call that makes them a region or a receive buffer, or puts a frame
    /// behind them, first writes each onto itself. `NoMemory` comes only if no other refusal applies: nothing is copied as long
    /// as nothing else shares the octets.
    pub fn fetch_sent(
        &mut self,
        alloc: Global,
        number: u32,
        buffer: &mut Buffer,
    ) -> Result<(), Refusal>
        ensures refused { IfSome (refusal_with self.old.state buffer.old.state (λ e octets. stream_refusal e number))
            (λ r. result ≡ Err r) }
        ensures memory { IfNone (refusal_with self.old.state buffer.old.state (λ e octets. stream_refusal e number))
            (IfErr result (λ e. e ≡ Refusal.NoMemory)) }
        ensures octets { OnOk result (buffer.new.state ≡ sent_in self.old.state number) }
        ensures ok { OnOk result (self.new.state ≡ with_sent_in self.old.state number []) }
        ensures err { OnErr result (self.new.state ≡ self.old.state) }
        ensures back { OnErr result (buffer.new.state ≡ buffer.old.state) }
    {
        let Some(mut held) = self.take(alloc) else {
            return Err(Refusal::Closed);
        };
        let Some(mut lent) = buffer.take(alloc) else {
            self.put(held);
            return Err(Refusal::BufferMissing);
        };
        let done = fetch_these(&mut held, alloc, number, &mut lent);
        self.put(held);
        buffer.put(lent);
        done
    }
}
