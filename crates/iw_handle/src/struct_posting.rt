//! Posting a message that a struct describes.
ghost use Rattle.std.specs.Prelude.{◌≡◌, ◌⊎◌, None, Some, [], IfSome, IfErr, IsErr, OnOk, OnErr};
ghost use Rattle.std.specs.Result.{result_err};
ghost use Rattle.iw_handle.specs.Sending.{held_posted_from, posted_from, HasKept, HasKeptIn};
ghost use Rattle.iw_handle.specs.Structs.{kind_refusal, flags_refusal, posting_refusal, read_refusal, posting_from_refusal};
ghost use Rattle.iw_handle.specs.Structs.{read_in, request_of, refusal_to_post_as, refusal_to_post_from};
ghost use Rattle.iw_handle.specs.State.{refusal_in, refusal_with};
ghost use Rattle.iw_handle.specs.Streams.{refusal_to_post, held_posted, posted};

use crate::handle::Handle;
use crate::open_handle::Held;
use crate::posting::{post, post_send, post_write};
use crate::refusal::Refusal;
use crate::sending::{send_these, write_these};
use crate::structs::{POSTING_SIZE, Posting, check_size};
use crate::words::{read_request, stag_of};
use iw_buffer::{Buffer, Contents};
use iw_codes::numbers;
use iw_endpoint::Request;
use std::alloc::Global;

fn check_kind(kind: u32) -> Result<(), Refusal>
    ensures { result_err result ≡ kind_refusal kind }
{
    match kind {
        numbers::MESSAGE_WRITE | numbers::MESSAGE_SEND | numbers::MESSAGE_READ => Ok(()),
        _ => Err(Refusal::BadStruct),
    }
}

fn check_flags(kind: u32, flags: u64) -> Result<(), Refusal>
    ensures { result_err result ≡ flags_refusal kind flags }
{
    let bound = if kind == numbers::MESSAGE_SEND { 4 } else { 1 };
    if flags < bound {
        Ok(())
    } else {
        Err(Refusal::BadBits)
    }
}

fn check_posting(posting: &Posting) -> Result<(), Refusal>
    ensures { result_err result ≡ posting_refusal posting.now }
{
    check_size(POSTING_SIZE, posting.size)?;
    check_kind(posting.kind)?;
    check_flags(posting.kind, posting.flags)
}

// A Read has no octets, which a buffer would have.
fn check_no_read(kind: u32) -> Result<(), Refusal>
    ensures { result_err result ≡ read_refusal kind }
{
    if kind == numbers::MESSAGE_READ {
        Err(Refusal::BadStruct)
    } else {
        Ok(())
    }
}

pub(crate) fn check_posting_from(posting: &Posting) -> Result<(), Refusal>
    ensures { result_err result ≡ posting_from_refusal posting.now }
{
    check_posting(posting)?;
    check_no_read(posting.kind)
}

// Posts the Read that a struct describes.
fn post_read(held: &mut Held, number: u32, posting: &Posting) -> Result<(), Refusal>
    ensures refused { IfSome (refusal_to_post held.old.endpoint number (read_in posting.now)) (λ _. IsErr result) }
    ensures why { IfErr result (λ e. (e ≡ Refusal.NoMemory) ⊎
        (refusal_to_post held.old.endpoint number (read_in posting.now) ≡ Some e)) }
    ensures ok { OnOk result (held.new ≡ held_posted held.old number (read_in posting.now) posting.now.token) }
    ensures err { OnErr result (held.new ≡ held.old) }
{
    let Posting {
        stag,
        sink,
        len,
        to,
        sink_to,
        token,
        ..
    } = *posting;
    let request = read_request(sink, sink_to, len, stag, to);
    post(held, number, Request::Read(request), token)
}

// Posts a message, a Send or a Write with a copy of the octets.
fn post_as(
    held: &mut Held,
    alloc: Global,
    number: u32,
    posting: &Posting,
    octets: &[u8],
) -> Result<(), Refusal>
    ensures refused { IfSome (refusal_to_post_as held.old.endpoint number posting.now octets.now) (λ _. IsErr result) }
    ensures why { IfErr result (λ e. (e ≡ Refusal.NoMemory) ⊎
        (refusal_to_post_as held.old.endpoint number posting.now octets.now ≡ Some e)) }
    ensures bad { IfSome (posting_refusal posting.now) (λ r. result ≡ Err r) }
    ensures ok { OnOk result
        (held.new ≡ held_posted held.old number (request_of posting.now octets.now) posting.now.token) }
    ensures err { OnErr result (held.new ≡ held.old) }
{
    check_posting(posting)?;
    let Posting {
        kind,
        stag,
        flags,
        to,
        token,
        ..
    } = *posting;
    match kind {
        numbers::MESSAGE_WRITE => {
            post_write(held, alloc, number, stag_of(stag), to, octets, token)
        }
        numbers::MESSAGE_SEND => {
            post_send(held, alloc, number, octets, flags as u32, stag, token)
        }
        _ => post_read(held, number, posting),
    }
}

// Posts a Send or a Write of the octets themselves: none are left where they were.
fn post_from(
    held: &mut Held,
    alloc: Global,
    number: u32,
    posting: &Posting,
    octets: &mut Contents,
) -> Result<(), Refusal>
    ensures refused { IfSome (refusal_to_post_from held.old.endpoint number posting.now octets.old.octets)
        (λ _. IsErr result) }
    ensures why { IfErr result (λ e. (e ≡ Refusal.NoMemory) ⊎
        (refusal_to_post_from held.old.endpoint number posting.now octets.old.octets ≡ Some e)) }
    ensures bad { IfSome (posting_from_refusal posting.now) (λ r. result ≡ Err r) }
    ensures ok { OnOk result (held.new ≡ held_posted_from held.old number
        (request_of posting.now octets.old.octets) posting.now.token octets.old.octets) }
    ensures taken { OnOk result (octets.new.octets ≡ []) }
    ensures err { IfErr result
        (λ e. HasKept (e ≡ Refusal.NoMemory) held.old number octets.old.octets held.new octets.new.octets) }
{
    check_posting_from(posting)?;
    let Posting {
        kind,
        stag,
        flags,
        to,
        token,
        ..
    } = *posting;
    match kind {
        numbers::MESSAGE_WRITE => {
            write_these(held, alloc, number, stag_of(stag), to, octets, token)
        }
        _ => send_these(held, alloc, number, octets, flags as u32, stag, token),
    }
}

impl Handle {
    /// Posts the message that a struct describes: a Send or a Write of a copy of the octets, or a Read, which has none. An `Err`
    /// changes nothing. `BadStruct` means that the struct is shorter than that of the first version, or has another kind,
    /// `BadBits` that it has a flag without meaning. `NoMemory` may come in place of a refusal of the stream's, since a copy
    /// is made first.
    pub fn post(
        &mut self,
        alloc: Global,
        number: u32,
        posting: &Posting,
        octets: &[u8],
    ) -> Result<(), Refusal>
        ensures refused { IfSome
            (refusal_in self.old.state (λ e. refusal_to_post_as e number posting.now octets.now)) (λ _. IsErr result) }
        ensures why { IfErr result (λ e. (e ≡ Refusal.NoMemory) ⊎
            (refusal_in self.old.state (λ e. refusal_to_post_as e number posting.now octets.now) ≡ Some e)) }
        ensures bad { IfSome (refusal_in self.old.state (λ e. posting_refusal posting.now)) (λ r. result ≡ Err r) }
        ensures ok { OnOk result
            (self.new.state ≡ posted self.old.state number (request_of posting.now octets.now) posting.now.token) }
        ensures err { OnErr result (self.new.state ≡ self.old.state) }
    {
        let Some(mut held) = self.take(alloc) else {
            return Err(Refusal::Closed);
        };
        let done = post_as(&mut held, alloc, number, posting, octets);
        self.put(held);
        done
    }

    /// Posts the Send or Write that a struct describes, of a buffer's octets themselves, and takes them and gives them back as
    /// [`Handle::post_send_buffer`] does. `BadStruct` also means that it describes a Read, which has no octets.
    pub fn post_buffer(
        &mut self,
        alloc: Global,
        number: u32,
        posting: &Posting,
        buffer: &mut Buffer,
    ) -> Result<(), Refusal>
        ensures refused { IfSome (refusal_with self.old.state buffer.old.state
            (λ e octets. refusal_to_post_from e number posting.now octets)) (λ _. IsErr result) }
        ensures why { IfErr result (λ e. (e ≡ Refusal.NoMemory) ⊎ (refusal_with self.old.state buffer.old.state
            (λ e octets. refusal_to_post_from e number posting.now octets) ≡ Some e)) }
        ensures bad { IfSome (refusal_with self.old.state buffer.old.state (λ e octets. posting_from_refusal posting.now))
            (λ r. result ≡ Err r) }
        ensures ok { OnOk result (IfSome buffer.old.state (λ octets. self.new.state ≡
            posted_from self.old.state number (request_of posting.now octets) posting.now.token octets)) }
        ensures taken { OnOk result (buffer.new.state ≡ Some []) }
        ensures err { IfErr result (λ e. HasKeptIn (e ≡ Refusal.NoMemory)
            self.old.state number buffer.old.state self.new.state buffer.new.state) }
    {
        let Some(mut held) = self.take(alloc) else {
            return Err(Refusal::Closed);
        };
        let Some(mut lent) = buffer.take(alloc) else {
            self.put(held);
            return Err(Refusal::BufferMissing);
        };
        let done = post_from(&mut held, alloc, number, posting, &mut lent);
        self.put(held);
        buffer.put(lent);
        done
    }
}
