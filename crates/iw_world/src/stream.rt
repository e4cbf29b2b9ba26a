//! Calls on a stream that was opened, with the refusal of each.

ghost use Rattle.std.specs.Prelude.{◌≡◌, true, length, IfOk, IfErr, OnOk};
ghost use Rattle.iw_endpoint.specs.Endpoint.{has_stream, stream_at, after_work};
ghost use Rattle.iw_endpoint.specs.Isolation.{after, answer_or};
ghost use Rattle.iw_endpoint.specs.Isolation as calls;
ghost use Rattle.iw_stream.specs.Starting.{agreement_in};
ghost use Rattle.iw_stream.specs.Work.{work_step};
ghost use Rattle.iw_laws.specs.Bounds.{IsShort};
ghost use Rattle.iw_laws.specs.Rules.{seen_at};
ghost use Rattle.iw_stream.specs.Stream.{post_refusal, recv_refusal, size_refusal, first_refusal, answer_refusal, delivery_of};

use crate::fault::Failure;
use bytes::Bytes;
use iw_endpoint::{CallRefusal, Endpoint};
use iw_octets::Octets;
use iw_stream::{
    Agreed, AnswerRefusal, Delivery, FirstRefusal, PostRefusal, PrivateData, RecvRefusal, Request,
    SizeRefusal, Step,
};
use std::alloc::Allocator;

/// Posts a receive buffer.
pub(crate) fn post_recv<A: Allocator>(
    endpoint: &mut Endpoint<A>,
    number: u32,
    buffer: Vec<u8, A>,
) -> Result<Option<RecvRefusal>, Failure>
    requires { has_stream endpoint.old number ≡ true }
    ensures rule { IfOk result (λ refused. refused ≡ recv_refusal (stream_at endpoint.old number)) }
    ensures state { OnOk result (endpoint.new
        ≡ after endpoint.old (calls.AtStream number (calls.PostRecv buffer.items))) }
    ensures failure { IfErr result (λ failure. failure ≡ Failure.NoMemory) }
{
    match endpoint.post_recv(number, buffer) {
        Ok(()) => Ok(None),
        Err((CallRefusal::Refused(RecvRefusal::NoMemory), _)) => Err(Failure::NoMemory),
        Err((CallRefusal::Refused(refusal), _)) => Ok(Some(refusal)),
        Err((CallRefusal::NoSuchStream, _)) => unreachable!(),
    }
}

/// Posts a message or a Read.
pub(crate) fn post<A: Allocator>(
    endpoint: &mut Endpoint<A>,
    number: u32,
    request: Request<Bytes<A>>,
) -> Result<Option<PostRefusal>, Failure>
    requires { has_stream endpoint.old number ≡ true }
    ensures rule { IfOk result (λ refused. refused ≡ post_refusal (stream_at endpoint.old number) request) }
    ensures state { OnOk result (endpoint.new ≡ after endpoint.old (calls.AtStream number (calls.Post request))) }
    ensures failure { IfErr result (λ failure. failure ≡ Failure.NoMemory) }
{
    match endpoint.post(number, request) {
        Ok(()) => Ok(None),
        Err((CallRefusal::Refused(refusal), _)) => match refusal {
            PostRefusal::NoMemory => Err(Failure::NoMemory),
            refusal => Ok(Some(refusal)),
        },
        Err((CallRefusal::NoSuchStream, _)) => unreachable!(),
    }
}

/// Sets the sequence number of the peer's first octet.
pub(crate) fn set_first<A: Allocator>(
    endpoint: &mut Endpoint<A>,
    number: u32,
    first: u32,
) -> Option<FirstRefusal>
    requires { has_stream endpoint.old number ≡ true }
    ensures rule { result ≡ first_refusal (stream_at endpoint.old number) }
    ensures state { endpoint.new ≡ after endpoint.old (calls.AtStream number (calls.FirstNumber first)) }
{
    match endpoint.first_number(number, first) {
        Ok(()) => None,
        Err(CallRefusal::Refused(refusal)) => Some(refusal),
        Err(CallRefusal::NoSuchStream) => unreachable!(),
    }
}

/// The sequence number of the peer's first octet.
pub(crate) fn first_of<A: Allocator>(endpoint: &Endpoint<A>, number: u32) -> u32
    requires { has_stream endpoint.now number ≡ true }
    ensures { result ≡ (stream_at endpoint.now number).first }
{
    match endpoint.peer_first(number) {
        Ok(first) => first,
        Err(_) => unreachable!(),
    }
}

/// Delivers octets; the first has this sequence number.
pub(crate) fn deliver<A: Allocator>(
    endpoint: &mut Endpoint<A>,
    number: u32,
    from: u32,
    octets: &[u8],
) -> Result<Delivery, Failure>
    requires { has_stream endpoint.old number ≡ true }
    ensures rule { IfOk result (λ delivery. delivery
        ≡ delivery_of (stream_at endpoint.old number) from (length octets.now)) }
    ensures state { OnOk result (endpoint.new
        ≡ after endpoint.old (calls.AtStream number (calls.Deliver from octets.now))) }
    ensures failure { IfErr result (λ failure. failure ≡ Failure.NoMemory) }
{
    match endpoint.deliver(number, from, octets) {
        Ok(delivery) => Ok(delivery),
        Err(CallRefusal::Refused(_)) => Err(Failure::NoMemory),
        Err(CallRefusal::NoSuchStream) => unreachable!(),
    }
}

/// Sets the maximum ULPDU of what is emitted.
pub(crate) fn set_mulpdu<A: Allocator>(
    endpoint: &mut Endpoint<A>,
    number: u32,
    size: u32,
) -> Option<SizeRefusal>
    requires { has_stream endpoint.old number ≡ true }
    ensures rule { result ≡ size_refusal size }
    ensures state { endpoint.new ≡ after endpoint.old (calls.AtStream number (calls.SetMulpdu size)) }
{
    match endpoint.set_mulpdu(number, size) {
        Ok(()) => None,
        Err(CallRefusal::Refused(refusal)) => Some(refusal),
        Err(CallRefusal::NoSuchStream) => unreachable!(),
    }
}

/// Accepts the pending Request: returns what was agreed, or why not.
pub(crate) fn accept<A: Allocator>(
    endpoint: &mut Endpoint<A>,
    number: u32,
    private: PrivateData,
) -> Result<Agreed, AnswerRefusal>
    requires { has_stream endpoint.old number ≡ true }
    ensures rule { result
        ≡ answer_or (answer_refusal (stream_at endpoint.old number) private.items)
        (agreement_in (stream_at endpoint.old number).start) }
    ensures state { endpoint.new ≡ after endpoint.old (calls.AtStream number (calls.Accept private)) }
{
    match endpoint.accept(number, private) {
        Ok(agreed) => Ok(agreed),
        Err(CallRefusal::Refused(refusal)) => Err(refusal),
        Err(CallRefusal::NoSuchStream) => unreachable!(),
    }
}

/// Rejects the pending Request: returns why not, if it is refused.
pub(crate) fn reject<A: Allocator>(
    endpoint: &mut Endpoint<A>,
    number: u32,
    private: PrivateData,
) -> Option<AnswerRefusal>
    requires { has_stream endpoint.old number ≡ true }
    ensures rule { result ≡ answer_refusal (stream_at endpoint.old number) private.items }
    ensures state { endpoint.new ≡ after endpoint.old (calls.AtStream number (calls.Reject private)) }
{
    match endpoint.reject(number, private) {
        Ok(()) => None,
        Err(CallRefusal::Refused(refusal)) => Some(refusal),
        Err(CallRefusal::NoSuchStream) => unreachable!(),
    }
}

/// Does one step.
pub(crate) fn work<A: Allocator>(
    endpoint: &mut Endpoint<A>,
    number: u32,
) -> Result<Step<Octets<A>>, Failure>
    requires there { has_stream endpoint.old number ≡ true }
    requires short { IsShort (stream_at endpoint.old number) }
    ensures step { IfOk result (λ step. step ≡ work_step endpoint.old.table (seen_at endpoint.old number)) }
    ensures state { OnOk result (endpoint.new ≡ after_work endpoint.old number) }
    ensures failure { IfErr result (λ failure. failure ≡ Failure.NoMemory) }
{
    match endpoint.work(number) {
        Ok(step) => Ok(step),
        Err(CallRefusal::Refused(_)) => Err(Failure::NoMemory),
        Err(CallRefusal::NoSuchStream) => unreachable!(),
    }
}

/// Reports that the stream's link broke.
pub(crate) fn break_link<A: Allocator>(endpoint: &mut Endpoint<A>, number: u32)
    requires { has_stream endpoint.old number ≡ true }
    ensures { endpoint.new ≡ after endpoint.old (calls.AtStream number calls.BreakLink) }
{
    match endpoint.break_link(number) {
        Ok(()) => {}
        Err(_) => unreachable!(),
    }
}
